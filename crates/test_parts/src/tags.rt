//! Tags of HTML and their attributes: rows from another tokenizer's tests, and each call once at a great size.

mod great_sizes;
mod tokens;
mod written;
