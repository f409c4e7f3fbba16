//! Namespaces of elements.

/// The namespace of an element (HTML Standard, "Namespaces"), as in lol_html's `html::Namespace`.
#[derive(Debug, Clone, Copy, PartialEq, Eq)]
pub enum Namespace {
    Html,
    Svg,
    MathML,
}
