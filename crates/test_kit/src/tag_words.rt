//! Tags as words.

use crate::attributes::written_attributes;
use lol_base::{Attributes, Namespace};
use std::alloc::{AllocError, Global};

/// A tag. As a word it is its name, after `/` for an end tag, and after `svg:` or `math:` in another namespace. `@name` or `@name=value`
/// after it is an attribute. At the end `/` says that it closes itself, and `!` that its attributes aren't handed over.
#[derive(Clone, Copy)]
pub struct TagWord<'t> {
    pub ends: bool,
    pub name: &'t str,
    pub ns: Namespace,
    pub attribute: Option<(&'t str, Option<&'t str>)>,
    pub self_closing: bool,
    pub finish: bool,
}

impl<'t> TagWord<'t> {
    fn end(name: &'t str) -> Self {
        TagWord {
            ends: true,
            name,
            ns: Namespace::Html,
            attribute: None,
            self_closing: false,
            finish: true,
        }
    }

    /// The tag of a word.
    pub fn of(word: &'t str) -> Self {
        if let Some(name) = word.strip_prefix("/") {
            return TagWord::end(name);
        }
        let asked = word.strip_suffix("!");
        let tag = asked.unwrap_or(word);
        let closed = tag.strip_suffix("/");
        let tag = closed.unwrap_or(tag);
        let (name, attribute) = match tag.split_once("@") {
            Some((name, attribute)) => (name, Some(attribute_of(attribute))),
            None => (tag, None),
        };
        let (ns, name) = namespace_of(name);
        TagWord {
            ends: false,
            name,
            ns,
            attribute,
            self_closing: closed.is_some(),
            finish: asked.is_none(),
        }
    }

    /// Its attributes: one or none.
    ///
    /// # Errors
    /// `AllocError`, out of memory.
    pub fn attributes(&self, alloc: Global) -> Result<Attributes, AllocError> {
        match self.attribute {
            Some(attribute) => written_attributes(alloc, &[attribute]),
            None => written_attributes(alloc, &[]),
        }
    }
}

fn attribute_of(text: &str) -> (&str, Option<&str>) {
    match text.split_once("=") {
        Some((name, value)) => (name, Some(value)),
        None => (text, None),
    }
}

fn namespace_of(name: &str) -> (Namespace, &str) {
    if let Some(name) = name.strip_prefix("svg:") {
        return (Namespace::Svg, name);
    }
    match name.strip_prefix("math:") {
        Some(name) => (Namespace::MathML, name),
        None => (Namespace::Html, name),
    }
}

/// The attributes of each tag.
///
/// # Errors
/// `AllocError`, out of memory.
pub fn attributes_of(alloc: Global, tags: &[TagWord<'_>]) -> Result<Vec<Attributes>, AllocError> {
    let mut attributes = Vec::new(alloc);
    for tag in tags {
        attributes.push(tag.attributes(alloc)?)?;
    }
    Ok(attributes)
}

/// The tags of a text, separated by spaces.
///
/// # Errors
/// `AllocError`, out of memory.
pub fn words_of(alloc: Global, text: &str) -> Result<Vec<TagWord<'_>>, AllocError> {
    text.split_whitespace()
        .map(|word| TagWord::of(word))
        .collect(alloc)
}
