//! Attributes of a tag.

use lol_base::Attributes;
use std::alloc::{AllocError, Global};

/// Attributes as they are written: their names and values.
pub type WrittenAttributes<'t> = &'t [(&'t str, Option<&'t str>)];

/// Attributes with these names and values, in this order.
///
/// # Errors
/// `AllocError`, out of memory.
pub fn written_attributes(
    alloc: Global,
    written: WrittenAttributes<'_>,
) -> Result<Attributes, AllocError> {
    let mut attributes = Attributes::new(alloc);
    for (name, value) in written {
        attributes.push(name.as_bytes(), value.map(|value| value.as_bytes()))?;
    }
    Ok(attributes)
}
