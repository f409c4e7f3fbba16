//! Attributes as C gives them.

ghost use Rattle.std.specs.Prelude.{◌≡◌, IfOk, map};
ghost use Rattle.zugrenja_c.specs.Tags.{outline_of};

use lol_matcher::{AttributeBuffer, AttributeOutline, Range};
use std::alloc::{AllocError, Global};

/// Where an attribute stands in a text: its name, and its value if it has one.
#[repr(C)]
#[derive(Clone, Copy)]
pub struct AttributePlace {
    pub name_start: usize,
    pub name_end: usize,
    pub value_start: usize,
    pub value_end: usize,
    /// 0 if it has no value.
    pub has_value: u32,
}

impl AttributePlace {
    fn outline(&self) -> AttributeOutline
        ensures { result ≡ outline_of self.now }
    {
        let name = Range {
            start: self.name_start,
            end: self.name_end,
        };
        let value = if self.has_value == 0 {
            None
        } else {
            Some(Range {
                start: self.value_start,
                end: self.value_end,
            })
        };
        AttributeOutline {
            name,
            value,
            raw_range: name,
        }
    }
}

/// The outlines of attributes.
pub(crate) fn outlines_of(
    alloc: Global,
    places: &[AttributePlace],
) -> Result<AttributeBuffer, AllocError>
    ensures { IfOk result (λ outlines. outlines.items ≡ map outline_of places.now) }
{
    let mut outlines = Vec::new(alloc);
    for place in places {
        outlines.push(place.outline())?;
    }
    Ok(outlines)
}
