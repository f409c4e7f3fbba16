//! What is known of a start tag beside its name.

ghost use Rattle.std.specs.Prelude.{◌↔◌, IsTrue};

use crate::bytes::{Bytes, Range};

/// Where an attribute stands in the input: its name, its value if one is written, and the whole of it.
#[derive(Debug, Clone, Copy, PartialEq, Eq)]
pub struct AttributeOutline {
    pub name: Range,
    pub value: Option<Range>,
    pub raw_range: Range,
}

/// The attributes of a tag, in the order of the input.
pub type AttributeBuffer = Vec<AttributeOutline>;

/// What is known of a start tag beside its name and its namespace.
#[derive(Clone, Copy)]
pub struct AuxStartTagInfo<'i> {
    pub input: Bytes<'i>,
    pub attr_buffer: &'i AttributeBuffer,
    pub self_closing: bool,
}

impl AttributeOutline {
    ghost use Rattle.lol_base.specs.StartTags.{OutlineIsInside};

    // Whether its name and its value lie inside these bytes.
    fn is_inside(&self, bytes: &[u8]) -> bool
        ensures { IsTrue result ↔ OutlineIsInside bytes.now self.now }
    {
        self.name.is_inside(bytes) && self.value.is_none_or(|value| value.is_inside(bytes))
    }
}

impl AuxStartTagInfo<'_> {
    ghost use Rattle.lol_base.specs.StartTags.{RangesAreInside};

    /// Whether the name and the value of each attribute lie inside the input. It takes one step for each attribute.
    pub fn ranges_inside(&self) -> bool
        ensures { IsTrue result ↔ RangesAreInside self.now }
    {
        let bytes = self.input.as_slice();
        self.attr_buffer
            .iter()
            .all(|outline| outline.is_inside(bytes))
    }
}
