//! The attributes of a tag, with their values decoded.

ghost use Rattle.std.specs.Prelude.{◌≡◌, ◌++◌, ◌∷◌, [], map, All, OnOk, OnErr};
ghost use Rattle.lol_base.specs.StartTags.{OutlineIsInside};
ghost use Rattle.lol_references.specs.Attributes.{decoded_attribute};

use crate::decode::append_decoded;
use lol_base::{AttributeOutline, Attributes};
use std::alloc::{AllocError, Global};

/// Reads the attributes of a tag by their outlines in its bytes, with their values decoded, in place of those that were read before.
///
/// # Errors
/// Out of memory. Then there are none.
pub fn read_decoded(
    alloc: Global,
    tag: &[u8],
    outlines: &[AttributeOutline],
    attributes: &mut Attributes,
) -> Result<(), AllocError>
    requires { All (OutlineIsInside tag.now) outlines.now }
    ensures decoded { OnOk result (attributes.new ≡ map (decoded_attribute tag.now) outlines.now) }
    ensures refused { OnErr result (attributes.new ≡ []) }
{
    attributes.clear();
    let mut value = Vec::new(alloc);
    let read = push_all(tag, outlines, &mut value, attributes);
    if read.is_err() {
        attributes.clear();
    }
    read
}

fn push_all(
    tag: &[u8],
    outlines: &[AttributeOutline],
    value: &mut Vec<u8>,
    attributes: &mut Attributes,
) -> Result<(), AllocError>
    requires { All (OutlineIsInside tag.now) outlines.now }
    ensures { OnOk result (attributes.new ≡ attributes.old ++ map (decoded_attribute tag.now) outlines.now) }
{
    for outline in outlines {
        push_decoded(tag, outline, value, attributes)?;
    }
    Ok(())
}

// Adds an attribute. `value` serves to decode.
fn push_decoded(
    tag: &[u8],
    outline: &AttributeOutline,
    value: &mut Vec<u8>,
    attributes: &mut Attributes,
) -> Result<(), AllocError>
    requires { OutlineIsInside tag.now outline.now }
    ensures { OnOk result (attributes.new ≡ attributes.old ++ decoded_attribute tag.now outline.now ∷ []) }
{
    let name = &tag[outline.name.start..outline.name.end];
    match outline.value {
        Some(range) => {
            value.clear();
            append_decoded(&tag[range.start..range.end], value)?;
            attributes.push(name, Some(value))
        }
        None => attributes.push(name, None),
    }
}
