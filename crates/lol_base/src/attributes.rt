//! Attributes that are built from names and values.

ghost use Rattle.std.specs.Prelude.{◌≡◌, ◌++◌, ◌∷◌, [], length, IfOk, OnOk, OnErr};
ghost use Rattle.std.specs.Prelude.{option_copied};
ghost use Rattle.lol_base.specs.StartTags.{OutlineIsInside, attribute_of};
ghost use Rattle.lol_base.specs.BuiltAttributes.{Extends};

use crate::bytes::{Bytes, Range};
use crate::start_tag::{AttributeBuffer, AttributeOutline, AuxStartTagInfo};
use std::alloc::{AllocError, Global};
use std::marker::Model;

/// The attributes of a tag, for a caller that has them as names and values. It owns their bytes, and each of them lies inside. (Not in
/// lol_html, whose parser knows where they stand in its input.)
#[derive(Debug, Drop)]
pub struct Attributes {
    input: Vec<u8>,
    outlines: AttributeBuffer,
}

impl Model for Attributes {
    ghost use Rattle.std.specs.Prelude.{List, map, All};
    ghost use Rattle.std.specs.Coded.{coded_list};
    ghost use Rattle.lol_base.specs.StartTags.{Attribute, attribute_of, OutlineIsInside};
    ghost use Rattle.lol_base.specs.BuiltAttributes.{attribute_code};

    ghost Value = { List Attribute };

    ghost coded = { coded_list attribute_code };

    ghost view = { λ a. map (attribute_of a.input.items) a.outlines.items };

    ghost invariant = { λ a. All (OutlineIsInside a.input.items) a.outlines.items };
}

impl Attributes {
    ghost use Rattle.lol_base.specs.StartTags.{attributes_of, RangesAreInside};

    /// No attributes. It takes no memory.
    pub fn new(alloc: Global) -> Self
        ensures { result ≡ [] }
    {
        Attributes {
            input: Vec::new(alloc),
            outlines: Vec::new(alloc),
        }
    }

    /// Adds an attribute after the others: its name, and its value where one is written.
    ///
    /// # Errors
    /// `AllocError`, out of memory: then the attributes are as before.
    pub fn push(&mut self, name: &[u8], value: Option<&[u8]>) -> Result<(), AllocError>
        ensures ok { OnOk result
            (self.new ≡ self.old ++ (record { name = name.now; value = option_copied value.entry }) ∷ []) }
        ensures err { OnErr result (self.new ≡ self.old) }
    {
        push_outline(&mut self.input, &mut self.outlines, name, value)
    }

    /// Takes all attributes out. Its memory stays for those to come.
    pub fn clear(&mut self)
        ensures { self.new ≡ [] }
    {
        self.outlines.clear();
        self.input.clear();
    }

    /// These attributes as the machine takes them, and whether their tag closes itself. What it lends meets `ranges_inside`.
    pub fn aux_info(&self, self_closing: bool) -> AuxStartTagInfo<'_>
        ensures attributes { attributes_of result ≡ self.now }
        ensures self_closing { result.self_closing ≡ self_closing }
        ensures inside { RangesAreInside result }
    {
        AuxStartTagInfo {
            input: Bytes::new(&self.input),
            attr_buffer: &self.outlines,
            self_closing,
        }
    }
}

fn push_outline(
    input: &mut Vec<u8>,
    outlines: &mut AttributeBuffer,
    name: &[u8],
    value: Option<&[u8]>,
) -> Result<(), AllocError>
    ensures extends { Extends input.old.items input.new.items }
    ensures ok { OnOk result
        ((outline : AttributeOutline)
        × (outlines.new.items ≡ outlines.old.items ++ outline ∷ [])
        × OutlineIsInside input.new.items outline
        × (attribute_of input.new.items outline ≡ record { name = name.now; value = option_copied value.entry })) }
    ensures err { OnErr result (outlines.new.items ≡ outlines.old.items) }
{
    let start = input.len();
    let name = append(input, name)?;
    let value = match value {
        Some(value) => Some(append(input, value)?),
        None => None,
    };
    let raw_range = Range {
        start,
        end: input.len(),
    };
    outlines.push(AttributeOutline {
        name,
        value,
        raw_range,
    })?;
    Ok(())
}

/// Writes bytes after the others: where they stand then.
fn append(input: &mut Vec<u8>, bytes: &[u8]) -> Result<Range, AllocError>
    ensures extends { Extends input.old.items input.new.items }
    ensures ok { IfOk result (λ range.
        (input.new.items ≡ input.old.items ++ bytes.now)
        × (range ≡ record { start = length input.old.items; end = length input.new.items })) }
{
    let start = input.len();
    input.extend_from_slice(bytes)?;
    let end = input.len();
    Ok(Range { start, end })
}
