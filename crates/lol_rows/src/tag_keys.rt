//! What a start tag leaves.

ghost use Rattle.std.specs.Prelude.{◌≡◌, ◌++◌, ◌+◌, ◌≤◌, ◌<◌, ◌^◌, IsOk, OnOk, length};
ghost use Rattle.std.specs.Vec.{vec_capacity};
ghost use Rattle.std.specs.Option.{option_copied};
ghost use Rattle.lol_rows.specs.Rows.{leaves_seen, leaves, passes_at, passing};

use lol_base::LocalName;
use lol_instructions::{AddressRange, AttributeMatcher, Instruction};
use std::alloc::AllocError;

/// What rows see of a start tag.
#[derive(Clone, Copy)]
pub struct TagKeys<'t, 'h> {
    pub(crate) name: &'t LocalName<'t>,
    pub(crate) attributes: Option<&'t AttributeMatcher<'t>>,
    pub(crate) hashes: Option<&'h [u32]>,
}

impl<'t, 'h> TagKeys<'t, 'h> {
    /// Its name, its attributes where they are given, and the hashes of its keys, unless memory for these was refused: the `name_hashes` of
    /// the name, or where the attributes are given what `Rows::add_hashes` adds.
    pub fn new(
        name: &'t LocalName<'t>,
        attributes: Option<&'t AttributeMatcher<'t>>,
        hashes: Option<&'h [u32]>,
    ) -> Self
        ensures name { result.name.now ≡ name.now }
        ensures attributes { option_copied result.attributes ≡ option_copied attributes.entry }
        ensures hashes { option_copied result.hashes ≡ option_copied hashes.entry }
    {
        TagKeys {
            name,
            attributes,
            hashes,
        }
    }

    /// Whether there is an instruction at an address, and the tag leaves it.
    #[inline(always)]
    pub(crate) fn leave(&self, instructions: &[Instruction], address: usize) -> bool
        ensures { result ≡ passes_at (leaves self.now) instructions.now address }
    {
        match instructions.get(address) {
            Some(instruction) => is_left(instruction, self.name, self.attributes),
            None => false,
        }
    }

    /// Adds the addresses of a range whose instructions the tag leaves, by a look at each.
    pub(crate) fn add_left(
        &self,
        instructions: &[Instruction],
        range: &AddressRange,
        left: &mut Vec<u32>,
    ) -> Result<(), AllocError>
        ensures left { OnOk result (length instructions.now < 2 ^ 32
            → left.new.items ≡ left.old.items ++ passing (leaves self.now) instructions.now range.now) }
        ensures no_memory { length instructions.now < 2 ^ 32
            → length left.old.items + length (passing (leaves self.now) instructions.now range.now)
            ≤ vec_capacity left.old → IsOk result }
        ensures capacity { vec_capacity left.old ≤ vec_capacity left.new }
    {
        for address in range.start..range.end {
            if self.leave(instructions, address) {
                let Ok(address) = u32::try_from(address) else {
                    return Err(AllocError);
                };
                left.push(address)?;
            }
        }
        Ok(())
    }
}

/// Whether an instruction tests no other name, and, where attributes are given, no id, class or attribute that they lack.
#[inline(always)]
pub fn is_left(
    instruction: &Instruction,
    local_name: &LocalName<'_>,
    attributes: Option<&AttributeMatcher<'_>>,
) -> bool
    ensures { result ≡ leaves_seen local_name.now.lowercased (option_copied attributes.entry) instruction.now }
{
    !instruction.predicate.has_other_name(local_name)
        && attributes.is_none_or(|matcher| !instruction.predicate.lacks_key(matcher))
}
