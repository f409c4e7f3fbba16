//! Rows: the instructions of a program by the hashes of their keys.

ghost use Rattle.std.specs.Prelude.{List, ◌≡◌, ◌++◌, ◌+◌, ◌≤◌, IfOk, IsOk, OnOk, length, flat_map};
ghost use Rattle.std.specs.Bool.{OnTrue, OnFalse};
ghost use Rattle.std.specs.Vec.{vec_capacity};
ghost use Rattle.lol_instructions.specs.declared.instruction.Instruction.{Instruction};
ghost use Rattle.lol_rows.specs.declared.row_kind.RowKind.TheVariants.{Pairs};
ghost use Rattle.lol_rows.specs.KeyHashes.{name_hashes};
ghost use Rattle.lol_rows.specs.Rows.{AreItsHashes, AreRowsOf, HasPassing, HoldEach, NonePasses, is_left_by_keys, is_left_open, parted_of, leaves, passes_at, passing, some_pass};
ghost use Rattle.lol_rows.specs.TagHashes.{AreAmong, tag_hashes};

use crate::key_hashes::{after_name, pair_hash};
use crate::key_rows::{KeyRows, is_short};
use crate::row_kind::RowKind;
use crate::sorted_hashes::SortedHashes;
use crate::tag_hashes::{add_pair_hashes, add_part_hashes, drop_repeated};
use crate::tag_keys::TagKeys;
use lol_base::LocalName;
use lol_instructions::{AddressRange, AttributeMatcher, Instruction, KeyBytes};
use std::alloc::{AllocError, Global};

/// The addresses of instructions by the hashes of their keys. They take 16 bytes for each instruction, and 4 for each attribute of which some
/// have a part.
#[derive(Debug, Drop)]
pub struct Rows {
    // By name, and by whether it is known that attributes are needed.
    names: KeyRows,
    // By name, and by id, class, part or attribute.
    pairs: KeyRows,
    // The hashes of a name and of an attribute of which some instruction has a part.
    parted: SortedHashes,
}

impl Rows {
    /// The rows of some instructions. For `n` of them it takes `n log n` steps.
    ///
    /// # Errors
    /// Out of memory, also where there are more instructions than a `u32` can number.
    pub fn of(alloc: Global, instructions: &[Instruction]) -> Result<Self, AllocError>
        ensures { IfOk result (AreRowsOf instructions.now) }
    {
        let parted = SortedHashes::of(parted_hashes(alloc, instructions)?);
        Ok(Rows {
            names: KeyRows::of(alloc, RowKind::Names, instructions)?,
            pairs: KeyRows::of(alloc, RowKind::Pairs, instructions)?,
            parted,
        })
    }

    /// Whether a range of these instructions has one that tests no other name and is known to need attributes. `hashes` are the
    /// `name_hashes` of the name. For `n` instructions it takes a logarithm of `n`, and a step for each other one that has a hash of those;
    /// where the range is short, a step for each of it. It takes no memory.
    pub fn has_open(
        &self,
        instructions: &[Instruction],
        range: &AddressRange,
        local_name: &LocalName<'_>,
        hashes: &[u32; 4],
    ) -> bool
        ensures { AreRowsOf instructions.now self.now → hashes.now ≡ name_hashes local_name.now.lowercased
            → result ≡ some_pass (is_left_open local_name.now.lowercased) instructions.now range.now }
    {
        if is_short(range) {
            return some_open(instructions, range, local_name);
        }
        self.has_open_hashed(instructions, range, local_name, hashes[1])
            || self.has_open_hashed(instructions, range, local_name, hashes[3])
    }

    /// The same of the nodes with this hash, and perhaps of others.
    fn has_open_hashed(
        &self,
        instructions: &[Instruction],
        range: &AddressRange,
        local_name: &LocalName<'_>,
        hash: u32,
    ) -> bool
        ensures found { OnTrue result (AreRowsOf instructions.now self.now
            → HasPassing (is_left_open local_name.now.lowercased) instructions.now range.now) }
        ensures none { OnFalse result (AreRowsOf instructions.now self.now
            → NonePasses (is_left_open local_name.now.lowercased) instructions.now range.now hash) }
    {
        for entry in self
            .names
            .table
            .entries_within(hash, range.start, range.end)
        {
            if is_left_open(instructions, entry.address as usize, local_name) {
                return true;
            }
        }
        false
    }

    /// Adds the hashes of what a start tag of this name and with these attributes leaves. They are of no name and of its own, each with no
    /// key, with its id, its classes, the names of its attributes, and the parts of their values, if an instruction has such a part. It takes a step for each byte of these, and sorts the hashes where they are many.
    ///
    /// # Errors
    /// Out of memory.
    pub fn add_hashes(
        &self,
        local_name: &LocalName<'_>,
        matcher: &AttributeMatcher<'_>,
        hashes: &mut Vec<u32>,
    ) -> Result<(), AllocError>
        ensures each { OnOk result ((instructions : List Instruction) → AreRowsOf instructions self.now
            → HoldEach hashes.new.items Pairs (is_left_by_keys local_name.now.lowercased matcher.now) instructions) }
        ensures only { AreAmong hashes.new.items
            (hashes.old.items ++ tag_hashes local_name.now.lowercased matcher.now) }
    {
        add_pair_hashes(local_name, matcher, hashes)?;
        add_part_hashes(&self.parted, local_name, matcher, hashes)?;
        drop_repeated(hashes);
        Ok(())
    }

    /// Adds, ascending, the addresses of a range whose instructions a start tag leaves: that test no other name, and, where its attributes
    /// are given, no id, class or attribute that they lack. `found` is room for what is looked up.
    ///
    /// For each hash it takes a logarithm of the number of instructions and a look at the keys of one of them, or of each whose hash several
    /// keys have. `m` addresses that are added take `m log m` steps. If the range is short, or memory for the hashes or for `found` was
    /// refused, it looks at each of the range.
    ///
    /// # Errors
    /// Out of memory, but not where `left` has room for what is added.
    pub fn add_left(
        &self,
        instructions: &[Instruction],
        range: &AddressRange,
        keys: &TagKeys<'_, '_>,
        found: &mut Vec<u32>,
        left: &mut Vec<u32>,
    ) -> Result<(), AllocError>
        ensures left { OnOk result (AreRowsOf instructions.now self.now → AreItsHashes instructions.now keys.now
            → left.new.items ≡ left.old.items ++ passing (leaves keys.now) instructions.now range.now) }
        ensures no_memory { AreRowsOf instructions.now self.now → AreItsHashes instructions.now keys.now
            → length left.old.items + length (passing (leaves keys.now) instructions.now range.now)
            ≤ vec_capacity left.old → IsOk result }
        ensures capacity { vec_capacity left.old ≤ vec_capacity left.new }
    {
        match keys.attributes {
            None => self.names.add_left(instructions, range, keys, found, left),
            Some(_) => self.pairs.add_left(instructions, range, keys, found, left),
        }
    }
}

/// The hashes of a name and of an attribute whose value has a part.
fn parted_hashes(alloc: Global, instructions: &[Instruction]) -> Result<Vec<u32>, AllocError>
    ensures { IfOk result (λ hashes. hashes.items ≡ flat_map parted_of instructions.now) }
{
    let mut hashes = Vec::new(alloc);
    for instruction in instructions {
        let predicate = &instruction.predicate;
        if let Some(KeyBytes::Part(name, _)) = predicate.attribute_key() {
            let named = after_name(predicate.name_key());
            hashes.push(pair_hash(named, Some(KeyBytes::Attribute(name))))?;
        }
    }
    Ok(hashes)
}

/// Whether a range has an instruction that tests no other name and is known to need attributes, by a look at each.
fn some_open(instructions: &[Instruction], range: &AddressRange, local_name: &LocalName<'_>) -> bool
    ensures { result ≡ some_pass (is_left_open local_name.now.lowercased) instructions.now range.now }
{
    for address in range.start..range.end {
        if is_left_open(instructions, address, local_name) {
            return true;
        }
    }
    false
}

/// Whether the instruction at an address tests no other name, and is known to need attributes.
fn is_left_open(instructions: &[Instruction], address: usize, local_name: &LocalName<'_>) -> bool
    ensures { result ≡ passes_at (is_left_open local_name.now.lowercased) instructions.now address }
{
    match instructions.get(address) {
        Some(instruction) => {
            let predicate = &instruction.predicate;
            !predicate.has_other_name(local_name) && predicate.opens_where_named()
        }
        None => false,
    }
}
