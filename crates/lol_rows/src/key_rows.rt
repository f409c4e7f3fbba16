//! Instructions by the hashes of their keys.

ghost use Rattle.std.specs.Prelude.{◌≡◌, ◌++◌, ◌+◌, ◌≤◌, ℕ, IfOk, IsOk, OnOk, Some, map, length};
ghost use Rattle.std.specs.Bool.{OnTrue};
ghost use Rattle.std.specs.Vec.{vec_capacity};
ghost use Rattle.std.specs.Option.{option_copied};
ghost use Rattle.lol_rows.specs.declared.row_kind.RowKind.{RowKind};
ghost use Rattle.lol_rows.specs.Rows.{leaves, passing, AreAlikeAt, AreRowsBy};
ghost use Rattle.lol_rows.specs.KeyRows.{CanFind, AreBesideAlike, AreOfOneHash, address_of, left_of_row};

use crate::key_table::{Entry, KeyTable};
use crate::row_kind::RowKind;
use crate::sorted_hashes::SortedHashes;
use crate::tag_keys::TagKeys;
use lol_instructions::{AddressRange, Instruction};
use std::alloc::{AllocError, Global};

/// The addresses of instructions by the hashes of their keys. They take 8 bytes for each instruction.
#[derive(Debug, Drop)]
pub(crate) struct KeyRows {
    pub(crate) table: KeyTable,
    // The hashes that several keys have.
    shared: SortedHashes,
}

impl KeyRows {
    pub(crate) fn of(
        alloc: Global,
        kind: RowKind,
        instructions: &[Instruction],
    ) -> Result<Self, AllocError>
        ensures { IfOk result (AreRowsBy kind instructions.now) }
    {
        let mut hashes = Vec::with_capacity(alloc, instructions.len())?;
        for instruction in instructions {
            hashes.push_reserved(kind.hash(instruction));
        }
        let table = KeyTable::of(alloc, hashes)?;
        let shared = shared_hashes(alloc, kind, instructions, &table.entries)?;
        Ok(KeyRows {
            table,
            shared: SortedHashes::of(shared),
        })
    }

    /// Adds, ascending, the addresses of a range whose instructions a tag leaves. Where the range is short, or memory for the hashes or for
    /// what is found is refused, it takes a look at each of the range.
    pub(crate) fn add_left(
        &self,
        instructions: &[Instruction],
        range: &AddressRange,
        keys: &TagKeys<'_, '_>,
        found: &mut Vec<u32>,
        left: &mut Vec<u32>,
    ) -> Result<(), AllocError>
        ensures left { OnOk result ((kind : RowKind) → CanFind kind instructions.now self.now keys.now
            → left.new.items ≡ left.old.items ++ passing (leaves keys.now) instructions.now range.now) }
        ensures no_memory { (kind : RowKind) → CanFind kind instructions.now self.now keys.now
            → length left.old.items + length (passing (leaves keys.now) instructions.now range.now)
            ≤ vec_capacity left.old → IsOk result }
        ensures capacity { vec_capacity left.old ≤ vec_capacity left.new }
    {
        if let Some(hashes) = keys.hashes {
            if !is_short(range)
                && self
                    .find_left(instructions, range, keys, hashes, found)
                    .is_ok()
            {
                return left.extend_from_slice(found);
            }
        }
        keys.add_left(instructions, range, left)
    }

    /// Finds the addresses of a range, ascending, whose instructions a tag leaves. What `found` has before is thrown away.
    fn find_left(
        &self,
        instructions: &[Instruction],
        range: &AddressRange,
        keys: &TagKeys<'_, '_>,
        hashes: &[u32],
        found: &mut Vec<u32>,
    ) -> Result<(), AllocError>
        ensures { OnOk result ((kind : RowKind) → CanFind kind instructions.now self.now keys.now
            → option_copied keys.now.hashes ≡ Some hashes.now
            → found.new.items ≡ passing (leaves keys.now) instructions.now range.now) }
    {
        found.clear();
        for hash in hashes {
            let row = self.table.entries_within(*hash, range.start, range.end);
            self.add_left_of_row(instructions, row, keys, found)?;
        }
        found.sort()?;
        found.dedup();
        Ok(())
    }

    /// Adds the addresses of entries of one hash whose instructions a tag leaves. Unless several keys have the hash, it leaves all or none.
    fn add_left_of_row(
        &self,
        instructions: &[Instruction],
        row: &[Entry],
        keys: &TagKeys<'_, '_>,
        found: &mut Vec<u32>,
    ) -> Result<(), AllocError>
        ensures { OnOk result ((kind : RowKind) → CanFind kind instructions.now self.now keys.now
            → (hash : ℕ) → AreOfOneHash kind instructions.now hash row.now
            → found.new.items ≡ found.old.items ++ left_of_row (leaves keys.now) instructions.now row.now) }
    {
        let Some(first) = row.first() else {
            return Ok(());
        };
        if self.shared.has(first.hash) {
            return add_left_entries(instructions, row, keys, found);
        }
        if keys.leave(instructions, first.address as usize) {
            add_entries(row, found)?;
        }
        Ok(())
    }
}

/// The hashes of entries that stand side by side and whose instructions may have several keys.
fn shared_hashes(
    alloc: Global,
    kind: RowKind,
    instructions: &[Instruction],
    entries: &[Entry],
) -> Result<Vec<u32>, AllocError>
    ensures { IfOk result (λ shared. AreBesideAlike kind instructions.now shared.items entries.now) }
{
    let mut shared = Vec::new(alloc);
    for index in 1..entries.len() {
        let (one, other) = (&entries[index - 1], &entries[index]);
        if one.hash == other.hash && !are_alike_at(kind, instructions, one.address, other.address) {
            shared.push(one.hash)?;
        }
    }
    Ok(shared)
}

fn are_alike_at(kind: RowKind, instructions: &[Instruction], one: u32, other: u32) -> bool
    ensures { OnTrue result (AreAlikeAt kind instructions.now one other) }
{
    match (
        instructions.get(one as usize),
        instructions.get(other as usize),
    ) {
        (Some(one), Some(other)) => kind.are_alike(one, other),
        _ => false,
    }
}

fn add_left_entries(
    instructions: &[Instruction],
    row: &[Entry],
    keys: &TagKeys<'_, '_>,
    found: &mut Vec<u32>,
) -> Result<(), AllocError>
    ensures { OnOk result (found.new.items
        ≡ found.old.items ++ left_of_row (leaves keys.now) instructions.now row.now) }
{
    for entry in row {
        if keys.leave(instructions, entry.address as usize) {
            found.push(entry.address)?;
        }
    }
    Ok(())
}

fn add_entries(row: &[Entry], found: &mut Vec<u32>) -> Result<(), AllocError>
    ensures { OnOk result (found.new.items ≡ found.old.items ++ map address_of row.now) }
{
    for entry in row {
        found.push(entry.address)?;
    }
    Ok(())
}

// To look addresses up takes about as long as to run through so many.
const FEWEST_LOOKED_UP: usize = 48;

pub(crate) fn is_short(range: &AddressRange) -> bool {
    range.end.saturating_sub(range.start) < FEWEST_LOOKED_UP
}
