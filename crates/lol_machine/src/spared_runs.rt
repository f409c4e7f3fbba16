//! Sparing instructions by their keys: what of a start tag's ranges is run where the program has rows.

ghost use Rattle.std.specs.Prelude.{ℕ, List, ◌≡◌, ◌++◌, ◌+◌, ◌≤◌, ◌<◌, ◌^◌, [], false, true, length, IfOk, IsOk, OnOk};
ghost use Rattle.std.specs.List.{list_any};
ghost use Rattle.std.specs.Vec.{vec_capacity};
ghost use Rattle.lol_program.specs.ProgramViews.{HasItsRows, has_rows};
ghost use Rattle.lol_program.specs.Programs.{all_addresses};
ghost use Rattle.lol_rows.specs.KeyHashes.{name_hashes as hashes_of};
ghost use Rattle.lol_rows.specs.Rows.{AreItsHashes, AreRowsOf, is_left_by_keys, is_left_by_name, is_left_open, leaves, some_pass};
ghost use Rattle.lol_rows.specs.TagHashes.{AreAmong, tag_hashes};
ghost use Rattle.lol_machine.specs.SparedRuns.{HasRowRoom, HasRoomFor, all_passing, left_at_point, opens_at_once};
ghost use Rattle.lol_machine.specs.TagRuns.{all_ranges, ranges_to_run_in};

use crate::tag_runs::{AllRanges, RecoveryPoint, TagRanges};
use lol_base::LocalName;
use lol_program::{AttributeMatcher, Instruction, Program};
use lol_rows::{Rows, TagKeys, name_hashes};
use lol_stack::Stack;
use std::alloc::{AllocError, Global};

/// Room for what rows find, kept from tag to tag. What is left has room for all instructions.
#[derive(Drop)]
pub struct RowSpace {
    /// The addresses that were found left.
    pub left: Vec<u32>,
    found: Vec<u32>,
    hashes: Vec<u32>,
    /// Where the last run by name stopped, if it wasn't refused.
    pub stopped: Option<RecoveryPoint>,
}

impl RowSpace {
    /// Room for a program. Where that has no rows it takes no memory.
    pub fn new(alloc: Global, program: &Program) -> Result<Self, AllocError>
        ensures room { IfOk result (λ space. HasRowRoom program.now space) }
        ensures size { length program.now.instructions.items < 2 ^ 63 }
    {
        let count = match &program.rows {
            Some(_) => program.instructions.len(),
            None => 0,
        };
        Ok(RowSpace {
            left: Vec::with_capacity(alloc, count)?,
            found: Vec::new(alloc),
            hashes: Vec::new(alloc),
            stopped: None,
        })
    }

    #[inline(always)]
    pub(crate) fn left(&self) -> &[u32]
        ensures { result.now ≡ self.now.left.items }
    {
        &self.left
    }
}

/// Finds what is tried of a start tag's ranges by its name, where the program has rows, and answers whether nothing is, since an
/// instruction that the name leaves is known to need attributes.
#[inline(always)]
pub fn find_by_name<E>(
    program: &Program,
    stack: &Stack<E>,
    name: &LocalName<'_>,
    space: &mut RowSpace,
) -> Result<bool, AllocError>
    ensures asks { IfOk result (λ asks. HasItsRows program.now
        → asks ≡ opens_at_once program.now name.now.lowercased (ranges_to_run_in program.now stack.now)) }
    ensures left { IfOk result (λ asks. asks ≡ false → HasItsRows program.now → has_rows program.now ≡ true
        → space.new.left.items ≡ all_passing (is_left_by_name name.now.lowercased) program.now.instructions.items
        (ranges_to_run_in program.now stack.now)) }
    ensures no_memory { HasItsRows program.now
        → (has_rows program.now ≡ true
        → HasRoomFor space.old (length (all_addresses (ranges_to_run_in program.now stack.now)))) → IsOk result }
    ensures room { vec_capacity space.old.left ≤ vec_capacity space.new.left }
{
    match &program.rows {
        None => Ok(false),
        Some(rows) => {
            let ranges = AllRanges::new(program, stack);
            find_unless_open(rows, &program.instructions, ranges, name, space)
        }
    }
}

/// Finds what a run that stopped at a point goes on in, where the program has rows: what the name leaves, as before, or where nothing
/// was run what the name and the attributes leave.
#[inline(always)]
pub fn find_at<E>(
    program: &Program,
    stack: &Stack<E>,
    point: RecoveryPoint,
    name: &LocalName<'_>,
    matcher: &AttributeMatcher<'_>,
    space: &mut RowSpace,
) -> Result<(), AllocError>
    ensures left { OnOk result (HasItsRows program.now → has_rows program.now ≡ true → space.new.left.items
        ≡ all_passing (left_at_point name.now.lowercased matcher.now point) program.now.instructions.items
        (ranges_to_run_in program.now stack.now)) }
    ensures no_memory { HasItsRows program.now
        → (has_rows program.now ≡ true
        → HasRoomFor space.old (length (all_addresses (ranges_to_run_in program.now stack.now)))) → IsOk result }
    ensures room { vec_capacity space.old.left ≤ vec_capacity space.new.left }
{
    match &program.rows {
        None => Ok(()),
        Some(rows) => {
            let ranges = AllRanges::new(program, stack);
            match point {
                RecoveryPoint::AtOnce => {
                    find_left_by_keys(rows, &program.instructions, ranges, name, matcher, space)
                }
                RecoveryPoint::At(_) => {
                    let hashes = name_hashes(name);
                    find_left_by_name(rows, &program.instructions, ranges, name, &hashes, space)
                }
            }
        }
    }
}

/// Whether one of the ranges has an instruction that the name leaves and that is known to need attributes; if not, what the name leaves is
/// found.
#[inline(never)]
fn find_unless_open(
    rows: &Rows,
    instructions: &[Instruction],
    ranges: AllRanges<'_>,
    name: &LocalName<'_>,
    space: &mut RowSpace,
) -> Result<bool, AllocError>
    ensures asks { IfOk result (λ asks. AreRowsOf instructions.now rows.now → asks
        ≡ list_any (some_pass (is_left_open name.now.lowercased) instructions.now) (all_ranges ranges.entry)) }
    ensures left { IfOk result (λ asks. asks ≡ false → AreRowsOf instructions.now rows.now → space.new.left.items
        ≡ all_passing (is_left_by_name name.now.lowercased) instructions.now (all_ranges ranges.entry)) }
    ensures no_memory { AreRowsOf instructions.now rows.now
        → HasRoomFor space.old (length (all_addresses (all_ranges ranges.entry))) → IsOk result }
    ensures room { vec_capacity space.old.left ≤ vec_capacity space.new.left }
{
    let hashes = name_hashes(name);
    if has_open(rows, instructions, ranges, name, &hashes) {
        return Ok(true);
    }
    find_left_by_name(rows, instructions, ranges, name, &hashes, space)?;
    Ok(false)
}

/// Finds the addresses of what the name leaves, which has these hashes.
#[inline(never)]
fn find_left_by_name<'t>(
    rows: &Rows,
    instructions: &[Instruction],
    ranges: AllRanges<'_>,
    name: &'t LocalName<'t>,
    hashes: &[u32; 4],
    space: &mut RowSpace,
) -> Result<(), AllocError>
    ensures left { OnOk result (AreRowsOf instructions.now rows.now → hashes.now ≡ hashes_of name.now.lowercased
        → space.new.left.items
        ≡ all_passing (is_left_by_name name.now.lowercased) instructions.now (all_ranges ranges.entry)) }
    ensures no_memory { AreRowsOf instructions.now rows.now → hashes.now ≡ hashes_of name.now.lowercased
        → HasRoomFor space.old (length (all_addresses (all_ranges ranges.entry))) → IsOk result }
    ensures room { vec_capacity space.old.left ≤ vec_capacity space.new.left }
{
    let keys = TagKeys::new(name, None, Some(hashes));
    space.left.clear();
    add_left(
        rows,
        instructions,
        ranges,
        &keys,
        &mut space.found,
        &mut space.left,
    )
}

/// Finds the addresses of what the name and the attributes leave. Of the hashes there are those of this tag alone, also where memory was
/// refused.
#[inline(never)]
fn find_left_by_keys<'t>(
    rows: &Rows,
    instructions: &[Instruction],
    ranges: AllRanges<'_>,
    name: &'t LocalName<'t>,
    matcher: &'t AttributeMatcher<'t>,
    space: &mut RowSpace,
) -> Result<(), AllocError>
    ensures left { OnOk result (AreRowsOf instructions.now rows.now → space.new.left.items
        ≡ all_passing (is_left_by_keys name.now.lowercased matcher.now) instructions.now (all_ranges ranges.entry)) }
    ensures no_memory { AreRowsOf instructions.now rows.now
        → HasRoomFor space.old (length (all_addresses (all_ranges ranges.entry))) → IsOk result }
    ensures room { vec_capacity space.old.left ≤ vec_capacity space.new.left }
    ensures hashes { AreAmong space.new.hashes.items (tag_hashes name.now.lowercased matcher.now) }
{
    space.hashes.clear();
    let are_hashed = rows.add_hashes(name, matcher, &mut space.hashes).is_ok();
    let hashes = are_hashed.then_some(space.hashes.as_slice());
    let keys = TagKeys::new(name, Some(matcher), hashes);
    space.left.clear();
    add_left(
        rows,
        instructions,
        ranges,
        &keys,
        &mut space.found,
        &mut space.left,
    )
}

/// Whether one of the ranges has an instruction that the name, which has these hashes, leaves and that is known to need attributes.
fn has_open(
    rows: &Rows,
    instructions: &[Instruction],
    ranges: AllRanges<'_>,
    name: &LocalName<'_>,
    hashes: &[u32; 4],
) -> bool
    ensures { AreRowsOf instructions.now rows.now → hashes.now ≡ hashes_of name.now.lowercased → result
        ≡ list_any (some_pass (is_left_open name.now.lowercased) instructions.now) (all_ranges ranges.entry) }
{
    for index in 0..ranges.len() {
        if rows.has_open(instructions, &ranges.range(index), name, hashes) {
            return true;
        }
    }
    false
}

/// Adds the addresses of what a tag leaves.
#[inline(never)]
fn add_left(
    rows: &Rows,
    instructions: &[Instruction],
    ranges: AllRanges<'_>,
    keys: &TagKeys<'_, '_>,
    found: &mut Vec<u32>,
    left: &mut Vec<u32>,
) -> Result<(), AllocError>
    ensures left { OnOk result (AreRowsOf instructions.now rows.now → AreItsHashes instructions.now keys.now
        → left.new.items
        ≡ left.old.items ++ all_passing (leaves keys.now) instructions.now (all_ranges ranges.entry)) }
    ensures no_memory { AreRowsOf instructions.now rows.now → AreItsHashes instructions.now keys.now
        → length left.old.items + length (all_addresses (all_ranges ranges.entry)) ≤ vec_capacity left.old → IsOk result }
    ensures room { vec_capacity left.old ≤ vec_capacity left.new }
{
    for index in 0..ranges.len() {
        rows.add_left(instructions, &ranges.range(index), keys, found, left)?;
    }
    Ok(())
}
