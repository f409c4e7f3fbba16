//! Values by name, in blocks of ascending names.

ghost use Rattle.std.specs.Prelude.{◌≡◌, ℕ, ◌<◌, ◌≤◌, ◌-◌, ◌+◌, [], true, false, length, MatchResult, slice_get, slice_index_or, OnOk, OnErr, IfOk, IfErr, Some, None};
ghost use Rattle.std.specs.Option.{option_copied};
ghost use Rattle.std.specs.declared.cmp.Ordering.TheVariants.{Less};
ghost use Rattle.lol_base.specs.LocalNames.{Name, local_name_cmp};
ghost use Rattle.std.specs.Ordering.{is_lt};
ghost use Rattle.lol_stack.specs.NameBlocks.{begins_above, is_named, value_in_blocks, joined_blocks, block_at, StandsInBlocks, IsMissing, IsPutAt, IsSamePlace};

use lol_base::LocalName;
use std::alloc::{AllocError, Global};
use std::marker::Model;

/// How many names a block has at most. A name that comes moves half a block on average, and a new block half of the list of blocks: with
/// 64 neither is long up to some thousands of names.
const BLOCK_LEN: usize = 64;

/// Values by name. The names stand in ascending order, in blocks of up to `BLOCK_LEN`. A search takes two
/// binary searches, in either case of ASCII; a name that comes or goes moves the names of its block alone, and
/// where the block was full or had no other name, the list of blocks too.
#[derive(Drop)]
pub struct NameBlocks<V> {
    blocks: Vec<Vec<(LocalName<'static>, V)>>,
    alloc: Global,
}

impl<V> Model for NameBlocks<V> {
    ghost use Rattle.std.specs.Prelude.{List, map};
    ghost use Rattle.lol_base.specs.LocalNames.{Name};

    ghost Value = { List (List (Name × V)) };

    ghost use Rattle.lol_stack.specs.NameBlocks.{AreBlocks};

    ghost view = { λ m. map (λ block. block.items) m.blocks.items };

    ghost invariant = { λ m. AreBlocks (map (λ block. block.items) m.blocks.items) };
}

/// Where a name stands in its block, or would.
#[derive(Clone, Copy)]
pub struct BlockPlace {
    block: usize,
    at: usize,
}

impl<V> NameBlocks<V> {
    pub fn new(alloc: Global) -> Self
        ensures { result ≡ [] }
    {
        NameBlocks {
            blocks: Vec::new(alloc),
            alloc,
        }
    }

    /// Where a name stands, or else where it would.
    #[inline(always)]
    pub fn search<'s, 'i: 's>(&'s self, name: &LocalName<'i>) -> Result<BlockPlace, BlockPlace>
        ensures place { MatchResult result (StandsInBlocks self.now name.now) (IsMissing self.now name.now) }
        ensures missing { IfErr result (λ _. value_in_blocks self.now name.now ≡ None) }
    {
        if self.blocks.is_empty() {
            return Err(BlockPlace { block: 0, at: 0 });
        }
        self.search_blocks(name)
    }

    /// Where a name stands among the blocks, or else where it would.
    #[inline(never)]
    fn search_blocks<'s, 'i: 's>(&'s self, name: &LocalName<'i>) -> Result<BlockPlace, BlockPlace>
        ensures place { MatchResult result (StandsInBlocks self.now name.now) (IsMissing self.now name.now) }
        ensures missing { IfErr result (λ _. value_in_blocks self.now name.now ≡ None) }
    {
        let blocks: &[Vec<(LocalName<'i>, V)>] = self.blocks.as_slice();
        let block = block_for(blocks, name);
        let Some(names) = blocks.get(block) else {
            return Err(BlockPlace { block: 0, at: 0 });
        };
        let at = names_below(names, name);
        let place = BlockPlace { block, at };
        if is_at(names, at, name) {
            Ok(place)
        } else {
            Err(place)
        }
    }

    /// Puts another value at a place, and answers the one that was there.
    #[inline(never)]
    pub fn replace(&mut self, place: BlockPlace, value: V) -> V
        requires { place.at < length (block_at self.old place.block) }
        ensures was { (name : Name) → StandsInBlocks self.old name place → value_in_blocks self.old name ≡ Some result }
        ensures stands { (name : Name) → StandsInBlocks self.old name place → StandsInBlocks self.new name place }
        ensures is { (name : Name) → StandsInBlocks self.old name place → IsPutAt name (Some value) self.old self.new }
    {
        let block = &mut self.blocks[place.block];
        std::mem::replace(&mut block[place.at].1, value)
    }

    /// Takes the name at a place out.
    #[inline(never)]
    pub fn remove(&mut self, place: BlockPlace)
    where
        V: Drop,
        requires { place.at < length (block_at self.old place.block) }
        ensures { (name : Name) → StandsInBlocks self.old name place → IsPutAt name None self.old self.new }
    {
        let block = &mut self.blocks[place.block];
        block.remove(place.at);
        if block.is_empty() {
            self.blocks.remove(place.block);
        }
    }

    /// Puts a name that stands nowhere at the place that a search gave. Refused, each name has the value that it had.
    #[inline(never)]
    pub fn insert(
        &mut self,
        place: BlockPlace,
        name: LocalName<'static>,
        value: V,
    ) -> Result<(), AllocError>
    where
        V: Drop,
        requires { IsMissing self.old name place }
        ensures ok { OnOk result (IsPutAt name.entry (Some value) self.old self.new) }
        ensures err { OnErr result (joined_blocks self.new ≡ joined_blocks self.old) }
    {
        if self.blocks.is_empty() {
            let mut block: Vec<(LocalName<'static>, V)> = Vec::new(self.alloc);
            block.push((name, value))?;
            self.blocks.push(block)?;
            return Ok(());
        }
        let place = self.make_room(place)?;
        self.blocks[place.block].insert(place.at, (name, value))?;
        Ok(())
    }

    /// Halves the block of a place where it is full, and answers where the place is then.
    fn make_room(&mut self, place: BlockPlace) -> Result<BlockPlace, AllocError>
    where
        V: Drop,
        requires inside { place.block < length self.old }
        requires within { place.at ≤ length (block_at self.old place.block) }
        ensures joined { joined_blocks self.new ≡ joined_blocks self.old }
        ensures ok { IfOk result (λ new. IsSamePlace self.old place self.new new) }
    {
        if self.blocks[place.block].len() < BLOCK_LEN {
            return Ok(place);
        }
        self.blocks.reserve(1)?;
        let upper = self.blocks[place.block].split_off(BLOCK_LEN / 2)?;
        self.blocks.insert(place.block + 1, upper)?;
        if place.at <= BLOCK_LEN / 2 {
            return Ok(place);
        }
        Ok(BlockPlace {
            block: place.block + 1,
            at: place.at - BLOCK_LEN / 2,
        })
    }

    /// The value of a name.
    #[inline(never)]
    pub fn get<'s, 'i: 's>(&'s self, name: &LocalName<'i>) -> Option<&'s V>
        ensures { option_copied result ≡ value_in_blocks self.now name.now }
    {
        match self.search(name) {
            Ok(place) => self.value_at(place),
            Err(_) => None,
        }
    }

    /// The value at a place, and none where no name stands there.
    #[inline(never)]
    pub fn value_at(&self, place: BlockPlace) -> Option<&V>
        ensures { (name : Name) → StandsInBlocks self.now name place
            → option_copied result ≡ value_in_blocks self.now name }
    {
        let (_, value) = self.blocks.get(place.block)?.get(place.at)?;
        Some(value)
    }
}

/// The last block that doesn't begin above a name, or else the first. A single block isn't looked at.
#[inline]
fn block_for<'i, V>(blocks: &[Vec<(LocalName<'i>, V)>], name: &LocalName<'i>) -> usize
    ensures inside { 0 < length blocks.now → result < length blocks.now }
    ensures sought { (p : ℕ) × (result ≡ p - 1)
        × ((d : _) → 0 < p → begins_above name.now (slice_index_or blocks.now (p - 1) d).items ≡ false)
        × ((d : _) → p < length blocks.now → begins_above name.now (slice_index_or blocks.now p d).items ≡ true) }
{
    if blocks.len() <= 1 {
        return 0;
    }
    blocks_up_to(blocks, name).saturating_sub(1)
}

/// How many blocks don't begin above a name, up to the first that does.
fn blocks_up_to<'i, V>(blocks: &[Vec<(LocalName<'i>, V)>], name: &LocalName<'i>) -> usize
    ensures bound { result ≤ length blocks.now }
    ensures before { (d : _) → 0 < result
        → begins_above name.now (slice_index_or blocks.now (result - 1) d).items ≡ false }
    ensures after { (d : _) → result < length blocks.now
        → begins_above name.now (slice_index_or blocks.now result d).items ≡ true }
{
    let mut low = 0;
    let mut high = blocks.len();
    while low < high {
        let middle = low + (high - low) / 2;
        if begins_above(&blocks[middle], name) {
            high = middle;
        } else {
            low = middle + 1;
        }
    }
    low
}

/// Whether the first name of a block is above this one.
fn begins_above<'i, V>(block: &[(LocalName<'i>, V)], name: &LocalName<'i>) -> bool
    ensures { result ≡ begins_above name.now block.now }
{
    match block.first() {
        Some((first, _)) => name < first,
        None => false,
    }
}

/// How many names of a block are below this one.
fn names_below<'i, V>(names: &[(LocalName<'i>, V)], name: &LocalName<'i>) -> usize
    ensures bound { result ≤ length names.now }
    ensures before { (d : _) → 0 < result → local_name_cmp (slice_index_or names.now (result - 1) d).0 name.now ≡ Less }
    ensures after { (d : _) → result < length names.now
        → is_lt (local_name_cmp (slice_index_or names.now result d).0 name.now) ≡ false }
{
    let mut low = 0;
    let mut high = names.len();
    while low < high {
        let middle = low + (high - low) / 2;
        if names[middle].0 < *name {
            low = middle + 1;
        } else {
            high = middle;
        }
    }
    low
}

/// Whether this name stands at a place.
fn is_at<'i, V>(names: &[(LocalName<'i>, V)], at: usize, name: &LocalName<'i>) -> bool
    ensures { result ≡ is_named (slice_get names.now at) name.now }
{
    match names.get(at) {
        Some((found, _)) => found == name,
        None => false,
    }
}
