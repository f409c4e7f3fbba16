//! The hashes of the keys that a start tag has.

ghost use Rattle.std.specs.Prelude.{ℕ, ◌↔◌, [], ◌∷◌, ◌++◌, OnOk, Some, None, Contains, map, flat_map, option_to_list, unwrap_or};
ghost use Rattle.std.specs.Option.{option_copied, option_map};
ghost use Rattle.lol_base.specs.Names.{lowercased};
ghost use Rattle.lol_base.specs.StartTags.{Attribute};
ghost use Rattle.lol_instructions.specs.Keys.{ById, ByClass, ByAttribute, parts_of, words_of};
ghost use Rattle.lol_instructions.specs.CompiledKeys.{key_shown};
ghost use Rattle.lol_rows.specs.KeyHashes.{after_name, hash_of_part};
ghost use Rattle.lol_rows.specs.TagHashes.{all_part_hashes, both_hashes, both_part_hashes, pair_hashes, part_hashes, Adds, AreAmong, HoldsBothParts, HoldsParts};

use crate::key_hashes::{after_attribute, after_name, attribute_hash, pair_hash, part_hash};
use crate::sorted_hashes::SortedHashes;
use lol_base::LocalName;
use lol_instructions::{AttributeMatcher, KeyBytes, PART_LENGTH, first_word};
use std::alloc::AllocError;
use std::hash::DefaultHasher;

/// Adds the hashes of the pairs of keys that an instruction may have which a start tag of this name and with these attributes leaves. They
/// are of no name and of its own, each with no key, with its id, its classes and the names of its attributes. It takes a
/// step for each byte of these.
///
/// # Errors
/// Out of memory.
pub(crate) fn add_pair_hashes(
    local_name: &LocalName<'_>,
    matcher: &AttributeMatcher<'_>,
    hashes: &mut Vec<u32>,
) -> Result<(), AllocError>
    ensures { Adds result hashes.old.items hashes.new.items
        (pair_hashes local_name.now.lowercased matcher.now) }
{
    let both = BothNames {
        unnamed: after_name(None),
        named: after_name(Some(local_name)),
    };
    both.add_key(None, hashes)?;
    both.add_id(matcher.id(), hashes)?;
    both.add_words(matcher.class(), hashes)?;
    both.add_names(matcher, hashes)
}

/// Adds the hashes of the pairs with each part of the values of attributes, where the hash of the pair with the attribute's name is one of
/// `parted`. It takes a step for each byte of the attributes' names, and of the values whose parts are added.
///
/// # Errors
/// Out of memory.
pub(crate) fn add_part_hashes(
    parted: &SortedHashes,
    local_name: &LocalName<'_>,
    matcher: &AttributeMatcher<'_>,
    hashes: &mut Vec<u32>,
) -> Result<(), AllocError>
    ensures kept { OnOk result (AreAmong hashes.old.items hashes.new.items) }
    ensures parts { OnOk result ((a : Attribute) → Contains matcher.now.attributes a
        → HoldsBothParts parted.now (after_name None) (after_name (Some local_name.now.lowercased))
        hashes.new.items a) }
    ensures only { AreAmong hashes.new.items
        (hashes.old.items ++ both_part_hashes local_name.now.lowercased matcher.now) }
{
    if parted.is_empty() {
        return Ok(());
    }
    add_parts(after_name(None), parted, matcher, hashes)?;
    add_parts(after_name(Some(local_name)), parted, matcher, hashes)?;
    Ok(())
}

// So few hashes are looked up twice sooner than sorted.
const FEW_HASHES: usize = 64;

/// Takes out hashes that stand twice where they are many, as those of equal parts of a long value are: each would find all that it finds
/// once more.
pub(crate) fn drop_repeated(hashes: &mut Vec<u32>)
    ensures { (hash : ℕ) → Contains hashes.new.items hash ↔ Contains hashes.old.items hash }
{
    if hashes.len() > FEW_HASHES {
        hashes.sort_unstable();
        hashes.dedup();
    }
}

/// Hashers that were given that there is no name, and a name.
#[derive(Clone, Copy)]
struct BothNames {
    unnamed: DefaultHasher,
    named: DefaultHasher,
}

impl BothNames {
    fn add_key(&self, key: Option<KeyBytes<'_>>, hashes: &mut Vec<u32>) -> Result<(), AllocError>
        ensures { Adds result hashes.old.items hashes.new.items
            (both_hashes self.now.unnamed self.now.named (option_map key_shown key.entry)) }
    {
        add_both(
            pair_hash(self.unnamed, key),
            pair_hash(self.named, key),
            hashes,
        )
    }

    /// Those of an id, if there is one.
    fn add_id(&self, id: Option<&[u8]>, hashes: &mut Vec<u32>) -> Result<(), AllocError>
        ensures { Adds result hashes.old.items hashes.new.items
            (flat_map (λ value. both_hashes self.now.unnamed self.now.named (Some (ById value)))
            (option_to_list (option_copied id.entry))) }
    {
        match id {
            Some(id) => self.add_key(Some(KeyBytes::Id(id)), hashes),
            None => Ok(()),
        }
    }

    /// Those of each word of a value of `class`, if there is one.
    fn add_words(&self, class: Option<&[u8]>, hashes: &mut Vec<u32>) -> Result<(), AllocError>
        ensures { Adds result hashes.old.items hashes.new.items
            (flat_map (λ word. both_hashes self.now.unnamed self.now.named (Some (ByClass word)))
            (words_of (option_copied class.entry))) }
    {
        let mut left = class;
        while let Some(value) = left {
            let (word, rest) = first_word(value);
            self.add_key(Some(KeyBytes::Class(word)), hashes)?;
            left = rest;
        }
        Ok(())
    }

    /// Those of the name of each attribute.
    fn add_names(
        &self,
        matcher: &AttributeMatcher<'_>,
        hashes: &mut Vec<u32>,
    ) -> Result<(), AllocError>
        ensures { Adds result hashes.old.items hashes.new.items
            (flat_map (λ a. both_hashes self.now.unnamed self.now.named (Some (ByAttribute (lowercased a.name))))
            matcher.now.attributes) }
    {
        for index in 0..usize::MAX {
            let Some(name) = matcher.name_at(index) else {
                return Ok(());
            };
            let unnamed = attribute_hash(self.unnamed, name);
            let named = attribute_hash(self.named, name);
            add_both(unnamed, named, hashes)?;
        }
        Err(AllocError)
    }
}

/// Adds a hash after no name and one after a name.
fn add_both(unnamed: u32, named: u32, hashes: &mut Vec<u32>) -> Result<(), AllocError>
    ensures { Adds result hashes.old.items hashes.new.items (unnamed ∷ named ∷ []) }
{
    hashes.push(unnamed)?;
    hashes.push(named)?;
    Ok(())
}

/// Adds the hashes of the parts of the value of each attribute, where the hash of its name is one of `parted`.
fn add_parts(
    hasher: DefaultHasher,
    parted: &SortedHashes,
    matcher: &AttributeMatcher<'_>,
    hashes: &mut Vec<u32>,
) -> Result<(), AllocError>
    ensures kept { OnOk result (AreAmong hashes.old.items hashes.new.items) }
    ensures parts { OnOk result ((a : Attribute) → Contains matcher.now.attributes a
        → HoldsParts parted.now hasher a.name (unwrap_or a.value []) hashes.new.items) }
    ensures only { AreAmong hashes.new.items (hashes.old.items ++ all_part_hashes hasher matcher.now.attributes) }
{
    for index in 0..usize::MAX {
        let Some(name) = matcher.name_at(index) else {
            return Ok(());
        };
        let value = matcher.value_at(index).unwrap_or(&[]);
        add_parts_after(hasher, parted, name, value, hashes)?;
    }
    Err(AllocError)
}

/// Adds the hashes of the parts of an attribute's value, where the hash of its name is one of `parted`.
fn add_parts_after(
    hasher: DefaultHasher,
    parted: &SortedHashes,
    name: &[u8],
    value: &[u8],
    hashes: &mut Vec<u32>,
) -> Result<(), AllocError>
    ensures kept { OnOk result (AreAmong hashes.old.items hashes.new.items) }
    ensures parts { OnOk result (HoldsParts parted.now hasher name.now value.now hashes.new.items) }
    ensures only { AreAmong hashes.new.items (hashes.old.items ++ part_hashes hasher name.now value.now) }
{
    if !parted.has(attribute_hash(hasher, name)) {
        return Ok(());
    }
    add_each_part(after_attribute(hasher, name), value, hashes)
}

fn add_each_part(
    hasher: DefaultHasher,
    value: &[u8],
    hashes: &mut Vec<u32>,
) -> Result<(), AllocError>
    ensures { Adds result hashes.old.items hashes.new.items (map (hash_of_part hasher) (parts_of value.now)) }
{
    let mut left = value;
    while left.len() >= PART_LENGTH {
        hashes.push(part_hash(hasher, &left[..PART_LENGTH]))?;
        left = &left[1..];
    }
    Ok(())
}
