//! What of their keys instructions are looked up by.

ghost use Rattle.std.specs.Prelude.{◌≡◌};
ghost use Rattle.std.specs.Bool.{OnTrue};
ghost use Rattle.std.specs.Option.{option_map};
ghost use Rattle.lol_instructions.specs.CompiledKeys.{key_shown};
ghost use Rattle.lol_rows.specs.Rows.{hash_by, keys_by};

use crate::key_hashes::{after_name, name_hash, pair_hash};
use lol_instructions::{Instruction, KeyBytes};

/// What of their keys instructions are looked up by.
#[derive(Clone, Copy)]
pub(crate) enum RowKind {
    /// A name, and whether it is known that attributes are needed.
    Names,
    /// A name, and an id, a class or an attribute's name.
    Pairs,
}

impl RowKind {
    /// The hash of these keys of an instruction.
    pub(crate) fn hash(self, instruction: &Instruction) -> u32
        ensures { result ≡ hash_by self instruction.now }
    {
        let predicate = &instruction.predicate;
        let name = predicate.name_key();
        match self {
            RowKind::Names => name_hash(name, predicate.opens_where_named()),
            RowKind::Pairs => pair_hash(after_name(name), predicate.attribute_key()),
        }
    }

    /// Whether two instructions test the same name, and for pairs also the same id, class or attribute.
    pub(crate) fn are_alike(self, one: &Instruction, other: &Instruction) -> bool
        ensures { OnTrue result (keys_by self one.now ≡ keys_by self other.now) }
    {
        let (one, other) = (&one.predicate, &other.predicate);
        let named_alike = one.name_key() == other.name_key();
        match self {
            RowKind::Names => named_alike,
            RowKind::Pairs => {
                named_alike && is_same_key(one.attribute_key(), other.attribute_key())
            }
        }
    }
}

fn is_same_key(one: Option<KeyBytes<'_>>, other: Option<KeyBytes<'_>>) -> bool
    ensures { OnTrue result (option_map key_shown one.entry ≡ option_map key_shown other.entry) }
{
    match (one, other) {
        (Some(KeyBytes::Id(one)), Some(KeyBytes::Id(other)))
        | (Some(KeyBytes::Class(one)), Some(KeyBytes::Class(other)))
        | (Some(KeyBytes::Attribute(one)), Some(KeyBytes::Attribute(other))) => one == other,
        (Some(KeyBytes::Part(one, part)), Some(KeyBytes::Part(other, same))) => {
            one == other && part == same
        }
        (None, None) => true,
        _ => false,
    }
}
