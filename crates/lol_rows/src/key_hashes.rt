//! Hashes of keys.

ghost use Rattle.std.specs.Prelude.{◌≡◌, Some};
ghost use Rattle.std.specs.Option.{option_copied, option_map};
ghost use Rattle.lol_base.specs.Names.{lowercased};
ghost use Rattle.lol_instructions.specs.Keys.{ByAttribute};
ghost use Rattle.lol_instructions.specs.CompiledKeys.{key_shown};
ghost use Rattle.std.specs.Hash.DefaultHasher.{write};
ghost use Rattle.lol_rows.specs.KeyHashes.{after_attribute, after_name, name_shown, hash_of_name, hash_of_part, hash_after, name_hashes};

use lol_base::LocalName;
use lol_instructions::KeyBytes;
use std::hash::{DefaultHasher, Hash, Hasher};

/// How many hashes there are.
const HASHES: u64 = 1 << 32;

/// A hasher that was given the key of a name, or that there is none.
pub(crate) fn after_name(name: Option<&LocalName<'_>>) -> DefaultHasher
    ensures { result ≡ after_name (name_shown (option_copied name.entry)) }
{
    let mut hasher = DefaultHasher::new();
    match name {
        None => hasher.write_u8(0),
        Some(name) => {
            hasher.write_u8(1);
            name.hash(&mut hasher);
        }
    }
    hasher
}

/// The hash of the key of a name, if there is one, and of whether its nodes are known to need attributes.
pub(crate) fn name_hash(name: Option<&LocalName<'_>>, opens: bool) -> u32
    ensures { result ≡ hash_of_name (name_shown (option_copied name.entry)) opens }
{
    let mut hasher = after_name(name);
    hasher.write_u8(if opens { 1 } else { 0 });
    (hasher.finish() % HASHES) as u32
}

/// The hashes of the keys that an instruction may have which a start tag of this name leaves by its name. They are of no name and of its
/// own, each for instructions that aren't known to need attributes and for those that are.
pub fn name_hashes(local_name: &LocalName<'_>) -> [u32; 4]
    ensures { result ≡ name_hashes local_name.now.lowercased }
{
    [
        name_hash(None, false),
        name_hash(None, true),
        name_hash(Some(local_name), false),
        name_hash(Some(local_name), true),
    ]
}

/// The hash of the pair of the key of a name that a hasher was given, and of an id, a class or an attribute, if there is one.
pub(crate) fn pair_hash(mut hasher: DefaultHasher, key: Option<KeyBytes<'_>>) -> u32
    ensures { result ≡ hash_after hasher (option_map key_shown key.entry) }
{
    match key {
        None => hasher.write_u8(0),
        Some(KeyBytes::Id(id)) => {
            hasher.write_u8(1);
            hasher.write(id);
        }
        Some(KeyBytes::Class(name)) => {
            hasher.write_u8(2);
            hasher.write(name);
        }
        Some(KeyBytes::Part(name, part)) => {
            hasher.write_u8(4);
            hasher.write(name);
            hasher.write(part);
        }
        Some(KeyBytes::Attribute(name)) => {
            hasher.write_u8(3);
            hasher.write(name);
        }
    }
    (hasher.finish() % HASHES) as u32
}

/// The same of the name of an attribute as it is written, whose case doesn't count.
pub(crate) fn attribute_hash(mut hasher: DefaultHasher, name: &[u8]) -> u32
    ensures { result ≡ hash_after hasher (Some (ByAttribute (lowercased name.now))) }
{
    hasher.write_u8(3);
    (after_lowercased(hasher, name).finish() % HASHES) as u32
}

/// A hasher that was given that an attribute of this name has a part, but not yet the part. The name's case doesn't count.
pub(crate) fn after_attribute(mut hasher: DefaultHasher, name: &[u8]) -> DefaultHasher
    ensures { result ≡ after_attribute hasher (lowercased name.now) }
{
    hasher.write_u8(4);
    after_lowercased(hasher, name)
}

/// The hash of a part, where a hasher was given all before it.
pub(crate) fn part_hash(mut hasher: DefaultHasher, part: &[u8]) -> u32
    ensures { result ≡ hash_of_part hasher part.now }
{
    hasher.write(part);
    (hasher.finish() % HASHES) as u32
}

fn after_lowercased(mut hasher: DefaultHasher, name: &[u8]) -> DefaultHasher
    ensures { result ≡ write hasher (lowercased name.now) }
{
    for byte in name {
        hasher.write_u8(byte.to_ascii_lowercase());
    }
    hasher
}
