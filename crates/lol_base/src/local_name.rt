//! Names of elements.

ghost use Rattle.std.specs.Prelude.{◌≡◌, ◌≢◌, ◌↔◌, IsTrue, IsNone, IfNone, IfSome, IfOk, IsOk};
ghost use Rattle.std.specs.Option.{option_copied};
ghost use Rattle.std.specs.Char.{to_ascii_lowercase};
ghost use Rattle.lol_base.specs.Names.{lowercased};
ghost use Rattle.std.specs.Ordering.{nat_cmp};
ghost use Rattle.std.specs.Cmp.Lexicographic.{slice_cmp};
ghost use Rattle.lol_base.specs.LocalNames.{name_code, code_or_last, local_name, is_hash, bits_of};

use crate::tag::Tag;
use std::alloc::{AllocError, Global};
use std::cmp::Ordering;
use std::hash::{Hash, Hasher};
use std::marker::Model;

/// The greatest number of bytes of a name that is a hash.
const MAX_HASH_LEN: usize = 12;

/// What a name that isn't a hash has in place of a code. No hash has it.
const NO_CODE: u64 = u64::MAX;

/// A name of an element, which is known by its bytes without ASCII case (lol_html's `LocalName`). A name of 1 to 12 ASCII letters and
/// digits from 1 to 6 that doesn't begin with 1 is a hash: it is kept as one number and takes no memory. Any other keeps its bytes as
/// they are spelled. In the order of names the hashes come first, by their codes, and then the others, by their bytes in lower case.
#[derive(Drop)]
pub struct LocalName<'i> {
    // The code of a hash, or `NO_CODE`: most names are told apart by it alone.
    code: u64,
    kept: Kept<'i>,
}

#[derive(Drop)]
enum Kept<'i> {
    Hash,
    Borrowed(&'i [u8]),
    Owned(Vec<u8>),
}

impl<'i> Model for LocalName<'i> {
    ghost use Rattle.lol_base.specs.LocalNames.{Name};

    ghost Value = { Name };

    ghost use Rattle.lol_base.specs.Kept.{name_of, IsKeptRight};

    ghost view = { λ n. name_of n.code n.kept };

    ghost invariant = { λ n. IsKeptRight n.code n.kept };
}

impl<'i> LocalName<'i> {
    ghost use Rattle.lol_base.specs.declared.tag.Tag.{Tag};
    ghost use Rattle.lol_base.specs.Tags.{tag_name};

    /// The name that these bytes spell. It borrows them where it isn't a hash, and takes no memory.
    #[inline]
    pub fn new(bytes: &'i [u8]) -> Self
        ensures { result ≡ local_name bytes.now }
    {
        match code_of(bytes) {
            Some(code) => LocalName {
                code,
                kept: Kept::Hash,
            },
            None => LocalName {
                code: NO_CODE,
                kept: Kept::Borrowed(bytes),
            },
        }
    }

    /// The name that these bytes spell, which keeps them where it isn't a hash and drops them where it is. It takes no memory.
    pub fn from_vec(bytes: Vec<u8>) -> LocalName<'static>
        ensures { result ≡ local_name bytes.items }
    {
        match code_of(&bytes) {
            Some(code) => LocalName {
                code,
                kept: Kept::Hash,
            },
            None => LocalName {
                code: NO_CODE,
                kept: Kept::Owned(bytes),
            },
        }
    }

    /// The code of a hash: five bits for each byte, the first byte highest; 0 to 5 stand for the digits 1 to 6, and 6 to 31 for the letters.
    #[inline(always)]
    pub fn code(&self) -> Option<u64>
        ensures { result ≡ name_code self.now.lowercased }
    {
        if self.code == NO_CODE {
            None
        } else {
            Some(self.code)
        }
    }

    /// The code of a hash, and `NO_CODE` for any other name.
    #[inline]
    fn code_or_last(&self) -> u64
        ensures { result ≡ code_or_last self.now }
    {
        self.code
    }

    /// The bytes as they were spelled, where the name isn't a hash.
    pub fn spelling(&self) -> Option<&[u8]>
        ensures value { option_copied result ≡ self.now.spelling }
        ensures hash { IsNone self.now.spelling ↔ IsTrue (is_hash self.now.lowercased) }
        ensures spelled { IfSome self.now.spelling (λ bytes. lowercased bytes ≡ self.now.lowercased) }
    {
        match &self.kept {
            Kept::Hash => None,
            Kept::Borrowed(bytes) => Some(bytes),
            Kept::Owned(bytes) => Some(bytes.as_slice()),
        }
    }

    /// The bytes of a name that isn't a hash, and none of one that is.
    fn spelled(&self) -> &[u8]
        ensures { IsNone (name_code self.now.lowercased) → lowercased result.now ≡ self.now.lowercased }
    {
        match &self.kept {
            Kept::Hash => &[],
            Kept::Borrowed(bytes) => bytes,
            Kept::Owned(bytes) => bytes.as_slice(),
        }
    }

    /// Whether this is the tag's name.
    #[inline]
    pub fn is_tag(&self, tag: Tag) -> bool
        ensures { IsTrue result ↔ (self.now.lowercased ≡ tag_name tag) }
    {
        self.code() == Some(tag.code())
    }

    /// The tag whose name this is, if it is one that has a meaning of its own. (lol_html's names are such a tag or their bytes.)
    #[inline]
    pub fn tag(&self) -> Option<Tag>
        ensures some { IfSome result (λ tag. self.now.lowercased ≡ tag_name tag) }
        ensures none { IfNone result ((tag : Tag) → self.now.lowercased ≢ tag_name tag) }
    {
        Tag::of_code(self.code()?)
    }

    /// The same name, which borrows nothing. A hash, and a name that owns its bytes, takes no memory.
    #[inline(always)]
    pub fn into_owned(self, alloc: Global) -> Result<LocalName<'static>, AllocError>
        ensures same { IfOk result (λ name. name ≡ self.entry) }
        ensures no_memory { IsNone self.entry.spelling → IsOk result }
    {
        let LocalName { code, kept } = self;
        let kept = match kept {
            Kept::Hash => Kept::Hash,
            Kept::Borrowed(bytes) => Kept::Owned(bytes.to_vec(alloc)?),
            Kept::Owned(bytes) => Kept::Owned(bytes),
        };
        Ok(LocalName { code, kept })
    }

    /// The same name once more, which borrows nothing (for Rust's `Clone`). A hash takes no memory.
    #[inline(always)]
    pub fn try_clone(&self, alloc: Global) -> Result<LocalName<'static>, AllocError>
        ensures same { IfOk result (λ name. name ≡ self.now) }
        ensures no_memory { IsNone self.now.spelling → IsOk result }
    {
        let kept = match &self.kept {
            Kept::Hash => Kept::Hash,
            Kept::Borrowed(bytes) => Kept::Owned(bytes.to_vec(alloc)?),
            Kept::Owned(bytes) => Kept::Owned(bytes.as_slice().to_vec(alloc)?),
        };
        Ok(LocalName {
            code: self.code,
            kept,
        })
    }
}

impl<'i> PartialEq for LocalName<'i> {
    ghost use Rattle.lol_base.specs.LocalNames.{same_local_name};
    ghost use Rattle.lol_base.specs.NameLaws.{same_local_name_partial};

    ghost eq = { same_local_name };

    ghost laws = { same_local_name_partial };

    #[inline]
    fn eq(&self, other: &LocalName<'i>) -> bool {
        let code = self.code_or_last();
        if code != other.code_or_last() {
            return false;
        }
        code != NO_CODE || self.spelled().eq_ignore_ascii_case(other.spelled())
    }
}

impl<'i> Eq for LocalName<'i> {
    ghost use Rattle.lol_base.specs.NameLaws.{same_local_name_equivalence};

    ghost laws = { same_local_name_equivalence };
}

impl<'i> PartialOrd for LocalName<'i> {
    ghost use Rattle.std.specs.Ordering.{as_partial_cmp};
    ghost use Rattle.lol_base.specs.LocalNames.{local_name_cmp};
    ghost use Rattle.lol_base.specs.NameLaws.{local_name_partial_order};

    ghost partial_cmp = { as_partial_cmp local_name_cmp };

    ghost laws = { local_name_partial_order };

    fn partial_cmp(&self, other: &LocalName<'i>) -> Option<Ordering> {
        Some(self.cmp(other))
    }
}

impl<'i> Ord for LocalName<'i> {
    ghost use Rattle.std.specs.Prelude.{refl};
    ghost use Rattle.lol_base.specs.LocalNames.{local_name_cmp};
    ghost use Rattle.lol_base.specs.NameLaws.{local_name_total_order, same_local_name-ties};

    ghost cmp = { local_name_cmp };

    ghost total = { local_name_total_order };

    ghost matches_partial_cmp = { λ a b. refl };

    ghost matches_eq = { same_local_name-ties };

    #[inline]
    fn cmp(&self, other: &LocalName<'i>) -> Ordering {
        let code = self.code_or_last();
        let by_code = code.cmp(&other.code_or_last());
        if by_code == Ordering::Equal && code == NO_CODE {
            cmp_ignore_ascii_case(self.spelled(), other.spelled())
        } else {
            by_code
        }
    }
}

impl<'i> Hash for LocalName<'i> {
    ghost use Rattle.lol_base.specs.LocalNames.{name_writes};
    ghost use Rattle.lol_base.specs.NameLaws.{name_writes_alike};

    ghost hash_input = { name_writes };

    ghost respects_eq = { name_writes_alike };

    fn hash<H: Hasher>(&self, state: &mut H) {
        match self.code() {
            Some(code) => code.hash(state),
            None => {
                let bytes = self.spelled();
                bytes.len().hash(state);
                for byte in bytes {
                    byte.to_ascii_lowercase().hash(state);
                }
            }
        }
    }
}

/// The code of the name that these bytes spell, if it is a hash.
fn code_of(bytes: &[u8]) -> Option<u64>
    ensures { result ≡ name_code (lowercased bytes.now) }
{
    if bytes.is_empty() || bytes.len() > MAX_HASH_LEN || bytes[0] == b'1' {
        return None;
    }
    let mut code = 0;
    for byte in bytes {
        code = code * 32 + five_bits(*byte)?;
    }
    Some(code)
}

/// The five bits of a byte of a hash.
fn five_bits(byte: u8) -> Option<u64>
    ensures { result ≡ bits_of (to_ascii_lowercase byte) }
{
    if byte.is_ascii_lowercase() {
        Some(u64::from(byte - b'a' + 6))
    } else if byte.is_ascii_uppercase() {
        Some(u64::from(byte - b'A' + 6))
    } else if matches!(byte, b'1'..=b'6') {
        Some(u64::from(byte - b'1'))
    } else {
        None
    }
}

/// Compares bytes in lower case: the first that differ decide, and else the lengths do.
fn cmp_ignore_ascii_case(bytes: &[u8], others: &[u8]) -> Ordering
    ensures { result ≡ slice_cmp nat_cmp (lowercased bytes.now) (lowercased others.now) }
{
    for at in 0..bytes.len().min(others.len()) {
        let order = bytes[at]
            .to_ascii_lowercase()
            .cmp(&others[at].to_ascii_lowercase());
        if order != Ordering::Equal {
            return order;
        }
    }
    bytes.len().cmp(&others.len())
}
