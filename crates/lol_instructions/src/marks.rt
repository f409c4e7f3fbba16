//! Marks of attribute tests.

ghost use Rattle.std.specs.Prelude.{◌≡◌, ◌==◌, ◌||◌, ◌<◌, ℕ, true, false, All, IfSome};
ghost use Rattle.std.specs.Bool.{OnTrue, OnFalse};
ghost use Rattle.std.specs.Option.{option_copied};
ghost use Rattle.lol_instructions.specs.Tests.{HasAttribute, HasId, HasClass, words};
ghost use Rattle.lol_instructions.specs.Marks.{mark_sum, mark_of, is_marked, KeepsMarks};

use crate::attribute_value::is_white_space;

/// The longest value of `class` whose words are marked one by one. The words of a longer one would set most of the 64 bits, which then rule
/// little out, and marking them would cost more than it spares.
const MAX_MARKED_LEN: usize = 64;

/// One of 64 bits for each attribute name, id and class word. Of what isn't marked it is known that it isn't there. Ids and classes are a
/// third and two thirds of the bits further than names, so an id, a class and a name that are spelled alike have three marks.
#[derive(Clone, Copy)]
pub(crate) struct Marks {
    bits: u64,
}

impl Marks {
    /// The marks of a tag that has no attribute.
    pub(crate) fn none() -> Self
        ensures { (bit : ℕ) → is_marked result bit ≡ false }
    {
        Marks { bits: 0 }
    }

    /// Marks that rule nothing out.
    fn all() -> Self
        ensures { (bit : ℕ) → bit < 64 → is_marked result bit ≡ true }
    {
        Marks { bits: u64::MAX }
    }

    /// The mark of an attribute's name, in either case.
    #[inline(always)]
    pub(crate) fn of_name(name: &[u8]) -> Self
        ensures { (bit : ℕ) → is_marked result bit ≡ (bit == mark_of (HasAttribute name.now)) }
    {
        Marks::one(sum_of(name) % 64)
    }

    /// The mark of an id.
    #[inline(always)]
    pub(crate) fn of_id(id: &[u8]) -> Self
        ensures { (bit : ℕ) → is_marked result bit ≡ (bit == mark_of (HasId id.now)) }
    {
        Marks::one((sum_of(id) + 21) % 64)
    }

    /// The mark of a word of `class`.
    #[inline(always)]
    pub(crate) fn of_class(name: &[u8]) -> Self
        ensures { (bit : ℕ) → is_marked result bit ≡ (bit == mark_of (HasClass name.now)) }
    {
        Marks::one((sum_of(name) + 42) % 64)
    }

    /// The marks of the words of a value of `class`, or all marks where the value is long.
    pub(crate) fn of_words(value: &[u8]) -> Self
        ensures { All (λ word. is_marked result (mark_of (HasClass word)) ≡ true) (words value.now) }
    {
        if value.len() > MAX_MARKED_LEN {
            return Marks::all();
        }
        let mut marks = Marks::none();
        let mut start = 0;
        for (end, byte) in value.iter().enumerate() {
            if is_white_space(*byte) {
                marks = marks.with(Marks::of_class(&value[start..end]));
                start = end + 1;
            }
        }
        marks.with(Marks::of_class(&value[start..]))
    }

    /// These marks and others.
    #[inline(always)]
    pub(crate) fn with(self, others: Marks) -> Self
        ensures { (bit : ℕ) → is_marked result bit ≡ (is_marked self bit || is_marked others bit) }
    {
        Marks {
            bits: self.bits | others.bits,
        }
    }

    /// These marks and that of an id, where there is one.
    pub(crate) fn with_id(self, id: Option<&[u8]>) -> Self
        ensures before { KeepsMarks self result }
        ensures id { IfSome (option_copied id.entry) (λ value. is_marked result (mark_of (HasId value)) ≡ true) }
    {
        match id {
            Some(id) => self.with(Marks::of_id(id)),
            None => self,
        }
    }

    /// These marks and those of the words of a value of `class`, where there is one.
    pub(crate) fn with_words(self, class: Option<&[u8]>) -> Self
        ensures before { KeepsMarks self result }
        ensures words { IfSome (option_copied class.entry) (λ value.
            All (λ word. is_marked result (mark_of (HasClass word)) ≡ true) (words value)) }
    {
        match class {
            Some(value) => self.with(Marks::of_words(value)),
            None => self,
        }
    }

    /// Whether some of `needs` isn't among these marks.
    #[inline(always)]
    pub(crate) fn lack(self, needs: Marks) -> bool
        ensures missing { OnTrue result ((bit : ℕ) × (is_marked needs bit ≡ true) × (is_marked self bit ≡ false)) }
        ensures all { OnFalse result (KeepsMarks needs self) }
    {
        needs.bits & !self.bits != 0
    }

    #[inline(always)]
    fn one(bit: u64) -> Self
        requires { bit < 64 }
        ensures { (other : ℕ) → is_marked result other ≡ (other == bit) }
    {
        Marks { bits: 1 << bit }
    }
}

// A number from the length and the first and last byte, in which the case of letters doesn't count.
#[inline(always)]
fn sum_of(bytes: &[u8]) -> u64
    ensures { result ≡ mark_sum bytes.now }
{
    match bytes {
        [] => 0,
        [first, ..] => {
            let last = bytes[bytes.len() - 1];
            u64::from(*first % 32) * 5 + u64::from(last % 32) * 3 + bytes.len() as u64 % 64
        }
    }
}
