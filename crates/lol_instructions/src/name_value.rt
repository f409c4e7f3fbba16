//! What is known of a compound before attributes are.

ghost use Rattle.std.specs.Prelude.{◌≡◌};
ghost use Rattle.lol_instructions.specs.Compounds.{both, either, opposite};
ghost use Rattle.lol_instructions.specs.PredicateMarks.{value_if};

/// What an element's name and position alone say of whether it passes a test or a compound.
#[derive(Debug, Clone, Copy, PartialEq, Eq)]
pub enum NameValue {
    /// It passes, whatever its attributes are.
    True,
    /// It doesn't pass, whatever its attributes are.
    False,
    /// That is known with its attributes alone.
    Open,
}

impl NameValue {
    /// The value of two tests together.
    pub(crate) fn and(self, other: NameValue) -> Self
        ensures { result ≡ both self other }
    {
        match (self, other) {
            (NameValue::True, _) => other,
            (NameValue::False, _) | (_, NameValue::False) => NameValue::False,
            _ => NameValue::Open,
        }
    }

    /// The value of one of two tests.
    pub(crate) fn or(self, other: NameValue) -> Self
        ensures { result ≡ either self other }
    {
        match (self, other) {
            (NameValue::False, _) => other,
            (NameValue::True, _) | (_, NameValue::True) => NameValue::True,
            _ => NameValue::Open,
        }
    }

    /// This value of an element that passes another test, and else that it doesn't pass.
    #[inline(always)]
    pub(crate) fn only_if(self, passes: bool) -> Self
        ensures { result ≡ value_if passes self }
    {
        if passes { self } else { NameValue::False }
    }

    /// The value of the opposite, which is open where this is.
    pub(crate) fn opposite(self) -> Self
        ensures { result ≡ opposite self }
    {
        match self {
            NameValue::True => NameValue::False,
            NameValue::False => NameValue::True,
            NameValue::Open => NameValue::Open,
        }
    }
}
