//! Logical combinations: the pseudo-classes that take a list of selectors.

ghost use Rattle.std.specs.Prelude.{◌≡◌};
ghost use Rattle.lol_css.specs.Reading.{combination_named};
ghost use Rattle.lol_css.specs.Accepting.{combination_part};
ghost use Rattle.lol_css.specs.Views.{points_of};
ghost use Rattle.lol_css.specs.TreeViews.{part_of, list_of};

use crate::selector::{SelectorList, SimpleSelector};
use crate::syntax::texts::Name;

/// A pseudo-class that takes a list of selectors (Selectors 4, section 4, "Logical Combinations").
#[derive(Clone, Copy)]
pub(crate) enum LogicalCombination {
    Not,
    Is,
    Where,
}

impl LogicalCombination {
    pub(crate) fn from_name(name: Name<'_>) -> Option<LogicalCombination>
        ensures { result ≡ combination_named (points_of name.entry) }
    {
        if name.is_word("not") {
            Some(LogicalCombination::Not)
        } else if name.is_word("is") {
            Some(LogicalCombination::Is)
        } else if name.is_word("where") {
            Some(LogicalCombination::Where)
        } else {
            None
        }
    }

    pub(crate) fn of(self, list: SelectorList) -> SimpleSelector
        ensures { part_of result ≡ combination_part self (list_of list) }
    {
        match self {
            LogicalCombination::Not => SimpleSelector::Negation(list),
            LogicalCombination::Is => SimpleSelector::Is(list),
            LogicalCombination::Where => SimpleSelector::Where(list),
        }
    }
}
