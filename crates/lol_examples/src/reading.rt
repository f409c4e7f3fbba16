//! Selectors from texts.

ghost use Rattle.std.specs.Prelude.{◌≡◌, ◌⊎◌, Ok, Err, OnOk, IfErr};
ghost use Rattle.lol_css.specs.Accepting.{accept};
ghost use Rattle.lol_css.specs.Trees.{Items};
ghost use Rattle.lol_css.specs.declared.error.SelectorError.TheVariants.{Memory};
ghost use Rattle.lol_program.specs.Asts.{pairs_of};
ghost use Rattle.lol_program.specs.Conditions.{pairs_under};
ghost use Rattle.lol_program.specs.Sets.{Joins, SameMembers};

use lol_css::{Selector, SelectorError};
use lol_memory::MatchId;
use lol_program::Ast;
use std::alloc::Global;

/// Adds the selectors of a text under an id.
///
/// # Errors
/// Why the text is refused, or `Memory`. Then the selectors are as before.
pub fn add_text(
    alloc: Global,
    ast: &mut Ast,
    text: &str,
    match_id: MatchId,
) -> Result<(), SelectorError>
    ensures added { OnOk result ((items : Items) × (accept text.now ≡ Ok items)
        × Joins (pairs_of ast.old) (pairs_of ast.new) (pairs_under match_id items)) }
    ensures refused { IfErr result (λ cause. ((cause ≡ Memory) ⊎ (accept text.now ≡ Err cause))
        × SameMembers (pairs_of ast.old) (pairs_of ast.new)) }
{
    let selector = Selector::from_str(alloc, text)?;
    ast.add_selector(&selector, match_id)?;
    Ok(())
}
