//! Selectors from texts.

ghost use Rattle.std.specs.Prelude.{◌≡◌, Ok, Err, IfErr, IfOk, OnOk};
ghost use Rattle.lol_css.specs.Accepting.{accept};
ghost use Rattle.lol_css.specs.TreeViews.{list_of};
ghost use Rattle.lol_program.specs.Asts.{is_with_rows};
ghost use Rattle.lol_matcher.specs.Building.{Adds, IsRefused, Refuses};

use crate::error::AddError;
use lol_css::laws::located_where_refused;
use lol_css::{Selector, SelectorError};
use lol_memory::MatchId;
use lol_program::Ast;
use std::alloc::Global;

/// Adds the selectors of a text under an id.
pub(crate) fn add_text(
    alloc: Global,
    ast: &mut Ast,
    id: MatchId,
    text: &str,
) -> Result<(), AddError>
    ensures added { OnOk result (Adds id text.now ast.old ast.new) }
    ensures refused { IfErr result (λ error. Refuses id text.now error ast.old ast.new) }
    ensures rows { is_with_rows ast.new ≡ is_with_rows ast.old }
{
    let selector = read_selector(alloc, text)?;
    match ast.add_selector(&selector, id) {
        Ok(()) => Ok(()),
        Err(_) => Err(AddError::Memory),
    }
}

/// The selectors of a text.
///
/// # Errors
/// Why the text isn't accepted and where, or `Memory`.
pub fn read_selector(alloc: Global, text: &str) -> Result<Selector, AddError>
    ensures read { IfOk result (λ selector. accept text.now ≡ Ok (list_of selector)) }
    ensures refused { IfErr result (λ error. IsRefused text.now error) }
{
    match Selector::from_str(alloc, text) {
        Ok(selector) => Ok(selector),
        Err(SelectorError::Memory) => Err(AddError::Memory),
        Err(cause) => Err(refusal(alloc, text, cause)),
    }
}

/// Why a text isn't added that isn't accepted: the cause and where, or memory was refused as it was looked for.
fn refusal(alloc: Global, text: &str, cause: SelectorError) -> AddError
    requires { accept text.now ≡ Err cause }
    ensures { IsRefused text.now result }
{
    located_where_refused();
    match Selector::locate_error(alloc, text) {
        Ok(Some(location)) => AddError::Refused { cause, location },
        Ok(None) => unreachable!(),
        Err(_) => AddError::Memory,
    }
}
