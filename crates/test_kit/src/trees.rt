//! Trees of selectors.

use lol_css::{Selector, SelectorError};
use lol_program::Ast;
use std::alloc::Global;

/// The selectors of these texts, each under an id.
///
/// # Errors
/// Why a text is refused, or `Memory`.
pub fn selectors(alloc: Global, texts: &[(&str, u32)]) -> Result<Ast, SelectorError> {
    let mut ast = Ast::new(alloc);
    for (text, match_id) in texts {
        let selector = Selector::from_str(alloc, text)?;
        ast.add_selector(&selector, *match_id)?;
    }
    Ok(ast)
}
