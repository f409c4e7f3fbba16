//! Elements without content.

ghost use Rattle.std.specs.Prelude.{◌≡◌, List, ℕ};
ghost use Rattle.lol_base.specs.Names as names;

use lol_base::LocalName;

/// Whether an HTML element of this name never has content.
#[inline]
pub(crate) fn is_void(name: &LocalName) -> bool
    ensures { (bytes : List ℕ) → names.lowercased bytes ≡ name.now.lowercased → result ≡ names.is_void bytes }
{
    match name.tag() {
        Some(tag) => tag.is_void(),
        None => false,
    }
}
