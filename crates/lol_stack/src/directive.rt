//! What becomes of the element of a start tag.

ghost use Rattle.std.specs.Prelude.{◌≡◌, List, ℕ};
ghost use Rattle.lol_base.specs.Names.{is_esi as is_esi_name};
ghost use Rattle.lol_base.specs.LocalNames.{local_name};
ghost use Rattle.lol_stack.specs.Directives.{directive_in};

use crate::stack_item::StackDirective;
use crate::void::is_void;
use lol_base::{LocalName, Namespace};

/// Whether a name is one of the two that are void where ESI is on: these are spelled exactly so.
fn is_esi(name: &LocalName) -> bool
    ensures { (bytes : List ℕ) → name.now ≡ local_name bytes → result ≡ is_esi_name bytes }
{
    match name.spelling() {
        Some(bytes) => is_esi_spelling(bytes),
        None => false,
    }
}

fn is_esi_spelling(bytes: &[u8]) -> bool
    ensures { result ≡ is_esi_name bytes.now }
{
    bytes == b"esi:include".as_slice() || bytes == b"esi:comment".as_slice()
}

/// What becomes of an element of this name and namespace, before it is known whether its tag closes itself.
pub(crate) fn directive_of(name: &LocalName, ns: Namespace, enable_esi_tags: bool) -> StackDirective
    ensures { (bytes : List ℕ) → name.now ≡ local_name bytes → result ≡ directive_in ns enable_esi_tags bytes }
{
    if ns != Namespace::Html {
        return StackDirective::PushIfNotSelfClosing;
    }
    if is_void(name) || (enable_esi_tags && is_esi(name)) {
        StackDirective::PopImmediately
    } else {
        StackDirective::Push
    }
}
