//! What holds of all pages: each function takes and gives nothing, and its contract is the law.

ghost use Rattle.std.specs.Prelude.{◌≡◌, Bool, List, ℕ, All};
ghost use Rattle.std.specs.List.{concat};
ghost use Rattle.lol_page.specs.PageCuts.{page_tags_of_chunks};
ghost use Rattle.lol_page.specs.PagePlaces.{StandsInPage};
ghost use Rattle.lol_page.specs.Pages.{Page, page_tags, page_tags_from};

use lol_tags::laws::unfinished_tags_are_kept;

/// A page may be cut anywhere: the tags of its chunks, read one after the other, are those of the whole, with their places, namespaces and
/// bytes.
pub fn page_cuts_change_nothing()
    ensures { (p : Page) (chunks : List (List ℕ)) → page_tags_of_chunks p chunks ≡ page_tags_from p (concat chunks) }
{}

/// The bytes of a tag are those of the page at its places, and its line and column are those of its `<`.
pub fn tags_stand_in_their_page()
    ensures { (scripting decoded : Bool) (page : List ℕ)
        → All (StandsInPage page) (page_tags scripting decoded page) }
{
    unfinished_tags_are_kept();
}
