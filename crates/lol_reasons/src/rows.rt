//! Worked rows of reasons, each checked by computing it.

ghost use Rattle.lol_reasons.specs.Rows.{Explains, nested_divs, not_the_nearest, two_parents, no_parent, after_an_end, lists, void_element, inside_no_void, foreign_elements, functions};

/// The reasons for some tags.
pub fn reasons_for_tags()
    ensures nested_divs { Explains nested_divs }
    ensures not_the_nearest { Explains not_the_nearest }
    ensures two_parents { Explains two_parents }
    ensures no_parent { Explains no_parent }
    ensures after_an_end { Explains after_an_end }
    ensures lists { Explains lists }
    ensures void_element { Explains void_element }
    ensures inside_no_void { Explains inside_no_void }
    ensures foreign_elements { Explains foreign_elements }
    ensures functions { Explains functions }
{}
