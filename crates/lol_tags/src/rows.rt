//! Worked rows: what the definitions give for texts of known meaning. Each function is empty: its contract is the rows.

ghost use Rattle.std.specs.Prelude.{◌≡◌, ◌∷◌, [], true, false, map, codes};
ghost use Rattle.lol_tags.specs.Reading.{fresh, tags_from, tags_of};
ghost use Rattle.lol_tags.specs.WorkedRows.{tags_by, said, tag_rows, comment_rows, text_rows, script_rows, with_scripting, without_scripting, in_foreign, foreign_rows, in_foreign_style, tag, attribute_rows, outline};
ghost use Rattle.lol_tags.specs.Attributes.{attributes_of, outlines_of};

/// Tags, what is no tag, and attributes.
pub fn tags()
    ensures { tags_by (fresh false) tag_rows ≡ said tag_rows }
{}

/// Comments.
pub fn comments()
    ensures { tags_by (fresh false) comment_rows ≡ said comment_rows }
{}

/// Texts of elements that hold no tags.
pub fn texts()
    ensures { tags_by (fresh false) text_rows ≡ said text_rows }
{}

/// Scripts.
pub fn scripts()
    ensures { tags_by (fresh false) script_rows ≡ said script_rows }
{}

/// `noscript`, where scripts run and where they don't.
pub fn scripting()
    ensures runs { tags_by (fresh true) with_scripting ≡ said with_scripting }
    ensures runs_not { tags_by (fresh false) without_scripting ≡ said without_scripting }
{}

/// CDATA sections, and an element of a foreign namespace whose name is that of an HTML element.
pub fn foreign_content()
    ensures sections { tags_by in_foreign foreign_rows ≡ said foreign_rows }
    ensures texts { tags_from in_foreign_style (codes "<b></style>")
        ≡ tag 7 9 10 false false ∷ tag 10 17 18 true false ∷ [] }
{}

/// Places of names, and marks.
pub fn places()
    ensures { tags_of false (codes "<Br/></A b><a /b><a b=c/><p / >")
        ≡ tag 0 3 5 false true ∷ tag 5 8 11 true false ∷ tag 11 13 17 false false
        ∷ tag 17 19 25 false false ∷ tag 25 27 31 false false ∷ [] }
{}

/// Attributes: their names and values.
pub fn attributes()
    ensures { map (λ row. attributes_of row.tag row.name_end) attribute_rows
        ≡ map (λ row. row.attributes) attribute_rows }
{}

/// Places of attributes.
pub fn outlines()
    ensures { outlines_of (codes "<a b c = 'd' e=f/>") 2
        ≡ outline 3 4 4 4 4 ∷ outline 5 6 10 11 12 ∷ outline 13 14 15 17 17 ∷ [] }
{}
