//! Worked rows: what the definitions give for pages of known meaning. Each function is empty: its contract is the rows.

ghost use Rattle.std.specs.Prelude.{◌≡◌, ◌∷◌, [], true, false, codes};
ghost use Rattle.lol_base.specs.declared.namespace.Namespace.TheVariants.{Html, MathML, Svg};
ghost use Rattle.lol_machine.specs.Events.{End};
ghost use Rattle.lol_page.specs.PageRows.{tags_read, tags_said, page_text_rows, point_rows, coded_point_rows, breakout_rows, end_rows, places_read, lines_page, place, start, attribute, refusals_read, reads_on, select_rows, frameset_rows, template_rows};
ghost use Rattle.lol_page.specs.Pages.{page_events};

/// Texts of elements, raw in HTML alone, and CDATA sections outside it.
pub fn page_texts()
    ensures { tags_read false page_text_rows ≡ tags_said page_text_rows }
{}

/// Integration points.
pub fn points()
    ensures { tags_read false point_rows ≡ tags_said point_rows }
{}

/// Tags that leave svg and math.
pub fn breakouts()
    ensures { tags_read false breakout_rows ≡ tags_said breakout_rows }
{}

/// End tags.
pub fn end_tags()
    ensures { tags_read false end_rows ≡ tags_said end_rows }
{}

/// Lines and columns.
pub fn lines()
    ensures { places_read lines_page
        ≡ place 1 2 ∷ place 2 1 ∷ place 3 2 ∷ place 4 2 ∷ place 5 1 ∷ place 7 1 ∷ place 9 1 ∷ [] }
{}

/// What is told of a page.
pub fn events()
    ensures { page_events false false (codes "<P a=b/></p ><svg C='d'/>")
        ≡ start (codes "P") Html (attribute (codes "a") (codes "b/") ∷ []) false ∷ End (codes "p")
        ∷ start (codes "svg") Svg (attribute (codes "C") (codes "d") ∷ []) true ∷ [] }
{}

/// Values that are decoded, and that are read as they are written.
pub fn values()
    ensures decoded { page_events false true (codes "<a b='c&amp;d'>")
        ≡ start (codes "a") Html (attribute (codes "b") (codes "c&d") ∷ []) false ∷ [] }
    ensures written { page_events false false (codes "<a b='c&amp;d'>")
        ≡ start (codes "a") Html (attribute (codes "b") (codes "c&amp;d") ∷ []) false ∷ [] }
    ensures point { tags_read true (coded_point_rows Html) ≡ tags_said (coded_point_rows Html) }
    ensures no_point { tags_read false (coded_point_rows MathML) ≡ tags_said (coded_point_rows MathML) }
{}

/// Start tags that are ambiguous in a `select`.
pub fn selects()
    ensures with_scripts { refusals_read true select_rows ≡ tags_said select_rows }
    ensures without_scripts { refusals_read false (reads_on (codes "<select><noscript>") ∷ []) ≡ [] ∷ [] }
{}

/// Those behind a `frameset`.
pub fn framesets()
    ensures { refusals_read true frameset_rows ≡ tags_said frameset_rows }
{}

/// Those in templates.
pub fn templates()
    ensures { refusals_read true template_rows ≡ tags_said template_rows }
{}
