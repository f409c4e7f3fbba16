//! Worked rows: what the definitions give for pages of known trees. Each function is empty: its contract is the rows.

ghost use Rattle.std.specs.Prelude.{◌≡◌, [], false, true, map, replicate, length};
ghost use Rattle.lol_tree.specs.BodyRows.{paragraph_rows, item_rows, heading_rows, option_rows, form_rows, end_tag_rows, formatting_rows, other_rows, each_name_rows};
ghost use Rattle.lol_tree.specs.ModeRows.{document_rows, noscript_rows, table_rows, caption_rows, cell_rows, select_rows, table_select_rows, template_rows};
ghost use Rattle.lol_tree.specs.ForeignRows.{integration_rows, leaving_rows, foreign_end_rows};
ghost use Rattle.lol_tree.specs.Doctypes.{says_quirks};
ghost use Rattle.lol_tree.specs.ToldRows.{events_told, words_said, implied_rows, ending_rows, reopened_rows, noscript_told_rows, count_told, blocks_in_bold, many_in_paragraph, kind_behind, kind_pages, kinds_said, plain_doctypes, quirks_doctypes, quirks_rows};
ghost use Rattle.lol_tree.specs.TreeRows.{trees_told, trees_said, end, some_text};

/// `p`: what closes it, where a button keeps it open, in which mode a table does, and a stray `</p>`.
pub fn paragraphs()
    ensures { trees_told paragraph_rows ≡ trees_said paragraph_rows }
{}

/// `li`, `dd` and `dt`.
pub fn items()
    ensures { trees_told item_rows ≡ trees_said item_rows }
{}

/// Headings.
pub fn headings()
    ensures { trees_told heading_rows ≡ trees_said heading_rows }
{}

/// `option`, `optgroup` and the parts of `ruby`.
pub fn options()
    ensures { trees_told option_rows ≡ trees_said option_rows }
{}

/// `button` and `form`: one at a time, and the end of a form inside others.
pub fn forms()
    ensures { trees_told form_rows ≡ trees_said form_rows }
{}

/// End tags: those of blocks in scope, others up to a special element, and what is ignored.
pub fn end_tags()
    ensures { trees_told end_tag_rows ≡ trees_said end_tag_rows }
{}

/// Formatting elements: created again, at most three alike, and those that stand once.
pub fn formatting()
    ensures { trees_told formatting_rows ≡ trees_said formatting_rows }
{}

/// `image`, void elements, and text without tags.
pub fn others()
    ensures { trees_told other_rows ≡ trees_said other_rows }
{}

/// `html`, `head` and `body`: implied, written, and a second time.
pub fn documents()
    ensures { trees_told document_rows ≡ trees_said document_rows }
{}

/// `noscript` in the head, where scripts don't run.
pub fn noscripts()
    ensures { trees_told noscript_rows ≡ trees_said noscript_rows }
{}

/// Tables and their parts.
pub fn tables()
    ensures { trees_told table_rows ≡ trees_said table_rows }
{}

/// Captions and columns.
pub fn captions()
    ensures { trees_told caption_rows ≡ trees_said caption_rows }
{}

/// Cells, and forms and inputs in tables.
pub fn cells()
    ensures { trees_told cell_rows ≡ trees_said cell_rows }
{}

/// `select`.
pub fn selects()
    ensures { trees_told select_rows ≡ trees_said select_rows }
{}

/// `select` in tables.
pub fn selects_in_tables()
    ensures { trees_told table_select_rows ≡ trees_said table_select_rows }
{}

/// `template`.
pub fn templates()
    ensures { trees_told template_rows ≡ trees_said template_rows }
{}

/// Integration points.
pub fn points()
    ensures { trees_told integration_rows ≡ trees_said integration_rows }
{}

/// Tags that leave foreign content.
pub fn breakouts()
    ensures { trees_told leaving_rows ≡ trees_said leaving_rows }
{}

/// End tags, and tags that close themselves.
pub fn foreign_ends()
    ensures { trees_told foreign_end_rows ≡ trees_said foreign_end_rows }
{}

/// Pages that differ in one name.
pub fn names()
    ensures { trees_told each_name_rows ≡ trees_said each_name_rows }
{}

/// Implied elements.
pub fn implied()
    ensures { events_told false implied_rows ≡ words_said implied_rows }
{}

/// End tags that close, leave or are ignored.
pub fn endings()
    ensures { events_told false ending_rows ≡ words_said ending_rows }
{}

/// Ends of formatting elements, and of forms, with others open inside.
pub fn reopened()
    ensures { events_told false reopened_rows ≡ words_said reopened_rows }
{}

/// `noscript`, where scripts run.
pub fn scripting()
    ensures { events_told true noscript_told_rows ≡ words_said noscript_told_rows }
{}

/// At most 20 blocks are opened again, each by three events, and at most 32 formatting elements are created again.
pub fn limits()
    ensures within { count_told (blocks_in_bold 20) (end "b") ≡ 81 }
    ensures beyond { count_told (blocks_in_bold 21) (end "b") ≡ 0 }
    ensures created { count_told many_in_paragraph some_text ≡ 32 }
{}

/// Text without tags, text to the end, and CDATA sections.
pub fn texts()
    ensures { map kind_behind kind_pages ≡ kinds_said }
{}

/// Doctypes.
pub fn doctypes()
    ensures plain { map says_quirks plain_doctypes ≡ replicate (length plain_doctypes) false }
    ensures quirks { map says_quirks quirks_doctypes ≡ replicate (length quirks_doctypes) true }
    ensures first { trees_told quirks_rows ≡ trees_said quirks_rows }
{}
