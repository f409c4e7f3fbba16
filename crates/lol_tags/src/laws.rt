//! What holds of the tags of all streams: each function takes and gives nothing, and its contract is the law.

ghost use Rattle.std.specs.Prelude.{◌≡◌, ◌≢◌, ◌+◌, ◌-◌, ◌^◌, ◌++◌, ◌∷◌, [], ℕ, Bool, true, false, ◌==◌, List, Some, length, codes, All};
ghost use Rattle.std.specs.Str.{byte};
ghost use Rattle.std.specs.List.{concat};
ghost use Rattle.lol_base.specs.Names.{lowercased};
ghost use Rattle.lol_base.specs.StartTags.{IsInside, OutlineIsInside};
ghost use Rattle.lol_tags.specs.Attributes.{outlines_of};
ghost use Rattle.lol_tags.specs.Reading.{name_code, fresh, step, ended, after, tags_from, tags_of, told_foreign, may_be_tag};
ghost use Rattle.lol_tags.specs.Cuts.{tags_of_chunks};
ghost use Rattle.lol_tags.specs.Places.{HasRead, needed_from, GoesOn, StandApart};
ghost use Rattle.lol_tags.specs.Idling.{stop, Lacks};
ghost use Rattle.lol_tags.specs.declared.reader.Tag.{Tag};
ghost use Rattle.lol_tags.specs.declared.reader.TagReader.{TagReader};
ghost use Rattle.lol_tags.specs.declared.state.State.TheVariants.{Data};

/// A stream may be cut anywhere: the tags of its chunks, read one after the other, are those of the whole.
pub fn cuts_change_nothing()
    ensures { (r : TagReader) (chunks : List (List ℕ)) → tags_of_chunks r chunks ≡ tags_from r (concat chunks) }
{}

/// Each tag stands from a `<` to behind a `>`, with its name between them, and begins at or behind the end of the tag before it.
pub fn tags_stand_apart()
    ensures { (scripting : Bool) (bytes : List ℕ) → StandApart bytes 0 (tags_of scripting bytes) }
{}

/// What is needed of a stream: after some bytes the tags to come stand behind the place of the `<` of an unfinished tag, or behind these
/// bytes. So it is for each reader, however it came to have read them.
pub fn unfinished_tags_are_kept()
    ensures fresh { (scripting : Bool) → HasRead [] (fresh scripting) }
    ensures after { (before bytes : List ℕ) (r : TagReader) → HasRead before r
        → HasRead (before ++ bytes) (after r bytes) }
    ensures told { (before : List ℕ) (foreign : Bool) (r : TagReader) → HasRead before r
        → HasRead before (told_foreign foreign r) }
    ensures tags { (before bytes : List ℕ) (r : TagReader) → HasRead before r
        → StandApart (before ++ bytes) (needed_from r) (tags_from r bytes) }
{}

/// Where a tag begins: it is one that wasn't whole before, or its `<` stands in what was read since; and behind a tag none is left unfinished.
pub fn unfinished_tags_go_on()
    ensures begins { (r : TagReader) (bytes : List ℕ) → GoesOn r (after r bytes) }
    ensures ends { (r : TagReader) (b : ℕ) (tag : Tag) → ended r b ≡ Some tag
        → (may_be_tag r.state ≡ true) × (may_be_tag (step r b).state ≡ false) }
{}

/// Text without `<` has no tags; and so it is in each state that one byte alone leads away from, as in raw text, a comment, a quoted value
/// or a CDATA section: bytes without it end no tag, and leave the reader as it is.
pub fn bytes_that_lead_nowhere_end_no_tag()
    ensures text { (scripting : Bool) (bytes : List ℕ) → Lacks (byte "<") bytes → tags_of scripting bytes ≡ [] }
    ensures none { (r : TagReader) (c : ℕ) (bytes : List ℕ) → stop r.state ≡ Some c → Lacks c bytes
        → tags_from r bytes ≡ [] }
    ensures stays { (r : TagReader) (c : ℕ) (bytes : List ℕ) → stop r.state ≡ Some c → Lacks c bytes
        → after r bytes ≡ record r { at = r.at + length bytes } }
{}

/// What stands in a comment is no tag: here without `-`, and not a comment that its first `>` ends.
pub fn comments_have_no_tags()
    ensures { (r : TagReader) (first : ℕ) (bytes : List ℕ) → r.state ≡ Data
        → (first == byte ">") ≡ false → Lacks (byte "-") (first ∷ bytes)
        → tags_from r (codes "<!--" ++ (first ∷ bytes ++ codes "-->")) ≡ [] }
{}

/// What stands in a CDATA section is no tag, where the current node isn't an HTML element: here without `]`.
pub fn cdata_sections_have_no_tags()
    ensures { (r : TagReader) (bytes : List ℕ) → r.state ≡ Data → r.foreign ≡ true → Lacks (byte "]") bytes
        → tags_from r (codes "<![CDATA[" ++ (bytes ++ codes "]]>")) ≡ [] }
{}

/// The attributes of a tag stand inside it: each name and value, and each whole attribute.
pub fn attributes_stand_inside()
    ensures parts { (tag : List ℕ) (name_end : ℕ) → All (OutlineIsInside tag) (outlines_of tag name_end) }
    ensures whole { (tag : List ℕ) (name_end : ℕ)
        → All (λ outline. IsInside tag outline.raw_range) (outlines_of tag name_end) }
{}

/// The code of a name is that of no other: names with the same code are the same in lower case, if it isn't the last code. Those of the
/// elements whose text is no markup are looked for by it.
pub fn a_code_belongs_to_one_name()
    ensures { (a b : List ℕ) → name_code a ≡ name_code b → name_code a ≢ 2 ^ 64 - 1 → lowercased a ≡ lowercased b }
{}
