//! Texts of selectors, and when texts and places are the same.

ghost use Rattle.std.specs.Prelude.{◌≡◌, [], ◌∷◌, map, replicate, true, false, codes, pos, negsuc};
ghost use Rattle.lol_base.specs.Progression.{Has};
ghost use Rattle.lol_base.specs.SameText.{SameText};
ghost use Rattle.lol_base.specs.declared.comparison.CaseSensitivity.TheVariants.{CaseSensitive, AsciiCaseInsensitive};
ghost use Rattle.lol_css.specs.declared.error.SelectorError.TheVariants.{UnsupportedPseudoClassOrElement};
ghost use Rattle.lol_vectors.specs.WorkedTexts.{refused_late, refused_at_once, after_a_sibling, all_refused, sibling, node_count, told_of, parted_by, with_operators, reads_class};

/// Texts are equal with or without the case of ASCII letters, and of no other sign.
fn texts_are_the_same()
    ensures exact { SameText CaseSensitive (codes "aZ") (codes "aZ") }
    ensures case_differs { SameText CaseSensitive (codes "aZ") (codes "Az") → ⊥ }
    ensures letters { SameText AsciiCaseInsensitive (codes "azAZ-1") (codes "AZaz-1") }
    ensures brackets { SameText AsciiCaseInsensitive (codes "[") (codes "{") → ⊥ }
    ensures at_sign { SameText AsciiCaseInsensitive (codes "@") (codes "`") → ⊥ }
    ensures umlaut { SameText AsciiCaseInsensitive (196 ∷ []) (228 ∷ []) → ⊥ }
{}

/// Indices on a progression: 5 is 3 * 2 - 1, 1 is -2 * 3 + 7, and 4 is 0 * 0 + 4.
fn indices_lie_on_progressions()
    ensures rising { Has (record { step = pos 3; offset = negsuc 0 }) (pos 5) }
    ensures falling { Has (record { step = negsuc 1; offset = pos 7 }) (pos 1) }
    ensures alone { Has (record { step = pos 0; offset = pos 4 }) (pos 4) }
{}

/// What is refused where it is read is named before what is refused once the whole list was read.
fn causes_have_their_order()
    ensures late { after_a_sibling refused_late ≡ all_refused sibling refused_late }
    ensures at_once { after_a_sibling refused_at_once ≡ all_refused UnsupportedPseudoClassOrElement refused_at_once }
{}

/// How many nodes texts have: each beginning of their paths once, and tests in another order, or with another flag, are another node.
fn nodes_are_counted()
    ensures shared { node_count (codes "div p" ∷ codes "div > p" ∷ codes "div" ∷ codes "p" ∷ []) ≡ 4 }
    ensures order { node_count (codes ".a.b" ∷ codes ".b.a" ∷ codes ".a.b" ∷ []) ≡ 2 }
    ensures flags { node_count (codes "[a=b]" ∷ codes "[a=b s]" ∷ codes "[a=b i]" ∷ codes "[a='b']" ∷ []) ≡ 3 }
    ensures operators { node_count (codes "[a=b]" ∷ codes "[a~=b]" ∷ codes "[a|=b]" ∷ codes "[a^=b]"
        ∷ codes "[a$=b]" ∷ codes "[a*=b]" ∷ codes "[a]" ∷ codes "[A]" ∷ []) ≡ 7 }
    ensures functions { node_count (codes ":is(a)" ∷ codes ":where(a)" ∷ codes "a"
        ∷ codes ":not(a)" ∷ codes ":not(:not(a))" ∷ []) ≡ 4 }
    ensures lists { node_count (codes ":not(a, b)" ∷ codes ":not(b, a)" ∷ codes ":not(a):not(b)" ∷ []) ≡ 3 }
    ensures places { node_count (codes ":nth-child(2)" ∷ codes ":nth-of-type(2)"
        ∷ codes ":nth-child(n+2)" ∷ codes ":nth-child(0n+2)" ∷ []) ≡ 3 }
    ensures names { node_count (codes "a" ∷ codes "*" ∷ codes "|a" ∷ codes "#a" ∷ codes ".a" ∷ []) ≡ 5 }
{}

/// ASCII white space parts words: tab, LF, form feed, CR and space; a vertical tab, NUL and a hyphen don't.
fn white_space_parts_words()
    ensures white { map parted_by (9 ∷ 10 ∷ 12 ∷ 13 ∷ 32 ∷ []) ≡ replicate 5 ((0 ∷ 1 ∷ []) ∷ []) }
    ensures black { map parted_by (11 ∷ 0 ∷ 45 ∷ 160 ∷ []) ≡ replicate 4 ([] ∷ []) }
{}

/// Operators: which of `=`, `~=`, `|=`, `^=`, `$=` and `*=` hold of a value.
fn operators_hold()
    ensures whole { told_of (codes "t") (codes "en") (with_operators (codes "en")) ≡ (0 ∷ 1 ∷ 2 ∷ 3 ∷ 4 ∷ 5 ∷ []) ∷ [] }
    ensures dash { told_of (codes "t") (codes "en-us") (with_operators (codes "en")) ≡ (2 ∷ 3 ∷ 5 ∷ []) ∷ [] }
    ensures words { told_of (codes "t") (codes "de en fr") (with_operators (codes "en")) ≡ (1 ∷ 5 ∷ []) ∷ [] }
    ensures last { told_of (codes "t") (codes "xen") (with_operators (codes "en")) ≡ (4 ∷ 5 ∷ []) ∷ [] }
    ensures first { told_of (codes "t") (codes "eng") (with_operators (codes "en")) ≡ (3 ∷ 5 ∷ []) ∷ [] }
    ensures other { told_of (codes "t") (codes "EN") (with_operators (codes "en")) ≡ [] ∷ [] }
    ensures empty { told_of (codes "t") [] (with_operators (codes "''")) ≡ (0 ∷ 2 ∷ []) ∷ [] }
    ensures empty_operand { told_of (codes "t") (codes "x") (with_operators (codes "''")) ≡ [] ∷ [] }
{}

/// Code points that begin a name, and signs that don't.
fn names_are_read()
    ensures begins { map reads_class (codes "A" ∷ codes "z" ∷ codes "_" ∷ codes "--" ∷ codes "-"
        ∷ codes "\\" ∷ (194 ∷ 128 ∷ []) ∷ (195 ∷ 164 ∷ []) ∷ []) ≡ replicate 8 true }
    ensures other { map reads_class (codes "1" ∷ codes "-1" ∷ codes "@" ∷ codes "["
        ∷ codes "`" ∷ codes "{" ∷ codes "\\\n" ∷ codes "/" ∷ (127 ∷ []) ∷ []) ≡ replicate 9 false }
{}
