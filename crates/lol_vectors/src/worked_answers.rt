//! Worked rows of the definitions, each checked by computing it.

ghost use Rattle.std.specs.Prelude.{◌≡◌, ◌∷◌, [], Some, None, true, false, codes};
ghost use Rattle.lol_instructions.specs.Tests.{HasAttribute, attribute_holds};
ghost use Rattle.lol_memory.specs.Slots.{slots};
ghost use Rattle.lol_machine.specs.Refusals.{Limit};
ghost use Rattle.lol_vectors.specs.WorkedAnswers.{Holds, refused_at, descendant_and_child, class_above, nested_divs, not_a_compound, not_neither, neither_class_nor_name, not_an_empty_substring, nothing_and_anything, some_compound, none_of_some, child_of_some, negative_step, of_mathml, AreValues, all_stand, has_id, has_class, element_with_attributes, written, unwritten, second_child, second_span, caseless_in_html, empty_operand, esi_names, dropped_tag, self_closing_tag, links};

/// Answers to some tags.
fn answers_to_tags()
    ensures descendant_and_child { Holds descendant_and_child }
    ensures class_above { Holds class_above }
    ensures nested_divs { Holds nested_divs }
    ensures second_child { Holds second_child }
    ensures second_span { Holds second_span }
    ensures caseless_in_html { Holds caseless_in_html }
    ensures empty_operand { Holds empty_operand }
    ensures esi_names { Holds esi_names }
    ensures dropped_tag { Holds dropped_tag }
    ensures self_closing_tag { Holds self_closing_tag }
    ensures links { Holds links }
{}

/// Answers where compounds are negated or chosen among.
fn answers_to_functions()
    ensures not_a_compound { Holds not_a_compound }
    ensures not_neither { Holds not_neither }
    ensures neither_class_nor_name { Holds neither_class_nor_name }
    ensures not_an_empty_substring { Holds not_an_empty_substring }
    ensures nothing_and_anything { Holds nothing_and_anything }
    ensures some_compound { Holds some_compound }
    ensures none_of_some { Holds none_of_some }
    ensures child_of_some { Holds child_of_some }
    ensures negative_step { Holds negative_step }
    ensures of_mathml { Holds of_mathml }
{}

/// The value by names of each kind of test.
fn values_by_names()
    ensures { AreValues }
{}

/// Each operator on a value, with an operand and an empty one: `=`, `~=`, `|=`, `^=`, `*=`, `$=`.
fn operators()
    ensures whole { all_stand (codes "ab") (codes "ab") ≡ (true ∷ true ∷ true ∷ true ∷ true ∷ true ∷ []) }
    ensures word { all_stand (codes "b") (codes "a b") ≡ (false ∷ true ∷ false ∷ false ∷ true ∷ true ∷ []) }
    ensures dash { all_stand (codes "a") (codes "a-b") ≡ (false ∷ false ∷ true ∷ true ∷ true ∷ false ∷ []) }
    ensures longer { all_stand (codes "abc") (codes "ab") ≡ (false ∷ false ∷ false ∷ false ∷ false ∷ false ∷ []) }
    ensures no_operand { all_stand [] (codes "x") ≡ (false ∷ false ∷ false ∷ false ∷ false ∷ false ∷ []) }
    ensures nothing { all_stand [] [] ≡ (true ∷ false ∷ true ∷ false ∷ false ∷ false ∷ []) }
    ensures dash_first { all_stand [] (codes "-x") ≡ (false ∷ false ∷ true ∷ false ∷ false ∷ false ∷ []) }
{}

/// Ids, classes and their white space, and names of attributes.
fn ids_and_classes()
    ensures first_of_two { has_id (codes "A")
        (written (codes "ID") (codes "A") ∷ written (codes "id") (codes "b") ∷ []) ≡ true }
    ensures second_of_two { has_id (codes "b")
        (written (codes "ID") (codes "A") ∷ written (codes "id") (codes "b") ∷ []) ≡ false }
    ensures unwritten_id { has_id [] (unwritten (codes "id") ∷ []) ≡ true }
    ensures class { has_class (codes "a") (codes " a  b") ≡ true }
    ensures no_class { has_class [] (codes " a  b") ≡ true }
    ensures class_case { has_class (codes "A") (codes " a  b") ≡ false }
    ensures class_spaces { has_class (codes "b") (97 ∷ 9 ∷ 98 ∷ 10 ∷ 99 ∷ 12 ∷ 100 ∷ 13 ∷ []) ≡ true }
    ensures other_spaces { has_class (codes "b") (97 ∷ 11 ∷ 98 ∷ []) ≡ false }
    ensures capital_kept { attribute_holds (HasAttribute (codes "FOO"))
        (element_with_attributes (written (codes "foo") [] ∷ [])) ≡ false }
    ensures capital_found { attribute_holds (HasAttribute (codes "foo"))
        (element_with_attributes (written (codes "FOO") [] ∷ [])) ≡ true }
{}

/// Slots for items of 64, 512 and 7 bytes, and the tag at which a limit is passed.
fn charges_and_limits()
    ensures slots { (slots 64 0 ∷ slots 64 1 ∷ slots 64 9 ∷ slots 512 3 ∷ slots 7 18 ∷ slots 7 19 ∷ [])
        ≡ (0 ∷ 8 ∷ 16 ∷ 8 ∷ 18 ∷ 36 ∷ []) }
    ensures too_little { refused_at 511 1 ≡ Some (0, Limit) }
    ensures eight_fit { refused_at 512 8 ≡ None }
    ensures ninth { refused_at 512 9 ≡ Some (8, Limit) }
    ensures ninth_at_1023 { refused_at 1023 9 ≡ Some (8, Limit) }
    ensures sixteen_fit { refused_at 1024 16 ≡ None }
    ensures seventeenth { refused_at 1024 17 ≡ Some (16, Limit) }
{}
