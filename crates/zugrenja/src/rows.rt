//! Worked rows: what the definitions give. Each function is empty: its contract is the rows.

ghost use Rattle.std.specs.Prelude.{◌≡◌, ◌++◌, ◌∷◌, [], None, Some, codes, false, true};
ghost use Rattle.zugrenja.specs.Lines.{count_line, json_line, numbers_line, page_prefix, tag_member, text_line};
ghost use Rattle.zugrenja.specs.Json.{json_byte};
ghost use Rattle.std.specs.List.{flat_map};
ghost use Rattle.zugrenja.specs.LineRows.{odd, parted, under};

/// Lines of a tag's bytes.
pub fn texts()
    ensures plain { text_line (page_prefix false (Some (codes "p"))) false 2 13 (under 1 ∷ []) parted
        ≡ codes "2:13: <a >" ++ 10 ∷ [] }
    ensures whole { text_line (page_prefix true (Some (codes "p"))) true 2 13 (under 1 ∷ under 12 ∷ []) parted
        ≡ codes "p:2:13: 1,12: <a >" ++ 10 ∷ [] }
{}

/// Lines of numbers.
pub fn numbers()
    ensures ids { numbers_line (page_prefix true None) 1 1 (under 3 ∷ []) ≡ codes "(standard input):1:1: 3" ++ 10 ∷ [] }
    ensures count { count_line (page_prefix true (Some (codes "p"))) 120 ≡ codes "p:120" ++ 10 ∷ [] }
{}

/// JSON objects, and what is escaped in their strings.
pub fn objects()
    ensures object { json_line None odd
        ≡ codes "{\"line\":2,\"column\":13,\"offset\":40,\"length\":6,\"selectors\":[1,12],"
        ++ (tag_member odd.tag.text ++ (codes "}" ++ 10 ∷ [])) }
    ensures escapes { flat_map json_byte (codes "a\"b\\c" ++ 10 ∷ 31 ∷ 195 ∷ 164 ∷ [])
        ≡ codes "a\\\"b\\\\c\\u000a\\u001f" ++ 195 ∷ 164 ∷ [] }
{}
