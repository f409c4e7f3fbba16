//! Lines and scripts whose meaning is computed from the definition.

ghost use Rattle.std.specs.Prelude.{◌≡◌, [], ◌∷◌, ◌++◌, Some, None, true, false, codes};
ghost use Rattle.lol_base.specs.declared.namespace.Namespace.TheVariants.{Html, Svg};
ghost use Rattle.lol_machine.specs.Refusals.{Limit, Counter};
ghost use Rattle.lol_script.specs.Script.{line_at, number_up_to, SetLimit, TurnEsiOn, ShowTries, ShowReasons, MakeRows, Select, EndLine};
ghost use Rattle.lol_script.specs.Scripts.{output, shown_cause};
ghost use Rattle.lol_script.specs.WorkedRows.{attribute, start_line, written};
ghost use Rattle.lol_script.specs.declared.program.Status.TheVariants.{Good, BadLine, Refused};

/// Numbers: one or more digits, up to a greatest one.
pub fn worked_numbers()
    ensures leading_zeros { number_up_to 4294967295 (codes "0007") ≡ Some 7 }
    ensures empty { number_up_to 4294967295 [] ≡ None }
    ensures sign { number_up_to 4294967295 (codes "+7") ≡ None }
    ensures greatest { number_up_to 4294967295 (codes "4294967295") ≡ Some 4294967295 }
    ensures too_great { number_up_to 4294967295 (codes "4294967296") ≡ None }
    ensures greatest_limit { line_at (codes "limit\t18446744073709551615") ≡ Some (SetLimit 18446744073709551615) }
    ensures limit_too_great { line_at (codes "limit\t18446744073709551616") ≡ None }
    ensures limit_tab { line_at (codes "limit\t5\t") ≡ None }
{}

/// Lines before the first tag line.
pub fn worked_settings()
    ensures esi { line_at (codes "esi") ≡ Some TurnEsiOn }
    ensures esi_return { line_at (codes "esi\r") ≡ None }
    ensures esi_tab { line_at (codes "esi\t") ≡ None }
    ensures tries { line_at (codes "tries") ≡ Some ShowTries }
    ensures tries_tab { line_at (codes "tries\t") ≡ None }
    ensures explain { line_at (codes "explain") ≡ Some ShowReasons }
    ensures explain_return { line_at (codes "explain\r") ≡ None }
    ensures explain_tab { line_at (codes "explain\t") ≡ None }
    ensures explain_capital { line_at (codes "Explain") ≡ None }
    ensures rows { line_at (codes "rows") ≡ Some (MakeRows 256) }
    ensures rows_from { line_at (codes "rows\t0") ≡ Some (MakeRows 0) }
    ensures rows_return { line_at (codes "rows\r") ≡ None }
    ensures rows_tab { line_at (codes "rows\t") ≡ None }
    ensures rows_two { line_at (codes "rows\t1\t2") ≡ None }
    ensures rows_capital { line_at (codes "Rows") ≡ None }
    ensures capital { line_at (codes "ESI") ≡ None }
{}

/// Lines of selectors.
pub fn worked_selects()
    ensures no_text { line_at (codes "select\t0") ≡ None }
    ensures empty_text { line_at (codes "select\t0\t") ≡ Some (Select 0 []) }
    ensures text_with_tabs { line_at (codes "select\t12\ta\tb\t") ≡ Some (Select 12 (codes "a\tb\t")) }
    ensures no_id { line_at (codes "select\t\ta") ≡ None }
    ensures no_utf8 { line_at (115 ∷ 101 ∷ 108 ∷ 101 ∷ 99 ∷ 116 ∷ 9 ∷ 48 ∷ 9 ∷ 255 ∷ []) ≡ None }
{}

/// Tag lines.
pub fn worked_tags()
    ensures plain { line_at (codes "start\thtml\tdiv") ≡ Some (start_line (codes "div") Html [] false true) }
    ensures dropped { line_at (codes "drop\thtml\tdiv") ≡ Some (start_line (codes "div") Html [] false false) }
    ensures attributes { line_at (codes "start\tsvg/\tcircle\ta=b=c\td") ≡ Some (start_line (codes "circle") Svg
        (attribute (codes "a") (Some (codes "b=c")) ∷ attribute (codes "d") None ∷ []) true true) }
    ensures no_name { line_at (codes "start\thtml") ≡ None }
    ensures empty_name { line_at (codes "start\thtml\t") ≡ None }
    ensures tab { line_at (codes "start\thtml\tdiv\t") ≡ None }
    ensures no_attribute_name { line_at (codes "start\thtml\tdiv\t=b") ≡ None }
    ensures no_namespace { line_at (codes "start\txml\tdiv") ≡ None }
    ensures end { line_at (codes "end\tdiv") ≡ Some (EndLine (codes "div")) }
    ensures end_tab { line_at (codes "end\tdiv\t") ≡ None }
    ensures end_empty { line_at (codes "end\t") ≡ None }
    ensures end_alone { line_at (codes "end") ≡ None }
{}

/// Whole scripts: what is written, and how the run ends.
pub fn worked_outputs()
    ensures nothing { output [] ≡ written [] Good }
    ensures descendant_and_child { output (codes "select\t0\tdiv p\nselect\t1\tdiv > p\n"
        ++ codes "start\thtml\tdiv\nstart\thtml\tsection\nstart\thtml\tp\nend\tdiv")
        ≡ written (codes "start\t-\nstart\t-\nstart\t0\nend\t0,1,2\n") Good }
    ensures tries { output (codes "tries\nselect\t0\tdiv p\nselect\t1\tdiv > p\n"
        ++ codes "start\thtml\tdiv\nstart\thtml\tsection\nstart\thtml\tp\nend\tdiv\n")
        ≡ written (codes "start\t-\ttries 1 0\nstart\t-\ttries 3 0\nstart\t0\ttries 2 0\nend\t0,1,2\n") Good }
    ensures tries_with_rows { output (codes "rows\t0\ntries\nselect\t0\tdiv p\nselect\t1\t.a\nselect\t2\tp\n"
        ++ codes "start\thtml\tdiv\nstart\thtml\tp\tclass=a\n")
        ≡ written (codes "start\t-\tasked\ttries 1 0\nstart\t0,1,2\tasked\ttries 3 1\n") Good }
    ensures without_content { output (codes "select\t4\t* > br, P\nselect\t2\tp\n"
        ++ codes "start\thtml\tp\nstart\thtml\tBR\nstart\thtml\tp\nend\tP\nend\tP\n")
        ≡ written (codes "start\t2,4\nstart\t4/\nstart\t2,4\nend\t2\nend\t0\n") Good }
    ensures dropped { output (codes "select\t0\t*\ndrop\tsvg\tg\nstart\thtml\tp\nend\tg\n")
        ≡ written (codes "dropped\nstart\t0\nend\t-\n") Good }
    ensures foreign { output (codes "tries\nselect\t0\tcircle\nstart\tsvg/\tcircle\nend\tcircle\n")
        ≡ written (codes "start\t0/\tasked\ttries 1 0\nend\t-\n") Good }
    ensures limit { output (codes "limit\t512\nselect\t0\t*\n"
        ++ codes "start\thtml\ta\nstart\thtml\tb\nstart\thtml\tc\nstart\thtml\td\nstart\thtml\te\n"
        ++ codes "start\thtml\tf\nstart\thtml\tg\nstart\thtml\th\nstart\thtml\ti\n")
        ≡ written (codes "start\t0\nstart\t0\nstart\t0\nstart\t0\nstart\t0\nstart\t0\nstart\t0\nstart\t0\n"
        ++ codes "refused limit\n") Refused }
    ensures last_limit { output (codes "limit\t512\nlimit\t511\nstart\thtml\ta\n")
        ≡ written (codes "refused limit\n") Refused }
    ensures attributes { output (codes "tries\nselect\t0\t.a p\nselect\t1\tp\n"
        ++ codes "start\thtml\tdiv\tclass=a\nstart\thtml\tp\n")
        ≡ written (codes "start\t-\tasked\ttries 2 1\nstart\t0,1\tasked\ttries 3 1\n") Good }
    ensures attribute_with_equals { output (codes "select\t0\t[b=\"c=d\"]\nstart\tmathml/\tmi\tb=c=d\n")
        ≡ written (codes "start\t0/\tasked\n") Good }
    ensures esi { output (codes "esi\nselect\t0\t*\nstart\thtml\tesi:include\nstart\thtml\tp\nend\tesi:include\n")
        ≡ written (codes "start\t0/\nstart\t0\nend\t-\n") Good }
{}

/// Why a run is refused. A full counter takes more lines than a row has.
pub fn worked_causes()
    ensures limit { shown_cause Limit ≡ codes "refused limit" }
    ensures counter { shown_cause Counter ≡ codes "refused counter" }
{}

/// Scripts with a bad line.
pub fn worked_bad_lines()
    ensures bad_selector { output (codes "select\t0\tdiv + span")
        ≡ written (codes "bad line 1: UnsupportedCombinator(+)\n") BadLine }
    ensures empty_selector { output (codes "select\t0\t") ≡ written (codes "bad line 1: EmptySelector\n") BadLine }
    ensures bad_form { output (codes "start\thtml\n") ≡ written (codes "bad line 1: form\n") BadLine }
    ensures late_setting { output (codes "end\tp\nesi\n") ≡ written (codes "bad line 2: form\n") BadLine }
    ensures late_bad_line { output (codes "start\thtml\tp\n\nselect\t0\tdiv + span")
        ≡ written (codes "bad line 3: form\n") BadLine }
{}

/// The lines of reasons.
pub fn worked_reasons()
    ensures lists { output (codes "explain\nselect\t7\tp, div > p\nselect\t7\tdiv p\n"
        ++ codes "start\thtml\tdiv\nstart\thtml\tsection\nstart\thtml\tp\nend\tdiv\n")
        ≡ written (codes "start\t-\nstart\t-\nstart\t7\nwhy\t7\t2\t0\t2\nwhy\t7\t3\t0\t0,2\nend\t0,1,2\n") Good }
{}
