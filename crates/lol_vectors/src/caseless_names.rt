//! Attributes whose values compare without case in HTML.

ghost use Rattle.std.specs.Prelude.{◌≡◌, length};
ghost use Rattle.lol_vectors.specs.CaselessNames.{caseless_names, caseless_spellings, exact_names, caseless_in_html_alone, exact_everywhere, AllReported};

/// The values of 46 attributes compare without case in HTML, unless the flag `s` stands; those of others don't, unless the flag `i` stands.
fn compares_without_case()
    ensures count { length caseless_names ≡ 46 }
    ensures caseless { AllReported caseless_names caseless_in_html_alone }
    ensures spelled { AllReported caseless_spellings caseless_in_html_alone }
    ensures exact { AllReported exact_names exact_everywhere }
{}
