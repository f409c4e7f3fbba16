//! Elements of HTML that never have content.

ghost use Rattle.std.specs.Prelude.{◌≡◌, true, false, length};
ghost use Rattle.lol_base.specs.declared.namespace.Namespace.TheVariants.{Html, Svg, MathML};
ghost use Rattle.lol_vectors.specs.Runs.{start_in, self_closing_in};
ghost use Rattle.lol_vectors.specs.VoidNames.{without_any_content, near_misses, names_of_esi, near_esi, opens_nothing, opens, AllAnswer};

/// The 17 names, in any case, open nothing in HTML, whether ESI is on, and their end tags close nothing. In SVG and MathML they open, unless
/// their tags close themselves.
fn void_names()
    ensures count { length without_any_content ≡ 51 }
    ensures html { AllAnswer false (start_in Html) without_any_content (opens_nothing false) }
    ensures html_with_esi { AllAnswer true (start_in Html) without_any_content (opens_nothing false) }
    ensures svg { AllAnswer false (start_in Svg) without_any_content (opens true) }
    ensures mathml { AllAnswer false (start_in MathML) without_any_content (opens true) }
    ensures closed_in_svg { AllAnswer false (self_closing_in Svg) without_any_content (opens_nothing true) }
    ensures closed_in_mathml { AllAnswer false (self_closing_in MathML) without_any_content (opens_nothing true) }
{}

/// Other names open, also where their tags close themselves.
fn near_misses_open()
    ensures html { AllAnswer false (start_in Html) near_misses (opens false) }
    ensures html_with_esi { AllAnswer true (start_in Html) near_misses (opens false) }
    ensures self_closing { AllAnswer false (self_closing_in Html) near_misses (opens false) }
{}

/// The two names of ESI open nothing in HTML where ESI is on and they are spelled exactly so; else they open.
fn esi_names()
    ensures on { AllAnswer true (start_in Html) names_of_esi (opens_nothing false) }
    ensures off { AllAnswer false (start_in Html) names_of_esi (opens false) }
    ensures on_in_svg { AllAnswer true (start_in Svg) names_of_esi (opens true) }
    ensures on_in_mathml { AllAnswer true (start_in MathML) names_of_esi (opens true) }
    ensures near { AllAnswer true (start_in Html) near_esi (opens false) }
{}
