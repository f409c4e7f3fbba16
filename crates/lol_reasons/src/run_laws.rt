//! What those who use the answers of a run rely on, each law the contract of an empty function.

ghost use Rattle.lol_reasons.specs.AskedRuns.{AskedRunsAnswerAlike, ToldGoesOn};
ghost use Rattle.lol_reasons.specs.RunLaws.{EndsCloseInside, MarksTellContent, OneIdsPathsDecide, UnaskedAttributesChangeNothing};

/// The content mark of a report is false exactly for an HTML tag with a void name, where ESI is on
/// also with one of its two names, and for a self-closing tag of another namespace.
pub fn marks_tell_content()
    ensures { MarksTellContent }
{}

/// In runs where every request is finished, which start tags report an id depends on the events,
/// the ESI switch and the paths added under that id alone.
pub fn one_ids_paths_decide()
    ensures { OneIdsPathsDecide }
{}

/// An end tag whose name is open closes the innermost element of that name and all inside it, and
/// answers them outermost first.
pub fn ends_close_inside()
    ensures { EndsCloseInside }
{}

/// Where a start tag's attributes aren't asked for, others in their place change nothing: each node
/// matches the elements of the same events, and all is answered alike.
pub fn unasked_attributes_change_nothing()
    ensures { UnaskedAttributesChangeNothing }
{}

/// A run that is told of the attributes of a start tag only where they are asked for, and of others as it likes, answers what the run over
/// the tags as they are does. The same tag is refused first, and what comes next is answered and refused alike.
pub fn asked_runs_answer_alike()
    ensures alike { AskedRunsAnswerAlike }
    ensures goes_on { ToldGoesOn }
{}
