//! Laws, each the contract of a function that takes and gives nothing.

ghost use Rattle.lol_machine.specs.ReportRoom.{ReportsAreFew};
ghost use Rattle.lol_machine.specs.Standing.{DocumentsAreOrdered};
ghost use Rattle.lol_machine.specs.VmLaws.{DataChangeNothing, DataKeepOpen, DataKeepRequests, LastDataAreLent, LastDataChange, PendingStands, SlotsAreOfDepth, StandingCounts, StandingHasOpen};
ghost use Rattle.lol_reasons.specs.NumberingLaws.{NumbersNameWhatMatches};
ghost use Rattle.lol_reasons.specs.ReasonLaws.{EachHasOneReason};
ghost use Rattle.lol_reasons.specs.AskedRuns.{AskedRunsAnswerAlike, ToldGoesOn};
ghost use Rattle.lol_matcher.specs.Plain.{ItemsAnswerAsTexts, ToldIsExplainedAlike};

use lol_machine::machine_laws::documents_are_ordered;
use lol_machine::vm_laws::{
    data_change_nothing, dropped_requests_stand, last_data_are_lent, reports_are_few,
    slots_are_of_depth, standing_counts, standing_has_open,
};
use lol_reasons::laws::{
    innermost_witnesses_are_known, numbers_change_reports_alone, numbers_name_what_matches,
    reasons_explain_reports, texts_add_pairs, witnesses_say_what_matches,
};
use lol_reasons::run_laws::asked_runs_answer_alike;

/// A matcher that is told of each tag of a list, and of the attributes of a start tag at least if it asks for them and they are at hand,
/// answers as a run over that list (`match_events` of lol_vm). The same tag is refused first.
pub fn calls_answer_alike()
    ensures alike { AskedRunsAnswerAlike }
    ensures goes_on { ToldGoesOn }
{
    asked_runs_answer_alike();
}

/// Such a run's reasons are those for the tags as they are, where the selectors are the items of texts (`Matcher::explain`).
pub fn told_is_explained_alike()
    ensures { ToldIsExplainedAlike }
{
    asked_runs_answer_alike();
    innermost_witnesses_are_known();
    witnesses_say_what_matches();
}

/// Selectors that have the items of texts under their numbers (`Texts::number_items`) answer as the texts' own, which report the ids of the
/// reasons (`Matcher::report`): after the same tags the same elements are open, for the same reasons; the same attributes are asked for, the
/// same tags are refused, and as many nodes are tried.
pub fn items_answer_as_texts()
    ensures { ItemsAnswerAsTexts }
{
    numbers_change_reports_alone();
    texts_add_pairs();
    reasons_explain_reports();
}

/// What a machine has of the document of the events that it stands for.
pub(crate) fn run_laws<E>()
    ensures depths { SlotsAreOfDepth E }
    ensures counts { StandingCounts E }
    ensures ordered { DocumentsAreOrdered }
    ensures dropped { PendingStands E }
    ensures has_open { StandingHasOpen E }
    ensures few { ReportsAreFew E }
{
    slots_are_of_depth::<E>();
    standing_counts::<E>();
    documents_are_ordered();
    dropped_requests_stand::<E>();
    standing_has_open::<E>();
    reports_are_few::<E>();
}

/// What changes where the data of the last open element do.
pub(crate) fn data_laws<E>()
    ensures stands { DataChangeNothing E }
    ensures still_open { DataKeepOpen E }
    ensures pending { DataKeepRequests E }
    ensures lent { LastDataAreLent E }
    ensures changed { LastDataChange E }
{
    data_change_nothing::<E>();
    last_data_are_lent::<E>();
}

/// What the numbers of items lead to.
pub(crate) fn item_laws()
    ensures named { NumbersNameWhatMatches }
    ensures one { EachHasOneReason }
{
    numbers_name_what_matches();
    reasons_explain_reports();
}
