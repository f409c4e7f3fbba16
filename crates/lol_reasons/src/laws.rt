//! Laws of witnesses and reasons, each the contract of an empty function.

ghost use Rattle.lol_reasons.specs.WitnessLaws.{InnermostIsKnown, InnermostIsOnlyOne, InnermostIsWitness, InnermostWhereMatches, MatchesByWitness, NoneIsNearer, NoneIsNearerInDocuments, WitnessesAreComplete};
ghost use Rattle.lol_reasons.specs.MachinesShow.{MachinesShowAround};
ghost use Rattle.lol_reasons.specs.NumberingLaws.{NodesDecideTheRest, NumbersChangeNoNode, NumbersNameWhatMatches};
ghost use Rattle.lol_reasons.specs.ReasonLaws.{EachHasOneReason, PairsAreAdded, ReasonsAreExact, ReasonsGiveReport, ReasonsStay, RunsAreExplained};

/// A path matches exactly if there is a witness, which has a number for each compound; the innermost
/// one is a witness, and is there exactly if the path matches.
pub fn witnesses_say_what_matches()
    ensures witness { InnermostIsWitness }
    ensures matches { MatchesByWitness }
    ensures found { InnermostWhereMatches }
    ensures complete { WitnessesAreComplete }
{}

/// Where the numbers of open elements fall from the innermost outward, no witness stands nearer at any
/// compound than the innermost one, and of no other witness that is so.
pub fn innermost_witnesses_are_innermost()
    ensures none_nearer { NoneIsNearer }
    ensures only { InnermostIsOnlyOne }
{}

/// After any events no witness stands nearer at any compound than the innermost one.
pub fn innermost_in_documents()
    ensures { NoneIsNearerInDocuments }
{
    lol_machine::machine_laws::documents_are_ordered();
}

/// The innermost witness is found from what matches where, without a look at compounds.
pub fn innermost_witnesses_are_known()
    ensures { InnermostIsKnown }
{}

/// What selector texts add are the pairs of their items under their ids.
pub fn texts_add_pairs()
    ensures { PairsAreAdded }
{}

/// The ids of the reasons are the report, and each item that matches has one reason, with its
/// innermost witness, in the order of adding.
pub fn reasons_explain_reports()
    ensures report { ReasonsGiveReport }
    ensures one { EachHasOneReason }
    ensures exact { ReasonsAreExact }
{}

/// The reasons of a run explain all that it reports and nothing else, and no later tag changes them.
pub fn reasons_explain_runs()
    ensures explained { RunsAreExplained }
    ensures stay { ReasonsStay }
{}

/// A machine that was told of a start tag, last of all, has the items of the elements around that tag's, whether its element was opened or
/// not: what `witness_of` reads of it.
pub fn machines_show_around<E>()
    ensures { MachinesShowAround E }
{}

/// Selectors with the same nodes, both with rows or both without, come to the same document and ask for the same, whatever ids their paths
/// have; they refuse the same events, and answer alike but for what they report. So do the selectors whose items stand under their numbers,
/// and those with the texts' ids.
pub fn numbers_change_reports_alone()
    ensures alike { NodesDecideTheRest }
    ensures nodes { NumbersChangeNoNode }
{}

/// Where the items of texts stand under their numbers, the numbers that are reported name exactly the items that match, in the order of
/// adding.
pub fn numbers_name_what_matches()
    ensures { NumbersNameWhatMatches }
{}
