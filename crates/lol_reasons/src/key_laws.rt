//! Laws of keys, and of what is tried by them.

ghost use Rattle.lol_reasons.specs.KeyLaws.{MatchingNodesAreTried, TriedPairsGiveIds, NamesKeepAsks, AsksByTries, FirstStepSeesNoRest, TriesAreAtMost, TriesAndSparedAreAll, NoKeysAreExact, CallsAreCounted, CallsAskWhereAsked, OrderChangesNoTries, AnswersAreSparing, ModesCountTries, ModesAnswerByKeys, ModesAnswerAlike};

/// What matches is tried, and what is tried gives the same ids.
pub fn matching_nodes_are_tried()
    ensures nodes { MatchingNodesAreTried }
    ensures ids { TriedPairsGiveIds }
{}

/// Attributes are asked for exactly as before, and that is known before the rest of the tag is.
pub fn keys_keep_requests()
    ensures names { NamesKeepAsks }
    ensures tries { AsksByTries }
    ensures calls { CallsAskWhereAsked }
    ensures unseen { FirstStepSeesNoRest }
{}

/// Both counts are those of the calls, at most those without keys, with what is ruled out those without keys, and the same in each order.
pub fn tries_are_spared()
    ensures calls { CallsAreCounted }
    ensures most { TriesAreAtMost }
    ensures all { TriesAndSparedAreAll }
    ensures exact { NoKeysAreExact }
    ensures order { OrderChangesNoTries }
    ensures answers { AnswersAreSparing }
{}

/// Selectors answer alike whether their nodes are spared by keys or not, but for both counts, which are at most those without keys: the
/// documents are the same, and so is what is refused.
pub fn modes_answer_alike()
    ensures counts { ModesCountTries }
    ensures keys { ModesAnswerByKeys }
    ensures alike { ModesAnswerAlike }
{}
