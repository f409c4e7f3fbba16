//! Laws of what a machine keeps, each the contract of an empty function.

ghost use Rattle.lol_machine.specs.MachineLaws.{ProgramsHaveEachNode, RangesHoldLeftMatches};
ghost use Rattle.lol_machine.specs.Standing.{CountersArePositions, DocumentsAreOrdered};

/// A program has as many instructions as there are nodes, and each node's address is one of theirs.
pub fn programs_have_each_node()
    ensures { ProgramsHaveEachNode }
{}

/// The ranges that are run for a start tag hold the address of each node whose left part matches
/// exactly once, and no other address.
pub fn ranges_hold_left_matches()
    ensures { RangesHoldLeftMatches }
{}

/// In the document of any events the numbers of open elements fall from the innermost outward, and
/// numbers to come have no children yet.
pub fn documents_are_ordered()
    ensures { DocumentsAreOrdered }
{}

/// The counters of a stack that counts a start tag are its element's positions among its siblings; those by type where the counter of its
/// parent isn't full.
pub fn counters_are_positions<E>()
    ensures { CountersArePositions E }
{}
