//! What those who go tag by tag rely on: each function takes and gives nothing, and its contract is the law.

ghost use Rattle.lol_machine.specs.FreeTags.{FlatPairs, SmallPairs};
ghost use Rattle.lol_machine.specs.ReportRoom.{ReportsAreFew};
ghost use Rattle.lol_machine.specs.VmLaws.{DataChangeNothing, DataKeepOpen, DataKeepRequests, LastDataAreLent, LastDataChange, PendingStands, RangesHoldOnce, RequestsTryAtMost, SlotsAreOfDepth, StandingCounts, StandingHasOpen, TriesAreFew};

/// What a caller writes into the data of the last open element changes no later report, no open element, and no request.
pub fn data_change_nothing<E>()
    ensures stands { DataChangeNothing E }
    ensures still_open { DataKeepOpen E }
    ensures pending { DataKeepRequests E }
{}

/// What `current_element_data_mut` lends are the data of the last open element, and where they change no others do.
pub fn last_data_are_lent<E>()
    ensures lent { LastDataAreLent E }
    ensures changed { LastDataChange E }
{}

/// A request that is dropped leaves the machine as if its tag had been dropped.
pub fn dropped_requests_stand<E>()
    ensures { PendingStands E }
{}

/// A machine that stands for events has their open elements.
pub fn standing_has_open<E>()
    ensures { StandingHasOpen E }
{}

/// A machine that stands for events has an item for each of their open elements, and has counted the children before the next element.
pub fn standing_counts<E>()
    ensures { StandingCounts E }
{}

/// While a request is open, no more nodes were tried for its tag than the definition tries.
pub fn requests_try_at_most<E>()
    ensures { RequestsTryAtMost E }
{}

/// The slots that are charged are those of the greatest depth so far.
pub fn slots_are_of_depth<E>()
    ensures { SlotsAreOfDepth E }
{}

/// The ranges that a machine is about to run for a start tag, whatever events it stands for, hold the address of each node whose left part
/// matches exactly once, and no other address.
pub fn ranges_hold_once<E>()
    ensures { RangesHoldOnce E }
{}

/// No more nodes are tried for a start tag than there are, nor more for its attributes than by its name.
pub fn tries_are_few()
    ensures { TriesAreFew }
{}

/// The list that `list_for_reports` makes has room for each report.
pub fn reports_are_few<E>()
    ensures { ReportsAreFew E }
{}

/// Selectors whose ids are below 32 and which have no test by type are small; those that are single compounds besides are flat.
pub fn few_selectors_need_no_memory()
    ensures small { SmallPairs }
    ensures flat { FlatPairs }
{}
