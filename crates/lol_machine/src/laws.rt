//! Laws over the definitions, each the contract of an empty function.

ghost use Rattle.std.specs.Prelude.{Bool, List};
ghost use Rattle.lol_instructions.specs.Tests.{Element};
ghost use Rattle.lol_program.specs.Paths.{Selectors};
ghost use Rattle.lol_base.specs.Ascending.{AscendingIsDetermined};
ghost use Rattle.lol_machine.specs.Laws.{IsReport, OrderChangesNothing, TreesAnswerAlike, StrayEndChangesNothing};

/// A report is strictly ascending and has exactly the ids under which a path matches.
pub fn reports_are_ascending_and_exact()
    ensures { (s : Selectors) (esi : Bool) (e : Element) (outer : List Element) → IsReport s esi e outer }
{}

/// A strictly ascending list is determined by its members.
pub fn ascending_lists_are_determined()
    ensures { AscendingIsDetermined }
{}

/// The order in which selectors stand changes no answer and no refusal.
pub fn order_changes_nothing()
    ensures { OrderChangesNothing }
{}

/// Two trees of the same pairs and nodes answer alike, in whatever order their selectors were added.
pub fn trees_answer_alike()
    ensures { TreesAnswerAlike }
{}

/// An end tag whose name isn't open changes nothing.
pub fn stray_end_changes_nothing()
    ensures { StrayEndChangesNothing }
{}
