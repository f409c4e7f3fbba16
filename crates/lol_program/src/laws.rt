//! Laws over the definitions, each the contract of an empty function.

ghost use Rattle.std.specs.Prelude.{ℕ, List};
ghost use Rattle.lol_program.specs.Paths.{Path, AreNodes};
ghost use Rattle.lol_program.specs.Nodes.{nodes_of_pairs};
ghost use Rattle.lol_program.specs.Laws.{NodesStayTheBeginnings, TreesAreClosed, BeginningsAreClosed, ValuesDecide, ValuesAreByNames, AreRows};
ghost use Rattle.lol_program.specs.Layouts.{LayoutsArePrograms, RangesAreApart, WorkedLayout};

/// The nodes of pairs are the beginnings of their paths, each once.
pub fn nodes_are_the_beginnings()
    ensures { (pairs : List (Path × ℕ)) → AreNodes pairs (nodes_of_pairs pairs) }
{}

/// Nodes that take in what the pairs' paths bring stay their beginnings: so the nodes of a tree are, where no add was refused.
pub fn nodes_stay_the_beginnings()
    ensures { NodesStayTheBeginnings }
{}

/// The nodes of every tree of selectors differ, and hold what each of them stands under and the path of each pair.
pub fn trees_are_closed()
    ensures { TreesAreClosed }
{}

/// So do those of pairs alone, where nothing was refused.
pub fn beginnings_are_closed()
    ensures { BeginningsAreClosed }
{}

/// Where the value by names of a compound isn't open, it is the truth, whatever the attributes are.
pub fn values_by_names_decide()
    ensures { ValuesDecide }
{}

/// A value by names doesn't depend on the rest of the tag.
pub fn values_are_by_names()
    ensures { ValuesAreByNames }
{}

/// Worked rows: the tests of compounds.
pub fn worked_compounds()
    ensures { AreRows }
{}

/// The layout of a tree of selectors is a program of them, whose addresses are those of its nodes in their order.
pub fn layouts_are_programs()
    ensures { LayoutsArePrograms }
{}

/// The ranges of a program of selectors share no address.
pub fn ranges_are_apart()
    ensures { RangesAreApart }
{}

/// Worked row: where `div p` under 0 and `div > p` under 1 stand.
pub fn worked_layout()
    ensures { WorkedLayout }
{}
