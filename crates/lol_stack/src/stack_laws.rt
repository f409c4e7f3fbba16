//! What holds of every stack that began empty: each function takes and gives nothing, and its contract is the law.

ghost use Rattle.lol_stack.specs.TypedLaws.{CountingAddsOne, CountsAtTheirLevel, CuttingDropsAbove, NoneStand, CountingStands, CuttingStands, CuttingFilters};
ghost use Rattle.lol_stack.specs.LevelledStacks.{NewHasLevels, CountingKeepsLevels, OpeningKeepsLevels, ClosingKeepsLevels, SameHasLevels, DataKeepLevels};
ghost use Rattle.lol_stack.specs.SoundStacks.{NewIsSound, CountingKeepsSound, OpeningKeepsSound, ClosingKeepsSound, SameIsSound, DataKeepSound, EndsAtLast};

/// The active ranges of a stack are those of its open elements, and the depths of each name are theirs. So it is of a new stack, and
/// counting a child, opening an element, closing elements, refused calls and other data of the last element keep it so.
pub fn stacks_keep_their_lists<E>()
    ensures new { NewIsSound E }
    ensures counting { CountingKeepsSound E }
    ensures opening { OpeningKeepsSound E }
    ensures closing { ClosingKeepsSound E }
    ensures same { SameIsSound E }
    ensures lending { DataKeepSound E }
{}

/// On such a stack an end tag closes the last open element of its name, and all inside it.
pub fn ends_close_the_last_of_their_name<E>()
    ensures { EndsAtLast E }
{}

/// Counters by type as a function of level and name: a child that is counted is one more there, cutting drops
/// the levels above, and the counter that is found for a name has counted what is counted there.
pub fn typed_counts_are_a_function()
    ensures counting { CountingAddsOne }
    ensures cutting { CuttingDropsAbove }
    ensures found { CountsAtTheirLevel }
{}

/// The levels of counters by type don't fall in the order in which the counters were started, and those of each name rise strictly. So
/// it is where there are none, and counting at a level that none is above and cutting keep it so. `typed_counts_are_a_function` wants no
/// more. A cut leaves exactly the counters whose level isn't above.
pub fn typed_levels_climb()
    ensures none { NoneStand }
    ensures counting { CountingStands }
    ensures cutting { CuttingStands }
    ensures left { CuttingFilters }
{}

/// On a stack these levels go up to the number of its open elements: so it is of a new stack, and counting a child, opening an element,
/// closing elements, refused calls and other data of the last element keep it so.
pub fn stacks_keep_their_levels<E>()
    ensures new { NewHasLevels E }
    ensures counting { CountingKeepsLevels E }
    ensures opening { OpeningKeepsLevels E }
    ensures closing { ClosingKeepsLevels E }
    ensures same { SameHasLevels E }
    ensures lending { DataKeepLevels E }
{}
