//! What holds of all sets of ids and of all charged lists: each function takes and gives nothing, and its contract is the law.

ghost use Rattle.std.specs.Prelude.{◌≡◌, ◌<◌, ◌/◌, ◌↔◌, ◌⊎◌, ℕ, IsTrue, true, false, Contains};
ghost use Rattle.std.specs.List.Sorted.{IsStrictlyIncreasing};
ghost use Rattle.lol_memory.specs.Steps.{SlotsAreOfGreatestLength};
ghost use Rattle.lol_memory.specs.Ids.{Ids, no_ids, has, with_id, union, ascending, same_ids, IsDense, HasRoom};

/// Sets are equal exactly if their ascending lists are. Such a list rises strictly.
pub fn sets_are_equal_as_their_lists()
    ensures equal { (s t : Ids) → ((s ≡ t) ↔ (ascending s ≡ ascending t)) }
    ensures tested { (s t : Ids) → (IsTrue (same_ids s t) ↔ (s ≡ t)) }
    ensures rises { (s : Ids) → IsStrictlyIncreasing (ascending s) }
{}

/// What the words of a set mean: a set is known by the ids that it has.
pub fn sets_are_known_by_their_ids()
    ensures equal { (s t : Ids) → ((q : ℕ) → has s q ≡ has t q) → s ≡ t }
    ensures listed { (s : Ids) (q : ℕ) → (IsTrue (has s q) ↔ Contains (ascending s) q) }
    ensures none { (q : ℕ) → has no_ids q ≡ false }
    ensures one_more { (s : Ids) (id q : ℕ) → (IsTrue (has (with_id s id) q) ↔ (q ≡ id) ⊎ IsTrue (has s q)) }
    ensures joined { (s t : Ids) (q : ℕ) → (IsTrue (has (union s t) q) ↔ IsTrue (has s q) ⊎ IsTrue (has t q)) }
{}

/// A set has room for an id that it has. One id alone is dense up to the word 19, so one id takes at most 20 words, however great it is.
pub fn sets_have_room_for_their_ids()
    ensures held { (s : Ids) (q : ℕ) → has s q ≡ true → HasRoom s q }
    ensures alone { (q : ℕ) → (IsDense (with_id no_ids q) ↔ q / 32 < 20) }
{}

/// A list that began empty is charged for the slots of the greatest length that it has had, whatever was pushed and drained since. Each
/// step is what its call says: a push that isn't refused adds its element, and slots where the list is full (`push`, `ok`); a drain takes
/// elements out and keeps the slots (`drain`, `left`).
pub fn slots_are_of_the_greatest_length<T>()
    ensures { SlotsAreOfGreatestLength T }
{}
