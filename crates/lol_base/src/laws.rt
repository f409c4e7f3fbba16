//! What holds of all names and of all progressions: each function takes and gives nothing, and its contract is the law.

ghost use Rattle.std.specs.Prelude.{◌≡◌, ◌↔◌, ℕ, ℤ, List, Some, IsTrue, IsSome};
ghost use Rattle.lol_base.specs.Progression.{Progression, Has, LiesOn, has_index};
ghost use Rattle.lol_base.specs.Names.{same_name};
ghost use Rattle.lol_base.specs.LocalNames.{Name, local_name, name_code, is_hash, same_local_name, name_writes};

/// Names are equal exactly if their bytes in lower case are, and equal names hash alike.
pub fn names_are_their_bytes_in_lower_case()
    ensures equal { (a b : Name) → (IsTrue (same_local_name a b) ↔ (a.lowercased ≡ b.lowercased)) }
    ensures hashed_alike { (a b : Name) → IsTrue (same_local_name a b) → name_writes a ≡ name_writes b }
    ensures spelled { (a b : List ℕ) → same_local_name (local_name a) (local_name b) ≡ same_name a b }
{}

/// A code belongs to one name, and the names that have one are the hashes.
pub fn a_code_belongs_to_one_name()
    ensures one { (a b : List ℕ) (code : ℕ) → name_code a ≡ Some code → name_code b ≡ Some code → a ≡ b }
    ensures hash { (name : List ℕ) → (IsSome (name_code name) ↔ IsTrue (is_hash name)) }
{}

/// Some whole `n` at least 0 has `i = step * n + offset` exactly if `i` is the offset, or the step isn't 0, divides
/// `i - offset` and has its sign.
pub fn index_lies_on_progression()
    ensures { (progression : Progression) (index : ℤ) → Has progression index ↔ LiesOn progression index }
{}

/// The test that computes is true exactly if some whole `n` at least 0 has `i = step * n + offset`.
pub fn index_test_decides()
    ensures { (progression : Progression) (index : ℤ) → IsTrue (has_index progression index) ↔ Has progression index }
{}
