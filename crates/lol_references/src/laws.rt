//! What holds of all values: each function takes and gives nothing, and its contract is the law.

ghost use Rattle.std.specs.Prelude.{◌≡◌, ◌≢◌, ◌++◌, ◌&&◌, ℕ, true, not, List, All};
ghost use Rattle.std.specs.List.{list_all};
ghost use Rattle.lol_references.specs.Names.{rows, row_of, begins_with_name, is_longer};
ghost use Rattle.lol_references.specs.Decoding.{decoded};
ghost use Rattle.lol_references.specs.declared.names.TheConstants.{NAMES};

/// Bytes that are no ampersand stand for themselves, whatever is behind them.
pub fn other_bytes_stay()
    ensures { (before behind : List ℕ) → All (λ b. b ≢ 38) before
        → decoded (before ++ behind) ≡ before ++ decoded behind }
{}

/// The longest name of the whole table is read with which bytes begin: none of the others is longer.
pub fn longest_name_is_read()
    ensures { (bytes : List ℕ)
        → list_all (λ other. not (begins_with_name bytes other && is_longer (row_of bytes) other)) (rows NAMES.now) ≡ true }
{}
