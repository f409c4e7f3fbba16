//! Worked rows: what the definitions give for values of known meaning. Each function is empty: its contract is the rows.

ghost use Rattle.std.specs.Prelude.{◌≡◌};
ghost use Rattle.lol_references.specs.WorkedRows.{decoded_rows, said, name_rows, left_rows, number_rows};

/// References by name.
pub fn names()
    ensures { decoded_rows name_rows ≡ said name_rows }
{}

/// Ampersands that begin no reference.
pub fn left()
    ensures { decoded_rows left_rows ≡ said left_rows }
{}

/// References by number.
pub fn numbers()
    ensures { decoded_rows number_rows ≡ said number_rows }
{}
