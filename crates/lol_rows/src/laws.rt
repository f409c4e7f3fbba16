//! Laws of keys.

ghost use Rattle.lol_rows.specs.KeyLaws.{KeysAreRight, KeysAreOfTags};

/// What a key rules out by name is false by names, and what it rules out by attributes doesn't hold; a tag has the keys of its id, its
/// classes, its attributes' names and the parts of their values.
pub fn keys_rule_out_what_fails()
    ensures right { KeysAreRight }
    ensures tags { KeysAreOfTags }
{}
