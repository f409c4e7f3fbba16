//! Worked rows of keys and counts, each checked by computing it.

ghost use Rattle.lol_reasons.specs.WorkedKeys.{AreKeys, AreCounted, DependsOnOrder};

/// Keys of some compounds, and what is tried by them.
pub fn keys_and_counts()
    ensures keys { AreKeys }
    ensures counts { AreCounted }
    ensures order { DependsOnOrder }
{}
