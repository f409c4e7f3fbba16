//! Worked rows: what the definitions give for texts of known meaning. Each function is empty: its contract is the rows.

ghost use Rattle.std.specs.Prelude.{◌≡◌, ◌++◌, Ok, Err, Some, None, map, codes};
ghost use Rattle.lol_css.specs.Accepting.{accept};
ghost use Rattle.lol_css.specs.Locating.{error_location};
ghost use Rattle.lol_css.specs.Trees.{And, NoItems};
ghost use Rattle.lol_css.specs.WorkedRows.{accepted_rows, refused_rows, refused_pseudo, located_rows, unlocated_texts, times, negated, alternated, inside, one_part, item, type};
ghost use Rattle.lol_css.specs.declared.error.SelectorError.TheVariants.{UnsupportedPseudoClassOrElement, UnsupportedSyntax};

/// Texts and the selectors that they stand for.
pub fn accepted()
    ensures { map (λ row. accept row.text) accepted_rows ≡ map (λ row. Ok row.selector) accepted_rows }
{}

/// Causes, and texts that are refused with each.
pub fn refused()
    ensures { map (λ row. map accept row.texts) refused_rows
        ≡ map (λ row. map (λ text. Err row.cause) row.texts) refused_rows }
{}

/// Pseudo-classes and pseudo-elements that the machine doesn't know.
pub fn refused_pseudo_classes_and_elements()
    ensures { map accept refused_pseudo ≡ map (λ text. Err UnsupportedPseudoClassOrElement) refused_pseudo }
{}

/// Texts that are refused, each with the item and the byte offset.
pub fn locations()
    ensures { map (λ row. error_location row.text) located_rows ≡ map (λ row. Some row.location) located_rows }
{}

/// Texts that are accepted have no location of an error.
pub fn locations_of_accepted()
    ensures { map error_location unlocated_texts ≡ map (λ text. None) unlocated_texts }
{}

/// Past the bounds: after the parenthesis of a combination too many, and at the compound that is one too many.
pub fn locations_past_bounds()
    ensures combinations { error_location (times 129 (codes ":not(") ++ codes "a")
        ≡ Some (record { item = 0; offset = 645 }) }
    ensures compounds { error_location (times 1025 (codes "a ")) ≡ Some (record { item = 0; offset = 2048 }) }
{}

/// The bounds: 128 of `:not`, `:is` and `:where` one inside the other, and 1,024 compounds an item.
pub fn bounds()
    ensures negations { accept (times 128 (codes ":not(") ++ codes "a")
        ≡ Ok (one_part (negated 128 (type (codes "a")))) }
    ensures negations_past { accept (times 129 (codes ":not(") ++ codes "a") ≡ Err UnsupportedSyntax }
    ensures combinations { accept (times 64 (codes ":is(:not(") ++ codes "a")
        ≡ Ok (one_part (alternated 64 (type (codes "a")))) }
    ensures combinations_past { accept (codes ":where(" ++ times 64 (codes ":is(:not(") ++ codes "a")
        ≡ Err UnsupportedSyntax }
    ensures compounds { accept (times 1024 (codes "a ")) ≡ Ok (And NoItems (inside 1023 (item (type (codes "a"))))) }
    ensures compounds_past { accept (times 1025 (codes "a ")) ≡ Err UnsupportedSyntax }
    ensures step_past { accept (times 1024 (codes "a ") ++ codes " >") ≡ Err UnsupportedSyntax }
{}
