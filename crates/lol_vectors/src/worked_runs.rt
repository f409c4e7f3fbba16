//! Whole runs, and counters and limits at their edges.

ghost use Rattle.std.specs.Prelude.{◌≡◌, [], ◌∷◌, ◌++◌, replicate, Some, None, true, false};
ghost use Rattle.lol_instructions.specs.Counters.{full_count};
ghost use Rattle.lol_stack.specs.Levels.{one_more};
ghost use Rattle.lol_machine.specs.Refusals.{Limit, Counter, greatest_count};
ghost use Rattle.lol_vm.specs.RunRefusals.{StopsFor, allowance_of};
ghost use Rattle.lol_vm.specs.declared.events.RunCause.TheVariants.{MemoryLimitExceeded, CounterFull, Memory};
ghost use Rattle.lol_memory.specs.Slots.{slots};
ghost use Rattle.lol_vectors.specs.Runs.{told};
ghost use Rattle.lol_vectors.specs.WorkedRuns.{two_paths, two_items, ancestors_up, steps, ids_ascend, ends, dropped_siblings, asking_texts, asking_tags, asked, by_type, progressions, refused_in_use, refused_again, AtGreatest, AboveGreatest};

/// Under which ids tags are reported, and what end tags close.
fn answers_to_texts()
    ensures two_paths { two_paths ≡ [] ∷ [] ∷ (3 ∷ 7 ∷ []) ∷ (3 ∷ 7 ∷ []) ∷ [] }
    ensures two_items { two_items ≡ [] ∷ (5 ∷ []) ∷ (5 ∷ []) ∷ [] ∷ [] }
    ensures ancestors_up { ancestors_up ≡ [] ∷ (0 ∷ 1 ∷ []) ∷ (1 ∷ []) ∷ [] ∷ [] ∷ (0 ∷ []) ∷ (5 ∷ [])
        ∷ (replicate 7 [] ++ (0 ∷ []) ∷ []) }
    ensures steps { steps ≡
        [] ∷ [] ∷ (0 ∷ 1 ∷ 2 ∷ []) ∷ (0 ∷ 1 ∷ 2 ∷ []) ∷ [] ∷ [] ∷ [] ∷ (0 ∷ []) ∷ (4 ∷ 5 ∷ 6 ∷ 7 ∷ [])
        ∷ [] ∷ [] ∷ [] ∷ (1 ∷ []) ∷ (9 ∷ 10 ∷ 11 ∷ 12 ∷ []) ∷ [] ∷ [] }
    ensures ids_ascend { ids_ascend ≡ (0 ∷ 2 ∷ 5 ∷ 9 ∷ 300 ∷ []) ∷ [] }
    ensures ends { ends ≡ [] ∷ [] ∷ [] ∷ [] ∷ (2 ∷ 3 ∷ []) ∷ [] ∷ (0 ∷ 1 ∷ []) ∷ [] ∷ [] }
    ensures dropped_siblings { dropped_siblings ≡ [] ∷ (0 ∷ 1 ∷ []) ∷ [] }
    ensures asked { asked ≡ false ∷ false ∷ false ∷ true ∷ false ∷ [] }
    ensures reported { told asking_texts asking_tags ≡ (1 ∷ []) ∷ (0 ∷ []) ∷ [] ∷ (1 ∷ []) ∷ [] ∷ [] }
    ensures by_type { by_type ≡ (1 ∷ []) ∷ (1 ∷ []) ∷ (1 ∷ []) ∷ (1 ∷ []) ∷ (3 ∷ []) ∷ (0 ∷ []) ∷ (1 ∷ []) ∷ [] }
    ensures progressions { progressions ≡ (1 ∷ 3 ∷ 5 ∷ 8 ∷ []) ∷ (2 ∷ 5 ∷ 9 ∷ []) ∷ (0 ∷ 3 ∷ 8 ∷ []) ∷ (1 ∷ 4 ∷ 9 ∷ [])
        ∷ (2 ∷ 3 ∷ 8 ∷ []) ∷ (0 ∷ 9 ∷ []) ∷ (1 ∷ 8 ∷ []) ∷ (2 ∷ 6 ∷ 9 ∷ []) ∷ (0 ∷ 6 ∷ 8 ∷ []) ∷ [] }
{}

/// The slots of small items; and a limit that is met exactly, and one that is a byte short, where 100 bytes were in use before.
fn limits_at_their_edges()
    ensures slots { (slots 1 1 ∷ slots 1 129 ∷ slots 7 1 ∷ slots 14 1 ∷ slots 16 9 ∷ [])
        ≡ (128 ∷ 256 ∷ 18 ∷ 9 ∷ 16 ∷ []) }
    ensures short { refused_in_use 611 1 ≡ Some (0, Limit) }
    ensures met { refused_in_use 612 8 ≡ None }
    ensures ninth { refused_in_use 1123 9 ≡ Some (8, Limit) }
    ensures sixteen { refused_in_use 1124 16 ≡ None }
    ensures seventeenth { refused_in_use 1124 17 ≡ Some (16, Limit) }
    ensures again { refused_again ≡ None }
{}

/// Counters of children at their greatest number: `i32::MAX`.
fn counters_at_their_greatest()
    ensures greatest { (full_count ∷ greatest_count ∷ []) ≡ (2147483647 ∷ 2147483647 ∷ []) }
    ensures below { one_more 2147483646 ≡ 2147483647 }
    ensures full { one_more 2147483647 ≡ 2147483647 }
    ensures counted { AtGreatest }
    ensures refused { AboveGreatest }
{}

/// What a refused run may tell: the limit and a full counter with the first tag that is to be refused so, and memory with none after it, nor
/// with one whose counter is full.
fn causes_of_refused_runs()
    ensures limit { StopsFor MemoryLimitExceeded 3 (Some (3, Limit)) }
    ensures counter { StopsFor CounterFull 3 (Some (3, Counter)) }
    ensures other_cause { StopsFor CounterFull 3 (Some (3, Limit)) → ⊥ }
    ensures other_tag { StopsFor MemoryLimitExceeded 2 (Some (3, Limit)) → ⊥ }
    ensures no_tag { StopsFor MemoryLimitExceeded 2 None → ⊥ }
    ensures memory { StopsFor Memory 3 (Some (3, Limit)) }
    ensures memory_before_counter { StopsFor Memory 2 (Some (3, Counter)) }
    ensures memory_at_counter { StopsFor Memory 3 (Some (3, Counter)) → ⊥ }
    ensures memory_alone { StopsFor Memory 4 None }
    ensures memory_late { StopsFor Memory 4 (Some (3, Limit)) → ⊥ }
    ensures allowance { allowance_of 64 (record { usage = 5; maximum = 9 })
        ≡ record { item_bytes = 64; maximum = 9; usage = 5 } }
{}
