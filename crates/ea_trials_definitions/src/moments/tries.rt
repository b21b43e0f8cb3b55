//! Tries to make a pooled carrier busy, or to fetch it, that are won and lost.

ghost use Rattle.std.specs.Prelude.{◌≡◌, codes, Some, [], ◌∷◌};
ghost use Rattle.ea_machine.specs.declared.owners.OwnerWord.TheVariants as word;
ghost use Rattle.ea_machine.specs.Rows.{Push, BusyTry, Settle, FetchTry, Create};
ghost use Rattle.ea_trials_definitions.specs.Moments.{contents_of, owner_word, row_of, sums};
ghost use Rattle.ea_trials_definitions.specs.Runs.{pooled_twice, fetched_once, block, carrier_with};
ghost use Rattle.ea_trials_definitions.specs.Runs.{sums_of, usual};

/// What stands after so many turns.
pub fn tries()
    ensures pooled { owner_word 1 (pooled_twice (codes "1*2055")) ≡ Some (word.Pooled 1 32718) }
    ensures to_be_busy { row_of 1 (pooled_twice (codes "1*2057"))
        ≡ Some (BusyTry 1 (word.Pooled 1 32718)) }
    ensures block_in_the_hand { sums (pooled_twice (codes "1*2057")) ≡ Some (sums_of 14 14 32732) }
    ensures busy { owner_word 1 (pooled_twice (codes "1*2058")) ≡ Some (word.Busy 1) }
    ensures to_be_settled { row_of 1 (pooled_twice (codes "1*2058"))
        ≡ Some (Settle (carrier_with (usual 2 22 ∷ []))) }
    ensures block_released { sums (pooled_twice (codes "1*2058")) ≡ Some (sums_of 14 0 32746) }
    ensures busy_passed_over { row_of 2 (pooled_twice (codes "1*2058 2*2049"))
        ≡ Some (Create 1025) }
    ensures settled { owner_word 1 (pooled_twice (codes "1*2059")) ≡ Some (word.Pooled 1 32732) }
    ensures to_be_fetched { row_of 2 (pooled_twice (codes "1*2055 2*2049"))
        ≡ Some (FetchTry 1 (word.Pooled 1 32718)) }
    ensures fetched { owner_word 1 (pooled_twice (codes "1*2055 2*2049 2"))
        ≡ Some (word.Employed 2) }
    ensures lost_to_a_busy_word { row_of 2 (pooled_twice (codes "1*2055 2*2049 1*3 2"))
        ≡ Some (Create 1025) }
    ensures still_busy { owner_word 1 (pooled_twice (codes "1*2055 2*2049 1*3 2"))
        ≡ Some (word.Busy 1) }
    ensures lost_to_another_gap { row_of 2 (pooled_twice (codes "1*2055 2*2049 1*4 2"))
        ≡ Some (Create 1025) }
    ensures still_pooled { owner_word 1 (pooled_twice (codes "1*2055 2*2049 1*4 2"))
        ≡ Some (word.Pooled 1 32732) }
    ensures fetched_before_the_try { owner_word 1 (pooled_twice (codes "1*2055 2*2049 1*2 2"))
        ≡ Some (word.Employed 2) }
    ensures busy_try_lost { row_of 1 (pooled_twice (codes "1*2055 2*2049 1*2 2 1"))
        ≡ Some (Push (block 3 36) 2) }
    ensures still_fetched { owner_word 1 (pooled_twice (codes "1*2055 2*2049 1*2 2 1"))
        ≡ Some (word.Employed 2) }
    ensures second_wants_it { row_of 2 (fetched_once (codes "1*3078 2*3073 3*3073"))
        ≡ Some (FetchTry 1 (word.Pooled 1 32732)) }
    ensures third_wants_it { row_of 3 (fetched_once (codes "1*3078 2*3073 3*3073"))
        ≡ Some (FetchTry 1 (word.Pooled 1 32732)) }
    ensures second_has_it { owner_word 1 (fetched_once (codes "1*3078 2*3073 3*3073 2"))
        ≡ Some (word.Employed 2) }
    ensures third_lost_it { row_of 3 (fetched_once (codes "1*3078 2*3073 3*3073 2 3"))
        ≡ Some (Create 2049) }
    ensures second_keeps_it { contents_of 2 (fetched_once (codes "1*3078 2*3073 3*3073 2 3"))
        ≡ Some (carrier_with (usual 3 8 ∷ usual 2 22 ∷ []) ∷ []) }
    ensures third_has_nothing { contents_of 3 (fetched_once (codes "1*3078 2*3073 3*3073 2 3"))
        ≡ Some [] }
    ensures third_creates_another { owner_word 2049
        (fetched_once (codes "1*3078 2*3073 3*3073 2 3*2")) ≡ Some (word.Employed 3) }
{}
