//! Schedulers that stopped, and what they keep.

ghost use Rattle.std.specs.Prelude.{◌≡◌, codes, Some, [], ◌∷◌};
ghost use Rattle.ea_machine.specs.declared.owners.OwnerWord.TheVariants as word;
ghost use Rattle.ea_machine.specs.Rows.{Look, Link, Settle, FetchTry, Create};
ghost use Rattle.ea_trials_definitions.specs.Moments.{held_by, lists_of, owner_word, queue_of, rest_of};
ghost use Rattle.ea_trials_definitions.specs.Moments.{row_of, sums};
ghost use Rattle.ea_trials_definitions.specs.Runs.{stopped_before_fetch, stopped_before_link, block};
ghost use Rattle.ea_trials_definitions.specs.Runs.{stopped_while_busy, carrier_with, listed, named};
ghost use Rattle.ea_trials_definitions.specs.Runs.{sums_of, unlinked, usual};

/// What stands after so many turns.
pub fn stopping()
    ensures before_its_last_step { row_of 1 (stopped_before_fetch (codes "1*1031"))
        ≡ Some (Look 1) }
    ensures try_left { row_of 1 (stopped_before_fetch (codes "1*2500"))
        ≡ Some (FetchTry 1 (word.Pooled 1 32732)) }
    ensures still_pooled { owner_word 1 (stopped_before_fetch (codes "1*2500"))
        ≡ Some (word.Pooled 1 32732) }
    ensures still_listed { lists_of 1 (stopped_before_fetch (codes "1*2500"))
        ≡ Some (listed (1 ∷ []) []) }
    ensures name_kept { held_by 1 (stopped_before_fetch (codes "1*2500"))
        ≡ Some (named 2 22 ∷ []) }
    ensures still_busy { owner_word 1 (stopped_while_busy (codes "1*2500")) ≡ Some (word.Busy 1) }
    ensures content_in_its_hand { row_of 1 (stopped_while_busy (codes "1*2500"))
        ≡ Some (Settle (carrier_with (usual 2 22 ∷ []))) }
    ensures counted_in_its_hand { sums (stopped_while_busy (codes "1*2500"))
        ≡ Some (sums_of 14 0 32746) }
    ensures others_go_on { row_of 2 (stopped_while_busy (codes "1*2500 2*2049"))
        ≡ Some (Create 1025) }
    ensures not_linked { queue_of 1 (stopped_before_link (codes "1*3 2*9"))
        ≡ Some (unlinked (block 1 8) ∷ []) }
    ensures link_left { row_of 2 (stopped_before_link (codes "1*3 2*9"))
        ≡ Some (Link (block 1 8) 1) }
    ensures walk_waits { rest_of 1 (stopped_before_link (codes "1*3 2*9 1*2 2*9"))
        ≡ Some (unlinked (block 1 8) ∷ []) }
    ensures on_its_way_for_good { sums (stopped_before_link (codes "1*3 2*9 1*2 2*9"))
        ≡ Some (sums_of 0 14 32746) }
{}
