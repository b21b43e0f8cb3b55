//! Blocks in queues and walks, linked and not linked yet.

ghost use Rattle.std.specs.Prelude.{◌≡◌, codes, Some, [], ◌∷◌};
ghost use Rattle.ea_machine.specs.declared.owners.OwnerWord.TheVariants as word;
ghost use Rattle.ea_machine.specs.Rows.{TakeLink, Look, Push, BusyTry, Settle, Abandon, Give};
ghost use Rattle.ea_trials_definitions.specs.Moments.{given, held_by, owner_word, passed_by, queue_of};
ghost use Rattle.ea_trials_definitions.specs.Moments.{rest_of, row_of, sums};
ghost use Rattle.ea_trials_definitions.specs.Runs.{forwarded_block, two_freed, two_in_the_queue, block};
ghost use Rattle.ea_trials_definitions.specs.Runs.{carrier_with, linked, named, sums_of, unlinked};
ghost use Rattle.ea_trials_definitions.specs.Runs.{usual};

/// What stands after so many turns.
pub fn queues()
    ensures to_be_given { row_of 1 (forwarded_block (codes "1*3076")) ≡ Some (Give (named 2 22)) }
    ensures not_given_yet { given (forwarded_block (codes "1*3076")) ≡ Some [] }
    ensures given { given (forwarded_block (codes "1*3077")) ≡ Some (named 2 22 ∷ []) }
    ensures held_no_longer { held_by 1 (forwarded_block (codes "1*3077")) ≡ Some (named 1 8 ∷ []) }
    ensures given_and_alive { sums (forwarded_block (codes "1*3080")) ≡ Some (sums_of 14 0 32746) }
    ensures taken { held_by 3 (forwarded_block (codes "1*3080 3*2")) ≡ Some (named 2 22 ∷ []) }
    ensures given_no_longer { given (forwarded_block (codes "1*3080 3*2")) ≡ Some [] }
    ensures to_be_queued { row_of 3 (forwarded_block (codes "1*3080 3*4"))
        ≡ Some (Push (block 2 22) 1) }
    ensures fetched_meanwhile { owner_word 1 (forwarded_block (codes "1*3080 3*4 2*3074"))
        ≡ Some (word.Employed 2) }
    ensures with_the_former_employer { queue_of 1 (forwarded_block (codes "1*3080 3*4 2*3074 3*2"))
        ≡ Some (linked (block 2 22) ∷ []) }
    ensures to_be_forwarded { row_of 1 (forwarded_block (codes "1*3080 3*4 2*3074 3*2 1*3"))
        ≡ Some (Push (block 2 22) 2) }
    ensures forwarded { queue_of 2 (forwarded_block (codes "1*3080 3*4 2*3074 3*2 1*4"))
        ≡ Some (unlinked (block 2 22) ∷ []) }
    ensures forwarded_and_linked { queue_of 2 (forwarded_block (codes "1*3080 3*4 2*3074 3*2 1*5"))
        ≡ Some (linked (block 2 22) ∷ []) }
    ensures allocated_on_its_way { sums (forwarded_block (codes "1*3080 3*4 2*3074 3*2 1*5"))
        ≡ Some (sums_of 14 14 32732) }
    ensures newest_first { queue_of 1 (two_freed (codes "1*6 2*4 3*5"))
        ≡ Some (linked (block 2 22) ∷ unlinked (block 1 8) ∷ []) }
    ensures queue_taken { queue_of 1 (two_freed (codes "1*6 2*4 3*5 1")) ≡ Some [] }
    ensures walk_begun { rest_of 1 (two_freed (codes "1*6 2*4 3*5 1"))
        ≡ Some (linked (block 2 22) ∷ unlinked (block 1 8) ∷ []) }
    ensures newest_passed { passed_by 1 (two_freed (codes "1*6 2*4 3*5 1*2"))
        ≡ Some (block 2 22 ∷ []) }
    ensures oldest_left { rest_of 1 (two_freed (codes "1*6 2*4 3*5 1*2"))
        ≡ Some (unlinked (block 1 8) ∷ []) }
    ensures walk_rests { rest_of 1 (two_freed (codes "1*6 2*4 3*5 1*3"))
        ≡ Some (unlinked (block 1 8) ∷ []) }
    ensures passed_all_the_same { passed_by 1 (two_freed (codes "1*6 2*4 3*5 1*3"))
        ≡ Some (block 2 22 ∷ []) }
    ensures no_new_walk { row_of 1 (two_freed (codes "1*6 2*4 3*5 1*3")) ≡ Some TakeLink }
    ensures both_queued { sums (two_freed (codes "1*6 2*4 3*5 1*3")) ≡ Some (sums_of 0 28 32732) }
    ensures linked_in_the_rest { rest_of 1 (two_freed (codes "1*6 2*4 3*5 1*3 2"))
        ≡ Some (linked (block 1 8) ∷ []) }
    ensures walk_at_its_end { rest_of 1 (two_freed (codes "1*6 2*4 3*5 1*3 2 1")) ≡ Some [] }
    ensures worked_off { passed_by 1 (two_freed (codes "1*6 2*4 3*5 1*3 2 1")) ≡ Some [] }
    ensures all_released { sums (two_freed (codes "1*6 2*4 3*5 1*3 2 1"))
        ≡ Some (record { carriers = 0; units = 0; live = 0; queued = 0; free = 0; header = 0 }) }
    ensures both_linked { queue_of 1 (two_in_the_queue (codes "1*2056 2*12"))
        ≡ Some (linked (block 2 22) ∷ linked (block 1 8) ∷ []) }
    ensures second_waits { passed_by 1 (two_in_the_queue (codes "1*2056 2*12 1*3"))
        ≡ Some (block 2 22 ∷ []) }
    ensures first_looked_at { row_of 1 (two_in_the_queue (codes "1*2056 2*12 1*3"))
        ≡ Some (Look 1) }
    ensures both_on_their_way { sums (two_in_the_queue (codes "1*2056 2*12 1*3"))
        ≡ Some (sums_of 14 28 32718) }
    ensures first_released { row_of 1 (two_in_the_queue (codes "1*2056 2*12 1*4"))
        ≡ Some (Abandon (carrier_with (usual 2 22 ∷ usual 3 36 ∷ []))) }
    ensures none_waits { passed_by 1 (two_in_the_queue (codes "1*2056 2*12 1*5")) ≡ Some [] }
    ensures second_looked_at { row_of 1 (two_in_the_queue (codes "1*2056 2*12 1*5"))
        ≡ Some (Look 1) }
    ensures second_in_the_pool { row_of 1 (two_in_the_queue (codes "1*2056 2*12 1*6"))
        ≡ Some (BusyTry 1 (word.Pooled 1 32718)) }
    ensures second_released { row_of 1 (two_in_the_queue (codes "1*2056 2*12 1*7"))
        ≡ Some (Settle (carrier_with (usual 3 36 ∷ []))) }
{}
