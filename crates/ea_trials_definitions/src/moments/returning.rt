//! A carrier that another scheduler fetched, emptied and sent home.

ghost use Rattle.std.specs.Prelude.{◌≡◌, codes, Some, [], ◌∷◌};
ghost use Rattle.ea_machine.specs.declared.nodes.Node.TheVariants.{Carrier};
ghost use Rattle.ea_machine.specs.declared.owners.OwnerWord.TheVariants as word;
ghost use Rattle.ea_machine.specs.Rows.{Look, Push, BusyTry, Settle, Abandon, FetchTry, SendHome};
ghost use Rattle.ea_machine.specs.Rows.{Clear};
ghost use Rattle.ea_trials_definitions.specs.Moments.{contents_of, owner_word, own_of, queue_of};
ghost use Rattle.ea_trials_definitions.specs.Moments.{rest_of, row_of, sums};
ghost use Rattle.ea_trials_definitions.specs.Runs.{returned_carrier, block, carrier_with, linked};
ghost use Rattle.ea_trials_definitions.specs.Runs.{sums_of, unlinked, usual};

/// What stands after so many turns.
pub fn returning()
    ensures pooled { owner_word 1 (returned_carrier (codes "1*2054")) ≡ Some (word.Pooled 1 32732) }
    ensures to_be_fetched { row_of 2 (returned_carrier (codes "1*2054 2*2049"))
        ≡ Some (FetchTry 1 (word.Pooled 1 32732)) }
    ensures fetched { owner_word 1 (returned_carrier (codes "1*2054 2*2050"))
        ≡ Some (word.Employed 2) }
    ensures fetched_content { contents_of 2 (returned_carrier (codes "1*2054 2*2050"))
        ≡ Some (carrier_with (usual 3 8 ∷ usual 2 22 ∷ []) ∷ []) }
    ensures to_be_queued { row_of 1 (returned_carrier (codes "1*2054 2*2050 1*2"))
        ≡ Some (Push (block 2 22) 2) }
    ensures queued_in_the_hand { sums (returned_carrier (codes "1*2054 2*2050 1*2"))
        ≡ Some (sums_of 14 14 32732) }
    ensures pushed { queue_of 2 (returned_carrier (codes "1*2054 2*2050 1*3"))
        ≡ Some (unlinked (block 2 22) ∷ []) }
    ensures linked { queue_of 2 (returned_carrier (codes "1*2054 2*2050 1*4"))
        ≡ Some (linked (block 2 22) ∷ []) }
    ensures taken { queue_of 2 (returned_carrier (codes "1*2054 2*2050 1*4 2")) ≡ Some [] }
    ensures to_be_passed { rest_of 2 (returned_carrier (codes "1*2054 2*2050 1*4 2"))
        ≡ Some (linked (block 2 22) ∷ []) }
    ensures passed { rest_of 2 (returned_carrier (codes "1*2054 2*2050 1*4 2*2")) ≡ Some [] }
    ensures looked_at { row_of 2 (returned_carrier (codes "1*2054 2*2050 1*4 2*2"))
        ≡ Some (Look 1) }
    ensures released_from_the_walk { row_of 2 (returned_carrier (codes "1*2054 2*2050 1*4 2*3"))
        ≡ Some (Abandon (carrier_with (usual 3 8 ∷ []))) }
    ensures abandoned_by_the_other { owner_word 1 (returned_carrier (codes "1*2054 2*2050 1*4 2*4"))
        ≡ Some (word.Pooled 2 32746) }
    ensures to_be_busy { row_of 2 (returned_carrier (codes "1*2054 2*2050 1*4 2*5"))
        ≡ Some (BusyTry 1 (word.Pooled 2 32746)) }
    ensures freed_in_the_hand { sums (returned_carrier (codes "1*2054 2*2050 1*4 2*5"))
        ≡ Some (sums_of 0 14 32746) }
    ensures busy { owner_word 1 (returned_carrier (codes "1*2054 2*2050 1*4 2*6"))
        ≡ Some (word.Busy 2) }
    ensures to_be_settled { row_of 2 (returned_carrier (codes "1*2054 2*2050 1*4 2*6"))
        ≡ Some (Settle (carrier_with [])) }
    ensures emptied_in_the_hand { sums (returned_carrier (codes "1*2054 2*2050 1*4 2*6"))
        ≡ Some (sums_of 0 0 32760) }
    ensures employed_when_settled { owner_word 1 (returned_carrier (codes "1*2054 2*2050 1*4 2*7"))
        ≡ Some (word.Employed 2) }
    ensures to_be_sent_home { row_of 2 (returned_carrier (codes "1*2054 2*2050 1*4 2*7"))
        ≡ Some (SendHome (carrier_with [])) }
    ensures emptied_and_there { sums (returned_carrier (codes "1*2054 2*2050 1*4 2*7"))
        ≡ Some (sums_of 0 0 32760) }
    ensures returning { owner_word 1 (returned_carrier (codes "1*2054 2*2050 1*4 2*8"))
        ≡ Some (word.Returning 1) }
    ensures node_in_the_hand { row_of 2 (returned_carrier (codes "1*2054 2*2050 1*4 2*8"))
        ≡ Some (Push (Carrier 1) 1) }
    ensures returning_in_the_queue { owner_word 1 (returned_carrier (codes "1*2054 2*2050 1*4 2*9"))
        ≡ Some (word.Returning 1) }
    ensures node_in_the_queue { queue_of 1 (returned_carrier (codes "1*2054 2*2050 1*4 2*9"))
        ≡ Some (unlinked (Carrier 1) ∷ []) }
    ensures node_linked { queue_of 1 (returned_carrier (codes "1*2054 2*2050 1*4 2*10"))
        ≡ Some (linked (Carrier 1) ∷ []) }
    ensures nothing_but_free { sums (returned_carrier (codes "1*2054 2*2050 1*4 2*10"))
        ≡ Some (sums_of 0 0 32760) }
    ensures returning_meanwhile { owner_word 1
        (returned_carrier (codes "1*2054 2*2050 1*4 2*10 1*2")) ≡ Some (word.Returning 1) }
    ensures to_be_collected { row_of 1 (returned_carrier (codes "1*2054 2*2050 1*4 2*10 1*2"))
        ≡ Some (Clear 1) }
    ensures owned_until_then { own_of 1 (returned_carrier (codes "1*2054 2*2050 1*4 2*10 1*2"))
        ≡ Some (record { number = 1; base = 0; pages = 64 } ∷ []) }
    ensures collected { owner_word 1 (returned_carrier (codes "1*2054 2*2050 1*4 2*10 1*3"))
        ≡ Some word.Absent }
    ensures owned_no_longer { own_of 1 (returned_carrier (codes "1*2054 2*2050 1*4 2*10 1*3"))
        ≡ Some [] }
{}
