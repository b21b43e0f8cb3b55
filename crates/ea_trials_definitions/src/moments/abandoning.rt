//! One scheduler: its carriers are created, abandoned, fetched and cleared.

ghost use Rattle.std.specs.Prelude.{◌≡◌, codes, Some, [], ◌∷◌};
ghost use Rattle.ea_machine.specs.declared.owners.OwnerWord.TheVariants as word;
ghost use Rattle.ea_machine.specs.Rows.{TakeAll, Look, Abandon, FetchTry, Create, Clear};
ghost use Rattle.ea_trials_definitions.specs.Moments.{contents_of, held_by, owner_word, own_of, row_of};
ghost use Rattle.ea_trials_definitions.specs.Moments.{sums};
ghost use Rattle.ea_trials_definitions.specs.Runs.{abandon_and_fetch, moved_block, single_block};
ghost use Rattle.ea_trials_definitions.specs.Runs.{main_carriers, carrier_with, named, sums_of, usual};

/// What stands after so many turns.
pub fn abandoning()
    ensures not_there_yet { owner_word 1 (abandon_and_fetch (codes "1*1025")) ≡ Some word.Absent }
    ensures to_be_created { row_of 1 (abandon_and_fetch (codes "1*1025")) ≡ Some (Create 1) }
    ensures created { owner_word 1 (abandon_and_fetch (codes "1*1026")) ≡ Some (word.Employed 1) }
    ensures to_be_abandoned { row_of 1 (abandon_and_fetch (codes "1*1029"))
        ≡ Some (Abandon (carrier_with (usual 2 22 ∷ []))) }
    ensures employed_until_then { owner_word 1 (abandon_and_fetch (codes "1*1029"))
        ≡ Some (word.Employed 1) }
    ensures abandoned { owner_word 1 (abandon_and_fetch (codes "1*1030"))
        ≡ Some (word.Pooled 1 32732) }
    ensures employs_nothing { contents_of 1 (abandon_and_fetch (codes "1*1030")) ≡ Some [] }
    ensures owned_all_the_same { own_of 1 (abandon_and_fetch (codes "1*1030"))
        ≡ Some (record { number = 1; base = 0; pages = 64 } ∷ []) }
    ensures to_be_fetched { row_of 1 (abandon_and_fetch (codes "1*1032"))
        ≡ Some (FetchTry 1 (word.Pooled 1 32732)) }
    ensures fetched { owner_word 1 (abandon_and_fetch (codes "1*1033")) ≡ Some (word.Employed 1) }
    ensures fetched_content { contents_of 1 (abandon_and_fetch (codes "1*1033"))
        ≡ Some (carrier_with (usual 3 8 ∷ usual 2 22 ∷ []) ∷ []) }
    ensures held_names { held_by 1 (abandon_and_fetch (codes "1*1033"))
        ≡ Some (named 2 22 ∷ named 3 8 ∷ []) }
    ensures old_block_held { held_by 1 (moved_block (codes "1*1032")) ≡ Some (named 2 22 ∷ []) }
    ensures new_block_held { held_by 1 (moved_block (codes "1*1033")) ≡ Some (named 3 36 ∷ []) }
    ensures old_block_in_the_hand { row_of 1 (moved_block (codes "1*1033")) ≡ Some (Look 1) }
    ensures both_allocated { sums (moved_block (codes "1*1033")) ≡ Some (sums_of 26 14 32720) }
    ensures old_block_released { row_of 1 (moved_block (codes "1*1034"))
        ≡ Some (Abandon (carrier_with (record { name = 3; offset = 36; size = 26 } ∷ []))) }
    ensures new_block_left { sums (moved_block (codes "1*1034")) ≡ Some (sums_of 26 0 32734) }
    ensures abandoned_again { owner_word 1 (moved_block (codes "1*1035"))
        ≡ Some (word.Pooled 1 32706) }
    ensures single_to_be_created { row_of 1 (single_block (codes "1*1")) ≡ Some (Create 1) }
    ensures single_employed { owner_word 1 (single_block (codes "1*2")) ≡ Some (word.Employed 1) }
    ensures single_to_be_cleared { row_of 1 (single_block (codes "1*4")) ≡ Some (Clear 1) }
    ensures single_employed_until_then { owner_word 1 (single_block (codes "1*4"))
        ≡ Some (word.Employed 1) }
    ensures single_without_block { sums (single_block (codes "1*4"))
        ≡ Some
        (record { carriers = 1; units = 75264; live = 0; queued = 0; free = 75256; header = 8 }) }
    ensures single_cleared { owner_word 1 (single_block (codes "1*5")) ≡ Some word.Absent }
    ensures main_carrier_from_the_start { owner_word 1 (main_carriers (codes ""))
        ≡ Some (word.Employed 1) }
    ensures main_carrier_of_the_other { owner_word 1025 (main_carriers (codes ""))
        ≡ Some (word.Employed 2) }
    ensures no_other_carrier { owner_word 2 (main_carriers (codes "")) ≡ Some word.Absent }
    ensures main_carrier_never_abandoned { owner_word 1 (main_carriers (codes "1*4"))
        ≡ Some (word.Employed 1) }
    ensures main_carrier_nearly_empty { sums (main_carriers (codes "1*4"))
        ≡ Some
        (record { carriers = 2; units = 25600; live = 14; queued = 0; free = 25570; header = 16 }) }
    ensures main_carrier_never_cleared { owner_word 1 (main_carriers (codes "1*6"))
        ≡ Some (word.Employed 1) }
    ensures no_step_more { row_of 1 (main_carriers (codes "1*6")) ≡ Some TakeAll }
{}
