//! The lists of own carriers: which numbers stand in them, and how a search moves these.

ghost use Rattle.std.specs.Prelude.{◌≡◌, codes, Some, [], ◌∷◌};
ghost use Rattle.ea_machine.specs.declared.owners.OwnerWord.TheVariants as word;
ghost use Rattle.ea_machine.specs.Rows.{Look, FetchTry};
ghost use Rattle.ea_trials_definitions.specs.Moments.{lists_of, owner_word, row_of};
ghost use Rattle.ea_trials_definitions.specs.Runs.{listed, own_carrier, returned_carrier, two_pooled};

/// What stands after so many turns.
pub fn owns()
    ensures employed { lists_of 1 (own_carrier (codes "1*2053")) ≡ Some (listed [] []) }
    ensures abandoned { lists_of 1 (own_carrier (codes "1*2054")) ≡ Some (listed (1 ∷ []) []) }
    ensures fetched_by_the_other { lists_of 1 (own_carrier (codes "1*2054 2*2050"))
        ≡ Some (listed (1 ∷ []) []) }
    ensures in_no_list_of_the_other { lists_of 2 (own_carrier (codes "1*2054 2*2050"))
        ≡ Some (listed [] []) }
    ensures own_one_first { row_of 1 (own_carrier (codes "1*2054 2*2050 1")) ≡ Some (Look 1) }
    ensures seen_with_the_other { lists_of 1 (own_carrier (codes "1*2054 2*2050 1*2"))
        ≡ Some (listed [] (1 ∷ [])) }
    ensures traitor_next { row_of 1 (own_carrier (codes "1*2054 2*2050 1*2")) ≡ Some (Look 1) }
    ensures still_a_traitor { lists_of 1 (own_carrier (codes "1*2054 2*2050 1*3"))
        ≡ Some (listed [] (1 ∷ [])) }
    ensures pool_from_the_greatest { row_of 1 (own_carrier (codes "1*2054 2*2050 1*3"))
        ≡ Some (Look 2048) }
    ensures abandoned_meanwhile { row_of 1 (own_carrier (codes "1*2054 2*2050 1*2 2*3 1"))
        ≡ Some (FetchTry 1 (word.Pooled 2 32732)) }
    ensures traitor_until_fetched { lists_of 1 (own_carrier (codes "1*2054 2*2050 1*2 2*3 1"))
        ≡ Some (listed [] (1 ∷ [])) }
    ensures fetched_back { owner_word 1 (own_carrier (codes "1*2054 2*2050 1*2 2*3 1*2"))
        ≡ Some (word.Employed 1) }
    ensures in_no_list { lists_of 1 (own_carrier (codes "1*2054 2*2050 1*2 2*3 1*2"))
        ≡ Some (listed [] []) }
    ensures tried_by_both { row_of 1 (own_carrier (codes "1*2054 2*2049 1*2"))
        ≡ Some (FetchTry 1 (word.Pooled 1 32732)) }
    ensures not_moved_by_a_fit { lists_of 1 (own_carrier (codes "1*2054 2*2049 1*2"))
        ≡ Some (listed (1 ∷ []) []) }
    ensures moved_by_a_lost_try { lists_of 1 (own_carrier (codes "1*2054 2*2049 1*2 2 1"))
        ≡ Some (listed [] (1 ∷ [])) }
    ensures looked_at_again { row_of 1 (own_carrier (codes "1*2054 2*2049 1*2 2 1"))
        ≡ Some (Look 1) }
    ensures listed_on_its_way_home { lists_of 1
        (returned_carrier (codes "1*2054 2*2050 1*4 2*10 1*2")) ≡ Some (listed (1 ∷ []) []) }
    ensures unlisted_when_collected { lists_of 1
        (returned_carrier (codes "1*2054 2*2050 1*4 2*10 1*3")) ≡ Some (listed [] []) }
    ensures last_abandoned_last { lists_of 1 (two_pooled (codes "2000") (codes "1*2060"))
        ≡ Some (listed (1 ∷ 2 ∷ []) []) }
    ensures first_one_first { row_of 1 (two_pooled (codes "2000") (codes "1*2061"))
        ≡ Some (Look 1) }
    ensures skipped_goes_last { lists_of 1 (two_pooled (codes "2000") (codes "1*2062"))
        ≡ Some (listed (2 ∷ 1 ∷ []) []) }
    ensures second_fits { row_of 1 (two_pooled (codes "2000") (codes "1*2063"))
        ≡ Some (FetchTry 2 (word.Pooled 1 252)) }
    ensures second_fetched { lists_of 1 (two_pooled (codes "2000") (codes "1*2064"))
        ≡ Some (listed (1 ∷ []) []) }
    ensures each_looked_at_once { lists_of 1 (two_pooled (codes "2500") (codes "1*2063"))
        ≡ Some (listed (1 ∷ 2 ∷ []) []) }
    ensures pool_from_the_first { row_of 1 (two_pooled (codes "2500") (codes "1*2063"))
        ≡ Some (Look 1) }
    ensures then_from_the_greatest { row_of 1 (two_pooled (codes "2500") (codes "1*2064"))
        ≡ Some (Look 1024) }
    ensures pool_moves_none { lists_of 1 (two_pooled (codes "2500") (codes "1*2065"))
        ≡ Some (listed (1 ∷ 2 ∷ []) []) }
{}
