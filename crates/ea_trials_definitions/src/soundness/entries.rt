//! A block that finds no place, and blocks that find one; blocks that are queued, and released.

ghost use Rattle.std.specs.Prelude.{◌≡◌, ◌++◌, codes, Some, [], ◌∷◌};
ghost use Rattle.ea_model.specs.declared.entries.Entry.TheVariants as entry;
ghost use Rattle.ea_model.specs.declared.entries.NoCarrier.TheVariants.{Space};
ghost use Rattle.ea_machine.specs.declared.owners.OwnerWord.TheVariants as word;
ghost use Rattle.ea_sound.specs.Searches.{Missed, Shown};
ghost use Rattle.ea_trials_definitions.specs.Runs.{single_block};
ghost use Rattle.ea_trials_definitions.specs.Entries.{FindsNone, FindsPlace, GoesTo, StaysHere};
ghost use Rattle.ea_trials_definitions.specs.Entries.{absent_from, full_region, handed_over, log_of};
ghost use Rattle.ea_trials_definitions.specs.Entries.{place, sights_of, too_large, two_gaps};
ghost use Rattle.ea_trials_definitions.specs.WorkedCourses.{moved_away};

/// What a search saw, and that the entries say what is so.
pub fn entries()
    ensures sights { sights_of full_region 2 (codes "1*2054 2*2050") (codes "2*2048 1*3 2")
        ≡ Some
        (absent_from 2048 1023 ++ Shown 1025 (word.Employed 2) ∷ absent_from 1024 1023
        ++ Shown 1 (word.Pooled 1 25002) ∷ Missed 1 (word.Busy 1) ∷ []) }
    ensures sights_of_own_and_pool { sights_of too_large 1 (codes "1*1030") (codes "1*5")
        ≡ Some
        (Shown 1 (word.Pooled 1 32728) ∷ Shown 1 (word.Pooled 1 32728) ∷ absent_from 1024 3) }
    ensures failed { log_of full_region 2 (codes "1*2054 2*2050 2*2049 1*3 2")
        ≡ Some (entry.Alloc 4 (place 1025 8 62502) ∷ entry.AllocFail 5 12502 1 Space ∷ []) }
    ensures exhausted { FindsNone full_region (codes "1*2054 2*2050 2*2049 1*3") 2
        (entry.AllocFail 5 12502 1 Space) 12502 1 Space }
    ensures in_a_fetched_carrier { FindsPlace two_gaps (codes "1*1032") 1 3 (place 1 8 18) }
    ensures in_a_new_carrier { FindsPlace moved_away (codes "1*2054 2*2050 1*2051 1*3 2*4") 1 4
        (place 2 8 26) }
    ensures in_a_carrier_of_its_own { FindsPlace single_block (codes "1") 1 1 (place 1 8 75002) }
    ensures to_the_employer { GoesTo handed_over (codes "1*3 2*5") 2 1 1 }
    ensures by_itself { StaysHere two_gaps (codes "1*1029") 1 1 }
{}
