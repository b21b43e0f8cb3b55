//! Main carriers, and blocks with carriers of their own, with migration and without.

ghost use Rattle.std.specs.Prelude.{◌≡◌, Some, [], ◌∷◌};
ghost use Rattle.ea_trials_definitions.specs.Failures.{failures};
ghost use Rattle.ea_trials_definitions.specs.Paths.{path_of, content_path, Nowhere, Held, Given, Queued};
ghost use Rattle.ea_trials_definitions.specs.Paths.{Walked, InHand, Employed};
ghost use Rattle.ea_trials_definitions.specs.WorkedCourses.{large_fixed, large_migrating, seen_large};

/// What holds at each moment.
pub fn large()
    ensures no_failure_migrating { failures seen_large large_migrating ≡ Some [] }
    ensures moved_by_another { path_of 1 large_migrating
        ≡ Some (Nowhere ∷ Held ∷ Given ∷ Held ∷ InHand ∷ Queued ∷ Walked ∷ InHand ∷ Nowhere ∷ []) }
    ensures old_single_released { path_of 2 large_migrating
        ≡ Some (Nowhere ∷ Held ∷ InHand ∷ Nowhere ∷ []) }
    ensures renamed_in_its_place { path_of 4 large_migrating
        ≡ Some (Nowhere ∷ Held ∷ Nowhere ∷ []) }
    ensures single_cleared { content_path 3 large_migrating
        ≡ Some (Nowhere ∷ Employed 1 ∷ Nowhere ∷ []) }
    ensures no_failure_fixed { failures seen_large large_fixed ≡ Some [] }
    ensures moved_by_another_too { path_of 1 large_fixed
        ≡ Some (Nowhere ∷ Held ∷ Given ∷ Held ∷ InHand ∷ Queued ∷ Walked ∷ Nowhere ∷ []) }
    ensures single_cleared_too { content_path 3 large_fixed
        ≡ Some (Nowhere ∷ Employed 1 ∷ Nowhere ∷ []) }
{}
