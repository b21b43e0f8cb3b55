//! A carrier that another scheduler fetches, empties and sends home.

ghost use Rattle.std.specs.Prelude.{◌≡◌, Some, [], ◌∷◌};
ghost use Rattle.ea_trials_definitions.specs.Failures.{failures};
ghost use Rattle.ea_trials_definitions.specs.Paths.{path_of, content_path, Nowhere, Held, Queued, Walked};
ghost use Rattle.ea_trials_definitions.specs.Paths.{InHand, Employed, Busy, Home};
ghost use Rattle.ea_trials_definitions.specs.WorkedCourses.{moving, returning, seen_moving, seen_returning};

/// What holds at each moment.
pub fn homeward()
    ensures no_failure_returning { failures seen_returning returning ≡ Some [] }
    ensures freed_by_the_owner { path_of 2 returning
        ≡ Some (Held ∷ InHand ∷ Queued ∷ Walked ∷ InHand ∷ Nowhere ∷ []) }
    ensures sent_home_and_collected { content_path 1 returning
        ≡ Some
        (Employed 1 ∷ Home ∷ Employed 2 ∷ Home ∷ Busy 2 ∷ Employed 2 ∷ Home ∷ Nowhere ∷ []) }
    ensures no_failure_moving { failures seen_moving moving ≡ Some [] }
    ensures old_block_queued { path_of 2 moving
        ≡ Some (Held ∷ InHand ∷ Queued ∷ Walked ∷ InHand ∷ Nowhere ∷ []) }
    ensures new_block_placed { path_of 4 moving ≡ Some (Nowhere ∷ Held ∷ []) }
    ensures still_on_its_way { content_path 1 moving
        ≡ Some (Employed 2 ∷ Home ∷ Busy 2 ∷ Employed 2 ∷ Home ∷ []) }
    ensures created { content_path 2 moving ≡ Some (Nowhere ∷ Employed 1 ∷ []) }
{}
