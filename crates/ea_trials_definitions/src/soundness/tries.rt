//! Tries to make a pooled carrier busy, or to fetch it, that are won and lost.

ghost use Rattle.std.specs.Prelude.{◌≡◌, Some, [], ◌∷◌};
ghost use Rattle.ea_trials_definitions.specs.Failures.{failures};
ghost use Rattle.ea_trials_definitions.specs.Paths.{path_of, content_path, Nowhere, Held, Queued, Walked};
ghost use Rattle.ea_trials_definitions.specs.Paths.{InHand, Employed, Busy, Home};
ghost use Rattle.ea_trials_definitions.specs.WorkedCourses.{fetched_first, fetching_back, made_busy, seen_busy};
ghost use Rattle.ea_trials_definitions.specs.WorkedCourses.{seen_fetched, seen_fetching_back};

/// What holds at each moment.
pub fn tries()
    ensures no_failure_busy { failures seen_busy made_busy ≡ Some [] }
    ensures released { path_of 3 made_busy ≡ Some (Held ∷ InHand ∷ Nowhere ∷ []) }
    ensures pooled_again { content_path 1 made_busy ≡ Some (Home ∷ Busy 1 ∷ Home ∷ []) }
    ensures another_created { content_path 1025 made_busy ≡ Some (Nowhere ∷ Employed 2 ∷ []) }
    ensures no_failure_fetched { failures seen_fetched fetched_first ≡ Some [] }
    ensures left_in_a_walk { path_of 3 fetched_first
        ≡ Some (Held ∷ InHand ∷ Queued ∷ Walked ∷ []) }
    ensures fetched { content_path 1 fetched_first ≡ Some (Home ∷ Employed 2 ∷ []) }
    ensures no_failure_fetching_back { failures seen_fetching_back fetching_back ≡ Some [] }
    ensures fetched_back { content_path 1 fetching_back
        ≡ Some (Employed 1 ∷ Home ∷ Employed 2 ∷ Home ∷ Employed 1 ∷ []) }
{}
