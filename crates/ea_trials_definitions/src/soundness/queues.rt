//! Blocks that are given, taken, queued and forwarded.

ghost use Rattle.std.specs.Prelude.{◌≡◌, Some, [], ◌∷◌};
ghost use Rattle.ea_trials_definitions.specs.Failures.{failures};
ghost use Rattle.ea_trials_definitions.specs.Paths.{path_of, content_path, Nowhere, Held, Given, Queued};
ghost use Rattle.ea_trials_definitions.specs.Paths.{Walked, InHand, Employed, Home};
ghost use Rattle.ea_trials_definitions.specs.WorkedCourses.{forwarding, resting, seen_forwarding, seen_resting};

/// What holds at each moment.
pub fn queues()
    ensures no_failure_forwarding { failures seen_forwarding forwarding ≡ Some [] }
    ensures forwarded { path_of 2 forwarding
        ≡ Some
        (Held ∷ Given ∷ Held ∷ InHand ∷ Queued ∷ Walked ∷ InHand ∷ Queued ∷ Walked ∷ InHand
        ∷ Nowhere ∷ []) }
    ensures fetched_meanwhile { content_path 1 forwarding
        ≡ Some (Employed 1 ∷ Home ∷ Employed 2 ∷ Home ∷ []) }
    ensures no_failure_resting { failures seen_resting resting ≡ Some [] }
    ensures oldest_rests { path_of 1 resting
        ≡ Some (Nowhere ∷ Held ∷ Given ∷ Held ∷ InHand ∷ Queued ∷ Walked ∷ Nowhere ∷ []) }
    ensures cleared { content_path 1 resting ≡ Some (Nowhere ∷ Employed 1 ∷ Nowhere ∷ []) }
{}
