//! Stops: after how many steps a scheduler stops, and how many are left until then.
ghost use Rattle.std.specs.Prelude.{◌≡◌, ◌≤◌};
ghost use Rattle.ea_model.specs.Trace.{stop_in};
ghost use Rattle.ea_machine.specs.Stops as stops;
ghost use Rattle.ea_sched.specs.Acting as acting;
ghost use Rattle.ea_sched.specs.Looks.{AreLeft};

use ea_model::Stop;

/// After how many steps the scheduler with that number stops, if it is among these stops.
pub(crate) fn stop_of(stops: &[Stop], number: u32) -> Option<u32>
    ensures { result ≡ stop_in stops.now number }
{
    for stop in stops {
        if number == stop.scheduler {
            return Some(stop.steps);
        }
    }
    None
}

/// What is left until the stop, if there is one, after that many steps more.
pub(crate) fn less(left: Option<u32>, steps: u32) -> Option<u32>
    ensures { result ≡ stops.less left steps }
{
    match left {
        Some(left) => Some(left.saturating_sub(steps)),
        None => None,
    }
}

/// As many of these steps as are left until the stop, if there is one.
pub(crate) fn within(left: Option<u32>, steps: u32) -> u32
    ensures few { result ≤ steps }
    ensures stop { AreLeft result left }
{
    match left {
        Some(left) => left.min(steps),
        None => steps,
    }
}

/// Whether there is a stop, and no step is left until it.
pub(crate) fn is_over(left: Option<u32>) -> bool
    ensures { result ≡ acting.is_over left }
{
    match left {
        Some(left) => left == 0,
        None => false,
    }
}
