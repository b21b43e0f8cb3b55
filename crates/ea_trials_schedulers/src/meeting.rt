//! A gate at which two schedulers meet.

use ea_table::Gate;
use std::sync::atomic::{AtomicU32, Ordering};

/// The steps that a scheduler has made when it waits for the other. After one it has allocated its
/// block. After three it has given it, so that the other takes it at the first try, however busy
/// the machine is.
const MEETINGS: [u32; 2] = [1, 3];

/// The most turns for which a scheduler waits.
const MOST_TURNS: u32 = 1_000_000_000;

/// What the gate knows of a scheduler.
#[derive(Drop)]
struct Guest {
    calls: AtomicU32,
    met: AtomicU32,
}

impl Guest {
    fn new() -> Guest {
        Guest {
            calls: AtomicU32::new(0),
            met: AtomicU32::new(0),
        }
    }

    fn come(&self, other: &Guest) {
        let made = self.calls.fetch_add(1, Ordering::SeqCst);
        if !MEETINGS.contains(&made) {
            return;
        }
        for _ in 0..MOST_TURNS {
            if other.calls.load(Ordering::SeqCst) > made {
                self.met.fetch_add(1, Ordering::SeqCst);
                return;
            }
        }
    }

    fn has_met(&self) -> bool {
        self.met.load(Ordering::SeqCst) as usize == MEETINGS.len()
    }
}

/// A gate that holds each of two schedulers before its second and its fourth step until the other
/// has come to the same step, for a bounded time, and notes whether it came.
#[derive(Drop)]
pub struct Meeting {
    first: Guest,
    second: Guest,
}

impl Meeting {
    /// Nobody has come.
    pub fn new() -> Meeting {
        Meeting {
            first: Guest::new(),
            second: Guest::new(),
        }
    }

    /// Whether the other came to each, at both steps.
    pub fn have_met(&self) -> bool {
        self.first.has_met() && self.second.has_met()
    }
}

impl Gate for Meeting {
    fn pass(&self, me: u32) {
        if me == 1 {
            self.first.come(&self.second);
        } else {
            self.second.come(&self.first);
        }
    }
}
