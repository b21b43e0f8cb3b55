//! A text whose parts are made side by side. Each kind of line stands in the cases.
use ea_model::{
    CarrierLine, Entry, Kind, List, Log, OutOfMemory, Outcome, Place, Reports, Standing, Totals,
};
use ea_report::print_beside;
use std::alloc::Global;
use std::test::Fail;

// The log with these entries.
fn log_of(alloc: Global, entries: &[Entry<Reports>]) -> Result<Log, OutOfMemory> {
    let mut log = Log::new(alloc);
    for entry in entries {
        log.reserve(1)?;
        log.push_within(*entry);
    }
    Ok(log)
}

// The outcome of a run with these logs, which left these carriers.
fn outcome(
    alloc: Global,
    logs: &[&[Entry<Reports>]],
    carriers: &[CarrierLine],
) -> Result<Outcome, OutOfMemory> {
    let mut outcome = Outcome {
        logs: List::new(alloc),
        carriers: List::new(alloc),
        totals: Totals {
            carriers: 1,
            units: 16_384,
            live: 14,
            queued: 28,
            free: 16_334,
            header: 8,
        },
    };
    for log in logs {
        outcome.logs.push(log_of(alloc, log)?)?;
    }
    outcome.carriers.extend_from_slice(carriers)?;
    Ok(outcome)
}

const PLACED: &[Entry<Reports>] = &[
    Entry::Alloc {
        name: 1,
        place: Place {
            carrier: 1,
            offset: 8,
            size: 14,
        },
    },
    Entry::Idle,
];

const FREED: &[Entry<Reports>] = &[
    Entry::Take { name: 5 },
    Entry::FreeQueued { name: 5, to: 1 },
    Entry::FreeSkipped { name: 5 },
];

const CARRIER: CarrierLine = CarrierLine {
    number: 1,
    kind: Kind::Multi,
    owner: 1,
    word: Standing::Employed,
    employer: 2,
    base: 0,
    pages: 32,
    allocated: 42,
    largest: 16_300,
};

#[test]
fn texts_that_are_made_side_by_side_stand_in_the_order_of_schedulers(
    rt: HostRuntime,
) -> Result<(), Fail> {
    let idle = Vec::from_elem(rt.alloc(), Entry::Idle, 9_000)?;
    let outcome = outcome(rt.alloc(), &[PLACED, idle.as_slice(), FREED], &[CARRIER])?;
    let printed = print_beside(&rt, rt.alloc(), &outcome)?;
    let first = "scheduler 1\nalloc 1 1 8 14\nidle\nscheduler 2\nidle\n";
    let last = "idle\nscheduler 3\ntake 5 got\nfree 5 queued 1\nfree 5 skipped\n\
        carrier 1 multi owner 1 employed 2 base 0 pages 32 allocated 42 largest 16300\n\
        total carriers 1 units 16384 live 14 queued 28 free 16334 header 8\n";
    assert!(rt; printed.as_slice().starts_with(first.as_bytes()));
    assert!(rt; printed.as_slice().ends_with(last.as_bytes()));
    assert!(rt; printed.len() == first.len() + 8_998 * 5 + last.len());
    Ok(())
}
