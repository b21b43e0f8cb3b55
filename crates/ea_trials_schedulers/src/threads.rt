//! That schedulers run beside each other.
use crate::meeting::Meeting;
use ea_flags::read_flags;
use ea_model::Mode;
use ea_report::print;
use ea_table::run_threads;
use ea_trace::read_trace;
use ea_types::{read_types, run_typed_threads};
use std::process::Abort;
use std::test::Fail;

/// Each scheduler gives first, and then takes what the other gives.
const HANDED_OVER: &str = "type H\n\
    scheduler 1\nalloc 1 100\ngive 1 2\ntake 2 10000000\n\
    scheduler 2\nalloc 2 100\ngive 2 1\ntake 1 10000000\n\
    threads\nend\n";

const HANDED_OVER_TEXT: &str = "scheduler 1\nalloc 1 1 8 14\ngive 1 2\ntake 2 got\n\
    scheduler 2\nalloc 2 1025 8 14\ngive 2 1\ntake 1 got\n\
    carrier 1 multi owner 1 employed 1 base 0 pages 64 allocated 14 largest 32746\n\
    carrier 1025 multi owner 2 employed 2 base 8192 pages 64 allocated 14 largest 32746\n\
    total carriers 2 units 65536 live 28 queued 0 free 65492 header 16\n";

/// The same as that of two types, of which one has no operations.
const HANDED_OVER_IN_ONE_TYPE: &str = "types H B\n\
    scheduler 1\nH alloc 1 100\nH give 1 2\nH take 2 10000000\n\
    scheduler 2\nH alloc 2 100\nH give 2 1\nH take 1 10000000\n\
    threads\nend\n";

const NOTHING_TEXT: &str = "scheduler 1\nscheduler 2\n\
    total carriers 0 units 0 live 0 queued 0 free 0 header 0\n";

/// Scheduler 1 abandons its carrier before it gives, and scheduler 2 fetches it after it took.
const FETCHED: &str = "type H\n\
    scheduler 1\nalloc 1 100\nalloc 2 100\nfree 1\ngive 2 2\n\
    scheduler 2\ntake 2 10000000\nalloc 3 100\n\
    threads\nend\n";

const FETCHED_TEXT: &str = "scheduler 1\nalloc 1 1 8 14\nalloc 2 1 22 14\nfree 1 done\ngive 2 2\n\
    scheduler 2\ntake 2 got\nalloc 3 1 8 14\n\
    carrier 1 multi owner 1 employed 2 base 0 pages 64 allocated 28 largest 32732\n\
    total carriers 1 units 32768 live 28 queued 0 free 32732 header 8\n";

/// Scheduler 1 gives, and stops before it takes.
const STOPPED: &str = "type H\n\
    scheduler 1\nalloc 1 100\ngive 1 2\ntake 2 10000000\n\
    scheduler 2\nalloc 2 100\ngive 2 1\ntake 1 10000000\n\
    stop 1 4\nthreads\nend\n";

const STOPPED_TEXT: &str = "scheduler 1\nalloc 1 1 8 14\ngive 1 2\nstopped 4\n\
    scheduler 2\nalloc 2 1025 8 14\ngive 2 1\ntake 1 got\n\
    carrier 1 multi owner 1 employed 1 base 0 pages 64 allocated 14 largest 32746\n\
    carrier 1025 multi owner 2 employed 2 base 8192 pages 64 allocated 14 largest 32746\n\
    total carriers 2 units 65536 live 28 queued 0 free 65492 header 16\n";

#[test]
fn each_scheduler_is_at_its_second_step_while_the_other_is(rt: HostRuntime) -> Result<(), Fail> {
    let alloc = rt.alloc();
    for (acul, input, text) in [
        ("0", HANDED_OVER, HANDED_OVER_TEXT),
        ("60", HANDED_OVER, HANDED_OVER_TEXT),
        ("60", FETCHED, FETCHED_TEXT),
        ("0", STOPPED, STOPPED_TEXT),
    ] {
        let mut words = Vec::new(alloc);
        for word in ["+S", "2", "+MHacul", acul] {
            words.push(String::from_str(alloc, word)?)?;
        }
        assert!(rt; words.len() < 1 << 32);
        let config = read_flags(&words)?;
        let bytes = input.as_bytes();
        assert!(rt; bytes.len() < 1 << 31);
        let trace = read_trace(alloc, bytes, config.schedulers)?;
        assert!(rt; matches!(trace.mode, Mode::Threads));

        let meeting = Meeting::new();
        let outcome = run_threads(&rt, alloc, config, &trace, &meeting)?;
        assert!(rt; meeting.have_met());
        assert_eq!(rt;
            str::from_utf8(print(alloc, &outcome)?.as_slice()),
            Ok(text)
        );
    }
    Ok(())
}

#[test]
fn schedulers_of_two_types_meet(rt: HostRuntime) -> Result<(), Fail> {
    let alloc = rt.alloc();
    let mut words = Vec::new(alloc);
    for word in ["+S", "2", "+MHacul", "0", "+MBacul", "0"] {
        words.push(String::from_str(alloc, word)?)?;
    }
    assert!(rt; words.len() < 1 << 32);
    let config = read_flags(&words)?;
    let bytes = HANDED_OVER_IN_ONE_TYPE.as_bytes();
    assert!(rt; bytes.len() < 1 << 24);
    let input = read_types(alloc, config, bytes)?;
    let traces = input.traces.as_slice();

    let meeting = Meeting::new();
    let parts = input.parts.as_slice();
    let outcomes = run_typed_threads(&rt, alloc, config, traces, parts, &meeting)?;
    assert!(rt; meeting.have_met());
    for (outcome, text) in outcomes
        .as_slice()
        .iter()
        .zip([HANDED_OVER_TEXT, NOTHING_TEXT])
    {
        assert_eq!(rt; str::from_utf8(print(alloc, outcome)?.as_slice()), Ok(text));
    }
    assert_eq!(rt; outcomes.len(), 2);
    Ok(())
}
