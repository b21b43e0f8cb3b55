//! What is left where a call of the source or of a sink fails.
use crate::{Case, NotRun, PLAIN};
use std::alloc::Global;
use std::process::Abort;
use std::test::Fail;
use std::thread::Threads;

const WORDS: &str = "+MMscs 1 +MHacul 0";

const INPUT: &[u8] = b"type H\nscheduler 1\nalloc 1 100\nschedule\nend\n";

const TEXT: &str = "scheduler 1\nalloc 1 1 8 14\n\
    carrier 1 multi owner 1 employed 1 base 0 pages 64 allocated 14 largest 32746\n\
    total carriers 1 units 32768 live 14 queued 0 free 32746 header 8\n";

const READ_FAILED: &str = "erts_alloc_run: read failed\n";

const WRITE_FAILED: &str = "erts_alloc_run: write failed\n";

const GOOD: Case = Case {
    words: WORDS,
    input: INPUT,
    ..PLAIN
};

fn front(text: &str, length: usize) -> &str {
    text.get(..length).unwrap_or(text)
}

#[test]
fn a_failing_read_ends_the_run(rt: HostRuntime) -> Result<(), Fail> {
    // 44 bytes are read in pieces of 16, and the fourth read finds the end.
    for call in 1..5 {
        let case = Case {
            failing_reads: &[call],
            ..GOOD
        };
        let ran = case.run(&rt, rt.alloc())?;
        assert_eq!(rt; ran.told(), (3, "", READ_FAILED), "of {call}");
    }
    Ok(())
}

#[test]
fn a_failing_write_leaves_what_was_written_before(rt: HostRuntime) -> Result<(), Fail> {
    // 171 bytes are written in pieces of 16.
    for (call, done) in (1..12).zip((0..171).step_by(16)) {
        let case = Case {
            failing_writes: &[call],
            ..GOOD
        };
        let ran = case.run(&rt, rt.alloc())?;
        assert_eq!(rt;
            ran.told(),
            (4, front(TEXT, done), WRITE_FAILED),
            "of {call}"
        );
    }
    Ok(())
}

// Each write of the line fails in turn, and takes a byte where it does not.
fn cut_line<R: Threads + Sync + Abort>(
    rt: &R,
    alloc: Global,
    given: &Case,
    wanted: (u8, &str, &str),
) -> Result<(), NotRun> {
    let (status, out, line) = wanted;
    for (call, done) in (1..100).zip(0..line.len()) {
        let case = Case {
            piece: 1,
            failing_complaints: &[call],
            ..*given
        };
        let ran = case.run(rt, alloc)?;
        assert_eq!(rt; ran.told(), (status, out, front(line, done)), "of {case:?}");
    }
    Ok(())
}

#[test]
fn an_error_line_ends_where_its_write_fails(rt: HostRuntime) -> Result<(), Fail> {
    let cases = [
        (
            Case {
                words: "+MHacul",
                ..GOOD
            },
            (1, "", "erts_alloc_run: word 1: value missing\n"),
        ),
        (
            Case {
                words: "+MHacul 0 +MHmmbcs 65537",
                ..GOOD
            },
            (1, "", "erts_alloc_run: super carrier too small\n"),
        ),
        (
            Case {
                input: b"end\n",
                ..GOOD
            },
            (2, "", "erts_alloc_run: line 1: syntax\n"),
        ),
        (
            Case {
                failing_reads: &[2],
                ..GOOD
            },
            (3, "", READ_FAILED),
        ),
        (
            Case {
                failing_writes: &[13],
                ..GOOD
            },
            (4, "scheduler 1\n", WRITE_FAILED),
        ),
    ];
    for (given, wanted) in &cases {
        cut_line(&rt, rt.alloc(), given, *wanted)?;
    }
    Ok(())
}
