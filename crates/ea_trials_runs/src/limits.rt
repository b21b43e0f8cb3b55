//! The longest input, the most operations, and one more of each.
use crate::{NotRun, run_words};
use ea_model::{List, OutOfMemory};
use ea_trials_io::{LengthSink, MemSink, PlainSource};
use std::alloc::Global;
use std::test::Fail;
use std::thread::Threads;

const WORDS: &str = "+MMscs 1 +MHacul 0";

// The most bytes of an input.
const MOST_BYTES: usize = 16_777_216;

// The status, the length of the text, and the error line.
fn measure<R: Threads + Sync>(
    rt: &R,
    alloc: Global,
    input: Vec<u8>,
) -> Result<(u8, u64, MemSink), NotRun> {
    let mut source = PlainSource::new(List::from_vec(input));
    let mut out = LengthSink::new();
    let mut err = MemSink::new(alloc, 100, 16, List::new(alloc))?;
    let status = run_words(rt, alloc, WORDS, &mut source, &mut out, &mut err)?;
    Ok((status, out.len(), err))
}

#[test]
fn an_input_has_16_megabytes_at_most(rt: HostRuntime) -> Result<(), Fail> {
    let trace = b"\ntype H\nscheduler 1\nalloc 1 100\nschedule\nend\n";
    // A comment takes the rest of the bytes, and the text has 171.
    let cases = [
        (MOST_BYTES - 45, 0, 171, ""),
        (MOST_BYTES - 44, 2, 0, "erts_alloc_run: input too long\n"),
    ];
    for (comment, wanted, text, line) in cases {
        let mut input = vec![in rt.alloc(); b'#'; comment]?;
        input.extend_from_slice(trace)?;
        let (status, length, err) = measure(&rt, rt.alloc(), input)?;
        assert_eq!(rt; status, wanted, "with {comment}");
        assert_eq!(rt; length, text, "with {comment}");
        assert_eq!(rt; err.taken(), line.as_bytes(), "with {comment}");
    }
    Ok(())
}

// A trace of a block, that many frees of it, and the line, which may be empty.
fn trace_of(alloc: Global, frees: usize, line: &str) -> Result<Vec<u8>, OutOfMemory> {
    let mut input = Vec::from_slice(alloc, b"type H\nscheduler 1\nalloc 1 0\n")?;
    let all = b"free 1\n".repeat(alloc, frees)?;
    input.extend_from_slice(&all)?;
    input.extend_from_slice(line.as_bytes())?;
    input.extend_from_slice(b"schedule\nend\n")?;
    Ok(input)
}

#[test]
fn a_trace_has_1048576_operations_at_most(rt: HostRuntime) -> Result<(), Fail> {
    // 12 bytes of the section's line, 14 of the block, 12 of its free, 15 of each other, 57 of the
    // totals.
    let cases = [
        (1_048_575, 0, 95 + 15 * 1_048_574, ""),
        (1_048_576, 2, 0, "erts_alloc_run: line 1048579: too many\n"),
    ];
    for (frees, wanted, text, line) in cases {
        let input = trace_of(rt.alloc(), frees, "")?;
        let (status, length, err) = measure(&rt, rt.alloc(), input)?;
        assert_eq!(rt; status, wanted, "after {frees} frees");
        assert_eq!(rt; length, text, "after {frees} frees");
        assert_eq!(rt; err.taken(), line.as_bytes(), "after {frees} frees");
    }
    Ok(())
}

#[test]
fn too_many_operations_are_told_before_a_name(rt: HostRuntime) -> Result<(), Fail> {
    // The first two lines would be refused for their name too, as the others are.
    let cases = [
        (
            1_048_575,
            "alloc 1 0\n",
            "erts_alloc_run: line 1048579: too many\n",
        ),
        (
            1_048_575,
            "free 2\n",
            "erts_alloc_run: line 1048579: too many\n",
        ),
        (
            1_048_574,
            "alloc 1 0\n",
            "erts_alloc_run: line 1048578: name reused\n",
        ),
        (
            1_048_574,
            "free 2\n",
            "erts_alloc_run: line 1048578: name not held\n",
        ),
    ];
    for (frees, last, line) in cases {
        let input = trace_of(rt.alloc(), frees, last)?;
        let (status, length, err) = measure(&rt, rt.alloc(), input)?;
        assert_eq!(rt; (status, length), (2, 0), "{last} after {frees} frees");
        assert_eq!(rt; err.taken(), line.as_bytes(), "{last} after {frees} frees");
    }
    Ok(())
}
