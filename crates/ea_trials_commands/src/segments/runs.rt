//! Runs of the command at its limit.
use ea_model::List;
use ea_super::run_super;
use ea_trials_io::{MemSink, MemSource};
use std::test::Fail;

#[test]
fn one_request_too_many_is_refused(rt: HostRuntime) -> Result<(), Fail> {
    // A name that is taken again or not held is told only up to the last request.
    let cases: [(usize, &[u8], &str); 3] = [
        (
            1_048_575,
            b"back 2\n",
            "erts_alloc_run: line 1048579: too many\n",
        ),
        (
            1_048_575,
            b"take 1 1\n",
            "erts_alloc_run: line 1048579: too many\n",
        ),
        (
            1_048_574,
            b"take 1 1\n",
            "erts_alloc_run: line 1048578: name reused\n",
        ),
    ];
    for (backs, last, line) in cases {
        let mut bytes = Vec::from_slice(rt.alloc(), b"super\nscheduler 1\ntake 1 1\n")?;
        let all = b"back 1\n".repeat(rt.alloc(), backs)?;
        bytes.extend_from_slice(&all)?;
        bytes.extend_from_slice(last)?;
        let mut source = MemSource::new(List::from_vec(bytes), 4096, List::new(rt.alloc()));
        let mut out = MemSink::new(rt.alloc(), 100, 16, List::new(rt.alloc()))?;
        let mut err = MemSink::new(rt.alloc(), 100, 16, List::new(rt.alloc()))?;
        let words = Vec::new(rt.alloc());
        let status = run_super(&rt, rt.alloc(), &words, &mut source, &mut out, &mut err);
        assert_eq!(rt; (status, out.taken().len()), (2, 0), "after {backs} backs");
        assert_eq!(rt; err.taken(), line.as_bytes(), "after {backs} backs");
    }
    Ok(())
}
