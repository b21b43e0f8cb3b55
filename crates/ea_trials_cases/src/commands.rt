//! The run of a case by the command that its first word names.
ghost use Rattle.std.specs.Prelude.{◌^◌, ◌<◌, length};

use ea_contents::run_contents;
use ea_hist::run_hist;
use ea_recorded::run_recorded;
use ea_steps::run_steps;
use ea_super::run_super;
use ea_top::run;
use ea_trials_runs::{Case, NotRun, Ran, Streams, words_of};
use ea_types::run_types;
use std::alloc::Global;
use std::sync::Wait;
use std::thread::Threads;

/// The first word; an empty one where there is none.
fn first(words: &[String]) -> &str {
    match words.first() {
        Some(word) => word.as_str(),
        None => "",
    }
}

/// The words after the first.
fn after_first(words: &[String]) -> &[String]
    requires { length words.now < 2 ^ 32 }
    ensures { length result.now < 2 ^ 32 }
{
    match words {
        [] => words,
        [_, after @ ..] => after,
    }
}

/// Runs a case as the program does, on which no crate can stand: where its first word names a
/// command, by that one over the words after it, and else as a trace.
pub fn run_case<R: Threads + Wait + Sync>(
    rt: &R,
    alloc: Global,
    case: &Case<'_>,
) -> Result<Ran, NotRun> {
    let words = words_of(alloc, case.words)?;
    let Streams {
        mut source,
        mut out,
        mut err,
    } = case.streams(alloc)?;
    let after = after_first(&words);
    let status = match first(&words) {
        "types" => run_types(rt, alloc, after, &mut source, &mut out, &mut err),
        "super" => run_super(rt, alloc, after, &mut source, &mut out, &mut err),
        "recorded" => run_recorded(alloc, after, &mut source, &mut out, &mut err),
        "histogram" => run_hist(alloc, after, &mut source, &mut out, &mut err),
        "contents" => run_contents(alloc, after, &mut source, &mut out, &mut err),
        "steps" => run_steps(alloc, after, &mut source, &mut out, &mut err),
        _ => run(rt, alloc, &words, &mut source, &mut out, &mut err),
    };
    Ok(Ran { status, out, err })
}
