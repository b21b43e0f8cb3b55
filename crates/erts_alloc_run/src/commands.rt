//! The commands of the program.
ghost use Rattle.std.specs.Prelude.{◌≡◌};
ghost use Rattle.erts_alloc_run.specs.Commands.{command};

/// What the program is asked to do.
#[derive(Debug, Clone, Copy, PartialEq, Eq)]
pub enum Command {
    /// To run a trace. No word names it.
    Trace,
    /// `types`: to run several allocator types.
    Types,
    /// `super`: to play sections on one region that all schedulers share.
    Super,
    /// `recorded`: to run operations in the order of their lines.
    Recorded,
    /// `histogram`: to run a trace, and to count its blocks and gaps by their size.
    Histogram,
    /// `contents`: to run a trace with writes and reads of words of its blocks.
    Contents,
    /// `steps`: to run a trace with a schedule, and to tell each of its steps.
    Steps,
}

/// The command that the first word names; without such a word that of a trace.
pub fn command_of(words: &[String]) -> Command
    ensures { result ≡ command words.now }
{
    let Some(first) = words.first() else {
        return Command::Trace;
    };
    let name = first.as_bytes();
    if name == b"types".as_slice() {
        Command::Types
    } else if name == b"super".as_slice() {
        Command::Super
    } else if name == b"recorded".as_slice() {
        Command::Recorded
    } else if name == b"histogram".as_slice() {
        Command::Histogram
    } else if name == b"contents".as_slice() {
        Command::Contents
    } else if name == b"steps".as_slice() {
        Command::Steps
    } else {
        Command::Trace
    }
}
