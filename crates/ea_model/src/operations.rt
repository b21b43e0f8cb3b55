//! The operations of a trace.
ghost use Rattle.std.specs.Prelude.{◌≡◌};
ghost use Rattle.ea_model.specs.Trace as traces;

/// An operation of a scheduler. Names are 1 to `MAX_NAME`, schedulers 1 to `MAX_SCHEDULERS`, tries 1
/// to `MAX_TRIES`, and the bytes of a request 0 to `MAX_BYTES`.
#[derive(Debug, Clone, Copy, PartialEq, Eq)]
pub enum Op {
    /// Allocates a block.
    Alloc { name: u32, bytes: u32 },
    /// Frees a block.
    Free { name: u32 },
    /// Reallocates a block, which takes the name `fresh`.
    Realloc { old: u32, fresh: u32, bytes: u32 },
    /// Hands a block over to another scheduler.
    Give { name: u32, to: u32 },
    /// Takes a block that was given, with that many tries.
    Take { name: u32, tries: u32 },
    /// Asks for the allocator information.
    Info,
    /// Does nothing but look after the scheduler's queue.
    Idle,
}

impl Op {
    /// The greatest name of the operation, or 0.
    pub fn greatest_in(self) -> u32
        ensures { result ≡ traces.greatest_in self }
    {
        match self {
            Op::Alloc { name, .. }
            | Op::Free { name }
            | Op::Give { name, .. }
            | Op::Take { name, .. } => { name }
            Op::Realloc { old, fresh, .. } => old.max(fresh),
            Op::Info | Op::Idle => 0,
        }
    }
}
