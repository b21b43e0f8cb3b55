//! A source of bytes and a sink for bytes.
ghost use Rattle.std.specs.Prelude.{ℕ, Option, List};
ghost use Rattle.ea_io.specs.Calls.{Reads, Writes};

/// A read or a write failed. The bytes are as they were before that call, and the end counted
/// one fault more.
#[derive(Debug, Clone, Copy, PartialEq, Eq)]
pub struct Failed;

/// Where bytes come from. Contracts speak of the bytes that are left, where the source tells them,
/// and of a count of faults, which never falls.
pub trait Source {
    // the bytes left, where the source tells them
    ghost left: { Self → Option (List ℕ) };
    // how often it failed
    ghost faults: { Self → ℕ };

    /// Puts the next bytes into the front of `buf` and answers how many, from 0 to the length of
    /// `buf`. Where `buf` isn't empty, 0 means that the end was reached. An `Err` comes only where
    /// the count of faults goes up by one, and takes no byte.
    fn read(&mut self, buf: &mut [u8]) -> Result<usize, Failed>
        ensures { Reads (left self.old) (left self.new) (faults self.old) (faults self.new)
            result buf.new };
}

/// Where bytes go. Contracts speak of the bytes that were taken, or at least of how many, where the
/// sink tells that, and of a count of faults, which never falls.
pub trait Sink {
    // the bytes taken, where the sink tells them
    ghost taken: { Self → Option (List ℕ) };
    // how many bytes it took, where it tells only that
    ghost size: { Self → Option ℕ };
    // how often it failed
    ghost faults: { Self → ℕ };

    /// Takes bytes from the front of `piece` and answers how many: at least one, unless `piece` is
    /// empty, and at most all. An `Err` comes only where the count of faults goes up by one, and
    /// takes nothing.
    fn write(&mut self, piece: &[u8]) -> Result<usize, Failed>
        ensures { Writes (taken self.old) (taken self.new) (size self.old) (size self.new)
            (faults self.old) (faults self.new) result piece.now };
}
