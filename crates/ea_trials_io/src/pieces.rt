//! Steps that the ends in memory share.
ghost use Rattle.std.specs.Prelude.{◌≡◌, ◌==◌, min, take, length};
ghost use Rattle.std.specs.List.{list_any};

/// Copies the front of `rest` into the front of `buf`, at most `most` bytes, and answers how many.
pub fn copy_front(rest: &[u8], buf: &mut [u8], most: usize) -> usize
    ensures count { result ≡ min (min (length rest.now) (length buf.old)) most }
    ensures copied { take result buf.new ≡ take result rest.now }
    ensures len { length buf.new ≡ length buf.old }
{
    let count = rest.len().min(buf.len()).min(most);
    buf[..count].copy_from_slice(&rest[..count]);
    count
}

/// Whether this call is among those that are to fail.
pub fn is_listed(failing: &[u32], call: u64) -> bool
    ensures { result ≡ list_any (λ n. n == call) failing.now }
{
    failing.iter().any(|n| u64::from(*n) == call)
}
