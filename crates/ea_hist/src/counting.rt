//! Intervals of sizes, and how many sizes lie in each.
ghost use Rattle.std.specs.Prelude.{◌≡◌, ◌+◌, ◌≤◌, length};
ghost use Rattle.ea_hist.specs.Intervals.{counts};
ghost use Rattle.ea_hist.specs.Intervals as intervals;

/// How many intervals there are. They are numbered from 1.
pub const INTERVALS: usize = 18;

/// The least sizes of the intervals 2 to 18, in units: each is twice the one before.
const BORDERS: [u32; 17] = [
    16, 32, 64, 128, 256, 512, 1024, 2048, 4096, 8192, 16_384, 32_768, 65_536, 131_072, 262_144,
    524_288, 1_048_576,
];

/// How many of the borders are not above a size.
fn reached(units: u32, borders: &[u32]) -> usize
    ensures most { result ≤ length borders.now }
    ensures count { result ≡ intervals.reached units borders.now }
{
    let mut count = 0;
    for border in borders {
        if *border <= units {
            count += 1;
        }
    }
    count
}

/// The interval in which a size lies, less 1.
fn place_of(units: u32) -> usize
    ensures place { result + 1 ≡ intervals.interval_of units }
    ensures within { result + 1 ≤ INTERVALS }
{
    reached(units, &BORDERS)
}

/// How many of the sizes lie in each interval, interval 1 first.
pub fn counts_of(sizes: &[u32]) -> [u64; INTERVALS]
    ensures { result ≡ counts sizes.now }
{
    let mut counts = [0; INTERVALS];
    for size in sizes {
        counts[place_of(*size)] += 1;
    }
    counts
}
