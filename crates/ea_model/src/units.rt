//! Sizes and limits. A unit is 8 bytes; carriers, blocks and gaps are counted in units.
ghost use Rattle.std.specs.Prelude.{◌≡◌, ◌≤◌};
ghost use Rattle.ea_model.specs.Units.{least_pages, need_of, pages_for};

/// The bytes of a unit.
pub const UNIT_BYTES: u32 = 8;
/// The units of a kilobyte.
pub const KILOBYTE_UNITS: u32 = 128;
/// The units of a page. Segments are whole pages.
pub const PAGE_UNITS: u32 = 512;
/// The pages of a megabyte.
pub const MEGABYTE_PAGES: u32 = 256;
/// The units at the front of a carrier that hold its own header.
pub const HEADER_UNITS: u32 = 8;
/// The units at the front of a block that hold its header.
pub const BLOCK_HEADER: u32 = 1;
/// The fewest units of a block, its header included.
pub const MIN_BLOCK: u32 = 6;
/// The carrier numbers of an allocator instance.
pub const NUMBERS: u32 = 1024;
/// The most schedulers of a run.
pub const MAX_SCHEDULERS: u32 = 64;
/// The greatest name of a block; names begin at 1.
pub const MAX_NAME: u32 = 1_048_576;
/// The most operations of a trace.
pub const MAX_OPS: u32 = 1_048_576;
/// The pooled or busy carriers after which a search of the pool ends.
pub const SEARCH_LIMIT: u32 = 16;
/// The most numbers that a search looks at in each of its instance's own lists.
pub const LIST_LIMIT: u32 = 8;
/// The most bytes of a request.
pub const MAX_BYTES: u32 = 1_073_741_823;
/// The most tries of one take.
pub const MAX_TRIES: u32 = 10_000_000;
/// The most tries of all takes of a trace.
pub const MAX_ALL_TRIES: u32 = 100_000_000;
/// The most turns of a schedule.
pub const MAX_TURNS: u32 = 100_000_000;
/// The most steps after which a scheduler stops.
pub const MAX_STEPS: u32 = 100_000_000;
/// The greatest seed of a generated trace.
pub const MAX_SEED: u32 = 2_147_483_647;
/// The greatest percentage of a setting.
pub const MAX_PERCENT: u32 = 100;
/// The most carriers over which the size of multiblock carriers grows.
pub const MAX_GROWTH_CARRIERS: u32 = 10_000;
/// The most gaps of a bin that good fit inspects.
pub const MAX_SEARCH_DEPTH: u32 = 1000;
/// The most that an instance's count comes to, which holds back abandoning.
pub const MOST_COUNT: u32 = 1000;
/// What a block that is placed raises the count by.
pub const PLACED_COUNT: u32 = 8;
/// What a block that is released lowers it by.
pub const RELEASED_COUNT: u32 = 10;
/// What a block that shrinks or grows where it is lowers it by.
pub const RESIZED_COUNT: u32 = 2;
/// The least pages of a multiblock carrier by the rule `powers`.
pub const MIN_POWER_PAGES: u32 = 64;
/// The megabytes of the largest super carrier.
pub const MAX_MEGABYTES: u32 = 512;
/// The pages of the largest super carrier, 512 megabytes.
pub const MAX_PAGES: u32 = 131_072;
/// The units of the largest super carrier, 512 megabytes.
pub const MAX_UNITS: u32 = 67_108_864;
/// The most digits of a number in a word.
pub const MAX_DIGITS: usize = 10;
/// The most bytes of an input.
pub const MAX_INPUT: usize = 16_777_216;

/// The values of the constants, so that another value of one is refused. What is printed, and what
/// flags and traces may say, rests on them.
pub fn constants()
    ensures units { (UNIT_BYTES ≡ 8) × (KILOBYTE_UNITS ≡ 128) × (PAGE_UNITS ≡ 512) }
    ensures pages { (MEGABYTE_PAGES ≡ 256) × (MAX_MEGABYTES ≡ 512) }
    ensures super_carrier { (MAX_PAGES ≡ 131072) × (MAX_UNITS ≡ 67108864) }
    ensures blocks { (HEADER_UNITS ≡ 8) × (BLOCK_HEADER ≡ 1) × (MIN_BLOCK ≡ 6) }
    ensures instances { (NUMBERS ≡ 1024) × (MAX_SCHEDULERS ≡ 64) }
    ensures searches { (SEARCH_LIMIT ≡ 16) × (LIST_LIMIT ≡ 8) }
    ensures traces { (MAX_NAME ≡ 1048576) × (MAX_OPS ≡ 1048576) × (MAX_BYTES ≡ 1073741823) }
    ensures tries { (MAX_TRIES ≡ 10000000) × (MAX_ALL_TRIES ≡ 100000000) }
    ensures turns { (MAX_TURNS ≡ 100000000) × (MAX_STEPS ≡ 100000000) }
    ensures settings { (MAX_PERCENT ≡ 100) × (MAX_GROWTH_CARRIERS ≡ 10000) }
    ensures depth { MAX_SEARCH_DEPTH ≡ 1000 }
    ensures words { (MAX_SEED ≡ 2147483647) × (MAX_DIGITS ≡ 10) × (MAX_INPUT ≡ 16777216) }
{}

/// The units that a request of `bytes` takes, at most `MAX_BYTES`: its bytes in whole units and the
/// block's header, rounded up to an even number, and `MIN_BLOCK` at least.
pub fn need(bytes: u32) -> u32
    requires { bytes ≤ MAX_BYTES }
    ensures { result ≡ need_of bytes }
{
    let units = BLOCK_HEADER + bytes.div_ceil(UNIT_BYTES);
    let even = units + units % 2;
    even.max(MIN_BLOCK)
}

/// The pages that hold that many units.
pub fn pages_for(units: u32) -> u32
    ensures { result ≡ pages_for units }
{
    units.div_ceil(PAGE_UNITS)
}

/// The pages of the least carrier that holds a block of that many units, and its own header.
pub fn least_pages(units: u32) -> u32
    ensures { result ≡ least_pages units }
{
    (u64::from(HEADER_UNITS) + u64::from(units)).div_ceil(u64::from(PAGE_UNITS)) as u32
}
