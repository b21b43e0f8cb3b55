//! The numbers from which operations follow.
ghost use Rattle.std.specs.Prelude.{◌≡◌, ◌+◌, ◌%◌};
ghost use Rattle.ea_gen.specs.Generated.{following, modulus};

/// A number is multiplied by this.
const MULTIPLIER: u64 = 1_103_515_245;
/// This is added then.
const INCREMENT: u64 = 12_345;
/// All numbers are modulo this one.
const MODULUS: u64 = 2_147_483_648;
/// A draw is a number over this, rounded down.
pub const DRAW_STEP: u32 = 65_536;
/// A draw modulo this tells the kind of the operation.
pub const DRAW_KINDS: u32 = 8;
/// The bytes of a request for each one of the draw.
pub const STEP_BYTES: u32 = 4;

/// The number that follows.
pub fn next_number(number: u32) -> u32
    ensures { result ≡ following number }
{
    ((u64::from(number) * MULTIPLIER + INCREMENT) % MODULUS) as u32
}

/// The number that a scheduler has before its first one.
pub fn seed_of(seed: u32, scheduler: u32) -> u32
    ensures { result ≡ (seed + scheduler) % modulus }
{
    ((u64::from(seed) + u64::from(scheduler)) % MODULUS) as u32
}
