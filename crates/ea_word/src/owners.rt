//! The numbers of owner words.
ghost use Rattle.std.specs.Prelude.{◌≡◌, Some, IfSome};
ghost use Rattle.ea_machine.specs.declared.owners.OwnerWord as declared;
ghost use Rattle.ea_word.specs.Codes.{IsShown, owner_code, word_in};

use ea_machine::OwnerWord;

/// How many states the lowest three bits tell apart.
pub const STATES: u64 = 8;
/// The state of a number that no carrier has. It is the whole number then.
pub const ABSENT_STATE: u64 = 0;
/// The state of an employed carrier.
pub const EMPLOYED_STATE: u64 = 1;
/// The state of a pooled carrier.
pub const POOLED_STATE: u64 = 2;
/// The state of a busy carrier.
pub const BUSY_STATE: u64 = 3;
/// The state of a carrier that is on its way to the instance which created it.
pub const RETURNING_STATE: u64 = 4;
/// The bit where the instance begins, less one.
pub const INSTANCE_SHIFT: u32 = 3;
/// The bit where half of a pooled carrier's largest gap begins.
pub const LARGEST_SHIFT: u32 = 13;
/// The greatest instance that has room, in 10 bits; instances begin at 1.
pub const MAX_CODED_INSTANCE: u32 = 1 << 10;
/// A largest gap has room if it is even and below this many units, so that its half has 31 bits.
pub const CODED_LARGEST: u64 = 1 << 32;

/// The number of an owner word. It takes no memory.
pub fn encode(word: OwnerWord) -> u64
    requires { IsShown word }
    ensures { result ≡ owner_code word }
{
    match word {
        OwnerWord::Absent => ABSENT_STATE,
        OwnerWord::Employed { instance } => {
            EMPLOYED_STATE + (u64::from(instance - 1) << INSTANCE_SHIFT)
        }
        OwnerWord::Pooled { instance, largest } => {
            POOLED_STATE
                + (u64::from(instance - 1) << INSTANCE_SHIFT)
                + (u64::from(largest / 2) << LARGEST_SHIFT)
        }
        OwnerWord::Busy { instance } => BUSY_STATE + (u64::from(instance - 1) << INSTANCE_SHIFT),
        OwnerWord::Returning { instance } => {
            RETURNING_STATE + (u64::from(instance - 1) << INSTANCE_SHIFT)
        }
    }
}

/// The owner word with that number, or None exactly when no owner word has it. It takes no memory.
pub fn decode(bits: u64) -> Option<OwnerWord>
    ensures coded { (word : declared.OwnerWord) → IsShown word → bits ≡ owner_code word
        → result ≡ Some word }
    ensures only { IfSome result (λ word. IsShown word × (bits ≡ owner_code word)) }
    ensures reads { IfSome result (λ word. word ≡ word_in bits) }
{
    let state = bits % STATES;
    let instance = ((bits >> INSTANCE_SHIFT) % u64::from(MAX_CODED_INSTANCE)) as u32 + 1;
    let half = bits >> LARGEST_SHIFT;
    if bits == ABSENT_STATE {
        return Some(OwnerWord::Absent);
    }
    if state == POOLED_STATE && half < CODED_LARGEST / 2 {
        return Some(OwnerWord::Pooled {
            instance,
            largest: half as u32 * 2,
        });
    }
    if half > 0 {
        return None;
    }
    if state == EMPLOYED_STATE {
        return Some(OwnerWord::Employed { instance });
    }
    if state == BUSY_STATE {
        return Some(OwnerWord::Busy { instance });
    }
    if state == RETURNING_STATE {
        return Some(OwnerWord::Returning { instance });
    }
    None
}
