//! What a set knows of a carrier.

ghost use Rattle.std.specs.Prelude.{◌≡◌, ◌<◌, ◌^◌};
ghost use Rattle.ea_cset.specs.Ranks.{order_key};

use ea_model::keyed::Keyed;

/// An order among carriers.
#[derive(Debug, Clone, Copy, PartialEq, Eq)]
pub enum Order {
    /// By rising address.
    Address,
    /// By rising birth, and among equals by rising number.
    Age,
}

/// What tells a carrier from the others, and stays the same while it is employed.
#[derive(Debug, Clone, Copy, PartialEq, Eq)]
pub struct CarrierKey {
    /// Its number.
    pub number: u32,
    /// The first page of its segment.
    pub base: u32,
    /// How many carriers its creator had created with it.
    pub birth: u32,
}

/// A carrier of a set, as its contracts see it.
#[derive(Debug, Clone, Copy, PartialEq, Eq)]
pub struct CarrierFit {
    /// What tells it from the others.
    pub key: CarrierKey,
    /// The units of its largest gap.
    pub fit: u32,
}

/// A carrier that was found in a set.
#[derive(Debug, Clone, Copy, PartialEq, Eq)]
pub struct Found {
    /// Its place among the carriers, by rising number.
    pub index: usize,
    pub carrier: CarrierFit,
}

impl Keyed for CarrierFit {
    ghost key_of = { λ h. h.key.number };

    fn key(&self) -> u32 {
        self.key.number
    }
}

/// A number that rises along the order.
pub fn order_key(order: Order, carrier: CarrierFit) -> u64
    ensures key { result ≡ order_key order carrier }
    ensures small { carrier.key.number < 2 ^ 32 }
{
    match order {
        Order::Address => carrier.key.base as u64,
        Order::Age => carrier.key.birth as u64 * (1 << 32) + carrier.key.number as u64,
    }
}
