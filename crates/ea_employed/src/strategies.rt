//! How strategies search, and how they compare gaps.
ghost use Rattle.std.specs.Prelude.{◌≡◌, false};
ghost use Rattle.ea_model.specs.Strategies as strategies;
ghost use Rattle.ea_employed.specs.Binned.{fit_of, has_bins};
ghost use Rattle.ea_employed.specs.Searches.{order_among, search_of};

use ea_cset::Order;
use ea_goodfit::Fit;
use ea_model::{Inner, Strategy};

/// How a strategy searches the carriers.
#[derive(Debug, Clone, Copy, PartialEq, Eq)]
pub enum Search {
    /// It takes the first carrier in its order that has a gap of the size.
    First,
    /// It takes a gap of the bins, which hold those of all carriers.
    Bins,
    /// It inspects the gap at the lowest address, and no other.
    Lowest,
}

/// How a strategy searches the carriers.
pub fn search_of(strategy: Strategy) -> Search
    ensures { result ≡ search_of strategy }
{
    match strategy {
        Strategy::Aoff
        | Strategy::AoffCbf
        | Strategy::AoffCaobf
        | Strategy::AgeffCaoff
        | Strategy::AgeffCbf
        | Strategy::AgeffCaobf => Search::First,
        Strategy::Bf | Strategy::Aobf | Strategy::Gf => Search::Bins,
        Strategy::Af => Search::Lowest,
    }
}

/// The order among carriers in which a strategy searches them.
pub fn order_among(strategy: Strategy) -> Order
    ensures { result ≡ order_among strategy }
{
    match strategy {
        Strategy::AgeffCaoff | Strategy::AgeffCbf | Strategy::AgeffCaobf => Order::Age,
        _ => Order::Address,
    }
}

/// How the bins of a strategy that has some choose among gaps.
pub fn fit_of(strategy: Strategy) -> Option<Fit>
    ensures { result ≡ fit_of strategy }
{
    match strategy {
        Strategy::Bf => Some(Fit::Best),
        Strategy::Aobf => Some(Fit::AddressOrderBest),
        Strategy::Gf => Some(Fit::Good),
        _ => None,
    }
}

/// Whether a strategy may look past a gap that is large enough.
pub fn may_miss(strategy: Strategy) -> bool
    ensures { result ≡ strategies.may_miss strategy }
{
    matches!(strategy, Strategy::Gf | Strategy::Af)
}

/// How a strategy compares gaps inside a carrier.
pub fn inner_of(strategy: Strategy) -> Inner
    ensures { result ≡ strategies.inner_of strategy }
{
    match strategy {
        Strategy::Bf | Strategy::AoffCbf | Strategy::AgeffCbf => Inner::Bf,
        Strategy::Aobf | Strategy::AoffCaobf | Strategy::AgeffCaobf | Strategy::Gf => Inner::Aobf,
        Strategy::Aoff | Strategy::AgeffCaoff | Strategy::Af => Inner::Aoff,
    }
}

/// The order by which a carrier keeps its gaps under a strategy: that in which it is asked for
/// them. Where there are bins these choose among gaps.
pub fn order_of(strategy: Strategy) -> Inner
    ensures { has_bins strategy ≡ false → result ≡ strategies.inner_of strategy }
{
    match strategy {
        Strategy::Bf | Strategy::Aobf | Strategy::Gf => Inner::Aoff,
        _ => inner_of(strategy),
    }
}
