//! The line of a carrier.
ghost use Rattle.std.specs.Prelude.{◌≡◌};
ghost use Rattle.ea_model.specs.Instance.{carrier_line};

use ea_mbc::Mbc;
use ea_model::{CarrierLine, Kind, PAGE_UNITS, Standing};
use ea_sbc::Sbc;

/// The line of a multiblock carrier, with that employer.
pub fn multi_line(employer: u32, carrier: &Mbc) -> CarrierLine
    ensures { result ≡ carrier_line employer carrier.now }
{
    carrier.laid_out();
    CarrierLine {
        number: carrier.number(),
        kind: Kind::Multi,
        owner: carrier.owner(),
        word: Standing::Employed,
        employer,
        base: carrier.base(),
        pages: carrier.units() / PAGE_UNITS,
        allocated: carrier.allocated(),
        largest: carrier.largest(),
    }
}

/// The line of a singleblock carrier, with that employer.
pub fn single_line(employer: u32, carrier: &Sbc) -> CarrierLine
    ensures { result ≡ carrier_line employer carrier.now }
{
    CarrierLine {
        number: carrier.number(),
        kind: Kind::Single,
        owner: carrier.owner(),
        word: Standing::Employed,
        employer,
        base: carrier.base(),
        pages: carrier.units() / PAGE_UNITS,
        allocated: carrier.allocated(),
        largest: carrier.tail(),
    }
}
