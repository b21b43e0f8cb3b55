//! The lines of the carriers and of the totals.
ghost use Rattle.std.specs.Prelude.{◌≡◌, ◌++◌, OnOk};
ghost use Rattle.std.specs.List.{flat_map};
ghost use Rattle.ea_report.specs.Text.{kind_text, standing_text, carrier_text, totals_text};

use crate::lines::Word::{Number, Sum, Text};
use crate::lines::put_line;
use ea_model::{CarrierLine, Kind, List, OutOfMemory, Standing, Totals};

/// The word of a kind of carriers.
pub fn kind_word(kind: Kind) -> &'static str
    ensures { result.now ≡ kind_text kind }
{
    match kind {
        Kind::Main => "main",
        Kind::Multi => "multi",
        Kind::Single => "single",
    }
}

fn standing_word(word: Standing) -> &'static str
    ensures { result.now ≡ standing_text word }
{
    match word {
        Standing::Employed => "employed",
        Standing::Pooled => "pooled",
        Standing::Busy => "busy",
        Standing::Returning => "returning",
    }
}

/// Adds the line of a carrier.
pub fn put_carrier(text: &mut List<u8>, carrier: CarrierLine) -> Result<(), OutOfMemory>
    ensures { OnOk result (text.new.items ≡ text.old.items ++ carrier_text carrier) }
{
    let words = [
        Number(carrier.number),
        Text(kind_word(carrier.kind)),
        Text("owner"),
        Number(carrier.owner),
        Text(standing_word(carrier.word)),
        Number(carrier.employer),
        Text("base"),
        Number(carrier.base),
        Text("pages"),
        Number(carrier.pages),
        Text("allocated"),
        Number(carrier.allocated),
        Text("largest"),
        Number(carrier.largest),
    ];
    put_line(text, "carrier", &words)
}

/// Adds the lines of carriers.
pub fn put_carriers(text: &mut List<u8>, carriers: &[CarrierLine]) -> Result<(), OutOfMemory>
    ensures { OnOk result (text.new.items ≡ text.old.items ++ flat_map carrier_text carriers.now) }
{
    for carrier in carriers {
        put_carrier(text, *carrier)?;
    }
    Ok(())
}

/// Adds the last line.
pub fn put_totals(text: &mut List<u8>, totals: Totals) -> Result<(), OutOfMemory>
    ensures { OnOk result (text.new.items ≡ text.old.items ++ totals_text totals) }
{
    let words = [
        Text("carriers"),
        Number(totals.carriers),
        Text("units"),
        Sum(totals.units),
        Text("live"),
        Sum(totals.live),
        Text("queued"),
        Sum(totals.queued),
        Text("free"),
        Sum(totals.free),
        Text("header"),
        Sum(totals.header),
    ];
    put_line(text, "total", &words)
}
