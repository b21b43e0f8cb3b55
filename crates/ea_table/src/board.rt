//! The table.
ghost use Rattle.std.specs.Prelude.{◌≡◌, ◌*◌, ◌≤◌};
ghost use Rattle.ea_model.specs.declared.units.TheConstants.{MAX_NAME, MAX_SCHEDULERS, NUMBERS};
ghost use Rattle.ea_table.specs.Words.{words_in};

use crate::rule::Ruled;
use crate::views::{About, View};
use atomic_table::Table;
use ea_mbc::Mbc;
use std::alloc::Global;

/// The table of a run: what its schedulers share, in words that change in atomic steps, with a slot
/// for the content of each carrier that no scheduler has. It keeps how many schedulers there are,
/// and the greatest name of the trace.
#[derive(Drop)]
pub struct Board<'t> {
    pub table: Table<Option<Mbc>, View, About<'t>, Ruled, Global>,
    pub schedulers: u32,
    pub greatest: u32,
    ghost schedulers_are: { schedulers ≡ table.shared.key.config.schedulers },
    ghost greatest_is: { greatest ≡ table.shared.key.trace.now.greatest },
    ghost few: { schedulers ≤ MAX_SCHEDULERS },
    ghost small: { greatest ≤ MAX_NAME },
    ghost slots: { table.shared.table_id.slots ≡ NUMBERS * schedulers },
    ghost words: { table.shared.table_id.words ≡ words_in schedulers greatest },
}
