//! What makes the text of an input for one shared region.
ghost use Rattle.std.specs.Prelude.{◌≡◌, ◌≤◌, IfErr, IfOk, OnOk, length};
ghost use Rattle.std.specs.Thread.{IsSync};
ghost use Rattle.ea_frame.specs.Language.{HasText};
ghost use Rattle.ea_frame.specs.Whys.{IsTextFault};
ghost use Rattle.ea_model.specs.Settings.{IsValidConfig};
ghost use Rattle.ea_model.specs.declared.units.TheConstants.{MAX_INPUT};
ghost use Rattle.ea_super.specs.Command.{shared_region};

use crate::reader::read_sections;
use crate::text::print_book;
use ea_frame::{Fault, Part};
use ea_model::{Config, List, MEGABYTE_PAGES};
use ea_segments::play;
use std::alloc::Global;
use std::sync::Wait;
use std::thread::Threads;

/// What makes the text of an input for one shared region, over what runs its threads and lets them
/// wait.
#[derive(Drop)]
pub struct SharedRegion<'r, R> {
    pub rt: &'r R,
}

impl<'r, R: Threads + Wait + Sync> Part for SharedRegion<'r, R> {
    ghost language = { shared_region };

    ghost needs = { IsSync R.row };

    fn text_of(&self, alloc: Global, config: Config, input: &[u8]) -> Result<List<u8>, Fault> {
        let sections = read_sections(alloc, input, config.schedulers)?;
        let pages = config.scs * MEGABYTE_PAGES;
        let book = play(self.rt, alloc, pages, sections.as_slice())?;
        Ok(print_book(alloc, &book)?)
    }
}
