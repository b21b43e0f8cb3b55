//! A carrier where it is.
ghost use Rattle.std.specs.Prelude.{◌≡◌, IfOk, option_map};
ghost use Rattle.std.specs.Option.{option_and_then};
ghost use Rattle.ea_model.specs.Content as contents;
ghost use Rattle.ea_machine.specs.Outcome.{line_of};
ghost use Rattle.ea_instance.specs.Layouts.{layout_of, plain_layout};

use ea_instance::{Held, Instance, Layout, multi_layout, multi_line};
use ea_mbc::Mbc;
use ea_model::{Block, CarrierLine, OutOfMemory, Spot, Standing};
use std::alloc::Global;

/// Who has the content of a carrier.
#[derive(Clone, Copy)]
pub enum Whose<'a> {
    /// The instance of its employer, if that has it.
    Employer { instance: &'a Instance },
    /// A scheduler, in its hand.
    Hand { carrier: &'a Held },
    /// No scheduler: it is at home.
    Home { carrier: &'a Mbc },
}

/// A carrier where it is: who has its content, what its owner word says, and its employer.
#[derive(Clone, Copy)]
pub struct Found<'a> {
    pub whose: Whose<'a>,
    pub word: Standing,
    pub employer: u32,
}

/// The line with that owner word and employer.
fn standing(line: CarrierLine, word: Standing, employer: u32) -> CarrierLine
    ensures { result ≡ record line { word = word; employer = employer } }
{
    CarrierLine {
        word,
        employer,
        ..line
    }
}

impl<'a> Found<'a> {
    ghost use Rattle.ea_outcome.specs.Finding.{present_with};

    /// Its line, if it is there with that number.
    pub fn line(&self, number: u32) -> Option<CarrierLine>
        ensures { result ≡ option_map line_of (present_with number self.now) }
    {
        match &self.whose {
            Whose::Employer { instance } => match instance.carrier_line(number) {
                Some(line) => Some(standing(line, self.word, self.employer)),
                None => None,
            },
            Whose::Hand { carrier } => {
                let line = carrier.line(self.employer);
                Some(standing(line, self.word, self.employer))
            }
            Whose::Home { carrier } => {
                let line = multi_line(self.employer, carrier);
                Some(standing(line, self.word, self.employer))
            }
        }
    }

    /// Its layout, if it is there with that number. It fails only where there is no memory.
    pub fn layout(&self, alloc: Global, number: u32) -> Result<Option<Layout>, OutOfMemory>
        ensures { IfOk result (λ layout. option_map plain_layout layout
            ≡ option_map (λ p. layout_of p.content) (present_with number self.now)) }
    {
        match &self.whose {
            Whose::Employer { instance } => {
                if !instance.employs(number) {
                    return Ok(None);
                }
                Ok(Some(instance.layout(alloc, number)?))
            }
            Whose::Hand { carrier } => Ok(Some(carrier.layout(alloc)?)),
            Whose::Home { carrier } => Ok(Some(multi_layout(alloc, carrier)?)),
        }
    }

    /// The block at the spot, if its carrier is there and a block begins there.
    pub fn block_at(&self, spot: Spot) -> Option<Block>
        ensures { result ≡ option_map contents.named
            (option_and_then (λ p. contents.block_at p.content.blocks spot.offset)
            (present_with spot.carrier self.now)) }
    {
        match &self.whose {
            Whose::Employer { instance } => instance.block_at(spot),
            Whose::Hand { carrier } => carrier.block_at(spot.offset),
            Whose::Home { carrier } => carrier.block_at(spot.offset),
        }
    }
}
