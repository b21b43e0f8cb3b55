//! Walks over the carriers of an instance, by rising number.
ghost use Rattle.std.specs.Prelude.{◌≡◌, ◌≤◌, IfSome, All, length};
ghost use Rattle.ea_model.specs.Strategies.{choice_empty};
ghost use Rattle.ea_model.specs.Instance.{multis};
ghost use Rattle.ea_laws.specs.Kept.{IsLaidOut};
ghost use Rattle.ea_employed.specs.Better.{better_of};
ghost use Rattle.ea_employed.specs.Choices.{candidate_of, IsChoice};
ghost use Rattle.ea_employed.specs.Searches.{is_lower};

use crate::choice::Choice;
use crate::employed::Employed;
use ea_model::{Inner, Kind};

/// The one at the lower address of the best so far and another one.
fn lower_of(best: Option<Choice>, found: Option<Choice>) -> Option<Choice>
    ensures { result ≡ better_of is_lower best found }
{
    match (best, found) {
        (Some(best), Some(found)) => {
            if found.candidate.address < best.candidate.address {
                Some(found)
            } else {
                Some(best)
            }
        }
        (None, found) => found,
        (best, None) => best,
    }
}

/// The gap of at least `need` units of the lowest multiblock carrier without blocks.
pub fn lowest_empty(need: u32, carriers: &[Employed]) -> Option<Choice>
    requires some { 1 ≤ need }
    requires laid { All IsLaidOut carriers.now }
    ensures chosen { candidate_of result ≡ choice_empty need carriers.now }
    ensures choice { IfSome result (IsChoice need carriers.now) }
{
    let mut best = None;
    for (index, carrier) in carriers.iter().enumerate() {
        if carrier.is_vacant() {
            best = lower_of(best, carrier.choose(index, Inner::Aoff, need));
        }
    }
    best
}

/// How many multiblock carriers there are without the main one.
pub fn multi_count(carriers: &[Employed]) -> usize
    ensures count { result ≡ multis carriers.now }
    ensures within { result ≤ length carriers.now }
{
    let mut count = 0;
    for carrier in carriers {
        if carrier.kind == Kind::Multi {
            count += 1;
        }
    }
    count
}
