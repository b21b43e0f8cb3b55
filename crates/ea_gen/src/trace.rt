//! Makes a trace.
ghost use Rattle.std.specs.Prelude.{◌≡◌, ◌*◌, ◌≤◌, IfOk, length};
ghost use Rattle.ea_model.specs.Trace.{IsValidTrace, plain};
ghost use Rattle.ea_model.specs.declared.units.TheConstants.{MAX_OPS, MAX_SCHEDULERS, MAX_SEED};
ghost use Rattle.ea_gen.specs.Generated.{generated_trace};
ghost use Rattle.ea_model.specs.declared.trace.Mode.TheVariants.{Generated};

use crate::section::Section;
use crate::texts::{greatest_of, make_text};
use ea_model::{Letter, List, Mode, OutOfMemory, Trace};
use std::alloc::Global;

/// Makes the trace of a seed, 0 to `MAX_SEED`, for schedulers 1 to `schedulers`, `MAX_SCHEDULERS`
/// at most. Each has `count` operations, `MAX_OPS` at most for all together.
pub fn make_trace(
    alloc: Global,
    letter: Letter,
    seed: u32,
    schedulers: u32,
    count: u32,
) -> Result<Trace, OutOfMemory>
    requires seed { seed ≤ MAX_SEED }
    requires some { 1 ≤ schedulers }
    requires few { schedulers ≤ MAX_SCHEDULERS }
    requires count { 1 ≤ count }
    requires room { schedulers * count ≤ MAX_OPS }
    ensures trace { IfOk result
        (λ t. plain t ≡ generated_trace letter seed schedulers count) }
    ensures valid { IfOk result (IsValidTrace schedulers) }
    ensures texts { IfOk result (λ t. length t.texts.items ≡ schedulers) }
    ensures mode { IfOk result (λ t. t.mode ≡ Generated seed count) }
{
    let mut texts = List::new(alloc);
    let mut given = Vec::new(alloc);
    let mut greatest = 0u32;
    for before in 0..schedulers {
        let section = Section {
            scheduler: before + 1,
            schedulers,
            count,
        };
        let made = make_text(alloc, seed, section, given)?;
        greatest = greatest.max(greatest_of(made.text.as_slice()));
        texts.push(made.text)?;
        given = made.gives;
    }
    Ok(Trace {
        letter,
        texts,
        stops: List::new(alloc),
        mode: Mode::Generated { seed, count },
        greatest,
    })
}
