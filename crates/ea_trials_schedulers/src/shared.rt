//! Rows that two schedulers do in plain memory, one after another.
ghost use Rattle.std.specs.Prelude.{◌≡◌, [], ◌∷◌, true, IfOk};
ghost use Rattle.ea_model.specs.declared.carriers.Kind.TheVariants.{Multi};
ghost use Rattle.ea_model.specs.declared.settings.Letter.TheVariants as letter;
ghost use Rattle.ea_machine.specs.Owners.{Absent, Pooled};
ghost use Rattle.ea_mem_shared.specs.Memory.{shared_of};
ghost use Rattle.ea_mem_shared.specs.Places.{place_at};

use ea_machine::{Node, OwnerWord};
use ea_mem_shared::MemShared;
use ea_model::{
    Carried, Config, Letter, List, Mode, NO_RULES, OutOfMemory, Settings, Spot, Strategy, Trace,
};
use ea_shared::{Link, Rested, Shared, Tried};
use std::alloc::Global;
use std::test::Fail;

const SETTINGS: Settings = Settings {
    strategy: Strategy::Bf,
    acul: 0,
    acfml: 0,
    sbct: 65_536,
    smbcs: 32_768,
    lmbcs: 655_360,
    mbcgs: 10,
    mmbcs: 32_768,
    mbsd: 3,
    rsbcmt: 80,
    rmbcmt: 50,
    rsbcst: 20,
    asbcst: 524_288,
    ramv: false,
    rules: NO_RULES,
};

const CONFIG: Config = Config {
    schedulers: 2,
    scs: 1,
    b: SETTINGS,
    d: SETTINGS,
    e: SETTINGS,
    h: SETTINGS,
    l: SETTINGS,
    r: SETTINGS,
    s: SETTINGS,
    t: SETTINGS,
};

const MIGRATING_SETTINGS: Settings = Settings {
    strategy: Strategy::Aoff,
    acul: 60,
    acfml: 0,
    sbct: 65_536,
    smbcs: 32_768,
    lmbcs: 655_360,
    mbcgs: 10,
    mmbcs: 32_768,
    mbsd: 3,
    rsbcmt: 80,
    rmbcmt: 50,
    rsbcst: 20,
    asbcst: 524_288,
    ramv: false,
    rules: NO_RULES,
};

const MIGRATING: Config = Config {
    schedulers: 2,
    scs: 1,
    b: MIGRATING_SETTINGS,
    d: MIGRATING_SETTINGS,
    e: MIGRATING_SETTINGS,
    h: MIGRATING_SETTINGS,
    l: MIGRATING_SETTINGS,
    r: MIGRATING_SETTINGS,
    s: MIGRATING_SETTINGS,
    t: MIGRATING_SETTINGS,
};

const SPOT: Spot = Spot {
    carrier: 1025,
    offset: 8,
};

const OLDER: Node = Node::Block {
    name: 1,
    spot: SPOT,
};

const NEWER: Node = Node::Block {
    name: 3,
    spot: Spot {
        carrier: 1025,
        offset: 22,
    },
};

/// The word of carrier 2 in the pool of instance 1, with the largest gap that its block leaves.
const POOLED: OwnerWord = OwnerWord::Pooled {
    instance: 1,
    largest: 490,
};

/// Stands for carrier 2, of instance 1: a multiblock carrier with one block, or with none.
#[derive(Drop)]
struct Few {
    full: bool,
}

impl Carried for Few {
    ghost use Rattle.std.specs.Prelude.{[], ◌∷◌, if◌then◌else◌};
    ghost use Rattle.ea_model.specs.declared.carriers.Kind.TheVariants.{Multi};

    ghost content = { λ x. record {
      number = 2;
      owner = 1;
      base = 64;
      birth = 0;
      units = 512;
      kind = Multi;
      blocks = if x.full then record { name = 1; offset = 8; size = 14 } ∷ [] else [];
    } };
}

/// Whether the try was won.
fn is_won(tried: Tried<Few>) -> bool {
    match tried {
        Tried::Won { .. } => true,
        Tried::Lost { .. } => false,
    }
}

/// The word that a lost try found.
fn lost(tried: Tried<Few>) -> Option<OwnerWord> {
    match tried {
        Tried::Won { .. } => None,
        Tried::Lost { word } => Some(word),
    }
}

/// A trace of names up to 3.
fn trace_of(alloc: Global) -> Trace
    ensures { (result.letter ≡ letter.H) × (result.greatest ≡ 3) }
{
    Trace {
        letter: Letter::H,
        texts: List::new(alloc),
        stops: List::new(alloc),
        mode: Mode::Threads,
        greatest: 3,
    }
}

/// What two schedulers share before the first step, where carriers don't migrate.
fn start(alloc: Global) -> Result<MemShared<Few>, OutOfMemory>
    ensures nothing { IfOk result (λ m. shared_of m ≡ record {
      places = λ number. Absent;
      queues = λ i. [];
      rests = λ i. [];
      given = [];
    }) }
    ensures schedulers { IfOk result (λ m. m.schedulers ≡ 2) }
    ensures greatest { IfOk result (λ m. m.greatest ≡ 3) }
{
    MemShared::new(alloc, CONFIG, &trace_of(alloc))
}

/// What two schedulers share before the first step, where carriers migrate.
fn migrating(alloc: Global) -> Result<MemShared<Few>, OutOfMemory>
    ensures absent { IfOk result (λ m. place_at m.places 2 ≡ Absent) }
    ensures schedulers { IfOk result (λ m. m.schedulers ≡ 2) }
    ensures migrates { IfOk result (λ m. m.migrates ≡ true) }
{
    MemShared::new(alloc, MIGRATING, &trace_of(alloc))
}

/// What they share once scheduler 1 has created carrier 2, and abandoned it with a block in it.
fn abandoned(alloc: Global) -> Result<MemShared<Few>, OutOfMemory>
    ensures pooled { IfOk result (λ m. place_at m.places 2 ≡ Pooled 1 490 (record {
      number = 2;
      owner = 1;
      base = 64;
      birth = 0;
      units = 512;
      kind = Multi;
      blocks = record { name = 1; offset = 8; size = 14 } ∷ [];
    })) }
    ensures schedulers { IfOk result (λ m. m.schedulers ≡ 2) }
    ensures migrates { IfOk result (λ m. m.migrates ≡ true) }
{
    let mut shared = migrating(alloc)?;
    shared.create(1, 2);
    shared.abandon(1, 2, Few { full: true }, 490);
    Ok(shared)
}

#[test]
fn a_given_name_is_taken_once(rt: HostRuntime) -> Result<(), Fail> {
    let mut shared = start(rt.alloc())?;
    assert_eq!(rt; shared.take_try(2, 3), None);

    shared.give(1, 3, SPOT);
    assert_eq!(rt; shared.given(3), Some(SPOT));
    assert_eq!(rt; shared.given(2), None);
    assert_eq!(rt; shared.take_try(2, 2), None);
    assert_eq!(rt; shared.take_try(2, 3), Some(SPOT));

    assert_eq!(rt; shared.take_try(1, 3), None);
    assert_eq!(rt; shared.given(3), None);
    Ok(())
}

#[test]
fn a_walk_rests_until_its_next_node_is_linked(rt: HostRuntime) -> Result<(), Fail> {
    let mut shared = start(rt.alloc())?;
    shared.push(1, 2, OLDER);
    assert_eq!(rt; shared.take_all(2), Some(OLDER));
    assert_eq!(rt; shared.take_link(2, OLDER), Link::Rest);
    shared.link(1, 2, OLDER);
    assert_eq!(rt; shared.take_link(2, OLDER), Link::End);
    assert_eq!(rt; shared.take_all(2), None);
    Ok(())
}

#[test]
fn a_walk_passes_the_newest_node_first(rt: HostRuntime) -> Result<(), Fail> {
    let mut shared = start(rt.alloc())?;
    assert_eq!(rt; shared.take_all(1), None);
    shared.push(2, 1, OLDER);
    shared.link(2, 1, OLDER);
    shared.push(2, 1, NEWER);
    shared.link(2, 1, NEWER);
    assert_eq!(rt; shared.take_all(1), Some(NEWER));
    assert_eq!(rt; shared.take_link(1, NEWER), Link::Next { node: OLDER });
    assert_eq!(rt; shared.take_link(1, OLDER), Link::End);
    Ok(())
}

#[test]
fn main_carriers_are_employed_where_carriers_migrate(rt: HostRuntime) -> Result<(), Fail> {
    let mut shared = migrating(rt.alloc())?;
    assert_eq!(rt; shared.look(2, 1), OwnerWord::Employed { instance: 1 });
    assert_eq!(rt; shared.look(1, 1025), OwnerWord::Employed { instance: 2 });
    assert_eq!(rt; shared.look(1, 2), OwnerWord::Absent);
    assert_eq!(rt; shared.look(1, 2048), OwnerWord::Absent);
    Ok(())
}

#[test]
fn a_pooled_carrier_is_fetched_once(rt: HostRuntime) -> Result<(), Fail> {
    let mut shared = abandoned(rt.alloc())?;
    assert_eq!(rt; shared.word(2), POOLED);
    assert!(rt; shared.home(2).is_some());
    assert!(rt; is_won(shared.fetch_try(2, 2, POOLED)));

    let found = Some(OwnerWord::Employed { instance: 2 });
    assert!(rt; shared.home(2).is_none());
    assert_eq!(rt; lost(shared.fetch_try(1, 2, POOLED)), found);
    assert_eq!(rt; lost(shared.busy_try(1, 2, POOLED)), found);
    Ok(())
}

#[test]
fn a_busy_carrier_is_not_fetched_before_it_is_settled(rt: HostRuntime) -> Result<(), Fail> {
    let mut shared = abandoned(rt.alloc())?;
    assert!(rt; is_won(shared.busy_try(1, 2, POOLED)));
    assert_eq!(rt;
        lost(shared.fetch_try(2, 2, POOLED)),
        Some(OwnerWord::Busy { instance: 1 })
    );

    shared.settle_pooled(1, 2, Few { full: true }, 490);
    assert!(rt; is_won(shared.fetch_try(2, 2, POOLED)));
    Ok(())
}

#[test]
fn an_emptied_carrier_is_employed_again_and_cleared(rt: HostRuntime) -> Result<(), Fail> {
    let mut shared = abandoned(rt.alloc())?;
    assert!(rt; is_won(shared.busy_try(1, 2, POOLED)));
    shared.settle_employed(1, 2);
    assert_eq!(rt; shared.word(2), OwnerWord::Employed { instance: 1 });
    shared.clear_own(1, 2);
    assert_eq!(rt; shared.word(2), OwnerWord::Absent);
    Ok(())
}

#[test]
fn the_last_carrier_that_counts_is_pooled_or_busy(rt: HostRuntime) -> Result<(), Fail> {
    let mut shared = abandoned(rt.alloc())?;
    assert_eq!(rt; shared.last_counted(1), 0);
    assert_eq!(rt; shared.last_counted(2), 2);
    assert_eq!(rt; shared.last_counted(2048), 2);
    assert!(rt; is_won(shared.busy_try(1, 2, POOLED)));
    assert_eq!(rt; shared.last_counted(2048), 2);
    shared.settle_employed(1, 2);
    assert_eq!(rt; shared.last_counted(2048), 0);
    Ok(())
}

#[test]
fn an_empty_carrier_returns_to_who_created_it(rt: HostRuntime) -> Result<(), Fail> {
    let mut shared = abandoned(rt.alloc())?;
    assert!(rt; is_won(shared.fetch_try(2, 2, POOLED)));
    shared.send_home(2, 2, Few { full: false }, 1);
    assert_eq!(rt; shared.word(2), OwnerWord::Returning { instance: 1 });
    assert!(rt; shared.home(2).is_some());
    shared.clear_returned(1, 2);
    assert_eq!(rt; shared.word(2), OwnerWord::Absent);
    Ok(())
}
