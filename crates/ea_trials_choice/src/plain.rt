//! The choice by walks over whole lists. Each contract is the definition itself.
ghost use Rattle.std.specs.Prelude.{◌≡◌, ◌+◌, ◌*◌, ◌^◌, ◌<◌, ◌≤◌, ◌==◌, if◌then◌else◌};
ghost use Rattle.std.specs.Prelude.{◌++◌, [], ◌∷◌, Some, IfOk, IfSome, OnOk};
ghost use Rattle.std.specs.Prelude.{filter, length, map};
ghost use Rattle.ea_model.specs.Content.{gaps_of, is_empty_multi};
ghost use Rattle.ea_model.specs.Choice.{better, first, less};
ghost use Rattle.ea_model.specs.Strategies.{candidate, candidates, candidates_in, choice_among};
ghost use Rattle.ea_model.specs.Strategies.{choice_empty, choice_for, inspected_by, large_enough};
ghost use Rattle.ea_model.specs.Strategies.{lower, older, only, smaller_high, smaller_low};
ghost use Rattle.ea_model.specs.Strategies.{takes_first};
ghost use Rattle.ea_model.specs.GoodFit.{ahead, bin_of, is_ahead, is_inspected, powers};

use ea_model::{Candidate, Gap, Kind, List, OutOfMemory, PAGE_UNITS, Settings, Strategy};
use ea_trials_carriers::PlainCarrier;
use std::alloc::Global;

/// Why nothing was chosen.
#[derive(Debug, Clone, Copy, PartialEq, Eq)]
pub enum NoChoice {
    /// There was no memory.
    OutOfMemory,
    /// A gap's address is 2^32 units or more.
    TooHigh,
}

impl From<OutOfMemory> for NoChoice {
    fn from(_: OutOfMemory) -> NoChoice {
        NoChoice::OutOfMemory
    }
}

/// A gap of the carrier, as strategies compare it with those of others, where its address is
/// below 2^32.
fn candidate(carrier: &PlainCarrier, gap: Gap) -> Option<Candidate>
    ensures { IfSome result (λ x. x ≡ candidate carrier.now gap) }
{
    let address = u64::from(PAGE_UNITS) * u64::from(carrier.base()) + u64::from(gap.offset);
    let Ok(address) = u32::try_from(address) else {
        return None;
    };
    Some(Candidate {
        number: carrier.number(),
        base: carrier.base(),
        birth: carrier.birth(),
        offset: gap.offset,
        address,
        size: gap.size,
    })
}

fn is_less(a: u64, b: u64, rest: bool) -> bool
    ensures { result ≡ less a b rest }
{
    a < b || (a == b && rest)
}

fn is_lower(a: Candidate, b: Candidate) -> bool
    ensures { result ≡ lower a b }
{
    a.address < b.address
}

fn is_smaller_high(a: Candidate, b: Candidate) -> bool
    ensures { result ≡ smaller_high a b }
{
    is_less(u64::from(a.size), u64::from(b.size), b.address < a.address)
}

fn is_smaller_low(a: Candidate, b: Candidate) -> bool
    ensures { result ≡ smaller_low a b }
{
    is_less(u64::from(a.size), u64::from(b.size), is_lower(a, b))
}

fn is_older(a: Candidate, b: Candidate, rest: bool) -> bool
    ensures { result ≡ older a b rest }
{
    let by_number = is_less(u64::from(a.number), u64::from(b.number), rest);
    is_less(u64::from(a.birth), u64::from(b.birth), by_number)
}

fn is_of_lower_carrier(a: Candidate, b: Candidate, rest: bool) -> bool
    ensures { result ≡ less a.base b.base rest }
{
    is_less(u64::from(a.base), u64::from(b.base), rest)
}

/// Whether the strategy takes gap `a` before gap `b`.
fn takes_first(strategy: Strategy, a: Candidate, b: Candidate) -> bool
    ensures { result ≡ takes_first strategy a b }
{
    match strategy {
        Strategy::Bf => is_smaller_high(a, b),
        Strategy::Aobf | Strategy::Gf => is_smaller_low(a, b),
        Strategy::Aoff | Strategy::Af => is_lower(a, b),
        Strategy::AoffCbf => is_of_lower_carrier(a, b, is_smaller_high(a, b)),
        Strategy::AoffCaobf => is_of_lower_carrier(a, b, is_smaller_low(a, b)),
        Strategy::AgeffCaoff => is_older(a, b, is_lower(a, b)),
        Strategy::AgeffCbf => is_older(a, b, is_smaller_high(a, b)),
        Strategy::AgeffCaobf => is_older(a, b, is_smaller_low(a, b)),
    }
}

/// Adds the gaps of a main or multiblock carrier.
fn put_candidates(
    alloc: Global,
    list: &mut List<Candidate>,
    carrier: &PlainCarrier,
) -> Result<(), NoChoice>
    ensures { OnOk result (list.new.items
        ≡ list.old.items ++ candidates_in carrier.now.kind carrier.now) }
{
    if carrier.kind() == Kind::Single {
        return Ok(());
    }
    put_gaps_of(alloc, list, carrier)
}

fn put_gaps_of(
    alloc: Global,
    list: &mut List<Candidate>,
    carrier: &PlainCarrier,
) -> Result<(), NoChoice>
    ensures { OnOk result (list.new.items
        ≡ list.old.items ++ map (candidate carrier.now) (gaps_of carrier.now)) }
{
    let gaps = carrier.gaps(alloc)?;
    for gap in gaps.as_slice() {
        let Some(candidate) = candidate(carrier, *gap) else {
            return Err(NoChoice::TooHigh);
        };
        list.push(candidate)?;
    }
    Ok(())
}

/// The gaps of all main and multiblock carriers.
fn candidates(alloc: Global, carriers: &[PlainCarrier]) -> Result<List<Candidate>, NoChoice>
    ensures { IfOk result (λ list. list.items ≡ candidates carriers.now) }
{
    let mut list = List::new(alloc);
    for carrier in carriers {
        put_candidates(alloc, &mut list, carrier)?;
    }
    Ok(list)
}

/// The gaps of the multiblock carriers without blocks.
fn empty_candidates(alloc: Global, carriers: &[PlainCarrier]) -> Result<List<Candidate>, NoChoice>
    ensures { IfOk result (λ list. list.items ≡ candidates (filter is_empty_multi carriers.now)) }
{
    let mut list = List::new(alloc);
    for carrier in carriers {
        put_if_empty(alloc, &mut list, carrier)?;
    }
    Ok(list)
}

fn put_if_empty(
    alloc: Global,
    list: &mut List<Candidate>,
    carrier: &PlainCarrier,
) -> Result<(), NoChoice>
    ensures { OnOk result (list.new.items
        ≡ list.old.items ++ candidates (filter is_empty_multi (carrier.now ∷ []))) }
{
    if !carrier.is_empty_multi() {
        return Ok(());
    }
    put_candidates(alloc, list, carrier)
}

/// Adds the gap, where it is to be kept.
fn put_if(list: &mut List<Candidate>, keeps: bool, gap: Candidate) -> Result<(), OutOfMemory>
    ensures { OnOk result (list.new.items ≡ list.old.items ++ (if keeps then gap ∷ [] else [])) }
{
    if !keeps {
        return Ok(());
    }
    list.push(gap)
}

/// The gaps of at least `need` units.
fn large_enough(
    alloc: Global,
    need: u32,
    gaps: &[Candidate],
) -> Result<List<Candidate>, OutOfMemory>
    ensures { IfOk result (λ list. list.items ≡ large_enough need gaps.now) }
{
    let mut list = List::new(alloc);
    for gap in gaps {
        put_if(&mut list, need <= gap.size, *gap)?;
    }
    Ok(list)
}

/// The gap that the strategy takes first.
fn first(strategy: Strategy, gaps: &[Candidate]) -> Option<Candidate>
    ensures { result ≡ first (takes_first strategy) gaps.now }
{
    let mut best = None;
    for gap in gaps {
        best = Some(better(strategy, best, *gap));
    }
    best
}

fn better(strategy: Strategy, best: Option<Candidate>, gap: Candidate) -> Candidate
    ensures { Some result ≡ better (takes_first strategy) best gap }
{
    match best {
        Some(other) if !takes_first(strategy, gap, other) => other,
        _ => gap,
    }
}

/// The number of a size's bin: the size itself below 64 units, and from there on one more for each
/// power of two up to the size, 63 of which come before the first.
fn bin_of(size: u32) -> u32
    ensures { result ≡ bin_of size }
{
    if size < 64 {
        return size;
    }
    63 + powers_up_to(size)
}

/// How many of the powers of two from 64 on are at most the size.
fn powers_up_to(size: u32) -> u32
    ensures count { result ≡ powers size 6 26 }
    ensures few { result ≤ 26 }
{
    let mut count = 0;
    for exponent in 6..32 {
        if 2u32.pow(exponent) <= size {
            count += 1;
        }
    }
    count
}

fn is_ahead(gap: Candidate, other: Candidate) -> bool
    ensures { result ≡ is_ahead (λ x. x.address) (λ x. x.size) gap other }
{
    bin_of(other.size) == bin_of(gap.size) && other.address < gap.address
}

/// How many gaps of the same bin lie at lower addresses.
fn count_ahead(gaps: &[Candidate], gap: Candidate) -> usize
    ensures { result ≡ length (ahead (λ x. x.address) (λ x. x.size) gaps.now gap) }
{
    let mut count = 0;
    for other in gaps {
        if is_ahead(gap, *other) {
            count += 1;
        }
    }
    count
}

/// The gaps that good fit inspects, the first `depth` of each bin.
fn inspected(alloc: Global, depth: u32, gaps: &[Candidate]) -> Result<List<Candidate>, OutOfMemory>
    ensures { IfOk result (λ list. list.items
        ≡ filter (is_inspected (λ x. x.address) (λ x. x.size) depth gaps.now) gaps.now) }
{
    let mut list = List::new(alloc);
    for gap in gaps {
        put_if(&mut list, count_ahead(gaps, *gap) < depth as usize, *gap)?;
    }
    Ok(list)
}

/// The gap at the lowest address, and no other.
fn lowest(alloc: Global, gaps: &[Candidate]) -> Result<List<Candidate>, OutOfMemory>
    ensures { IfOk result (λ list. list.items ≡ only (first lower gaps.now)) }
{
    let mut list = List::new(alloc);
    if let Some(gap) = first(Strategy::Af, gaps) {
        list.push(gap)?;
    }
    Ok(list)
}

/// The gaps that the strategy inspects.
fn inspected_by(
    alloc: Global,
    strategy: Strategy,
    depth: u32,
    gaps: List<Candidate>,
) -> Result<List<Candidate>, OutOfMemory>
    ensures { IfOk result (λ list. list.items ≡ inspected_by strategy depth gaps.items) }
{
    match strategy {
        Strategy::Gf => inspected(alloc, depth, gaps.as_slice()),
        Strategy::Af => lowest(alloc, gaps.as_slice()),
        _ => Ok(gaps),
    }
}

/// The gap that the strategy takes first of those that it inspects and that have at least `need`
/// units.
fn choice_among(
    alloc: Global,
    settings: Settings,
    need: u32,
    carriers: &[PlainCarrier],
) -> Result<Option<Candidate>, NoChoice>
    ensures { IfOk result (λ found. found
        ≡ choice_among settings.strategy settings.mbsd need carriers.now) }
{
    let all = candidates(alloc, carriers)?;
    let seen = inspected_by(alloc, settings.strategy, settings.mbsd, all)?;
    let large = large_enough(alloc, need, seen.as_slice())?;
    Ok(first(settings.strategy, large.as_slice()))
}

/// The gap of at least `need` units of the lowest multiblock carrier without blocks.
fn choice_empty(
    alloc: Global,
    need: u32,
    carriers: &[PlainCarrier],
) -> Result<Option<Candidate>, NoChoice>
    ensures { IfOk result (λ found. found ≡ choice_empty need carriers.now) }
{
    let empty = empty_candidates(alloc, carriers)?;
    let large = large_enough(alloc, need, empty.as_slice())?;
    Ok(first(Strategy::Aoff, large.as_slice()))
}

/// The gap of at least `need` units that is chosen among these carriers.
pub fn choice(
    alloc: Global,
    settings: Settings,
    need: u32,
    carriers: &[PlainCarrier],
) -> Result<Option<Candidate>, NoChoice>
    ensures { IfOk result (λ found. found ≡ choice_for settings need carriers.now) }
{
    match choice_among(alloc, settings, need, carriers)? {
        Some(found) => Ok(Some(found)),
        None => match settings.strategy {
            Strategy::Gf | Strategy::Af => choice_empty(alloc, need, carriers),
            _ => Ok(None),
        },
    }
}
