//! The values of each flag.
ghost use Rattle.std.specs.Prelude.{◌≡◌};
ghost use Rattle.ea_flags.specs.Values.{change_of, setting_of, strategy_named};
ghost use Rattle.ea_flags.specs.Values as values;

use crate::flag::{Flag, Parameter};
use crate::setting::{Change, Setting, ValueFault};
use ea_model::words::number;
use ea_model::{
    KILOBYTE_UNITS, MAX_BYTES, MAX_GROWTH_CARRIERS, MAX_MEGABYTES, MAX_PERCENT, MAX_SCHEDULERS,
    MAX_SEARCH_DEPTH, Strategy,
};

/// The abandon carrier utilization limit that `de` stands for, in percent.
pub const DEFAULT_ACUL: u32 = 60;
/// The least limit on the number of abandoned carriers that has no effect.
pub const LEAST_ACNL: u32 = 1000;
/// The greatest.
pub const MAX_ACNL: u32 = 4_294_967_295;
/// The most kilobytes of a size.
pub const MAX_KILOBYTES: u32 = 524_288;

/// The strategy of this name, by the age of carriers, by good fit or by a fit.
fn other_strategy(name: &[u8]) -> Option<Strategy>
    ensures { result ≡ values.other_strategy name.now }
{
    if name == b"ageffcaoff".as_slice() {
        Some(Strategy::AgeffCaoff)
    } else if name == b"ageffcbf".as_slice() {
        Some(Strategy::AgeffCbf)
    } else if name == b"ageffcaobf".as_slice() {
        Some(Strategy::AgeffCaobf)
    } else if name == b"gf".as_slice() {
        Some(Strategy::Gf)
    } else if name == b"af".as_slice() {
        Some(Strategy::Af)
    } else {
        None
    }
}

/// The strategy of this name.
fn strategy(name: &[u8]) -> Option<Strategy>
    ensures { result ≡ strategy_named name.now }
{
    if name == b"bf".as_slice() {
        Some(Strategy::Bf)
    } else if name == b"aobf".as_slice() {
        Some(Strategy::Aobf)
    } else if name == b"aoff".as_slice() {
        Some(Strategy::Aoff)
    } else if name == b"aoffcbf".as_slice() {
        Some(Strategy::AoffCbf)
    } else if name == b"aoffcaobf".as_slice() {
        Some(Strategy::AoffCaobf)
    } else {
        other_strategy(name)
    }
}

/// A number from `low` to `high`.
fn ranged(value: &[u8], low: u32, high: u32) -> Result<u32, ValueFault>
    ensures { result ≡ values.ranged low high value.now }
{
    match number(value, low, high) {
        Some(number) => Ok(number),
        None => Err(ValueFault::Bad),
    }
}

fn percent(value: &[u8]) -> Result<u32, ValueFault>
    ensures { result ≡ values.percent value.now }
{
    ranged(value, 0, MAX_PERCENT)
}

/// A number of kilobytes, `low` at least, in units.
fn kilobytes(value: &[u8], low: u32) -> Result<u32, ValueFault>
    ensures { result ≡ values.kilobytes low value.now }
{
    match number(value, low, MAX_KILOBYTES) {
        Some(number) => Ok(KILOBYTE_UNITS * number),
        None => Err(ValueFault::Bad),
    }
}

/// The abandon carrier utilization limit.
fn utilization_limit(value: &[u8]) -> Result<u32, ValueFault>
    ensures { result ≡ values.utilization_limit value.now }
{
    if value == b"de".as_slice() {
        Ok(DEFAULT_ACUL)
    } else {
        percent(value)
    }
}

/// A limit on the number of abandoned carriers; one that is large enough sets nothing.
fn number_limit(value: &[u8]) -> Result<Change, ValueFault>
    ensures { result ≡ values.number_limit Change.Nothing value.now }
{
    if ranged(value, 0, MAX_ACNL)? < LEAST_ACNL {
        return Err(ValueFault::Unsupported);
    }
    Ok(Change::Nothing)
}

fn truth(value: &[u8]) -> Result<bool, ValueFault>
    ensures { result ≡ values.truth value.now }
{
    if value == b"true".as_slice() {
        Ok(true)
    } else if value == b"false".as_slice() {
        Ok(false)
    } else {
        Err(ValueFault::Bad)
    }
}

/// `nothing` for `true`, which holds anyway; `false` isn't simulated.
fn only_true<T: Drop>(nothing: T, value: &[u8]) -> Result<T, ValueFault>
    ensures { result ≡ values.only_true nothing value.now }
{
    if truth(value)? {
        Ok(nothing)
    } else {
        Err(ValueFault::Unsupported)
    }
}

/// What a parameter and its value change.
fn read_change(parameter: Parameter, value: &[u8]) -> Result<Change, ValueFault>
    ensures { result ≡ change_of parameter value.now }
{
    match parameter {
        Parameter::As => match strategy(value) {
            Some(strategy) => Ok(Change::As(strategy)),
            None => Err(ValueFault::Bad),
        },
        Parameter::Acul => Ok(Change::Acul(utilization_limit(value)?)),
        Parameter::Acfml => Ok(Change::Acfml(ranged(value, 0, MAX_BYTES)?)),
        Parameter::Acnl => number_limit(value),
        Parameter::Sbct => Ok(Change::Sbct(kilobytes(value, 1)?)),
        Parameter::Smbcs => Ok(Change::Smbcs(kilobytes(value, 1)?)),
        Parameter::Lmbcs => Ok(Change::Lmbcs(kilobytes(value, 1)?)),
        Parameter::Mmbcs => Ok(Change::Mmbcs(kilobytes(value, 0)?)),
        Parameter::Asbcst => Ok(Change::Asbcst(kilobytes(value, 0)?)),
        Parameter::Mbcgs => Ok(Change::Mbcgs(ranged(value, 1, MAX_GROWTH_CARRIERS)?)),
        Parameter::Mbsd => Ok(Change::Mbsd(ranged(value, 1, MAX_SEARCH_DEPTH)?)),
        Parameter::Rsbcmt => Ok(Change::Rsbcmt(percent(value)?)),
        Parameter::Rmbcmt => Ok(Change::Rmbcmt(percent(value)?)),
        Parameter::Rsbcst => Ok(Change::Rsbcst(percent(value)?)),
        Parameter::Ramv => Ok(Change::Ramv(truth(value)?)),
        Parameter::ThreadSafe | Parameter::Enabled => only_true(Change::Nothing, value),
    }
}

/// What a flag and its value set.
pub fn read_setting(flag: Flag, value: &[u8]) -> Result<Setting, ValueFault>
    ensures { result ≡ setting_of flag value.now }
{
    match flag {
        Flag::Schedulers => Ok(Setting::Schedulers(ranged(value, 1, MAX_SCHEDULERS)?)),
        Flag::SuperCarrier => Ok(Setting::SuperCarrier(ranged(value, 1, MAX_MEGABYTES)?)),
        Flag::SuperCarrierOnly => only_true(Setting::Nothing, value),
        Flag::Of { scope, parameter } => {
            let change = read_change(parameter, value)?;
            Ok(Setting::Of { scope, change })
        }
        Flag::NotSimulated => Err(ValueFault::Unsupported),
    }
}
