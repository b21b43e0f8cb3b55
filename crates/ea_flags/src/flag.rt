//! The flags, and the words that they are.
ghost use Rattle.std.specs.Prelude.{◌≡◌};
ghost use Rattle.ea_flags.specs.Words.{flag_of, flag_for, parameter_flag, parameter_of, scope_of};
ghost use Rattle.ea_flags.specs.Words.{size_parameter, limit_parameter, switch_parameter};
ghost use Rattle.ea_flags.specs.Words.{is_other_flag, is_other_parameter};

use ea_model::Letter;

/// The allocators that a flag speaks of.
#[derive(Clone, Copy)]
pub enum Scope {
    One(Letter),
    All,
}

/// A parameter of an allocator, under the name of its flag.
#[derive(Clone, Copy)]
pub enum Parameter {
    /// Allocation strategy.
    As,
    /// Abandon carrier utilization limit.
    Acul,
    /// Abandon carrier free block minimum limit.
    Acfml,
    /// Abandon carrier number limit.
    Acnl,
    /// Singleblock carrier threshold.
    Sbct,
    /// Smallest multiblock carrier size.
    Smbcs,
    /// Largest multiblock carrier size.
    Lmbcs,
    /// Main multiblock carrier size.
    Mmbcs,
    /// Absolute singleblock carrier shrink threshold.
    Asbcst,
    /// Multiblock carrier growth stages.
    Mbcgs,
    /// Maximum block search depth.
    Mbsd,
    /// Relative singleblock carrier move threshold.
    Rsbcmt,
    /// Relative multiblock carrier move threshold.
    Rmbcmt,
    /// Relative singleblock carrier shrink threshold.
    Rsbcst,
    /// Reallocation always moves.
    Ramv,
    /// One instance for each scheduler.
    ThreadSafe,
    /// The allocator is enabled.
    Enabled,
}

/// A flag.
#[derive(Clone, Copy)]
pub enum Flag {
    /// The number of schedulers.
    Schedulers,
    /// The size of the super carrier.
    SuperCarrier,
    /// That carriers lie in the super carrier only.
    SuperCarrierOnly,
    /// A parameter of one allocator, or of all.
    Of { scope: Scope, parameter: Parameter },
    /// A flag of the runtime that isn't simulated.
    NotSimulated,
}

fn read_scope(code: u8) -> Option<Scope>
    ensures { result ≡ scope_of code }
{
    match code {
        b'B' => Some(Scope::One(Letter::B)),
        b'D' => Some(Scope::One(Letter::D)),
        b'E' => Some(Scope::One(Letter::E)),
        b'H' => Some(Scope::One(Letter::H)),
        b'L' => Some(Scope::One(Letter::L)),
        b'R' => Some(Scope::One(Letter::R)),
        b'S' => Some(Scope::One(Letter::S)),
        b'T' => Some(Scope::One(Letter::T)),
        b'u' => Some(Scope::All),
        _ => None,
    }
}

/// The parameter of this name, if its value is true or false.
fn switch_parameter(name: &[u8]) -> Option<Parameter>
    ensures { result ≡ switch_parameter name.now }
{
    if name == b"ramv".as_slice() {
        Some(Parameter::Ramv)
    } else if name == b"t".as_slice() {
        Some(Parameter::ThreadSafe)
    } else if name == b"e".as_slice() {
        Some(Parameter::Enabled)
    } else {
        None
    }
}

/// The parameter of this name, if its value is a count, a percentage, or true or false.
fn limit_parameter(name: &[u8]) -> Option<Parameter>
    ensures { result ≡ limit_parameter name.now }
{
    if name == b"mbcgs".as_slice() {
        Some(Parameter::Mbcgs)
    } else if name == b"mbsd".as_slice() {
        Some(Parameter::Mbsd)
    } else if name == b"rsbcmt".as_slice() {
        Some(Parameter::Rsbcmt)
    } else if name == b"rmbcmt".as_slice() {
        Some(Parameter::Rmbcmt)
    } else if name == b"rsbcst".as_slice() {
        Some(Parameter::Rsbcst)
    } else {
        switch_parameter(name)
    }
}

/// The parameter of this name, unless it is the strategy or a limit on abandoned carriers.
fn size_parameter(name: &[u8]) -> Option<Parameter>
    ensures { result ≡ size_parameter name.now }
{
    if name == b"sbct".as_slice() {
        Some(Parameter::Sbct)
    } else if name == b"smbcs".as_slice() {
        Some(Parameter::Smbcs)
    } else if name == b"lmbcs".as_slice() {
        Some(Parameter::Lmbcs)
    } else if name == b"mmbcs".as_slice() {
        Some(Parameter::Mmbcs)
    } else if name == b"asbcst".as_slice() {
        Some(Parameter::Asbcst)
    } else {
        limit_parameter(name)
    }
}

/// The parameter of this name.
fn read_parameter(name: &[u8]) -> Option<Parameter>
    ensures { result ≡ parameter_of name.now }
{
    if name == b"as".as_slice() {
        Some(Parameter::As)
    } else if name == b"acul".as_slice() {
        Some(Parameter::Acul)
    } else if name == b"acfml".as_slice() {
        Some(Parameter::Acfml)
    } else if name == b"acnl".as_slice() {
        Some(Parameter::Acnl)
    } else {
        size_parameter(name)
    }
}

/// Whether a parameter of the runtime has this name, and isn't simulated.
fn is_other_parameter(name: &[u8]) -> bool
    ensures { result ≡ is_other_parameter name.now }
{
    name == b"cp".as_slice()
        || name == b"atags".as_slice()
        || name == b"mmsbc".as_slice()
        || name == b"mmmbc".as_slice()
}

/// The flag that a letter and the name of a parameter make.
fn parameter_flag(word: &[u8]) -> Option<Flag>
    ensures { result ≡ parameter_flag word.now }
{
    let [code, name @ ..] = word else {
        return None;
    };
    let scope = read_scope(*code)?;
    match read_parameter(name) {
        Some(parameter) => Some(Flag::Of { scope, parameter }),
        None if is_other_parameter(name) => Some(Flag::NotSimulated),
        None => None,
    }
}

/// Whether a flag of the runtime has this word, and is one of allocators that aren't simulated, or
/// of all of them.
fn is_other_flag(word: &[u8]) -> bool
    ensures { result ≡ is_other_flag word.now }
{
    word == b"+Mea".as_slice()
        || word.starts_with(b"+MM")
        || word.starts_with(b"+MY")
        || word.starts_with(b"+MF")
        || word.starts_with(b"+MI")
        || word.starts_with(b"+MX")
}

/// The flag that a word is.
pub fn read_flag(word: &[u8]) -> Option<Flag>
    ensures { result ≡ flag_of word.now }
{
    if word == b"+S".as_slice() {
        Some(Flag::Schedulers)
    } else if word == b"+MMscs".as_slice() {
        Some(Flag::SuperCarrier)
    } else if word == b"+MMsco".as_slice() {
        Some(Flag::SuperCarrierOnly)
    } else if is_other_flag(word) {
        Some(Flag::NotSimulated)
    } else if word.starts_with(b"+M") {
        parameter_flag(&word[2..])
    } else {
        None
    }
}
