//! Reads the words, a flag and its value at a time.
ghost use Rattle.std.specs.Prelude.{◌≡◌, ◌+◌, ◌<◌, ◌≤◌, ◌^◌, [], length, map, string_bytes, IfOk};
ghost use Rattle.std.specs.Prelude.{IfErr, IfSome, IfNone, Ok, Err};
ghost use Rattle.ea_model.specs.Settings.{IsValidConfig};
ghost use Rattle.ea_flags.specs.Words.{flag_of};
ghost use Rattle.ea_flags.specs.Ranges.{IsInRange};
ghost use Rattle.ea_flags.specs.Flags.{flags, settings_after, then_settings, pair_at, alone_at};

use crate::config::{DEFAULT_CONFIG, main_carriers_fit, set, settled_config};
use crate::fault::FlagFault;
use crate::flag::{Flag, read_flag};
use crate::setting::{Setting, ValueFault};
use crate::value::read_setting;
use ea_model::Config;

/// Why the last word is refused, after that many words: no value follows it.
fn refusal_alone(before: u32, word: &[u8]) -> FlagFault
    requires { before + 1 < 2 ^ 32 }
    ensures { result ≡ alone_at before (flag_of word.now) }
{
    let word_number = before + 1;
    match read_flag(word) {
        None => FlagFault::Unknown { word: word_number },
        Some(Flag::NotSimulated) => FlagFault::Unsupported { word: word_number },
        Some(_) => FlagFault::NoValue { word: word_number },
    }
}

/// What a flag and its value set, after that many words.
fn read_pair(before: u32, word: &[u8], value: &[u8]) -> Result<Setting, FlagFault>
    requires { before + 2 < 2 ^ 32 }
    ensures setting { result ≡ pair_at before (flag_of word.now) value.now }
    ensures in_range { IfOk result IsInRange }
{
    let Some(flag) = read_flag(word) else {
        return Err(FlagFault::Unknown { word: before + 1 });
    };
    match read_setting(flag, value) {
        Ok(setting) => Ok(setting),
        Err(ValueFault::Bad) => Err(FlagFault::BadValue { word: before + 2 }),
        Err(ValueFault::Unsupported) => Err(FlagFault::Unsupported { word: before + 1 }),
    }
}

/// What the first two words set, after that many others, and the words that follow them; None at
/// the end.
fn next_setting(before: u32, words: &[String]) -> Result<Option<(Setting, &[String])>, FlagFault>
    requires { before + length words.now < 2 ^ 32 }
    ensures none { IfOk result (λ found. IfNone found
        (settings_after before (map string_bytes words.now) ≡ Ok [])) }
    ensures some { IfOk result (λ found. IfSome found (λ f.
        settings_after before (map string_bytes words.now)
        ≡ then_settings f.0 (settings_after (before + 2) (map string_bytes f.1.now)))) }
    ensures err { IfErr result (λ fault.
        settings_after before (map string_bytes words.now) ≡ Err fault) }
    ensures shorter { IfOk result (λ found. IfSome found (λ f.
        length f.1.now + 2 ≡ length words.now)) }
    ensures in_range { IfOk result (λ found. IfSome found (λ f. IsInRange f.0)) }
{
    match words {
        [] => Ok(None),
        [word] => Err(refusal_alone(before, word.as_bytes())),
        [word, value, rest @ ..] => {
            let setting = read_pair(before, word.as_bytes(), value.as_bytes())?;
            Ok(Some((setting, rest)))
        }
    }
}

/// Reads emulator flags, each followed by its value. The words are those after the program's name,
/// fewer than 2^32. It takes no memory.
///
/// The words are read from left to right, and the first that is refused decides; of two settings of
/// one thing the later holds. After the last word the limit on carriers of temp_alloc is off,
/// aoffcbf takes the place of strategies under which carriers that are to migrate can't, and each
/// allocator's main carrier has to fit an instance's region.
///
/// The flags are those of Erlang/OTP's manual 'erts_alloc', in part; docs/reference/flags.md lists
/// them.
#[tactic(auto, using(crate::proofs::Pairs::set_first, crate::proofs::Ranges::keeps_ranges))]
pub fn read_flags(words: &[String]) -> Result<Config, FlagFault>
    requires { length words.now < 2 ^ 32 }
    ensures config { result ≡ flags (map string_bytes words.now) }
    ensures valid { IfOk result IsValidConfig }
{
    let mut config = DEFAULT_CONFIG;
    let mut before = 0u32;
    let mut rest = words;
    while let Some((setting, after)) = next_setting(before, rest)? {
        set(&mut config, setting);
        before += 2;
        rest = after;
    }
    let config = settled_config(config);
    if !main_carriers_fit(config) {
        return Err(FlagFault::SpaceTooSmall);
    }
    Ok(config)
}
