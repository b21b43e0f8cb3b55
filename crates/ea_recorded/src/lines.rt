//! What one line of recorded operations says, by itself.
ghost use Rattle.std.specs.Prelude.{◌≡◌};
ghost use Rattle.ea_model.specs.Words.{words};
ghost use Rattle.ea_model.specs.declared.settings.TheConstants.{NO_RULES};
ghost use Rattle.ea_recorded.specs.Language.{addressed, line_of, rules_of, with_rule, with_rules};
ghost use Rattle.ea_recorded.specs.Told.{IsLineInRange};

use ea_model::words::first_word;
use ea_model::{Letter, NO_RULES, Op, Rules};
use ea_trace::words::scheduler;
use ea_trace::{Line, read_line};

/// What one line says.
#[derive(Clone, Copy)]
pub enum RecordedLine {
    /// A line without words, or a comment.
    Skipped,
    /// `type X`: whose settings hold.
    Letter { letter: Letter },
    /// `rules RULE ..`: which hold.
    Rules { rules: Rules },
    /// `N` and an operation, which is scheduler N's. Whether it is there isn't looked at.
    Operation { scheduler: u32, op: Op },
    /// `end`: nothing but lines that are skipped may follow.
    End,
    /// No line of the language.
    Unreadable,
}

/// The part of an input that has been reached.
#[derive(Clone, Copy)]
pub enum Stage {
    /// Before the `type` line.
    Start,
    /// Directly after it: the operations are of this letter, and a `rules` line may stand.
    Typed { letter: Letter },
    /// Among the operations, which are run by these rules.
    Lines { letter: Letter, rules: Rules },
    /// After `end`.
    Ended { letter: Letter, rules: Rules },
}

/// A line of an operation: its number, from 1, and whose operation it is.
#[derive(Clone, Copy)]
pub struct OwnLine {
    pub number: u32,
    pub scheduler: u32,
    pub op: Op,
}

/// These rules and that of a word, if it is a rule and none of them.
fn with_rule(rules: Rules, word: &[u8]) -> Option<Rules>
    ensures { result ≡ with_rule rules word.now }
{
    if word == b"powers".as_slice() && !rules.powers {
        return Some(Rules {
            powers: true,
            ..rules
        });
    }
    if word == b"falling".as_slice() && !rules.falling {
        return Some(Rules {
            falling: true,
            ..rules
        });
    }
    if word == b"counter".as_slice() && !rules.counter {
        return Some(Rules {
            counter: true,
            ..rules
        });
    }
    None
}

/// The rules of the words of a text, if each is a rule and none stands twice.
fn rules_in(text: &[u8]) -> Option<Rules>
    ensures { result ≡ with_rules NO_RULES (words text.now) }
{
    let mut rules = NO_RULES;
    let mut rest = text;
    while let Some((word, after)) = first_word(rest) {
        rules = with_rule(rules, word)?;
        rest = after;
    }
    Some(rules)
}

/// A line of rules, by the text after `rules`, which has one word at least.
fn rules_line(text: &[u8]) -> RecordedLine
    ensures line { result ≡ rules_of (words text.now) }
    ensures range { IsLineInRange result }
{
    if first_word(text).is_none() {
        return RecordedLine::Unreadable;
    }
    match rules_in(text) {
        Some(rules) => RecordedLine::Rules { rules },
        None => RecordedLine::Unreadable,
    }
}

/// A line that may be a scheduler's number and an operation, or `rules` and rules.
fn addressed_line(text: &[u8]) -> RecordedLine
    ensures line { result ≡ addressed (words text.now) }
    ensures range { IsLineInRange result }
{
    let Some((word, rest)) = first_word(text) else {
        return RecordedLine::Unreadable;
    };
    if word == b"rules".as_slice() {
        return rules_line(rest);
    }
    let Some(scheduler) = scheduler(word) else {
        return RecordedLine::Unreadable;
    };
    match read_line(rest) {
        Line::Operation { op } => RecordedLine::Operation { scheduler, op },
        _ => RecordedLine::Unreadable,
    }
}

/// What a line says.
pub fn read_own(text: &[u8]) -> RecordedLine
    ensures line { result ≡ line_of (words text.now) }
    ensures range { IsLineInRange result }
{
    match read_line(text) {
        Line::Skipped => RecordedLine::Skipped,
        Line::Letter { letter } => RecordedLine::Letter { letter },
        Line::End => RecordedLine::End,
        _ => addressed_line(text),
    }
}
