//! The text of a book.
ghost use Rattle.std.specs.Prelude.{◌≡◌, ◌++◌, IfOk, OnOk, decimal};
ghost use Rattle.ea_super.specs.Text.{book_text, call_text, reply_text, totals_text};

use ea_io::{put_number, put_text};
use ea_model::{List, OutOfMemory};
use ea_segments::{Book, Call, Reply};
use std::alloc::Global;

/// Adds a number between two texts.
fn put_between(
    text: &mut List<u8>,
    before: &str,
    number: u32,
    after: &str,
) -> Result<(), OutOfMemory>
    ensures { OnOk result
        (text.new.items ≡ text.old.items ++ (before.now ++ decimal number ++ after.now)) }
{
    put_text(text, before)?;
    put_number(text, u64::from(number))?;
    put_text(text, after)
}

/// Adds what a call asked for, and its reply.
fn put_reply(text: &mut List<u8>, call: Call) -> Result<(), OutOfMemory>
    ensures { OnOk result (text.new.items ≡ text.old.items ++ reply_text call call.reply) }
{
    match call.reply {
        Reply::At { start } => {
            put_between(text, " take ", call.name, " at ")?;
            put_between(text, "", start, " ")?;
            put_between(text, "", call.pages, "\n")
        }
        Reply::NoRun => put_between(text, " take ", call.name, " none\n"),
        Reply::Full => put_between(text, " take ", call.name, " full\n"),
        Reply::Done => put_between(text, " back ", call.name, " done\n"),
        Reply::Skipped => put_between(text, " back ", call.name, " skipped\n"),
    }
}

/// Adds the line of a call.
fn put_call(text: &mut List<u8>, call: Call) -> Result<(), OutOfMemory>
    ensures { OnOk result (text.new.items ≡ text.old.items ++ call_text call) }
{
    put_number(text, u64::from(call.scheduler))?;
    put_reply(text, call)
}

/// Adds the last line.
fn put_totals(text: &mut List<u8>, book: &Book) -> Result<(), OutOfMemory>
    ensures { OnOk result (text.new.items ≡ text.old.items
        ++ totals_text book.now.segments book.now.pages book.now.free) }
{
    put_between(text, "total segments ", book.segments, " pages ")?;
    put_between(text, "", book.pages, " free ")?;
    put_between(text, "", book.free, "\n")
}

/// The text of a book. It fails where there is no memory.
pub fn print_book(alloc: Global, book: &Book) -> Result<List<u8>, OutOfMemory>
    ensures { IfOk result (λ text. text.items ≡ book_text book.now) }
{
    let mut text = List::new(alloc);
    for call in book.history.as_slice() {
        put_call(&mut text, *call)?;
    }
    put_totals(&mut text, book)?;
    Ok(text)
}
