//! The words of a row with its answer.
ghost use Rattle.std.specs.Prelude.{◌≡◌, [], ◌∷◌, ◌++◌, OnOk, codes, decimal};
ghost use Rattle.ea_steps.specs.Printed.{asked_words, heard_words, link_words, spaced_text};
ghost use Rattle.ea_steps.specs.Printed.{told_words};
ghost use Rattle.ea_steps.specs.Rows.{newest_words, node_words, owner_words};

use ea_given::Heard;
use ea_machine::{Node, OwnerWord};
use ea_model::{List, OutOfMemory, owner_of};
use ea_report::Word::{Number, Text};
use ea_report::put_words;
use ea_sched::Wanted;
use ea_shared::Link;

/// Adds the words of a node.
fn put_node(text: &mut List<u8>, node: Node) -> Result<(), OutOfMemory>
    ensures { OnOk result (text.new.items ≡ text.old.items ++ spaced_text (node_words node)) }
{
    match node {
        Node::Block { name, spot } => {
            let words = [
                Text("block"),
                Number(name),
                Number(spot.carrier),
                Number(spot.offset),
            ];
            put_words(text, &words)
        }
        Node::Carrier { number } => put_words(text, &[Text("carrier"), Number(number)]),
    }
}

/// Adds the words of an owner word.
fn put_owner(text: &mut List<u8>, word: OwnerWord) -> Result<(), OutOfMemory>
    ensures { OnOk result (text.new.items ≡ text.old.items ++ spaced_text (owner_words word)) }
{
    match word {
        OwnerWord::Absent => put_words(text, &[Text("absent")]),
        OwnerWord::Employed { instance } => put_words(text, &[Text("employed"), Number(instance)]),
        OwnerWord::Pooled { instance, largest } => {
            put_words(text, &[Text("pooled"), Number(instance), Number(largest)])
        }
        OwnerWord::Busy { instance } => put_words(text, &[Text("busy"), Number(instance)]),
        OwnerWord::Returning { instance } => {
            put_words(text, &[Text("returning"), Number(instance)])
        }
    }
}

/// Adds a word and the words of a node, and to which instance's queue.
fn put_queued(text: &mut List<u8>, row: &str, node: Node, to: u32) -> Result<(), OutOfMemory>
    ensures { OnOk result (text.new.items ≡ text.old.items
        ++ spaced_text (row.now ∷ node_words node ++ codes "to" ∷ decimal to ∷ [])) }
{
    put_words(text, &[Text(row)])?;
    put_node(text, node)?;
    put_words(text, &[Text("to"), Number(to)])
}

/// Adds a word, the number of a carrier, and the owner word that was stored.
fn put_stored(
    text: &mut List<u8>,
    row: &str,
    carrier: u32,
    word: OwnerWord,
) -> Result<(), OutOfMemory>
    ensures { OnOk result (text.new.items ≡ text.old.items
        ++ spaced_text (row.now ∷ decimal carrier ∷ owner_words word)) }
{
    put_words(text, &[Text(row), Number(carrier)])?;
    put_owner(text, word)
}

/// Adds the words of a row that is wanted.
fn put_wanted(text: &mut List<u8>, wanted: Wanted) -> Result<(), OutOfMemory>
    ensures { OnOk result (text.new.items ≡ text.old.items ++ spaced_text (asked_words wanted)) }
{
    match wanted {
        Wanted::TakeAll => put_words(text, &[Text("take_all")]),
        Wanted::TakeLink { node } => {
            put_words(text, &[Text("take_link")])?;
            put_node(text, node)
        }
        Wanted::Look { carrier, .. } => put_words(text, &[Text("look"), Number(carrier)]),
        Wanted::Push { node, to } => put_queued(text, "push", node, to),
        Wanted::Link { node, to } => put_queued(text, "link", node, to),
        Wanted::BusyTry { carrier, .. } => put_words(text, &[Text("busy_try"), Number(carrier)]),
        Wanted::Settle { carrier, word } => put_stored(text, "settle", carrier, word),
        Wanted::Abandon { carrier, word } => put_stored(text, "abandon", carrier, word),
        Wanted::FetchTry { carrier, .. } => put_words(text, &[Text("fetch_try"), Number(carrier)]),
        Wanted::Create { carrier } => put_words(text, &[Text("create"), Number(carrier)]),
        Wanted::SendHome { carrier } => {
            let words = [
                Text("send_home"),
                Number(carrier),
                Text("to"),
                Number(owner_of(carrier)),
            ];
            put_words(text, &words)
        }
        Wanted::Clear { carrier } => put_words(text, &[Text("clear"), Number(carrier)]),
        Wanted::Give { name } => put_words(text, &[Text("give"), Number(name)]),
        Wanted::TakeTry { name } => put_words(text, &[Text("take_try"), Number(name)]),
        Wanted::Nothing => Ok(()),
    }
}

/// Adds what the link of a node says.
fn put_link(text: &mut List<u8>, link: Link) -> Result<(), OutOfMemory>
    ensures { OnOk result (text.new.items ≡ text.old.items ++ spaced_text (link_words link)) }
{
    match link {
        Link::Rest => put_words(text, &[Text("rest")]),
        Link::End => put_words(text, &[Text("end")]),
        Link::Next { node } => {
            put_words(text, &[Text("next")])?;
            put_node(text, node)
        }
    }
}

/// Adds the newest node of a queue, or that it has none.
fn put_newest(text: &mut List<u8>, newest: Option<Node>) -> Result<(), OutOfMemory>
    ensures { OnOk result (text.new.items ≡ text.old.items ++ spaced_text (newest_words newest)) }
{
    match newest {
        None => put_words(text, &[Text("none")]),
        Some(node) => put_node(text, node),
    }
}

/// Adds the words of what a row answered.
fn put_heard(text: &mut List<u8>, heard: Heard) -> Result<(), OutOfMemory>
    ensures { OnOk result (text.new.items ≡ text.old.items ++ spaced_text (heard_words heard)) }
{
    match heard {
        Heard::Done => Ok(()),
        Heard::Head { node } => put_newest(text, node),
        Heard::Read { link } => put_link(text, link),
        Heard::Saw { word } => put_owner(text, word),
        Heard::Won => put_words(text, &[Text("won")]),
        Heard::Lost { word } => {
            put_words(text, &[Text("lost")])?;
            put_owner(text, word)
        }
        Heard::Got => put_words(text, &[Text("got")]),
        Heard::Absent => put_words(text, &[Text("none")]),
    }
}

/// Adds the words of a row with its answer, each after a space.
pub fn put_row(text: &mut List<u8>, wanted: Wanted, heard: Heard) -> Result<(), OutOfMemory>
    ensures { OnOk result (text.new.items
        ≡ text.old.items ++ spaced_text (told_words wanted heard)) }
{
    put_wanted(text, wanted)?;
    put_heard(text, heard)
}
