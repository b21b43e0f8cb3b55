//! Where words stand in the table: the heads of the queues, then a link for each name and for each
//! carrier number, then a word for each name that may be given, and then the owner word of each
//! carrier number. And where slots stand: one for each carrier number.
ghost use Rattle.std.specs.Prelude.{◌≡◌, ◌*◌, ◌≤◌};
ghost use Rattle.ea_model.specs.declared.units.TheConstants.{NUMBERS};
ghost use Rattle.ea_machine.specs.Alike.{IsNode};
ghost use Rattle.ea_table.specs.Slots.{slot_at};
ghost use Rattle.ea_table.specs.Words.{head_at, link_at, name_at, owner_at, words_in};

use ea_machine::Node;
use ea_model::NUMBERS;

/// The words from one head to the next: a cache line, so that schedulers which take their own
/// queues don't slow each other down.
pub const HEAD_WORDS: u32 = 8;

/// How many words there are, for that many schedulers and names up to a greatest one.
pub(crate) fn count_words(schedulers: u32, greatest: u32) -> usize
    ensures { result ≡ words_in schedulers greatest }
{
    owner_place(schedulers, greatest, 1) + count_slots(schedulers)
}

/// How many slots there are.
pub(crate) fn count_slots(schedulers: u32) -> usize
    ensures { result ≡ NUMBERS * schedulers }
{
    NUMBERS as usize * schedulers as usize
}

/// Where the head of a queue stands.
pub(crate) fn head_place(instance: u32) -> usize
    requires { 1 ≤ instance }
    ensures { result ≡ head_at instance }
{
    HEAD_WORDS as usize * (instance as usize - 1)
}

/// Where the link of a node stands.
pub(crate) fn link_place(schedulers: u32, greatest: u32, node: Node) -> usize
    requires { IsNode schedulers greatest node }
    ensures { result ≡ link_at schedulers greatest node }
{
    let links = HEAD_WORDS as usize * schedulers as usize;
    match node {
        Node::Block { name, .. } => links + (name as usize - 1),
        Node::Carrier { number } => links + greatest as usize + (number as usize - 1),
    }
}

/// Where the word of a name stands.
pub(crate) fn name_place(schedulers: u32, greatest: u32, name: u32) -> usize
    requires { 1 ≤ name }
    ensures { result ≡ name_at schedulers greatest name }
{
    HEAD_WORDS as usize * schedulers as usize
        + greatest as usize
        + NUMBERS as usize * schedulers as usize
        + (name as usize - 1)
}

/// Where the owner word of a carrier stands.
pub(crate) fn owner_place(schedulers: u32, greatest: u32, carrier: u32) -> usize
    requires { 1 ≤ carrier }
    ensures { result ≡ owner_at schedulers greatest carrier }
{
    name_place(schedulers, greatest, 1) + greatest as usize + (carrier as usize - 1)
}

/// Where the slot of a carrier stands.
pub(crate) fn slot_place(carrier: u32) -> usize
    requires { 1 ≤ carrier }
    ensures { result ≡ slot_at carrier }
{
    carrier as usize - 1
}
