//! The text of steps that are told one after another.
ghost use Rattle.std.specs.Prelude.{◌≡◌, IfOk, OnOk, []};
ghost use Rattle.ea_machine.specs.Setup.{Setup};
ghost use Rattle.ea_steps.specs.Fronts as fronts;
ghost use Rattle.ea_steps.specs.Groups as groups;
ghost use Rattle.ea_steps.specs.Printed.{code_of, next_group, open_after, text_after, text_before};
ghost use Rattle.ea_steps.specs.Printed.{text_closed};
ghost use Rattle.ea_steps.specs.Printed as printed;
ghost use Rattle.ea_steps.specs.Shown.{IsOfOne, Shows};
ghost use Rattle.ea_steps.specs.Text.{changes_text};

use crate::groups::{Group, put_group};
use crate::joined::Joined;
use ea_model::{List, OutOfMemory};
use std::alloc::Global;

/// What is told so far.
#[derive(Drop)]
pub(crate) struct Front {
    /// The text, without the line of the last steps if it may grow.
    pub text: List<u8>,
    /// These steps.
    pub last: Option<Group>,
}

/// Whether the line of a group may grow, if its last step did what these lines say.
fn stays_open(group: Group, lines: &[u8]) -> bool
    ensures { result ≡ printed.stays_open group lines.now }
{
    match group.joined {
        Joined::Apart => false,
        Joined::Looks { .. } | Joined::Tries { .. } => lines.is_empty(),
    }
}

/// Adds the line of the last group, if there is one.
fn close(text: &mut List<u8>, last: Option<Group>) -> Result<(), OutOfMemory>
    ensures { OnOk result (text.new.items ≡ text_closed text.old.items last) }
{
    match last {
        None => Ok(()),
        Some(group) => put_group(text, group),
    }
}

impl Front {
    /// Nothing is told yet.
    pub(crate) fn new(alloc: Global) -> Front
        ensures { (setup : Setup)
            → Shows setup (fronts.front_of setup []) result.text.items result.last }
    {
        Front {
            text: List::new(alloc),
            last: None,
        }
    }

    /// The group that is told next: the open one with the steps of this one, if its line may tell
    /// them; else this one, after the line of the open one.
    fn next(&mut self, group: Group) -> Result<Group, OutOfMemory>
        ensures group { IfOk result (λ next. next ≡ next_group self.old.last group) }
        ensures text { OnOk result
            (self.new.text.items ≡ text_before self.old.text.items self.old.last group) }
    {
        match self.last {
            None => Ok(group),
            Some(open) => {
                if open.takes(group) {
                    return Ok(open.with(group));
                }
                put_group(&mut self.text, open)?;
                Ok(group)
            }
        }
    }

    /// Adds a group, the last of whose steps did what the lines say.
    fn add(&mut self, group: Group, lines: &[u8]) -> Result<(), OutOfMemory>
        ensures text { OnOk result (self.new.text.items
            ≡ text_after self.old.text.items self.old.last group lines.now) }
        ensures last { OnOk result (self.new.last ≡ open_after self.old.last group lines.now) }
    {
        let next = self.next(group)?;
        if stays_open(next, lines) {
            self.last = Some(next);
            return Ok(());
        }
        self.last = None;
        put_group(&mut self.text, next)?;
        self.text.extend_from_slice(lines)
    }

    /// Tells a group, the last of whose steps did what the lines say.
    pub(crate) fn tell(&mut self, group: Group, lines: &[u8]) -> Result<(), OutOfMemory>
        ensures { (setup : Setup) → (f : fronts.Front) → (g : groups.Group)
            → Shows setup f self.old.text.items self.old.last → IsOfOne g → group ≡ code_of g
            → lines.now ≡ changes_text setup g.last
            → OnOk result (Shows setup (fronts.after_group setup f g)
            self.new.text.items self.new.last) }
    {
        self.add(group, lines)
    }

    /// The text of all that was told.
    pub(crate) fn finish(self) -> Result<List<u8>, OutOfMemory>
        ensures { (setup : Setup) → (f : fronts.Front)
            → Shows setup f self.text.items self.last
            → IfOk result (λ text. text.items ≡ fronts.closed_text setup f) }
    {
        let mut text = self.text;
        close(&mut text, self.last)?;
        Ok(text)
    }
}
