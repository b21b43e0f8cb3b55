//! The table.
ghost use Rattle.std.specs.Prelude.{◌≡◌, ℕ, ◌+◌, ◌/◌, ◌^◌, ◌≤◌, true, false, [], None, All, IfOk};
ghost use Rattle.std.specs.Prelude.{OnOk, length, map, replicate, set, sum_by};
ghost use Rattle.std.specs.Option.{option_map_or};
ghost use Rattle.ea_machine.specs.Nodes.{spot_named, with_name, without_name};
ghost use Rattle.ea_names.specs.Holding.{IsGroup, IsWhole, has_place, held_in, places_in};
ghost use Rattle.ea_names.specs.declared.groups.TheConstants.{GROUP};

use crate::groups::GROUP;
use ea_model::{OutOfMemory, Spot};
use std::alloc::Global;
use std::marker::Model;

/// Names, each with the spot where its block begins: those that a scheduler holds, or those that
/// are given. Names up to a greatest one may be held where they have a place; holding them takes no
/// memory. A place is made for all names of a group at once. Contracts see the names by rising
/// number, that greatest name, and which groups have their places.
#[derive(Drop)]
pub struct Names {
    greatest: u32,
    groups: Vec<Vec<Option<Spot>>>,
}

impl Model for Names {
    ghost use Rattle.std.specs.Prelude.{◌≡◌, ◌+◌, ◌/◌, ◌^◌, ◌<◌, All, length, map};
    ghost use Rattle.ea_names.specs.Holding.{Holding, IsGroup, held_in, places_in};
    ghost use Rattle.ea_names.specs.declared.groups.TheConstants.{GROUP};

    ghost Value = { Holding };

    ghost view = { λ n. record {
      held = held_in 0 (map (λ g. g.items) n.groups.items);
      greatest = n.greatest;
      places = places_in (map (λ g. g.items) n.groups.items);
    } };

    ghost invariant = { λ n. (n.greatest < 2 ^ 32)
        × (length n.groups.items ≡ n.greatest / GROUP + 1)
        × All IsGroup (map (λ g. g.items) n.groups.items) };
}

/// The groups of the names up to `greatest`, each with that many places, where no name is held.
fn groups_upto(
    alloc: Global,
    greatest: u32,
    places: u32,
) -> Result<Vec<Vec<Option<Spot>>>, OutOfMemory>
    ensures { IfOk result (λ groups. map (λ g. g.items) groups.items
        ≡ replicate (greatest / GROUP + 1) (replicate places None)) }
{
    let mut groups = Vec::new(alloc);
    for _ in 0..greatest / GROUP + 1 {
        groups.push(vec![in alloc; None; places as usize]?)?;
    }
    Ok(groups)
}

impl Names {
    /// No names, and no places for any up to `greatest`.
    pub fn new(alloc: Global, greatest: u32) -> Result<Names, OutOfMemory>
        ensures none { IfOk result (λ names. names.held ≡ []) }
        ensures greatest { IfOk result (λ names. names.greatest ≡ greatest) }
        ensures places { IfOk result (λ names. names.places
            ≡ replicate (greatest / GROUP + 1) false) }
    {
        let groups = groups_upto(alloc, greatest, 0)?;
        Ok(Names { greatest, groups })
    }

    /// No names, with a place for each up to `greatest`.
    pub fn whole(alloc: Global, greatest: u32) -> Result<Names, OutOfMemory>
        ensures none { IfOk result (λ names. names.held ≡ []) }
        ensures greatest { IfOk result (λ names. names.greatest ≡ greatest) }
        ensures places { IfOk result IsWhole }
    {
        let groups = groups_upto(alloc, greatest, GROUP)?;
        Ok(Names { greatest, groups })
    }

    /// Makes a place for the name and for the others of its group, if it has none yet.
    pub fn make_place(&mut self, alloc: Global, name: u32) -> Result<(), OutOfMemory>
        requires { name ≤ self.old.greatest }
        ensures places { OnOk result
            (self.new.places ≡ set self.old.places (name / GROUP) true) }
        ensures place { OnOk result (has_place self.new.places name ≡ true) }
        ensures kept { (other : ℕ) → has_place self.old.places other ≡ true
            → has_place self.new.places other ≡ true }
        ensures held { self.new.held ≡ self.old.held }
        ensures same { self.new.greatest ≡ self.old.greatest }
    {
        let group = (name / GROUP) as usize;
        if self.groups[group].is_empty() {
            self.groups[group] = vec![in alloc; None; GROUP as usize]?;
        }
        Ok(())
    }

    /// Where the block of the name begins, if the name is held.
    pub fn spot_of(&self, name: u32) -> Option<Spot>
        requires { name ≤ self.now.greatest }
        ensures { result ≡ spot_named name self.now.held }
    {
        let group = &self.groups[(name / GROUP) as usize];
        if group.is_empty() {
            return None;
        }
        group[(name % GROUP) as usize]
    }

    /// The groups of the names from 0 on. A group has no place, or one for each of its names; a
    /// place has the spot where the name's block begins, if the name is held.
    pub fn groups(&self) -> &[Vec<Option<Spot>>]
        ensures held { self.now.held ≡ held_in 0 (map (λ g. g.items) result.now) }
        ensures count { length result.now ≡ self.now.greatest / GROUP + 1 }
        ensures small { length result.now ≤ 2 ^ 23 }
        ensures most { All (λ g. length g.items ≤ GROUP) result.now }
        ensures sums { (f : _) → sum_by (λ x. f x.spot) self.now.held
            ≡ sum_by (λ g. sum_by (λ s. option_map_or f s 0) g.items) result.now }
    {
        self.groups.as_slice()
    }

    /// Holds the name, whose block begins at the spot.
    pub fn hold(&mut self, name: u32, spot: Spot)
        requires place { has_place self.old.places name ≡ true }
        requires fresh { spot_named name self.old.held ≡ None }
        ensures held { self.new.held
            ≡ with_name (record { name = name; spot = spot }) self.old.held }
        ensures places { self.new.places ≡ self.old.places }
        ensures whole { IsWhole self.old → IsWhole self.new }
        ensures same { self.new.greatest ≡ self.old.greatest }
    {
        self.groups[(name / GROUP) as usize][(name % GROUP) as usize] = Some(spot);
    }

    /// Holds the name no longer, and answers where its block begins, if it was held.
    pub fn take(&mut self, name: u32) -> Option<Spot>
        requires place { name ≤ self.old.greatest }
        ensures spot { result ≡ spot_named name self.old.held }
        ensures held { self.new.held ≡ without_name name self.old.held }
        ensures places { self.new.places ≡ self.old.places }
        ensures whole { IsWhole self.old → IsWhole self.new }
        ensures same { self.new.greatest ≡ self.old.greatest }
    {
        let spot = self.spot_of(name);
        self.let_go(name);
        spot
    }

    /// Holds the name no longer.
    pub fn let_go(&mut self, name: u32)
        requires place { name ≤ self.old.greatest }
        ensures held { self.new.held ≡ without_name name self.old.held }
        ensures places { self.new.places ≡ self.old.places }
        ensures whole { IsWhole self.old → IsWhole self.new }
        ensures same { self.new.greatest ≡ self.old.greatest }
    {
        let group = (name / GROUP) as usize;
        if self.groups[group].is_empty() {
            return;
        }
        self.groups[group][(name % GROUP) as usize] = None;
    }
}
