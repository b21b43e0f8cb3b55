//! The names that a scheduler has at hand.
ghost use Rattle.std.specs.Prelude.{◌≡◌, ◌≤◌, [], ◌∷◌, ◌++◌, find, is_some, OnOk};
ghost use Rattle.std.specs.List.{position_or_len};
ghost use Rattle.ea_gen.specs.Generated.{front, is_within};
ghost use Rattle.ea_gen.specs.Places.{has_within, less};

use ea_model::OutOfMemory;
use std::alloc::Global;
use std::marker::Model;

/// Names, oldest first. A place keeps its name until that is taken out, and then stays empty, so
/// that no name is moved. Contracts see the names, and between which names the scheduler's own are.
#[derive(Drop)]
pub struct Hand {
    low: u32,
    high: u32,
    places: Vec<Option<u32>>,
    first: usize,
    first_own: usize,
}

impl Model for Hand {
    ghost use Rattle.ea_gen.specs.Places.{AtHand, IsSearched, names_in};

    ghost Value = { AtHand };

    ghost view = { λ h. record { names = names_in h.places.items; low = h.low; high = h.high } };

    ghost invariant = { λ h. IsSearched h.low h.high h.places.items h.first h.first_own };
}

/// Whether a name above `low`, and not above `high`, stands in the place.
fn is_in(place: Option<u32>, low: u32, high: u32) -> bool
    ensures { result ≡ has_within low high place }
{
    match place {
        Some(name) => low < name && name <= high,
        None => false,
    }
}

/// The first place with a name, where those before `from` have none.
fn first_name(places: &[Option<u32>], from: usize) -> usize
    requires { from ≤ position_or_len is_some places.now }
    ensures { result ≡ position_or_len is_some places.now }
{
    for place in from..places.len() {
        if places[place].is_some() {
            return place;
        }
    }
    places.len()
}

/// The first place with a name above `low`, and not above `high`, where those before `from` have
/// none.
fn first_own(places: &[Option<u32>], from: usize, low: u32, high: u32) -> usize
    requires { from ≤ position_or_len (has_within low high) places.now }
    ensures { result ≡ position_or_len (has_within low high) places.now }
{
    for place in from..places.len() {
        if is_in(places[place], low, high) {
            return place;
        }
    }
    places.len()
}

impl Hand {
    /// No names, of a scheduler whose own are above `low`, and not above `high`.
    pub fn new(alloc: Global, low: u32, high: u32) -> Hand
        ensures { result ≡ record { names = []; low = low; high = high } }
    {
        Hand {
            low,
            high,
            places: Vec::new(alloc),
            first: 0,
            first_own: 0,
        }
    }

    /// Adds the newest name.
    pub fn add(&mut self, name: u32) -> Result<(), OutOfMemory>
        ensures names { OnOk result (self.new.names ≡ self.old.names ++ name ∷ []) }
        ensures low { self.new.low ≡ self.old.low }
        ensures high { self.new.high ≡ self.old.high }
    {
        Ok(self.places.push(Some(name))?)
    }

    /// Takes out the oldest name.
    pub fn take_oldest(&mut self) -> Option<u32>
        ensures name { result ≡ front self.old.names }
        ensures rest { self.new ≡ record self.old { names = less result self.old.names } }
    {
        let place = first_name(&self.places, self.first);
        self.first = place;
        if place >= self.places.len() {
            return None;
        }
        let name = self.places[place];
        self.places[place] = None;
        name
    }

    /// Takes out the oldest one of the scheduler's own names.
    pub fn take_own(&mut self) -> Option<u32>
        ensures name { result ≡ find (is_within self.old.low self.old.high) self.old.names }
        ensures rest { self.new ≡ record self.old { names = less result self.old.names } }
    {
        let place = first_own(&self.places, self.first_own, self.low, self.high);
        self.first_own = place;
        if place >= self.places.len() {
            return None;
        }
        let name = self.places[place];
        self.places[place] = None;
        name
    }
}
