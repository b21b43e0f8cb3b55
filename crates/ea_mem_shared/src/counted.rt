//! Which carriers count in a search of the pool.
ghost use Rattle.std.specs.Prelude.{◌≡◌, ◌<◌, IfOk, false, get_or, length, replicate, set};
ghost use Rattle.ea_mem_shared.specs.Counted.{IsLast, is_counted};

use ea_keytree::KeyTree;
use ea_model::OutOfMemory;
use std::alloc::Global;
use std::marker::Model;

/// Which carriers count in a search of the pool, by their numbers. Those that count are the keys of
/// a tree. So a search passes over all that don't count at once, and what it takes to note that a
/// carrier begins or ceases to count is logarithmic in how many numbers there are. Contracts see of
/// each number, from 0 on, whether it counts. No call but `new` takes memory.
#[derive(Drop)]
pub struct Counted {
    numbers: KeyTree,
}

impl Model for Counted {
    ghost use Rattle.std.specs.Prelude.{◌≡◌, List, Bool, is_some, length, map};
    ghost use Rattle.ea_mem_shared.specs.Counted.{AreOwn};

    ghost Value = { List Bool };

    ghost view = { λ c. map is_some c.numbers.keys };

    ghost invariant = { λ c. (c.numbers.width ≡ length c.numbers.keys) × AreOwn c.numbers.keys };
}

impl Counted {
    /// That many numbers, of which none counts.
    pub fn new(alloc: Global, count: u32) -> Result<Counted, OutOfMemory>
        ensures { IfOk result (λ c. c ≡ replicate count false) }
    {
        let numbers = KeyTree::with_positions(alloc, u64::from(count), count)?;
        Ok(Counted { numbers })
    }

    /// Whether the number counts.
    fn has(&self, number: u32) -> bool
        requires { number < length self.now }
        ensures { result ≡ get_or self.now number false }
    {
        match self.numbers.last_up_to(u64::from(number)) {
            Some(found) => found.position == number,
            None => false,
        }
    }

    /// The greatest number up to this one that counts; 0 where none does.
    pub fn last_upto(&self, number: u32) -> u32
        requires { number < length self.now }
        ensures { IsLast (is_counted self.now) number result }
    {
        match self.numbers.last_up_to(u64::from(number)) {
            Some(found) => found.position,
            None => 0,
        }
    }

    /// From now on the number counts, or doesn't.
    pub fn note(&mut self, number: u32, counts: bool)
        requires { number < length self.old }
        ensures { self.new ≡ set self.old number counts }
    {
        if self.has(number) == counts {
            return;
        }
        if counts {
            self.numbers.insert(u64::from(number), number);
        } else {
            self.numbers.remove(u64::from(number));
        }
    }
}
