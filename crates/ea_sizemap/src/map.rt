//! The map and its calls.
ghost use Rattle.std.specs.Prelude.{◌≡◌, ℕ, ◌+◌, ◌*◌, ◌/◌, ◌%◌, ◌^◌, ◌<◌, ◌≤◌, ◌↔◌, [], ◌∷◌, ◌++◌};
ghost use Rattle.std.specs.Prelude.{length, replicate, slice_index, slice_index_or, slice_set};
ghost use Rattle.std.specs.Prelude.{IfOk, IfSome, IsNone, All, Contains, None, vec_capacity};
ghost use Rattle.ea_sizemap.specs.Held.{IsLeastAtLeast, IsLowestOf, IsHighestOf};
ghost use Rattle.ea_sizemap.specs.Keyed.{key as key_by, sizes_in};
ghost use Rattle.ea_sizemap.specs.Places.{AreFree, held_count};

use ea_keytree::KeyTree;
use ea_model::OutOfMemory;
use std::alloc::Global;
use std::marker::Model;

/// A size and a position that holds it.
#[derive(Debug, Clone, Copy, PartialEq, Eq)]
pub struct HeldSize {
    pub size: u32,
    pub position: u32,
}

/// Sizes by position. Contracts see the greatest size that it may hold, and the size held by each
/// position, 0 where none is.
///
/// Memory for all positions is reserved. As much of it is used as the most sizes take that were
/// held at one time.
#[derive(Drop)]
pub struct SizeMap {
    most: u32,
    span: u64,
    /// The key of each place. A size takes any place that is free.
    keys: KeyTree,
    /// The places that hold no key.
    free: Vec<u32>,
}

impl Model for SizeMap {
    ghost use Rattle.std.specs.Prelude.{vec_capacity};
    ghost use Rattle.ea_sizemap.specs.Held.{Sizes};
    ghost use Rattle.ea_sizemap.specs.Keyed.{IsMap, sizes_in};

    ghost Value = { Sizes };

    ghost view = { λ m. record { most = m.most; held = sizes_in m.span m.keys.keys } };

    ghost invariant = { λ m. IsMap m.most m.span m.keys m.free.items (vec_capacity m.free) };
}

/// How many keys there are: sizes up to `most` at that many positions.
fn width(most: u32, positions: u32) -> u64
    ensures { result ≡ (most + 1) * positions }
{
    (u64::from(most) + 1) * u64::from(positions)
}

/// The key of a position that holds the size, among `span` positions.
#[tactic(auto, unfolding(crate::specs::Keyed::key))]
fn key(span: u64, size: u32, position: u32) -> u64
    requires { key_by span size position < 2 ^ 64 }
    ensures { result ≡ key_by span size position }
{
    u64::from(size) * span + u64::from(position)
}

/// The size and the position that a key says.
fn held_by(span: u64, key: u64) -> HeldSize
    requires some { 0 < span }
    requires few { span < 2 ^ 32 }
    requires small { key / span < 2 ^ 32 }
    ensures size { result.size ≡ key / span }
    ensures position { result.position ≡ key % span }
{
    HeldSize {
        size: (key / span) as u32,
        position: (key % span) as u32,
    }
}

/// Takes a place that holds no key out of those that are free, or adds one where none is.
fn take_place(keys: &mut KeyTree, free: &mut Vec<u32>) -> u32
    requires free { AreFree keys.old.keys free.old.items }
    requires room { held_count keys.old.keys < length keys.old.keys + keys.old.room }
    ensures free { AreFree keys.new.keys (free.new.items ++ result ∷ []) }
    ensures same { (q : ℕ) → slice_index_or keys.new.keys q None
        ≡ slice_index_or keys.old.keys q None }
    ensures held { held_count keys.new.keys ≡ held_count keys.old.keys }
    ensures sizes { (span : ℕ) → sizes_in span keys.new.keys ≡ sizes_in span keys.old.keys }
    ensures width { keys.new.width ≡ keys.old.width }
    ensures room { length keys.new.keys + keys.new.room ≡ length keys.old.keys + keys.old.room }
    ensures few { (n : ℕ) → length keys.old.keys ≤ n → held_count keys.old.keys < n
        → length keys.new.keys ≤ n }
    ensures capacity { vec_capacity free.new ≡ vec_capacity free.old }
{
    if let Some(place) = free.pop() {
        return place;
    }
    let place = keys.len();
    keys.push();
    place
}

impl SizeMap {
    /// A map that holds no size yet. It may hold sizes up to `sizes`, each at one of that many
    /// positions, and takes all its memory here.
    pub fn new(alloc: Global, sizes: u32, positions: u32) -> Result<SizeMap, OutOfMemory>
        ensures { IfOk result (λ m. m ≡ record { most = sizes; held = replicate positions 0 }) }
    {
        let mut keys = KeyTree::new(alloc, width(sizes, positions));
        keys.reserve(positions)?;
        Ok(SizeMap {
            most: sizes,
            span: u64::from(positions),
            keys,
            free: Vec::with_capacity(alloc, positions as usize)?,
        })
    }

    /// Notes that the position, which holds none, now holds the size.
    pub fn insert(&mut self, size: u32, position: u32)
        requires size { (1 ≤ size) × (size ≤ self.old.most) }
        requires position { position < length self.old.held }
        requires free { slice_index self.old.held position ≡ 0 }
        ensures { self.new ≡ record self.old { held = slice_set self.old.held position size } }
    {
        let place = take_place(&mut self.keys, &mut self.free);
        self.keys.insert(key(self.span, size, position), place);
    }

    /// Notes that the position holds the size no longer.
    pub fn remove(&mut self, size: u32, position: u32)
        requires some { 1 ≤ size }
        requires position { position < length self.old.held }
        requires held { slice_index self.old.held position ≡ size }
        ensures { self.new ≡ record self.old { held = slice_set self.old.held position 0 } }
    {
        let place = self.keys.remove(key(self.span, size, position));
        self.free.push_reserved(place);
    }

    /// The least held size of at least `size`, with the lowest position that holds it, or None
    /// where none is that great.
    pub fn lowest_at_least(&self, size: u32) -> Option<HeldSize>
        requires { 1 ≤ size }
        ensures found { IfSome result (λ h. IsLeastAtLeast size self.now.held h.size) }
        ensures lowest { IfSome result (λ h. IsLowestOf h.size self.now.held h.position) }
        ensures none { IsNone result ↔ All (λ s. s < size) self.now.held }
    {
        match self.keys.first_from(key(self.span, size, 0)) {
            Some(first) => Some(held_by(self.span, first.key)),
            None => None,
        }
    }

    /// The least held size of at least `size`, with the highest position that holds it, or None
    /// where none is that great.
    pub fn highest_at_least(&self, size: u32) -> Option<HeldSize>
        requires { 1 ≤ size }
        ensures found { IfSome result (λ h. IsLeastAtLeast size self.now.held h.size) }
        ensures highest { IfSome result (λ h. IsHighestOf h.size self.now.held h.position) }
        ensures none { IsNone result ↔ All (λ s. s < size) self.now.held }
    {
        match self.lowest_at_least(size) {
            Some(least) => Some(HeldSize {
                size: least.size,
                position: self.highest_of(least.size),
            }),
            None => None,
        }
    }

    /// The highest position that holds the size.
    fn highest_of(&self, size: u32) -> u32
        requires some { 1 ≤ size }
        requires held { Contains self.now.held size }
        ensures { IsHighestOf size self.now.held result }
    {
        match self
            .keys
            .last_up_to(key(self.span, size, 0) + (self.span - 1))
        {
            Some(highest) => held_by(self.span, highest.key).position,
            None => unreachable!(),
        }
    }

    /// The greatest held size, or 0 where none is held.
    pub fn greatest(&self) -> u32
        ensures bound { All (λ s. s ≤ result) self.now.held }
        ensures met { 0 < result → Contains self.now.held result }
    {
        match self.keys.last_up_to(u64::MAX) {
            Some(last) => held_by(self.span, last.key).size,
            None => 0,
        }
    }
}
