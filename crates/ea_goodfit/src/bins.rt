//! The bins and their calls.
ghost use Rattle.std.specs.Prelude.{◌≡◌, ◌≢◌, ◌+◌, ◌-◌, ◌^◌, ◌<◌, ◌≤◌, ◌↔◌, [], ◌∷◌, ◌++◌, ◌==◌};
ghost use Rattle.std.specs.Prelude.{◌&&◌};
ghost use Rattle.std.specs.Prelude.{◌||◌, not, List, Some, All, AllPairs, IsTrue, IsNone, IfSome};
ghost use Rattle.std.specs.Prelude.{OnOk, OnErr, length};
ghost use Rattle.std.specs.List.Sorted.{IsPermutation};
ghost use Rattle.ea_model.specs.GoodFit.{bin_of};
ghost use Rattle.ea_model.specs.Choice.{IsFirst};
ghost use Rattle.ea_model.specs.Keyed.{entered, without};
ghost use Rattle.ea_goodfit.specs.Gaps.{address_of, is_same, is_held, takes_first, inspected_by};
ghost use Rattle.ea_goodfit.specs.Gaps.{inspected_fitting, found_by, some_gap, gap_from};
ghost use Rattle.ea_goodfit.specs.Gaps.{CanCut, CanJoin, IsBelow};
ghost use Rattle.ea_goodfit.specs.Gaps.{found_in, considered};
ghost use Rattle.ea_goodfit.specs.Keys.{key_of, IsNext};
ghost use Rattle.ea_goodfit.specs.declared.fits.Fit.TheVariants.{Good};
ghost use Rattle.ea_goodfit.specs.declared.keys.TheConstants.{BINS};

use crate::fits::Fit;
use crate::gaps::BinnedGap;
use crate::keys::{SPAN, bin_of, key, width};
use ea_keytree::KeyTree;
use ea_model::OutOfMemory;
use std::alloc::Global;
use std::marker::Model;

/// The gaps that a search can find. Contracts see them by rising address, and beside them `room`:
/// how many more can be inserted without taking memory. Only `reserve` takes memory. A gap is put
/// in or taken out in one walk down a tree, which is as deep at most as a key has bits, and so is a
/// search; under good fit it takes one walk for each gap that it may inspect of two bins, and one
/// more.
#[derive(Drop)]
pub struct Bins {
    fit: Fit,
    /// How many positions more there can be without taking memory.
    reserved: u32,
    /// The key of each position.
    tree: KeyTree,
    /// The gap of each position.
    gaps: Vec<Option<BinnedGap>>,
    /// The positions that hold none.
    free: Vec<u32>,
}

impl Model for Bins {
    ghost use Rattle.std.specs.Prelude.{◌+◌, vec_len, vec_capacity};
    ghost use Rattle.ea_goodfit.specs.Gaps.{HeldGaps};
    ghost use Rattle.ea_goodfit.specs.Keys.{by_address, AreHeld};

    ghost Value = { HeldGaps };

    ghost view = { λ b. record {
      fit = b.fit;
      held = by_address b.gaps.items;
      room = b.reserved + vec_len b.free;
    } };

    ghost invariant = { λ b. AreHeld b.fit b.reserved b.tree b.gaps.items b.free.items
        (vec_capacity b.gaps) (vec_capacity b.free) };
}

impl Bins {
    /// No gaps, and no room. It takes no memory.
    pub fn new(alloc: Global, fit: Fit) -> Bins
        ensures { result ≡ record { fit = fit; held = []; room = 0 } }
    {
        Bins {
            fit,
            reserved: 0,
            tree: KeyTree::new(alloc, width(fit)),
            gaps: Vec::new(alloc),
            free: Vec::new(alloc),
        }
    }

    /// Makes room for at least `extra` more gaps. The gaps stay, whatever the answer.
    pub fn reserve(&mut self, extra: u32) -> Result<(), OutOfMemory>
        ensures ok { OnOk result (extra ≤ self.new.room) }
        ensures fit { self.new.fit ≡ self.old.fit }
        ensures held { self.new.held ≡ self.old.held }
        ensures room { self.old.room ≤ self.new.room }
        ensures err { OnErr result (self.new ≡ self.old) }

        // It fails only where there is less room than was asked for.
        ensures full { OnErr result (self.old.room < extra) }
    {
        let more = (extra as usize).saturating_sub(self.free.len());
        if more <= self.reserved as usize {
            return Ok(());
        }
        if more > u32::MAX as usize - self.gaps.len() {
            return Err(OutOfMemory);
        }
        self.gaps.reserve(more)?;
        self.free.reserve(self.gaps.len() - self.free.len() + more)?;
        self.tree.reserve(more as u32)?;
        self.reserved = more as u32;
        Ok(())
    }

    /// Adds a gap, where room was reserved. It takes no memory.
    pub(crate) fn insert(&mut self, gap: BinnedGap)
        requires room { 0 < self.old.room }
        requires address { All (λ g. g.address ≢ gap.address) self.old.held }
        requires size { self.old.fit ≢ Good → gap.size + 1 < 2 ^ 32 }
        ensures fit { self.new.fit ≡ self.old.fit }
        ensures held { self.new.held ≡ entered address_of gap self.old.held }
        ensures room { self.new.room + 1 ≡ self.old.room }
        ensures count { length self.new.held ≡ length self.old.held + 1 }
        ensures rising { AllPairs IsBelow self.new.held }

        // The gap is held now, and the others are as before.
        ensures gaps { (g : BinnedGap)
            → is_held g self.new.held ≡ (is_same g gap || is_held g self.old.held) }
        ensures order { IsPermutation self.new.held (gap ∷ self.old.held) }
    {
        self.enter(gap);
    }

    /// Puts a gap at a free position, or at a new one where none is free.
    fn enter(&mut self, gap: BinnedGap)
        requires room { 0 < self.old.room }
        requires address { All (λ g. g.address ≢ gap.address) self.old.held }
        requires size { self.old.fit ≢ Good → gap.size + 1 < 2 ^ 32 }
        ensures held { self.new ≡ record self.old {
          held = entered address_of gap self.old.held;
          room = self.old.room - 1;
        } }
        ensures rising { AllPairs IsBelow self.old.held }
    {
        let key = key(self.fit, gap);
        if let Some(position) = self.free.pop() {
            self.tree.insert(key, position);
            self.gaps[position as usize] = Some(gap);
            return;
        }
        let position = self.gaps.len() as u32;
        self.reserved -= 1;
        self.tree.push();
        self.tree.insert(key, position);
        self.gaps.push_reserved(Some(gap));
    }

    /// Takes out a gap that is held.
    pub(crate) fn remove(&mut self, gap: BinnedGap)
        requires { IsTrue (is_held gap self.old.held) }
        ensures fit { self.new.fit ≡ self.old.fit }
        ensures held { self.new.held ≡ without address_of gap.address self.old.held }
        ensures room { self.new.room ≡ self.old.room + 1 }
        ensures count { length self.new.held + 1 ≡ length self.old.held }
        ensures rising { AllPairs IsBelow self.new.held }

        // Its address is free now, and the other gaps are as before.
        ensures free { All (λ g. g.address ≢ gap.address) self.new.held }
        ensures gaps { (g : BinnedGap) → is_held g self.new.held
            ≡ (is_held g self.old.held && not (g.address == gap.address)) }
        ensures order { (rest : List BinnedGap) → IsPermutation self.old.held (gap ∷ rest)
            → IsPermutation self.new.held rest }
    {
        self.take_out(gap);
    }

    /// Takes out a gap that is held, and frees its position.
    fn take_out(&mut self, gap: BinnedGap)
        requires { IsTrue (is_held gap self.old.held) }
        ensures held { self.new ≡ record self.old {
          held = without address_of gap.address self.old.held;
          room = self.old.room + 1;
        } }
        ensures rising { AllPairs IsBelow self.old.held }
    {
        let position = self.tree.remove(key(self.fit, gap));
        self.gaps[position as usize] = None;
        self.free.push_reserved(position);
    }

    /// Adds a gap, where room was reserved; one of no units is none. It takes no memory.
    pub fn put(&mut self, gap: BinnedGap)
        requires room { 0 < self.old.room }
        requires address { 0 < gap.size → All (λ g. g.address ≢ gap.address) self.old.held }
        requires size { self.old.fit ≢ Good → gap.size + 1 < 2 ^ 32 }
        ensures fit { self.new.fit ≡ self.old.fit }
        ensures order { IsPermutation self.new.held (some_gap gap ++ self.old.held) }

        // As many gaps as before can be held without taking memory.
        ensures places { length self.new.held + self.new.room
            ≡ length self.old.held + self.old.room }
    {
        if gap.size > 0 {
            self.insert(gap);
        }
    }

    /// Takes out a gap that is held; one of no units is none.
    pub fn take(&mut self, gap: BinnedGap)
        requires { (rest : List BinnedGap) × IsPermutation self.old.held (some_gap gap ++ rest) }
        ensures fit { self.new.fit ≡ self.old.fit }
        ensures order { (rest : List BinnedGap) → IsPermutation self.old.held (some_gap gap ++ rest)
            → IsPermutation self.new.held rest }
        ensures room { self.old.room ≤ self.new.room }
        ensures freed { 0 < gap.size → self.old.room < self.new.room }

        // As many gaps as before can be held without taking memory.
        ensures places { length self.new.held + self.new.room
            ≡ length self.old.held + self.old.room }
    {
        if gap.size > 0 {
            self.remove(gap);
        }
    }

    /// Notes that a block of `size` units stands at the front of the gap of `whole` units at
    /// `address`: what is left of the gap is a gap, if anything is.
    pub fn cut(&mut self, address: u32, whole: u32, size: u32)
        requires { CanCut self.old.held address whole size }
        ensures fit { self.new.fit ≡ self.old.fit }
        ensures order { (rest : List BinnedGap)
            → IsPermutation self.old.held (gap_from address whole ++ rest)
            → IsPermutation self.new.held (gap_from (address + size) (whole - size) ++ rest) }

        // As many gaps as before can be held without taking memory.
        ensures places { length self.new.held + self.new.room
            ≡ length self.old.held + self.old.room }
    {
        self.take(BinnedGap {
            address,
            size: whole,
        });
        self.put(BinnedGap {
            address: address + size,
            size: whole - size,
        });
    }

    /// Notes that the block of `size` units at `address` is free: with the gaps of `before` and
    /// `behind` units on its two sides it is one gap.
    pub fn join(&mut self, address: u32, before: u32, size: u32, behind: u32)
        requires room { 0 < self.old.room }
        requires held { CanJoin self.old.held address before size behind }
        ensures fit { self.new.fit ≡ self.old.fit }
        ensures order { (rest : List BinnedGap) → IsPermutation self.old.held
            (gap_from (address - before) before ++ (gap_from (address + size) behind ++ rest))
            → IsPermutation self.new.held
            (gap_from (address - before) (before + size + behind) ++ rest) }

        // As many gaps as before can be held without taking memory.
        ensures places { length self.new.held + self.new.room
            ≡ length self.old.held + self.old.room }
    {
        self.take(BinnedGap {
            address: address - before,
            size: before,
        });
        self.take(BinnedGap {
            address: address + size,
            size: behind,
        });
        self.put(BinnedGap {
            address: address - before,
            size: before + size + behind,
        });
    }

    /// The gap that a search for at least `need` units finds, or None where none of those that it
    /// inspects has that many. Under good fit it inspects the first `depth` gaps of each bin, by
    /// address, and otherwise all. It takes the smallest of those that fit, of equals the lowest,
    /// or under best fit the highest.
    pub fn find(&self, need: u32, depth: u32) -> Option<BinnedGap>
        ensures found { result ≡ found_by self.now.fit depth need self.now.held }
        ensures none { IsNone result ↔ All (λ g. g.size < need)
            (inspected_by self.now.fit depth self.now.held) }

        // The gap found is one that the search inspects and that fits, and none of these comes
        // before it.
        ensures first { IfSome result (IsFirst (takes_first self.now.fit)
            (inspected_fitting self.now.fit depth need self.now.held)) }
        ensures held { IfSome result (λ g. IsTrue (is_held g self.now.held)) }
        ensures inspected { IfSome result
            (λ g. IsTrue (is_held g (inspected_by self.now.fit depth self.now.held))) }
        ensures fits { IfSome result (λ g. need ≤ g.size) }

        // No lower bin has a gap that the search inspects and that fits.
        ensures bin { IfSome result (λ g. All (λ h. need ≤ h.size → bin_of g.size ≤ bin_of h.size)
            (inspected_by self.now.fit depth self.now.held)) }

        // Where it finds none, though it inspects a gap of each bin at least, no gap lies in a bin
        // above that of the need.
        ensures above { 1 ≤ depth → IsNone result
            → All (λ g. bin_of g.size ≤ bin_of need) self.now.held }

        // No other gap comes first, so the gaps give the same in any order.
        ensures only { (g : BinnedGap) → IsFirst (takes_first self.now.fit)
            (inspected_fitting self.now.fit depth need self.now.held) g → result ≡ Some g }
        ensures order { (gs : List BinnedGap) → IsPermutation self.now.held gs
            → result ≡ found_by self.now.fit depth need gs }
        ensures rising { AllPairs IsBelow self.now.held }
    {
        self.found(need, depth)
    }

    /// The gap that `find` finds.
    fn found(&self, need: u32, depth: u32) -> Option<BinnedGap>
        ensures found { result ≡ found_by self.now.fit depth need self.now.held }
        ensures rising { AllPairs IsBelow self.now.held }
    {
        match self.fit {
            Fit::Good => self.found_good(need, depth),
            Fit::Best | Fit::AddressOrderBest => self.first_from(u64::from(need) * SPAN),
        }
    }

    /// The gap that good fit finds: one of the need's bin, or else one of the next bin that has
    /// any, where each fits.
    fn found_good(&self, need: u32, depth: u32) -> Option<BinnedGap>
        requires fit { self.now.fit ≡ Good }
        requires rising { AllPairs IsBelow self.now.held }
        requires bounded { All (λ g. g.address < 2 ^ 32) self.now.held }
        ensures { result ≡ found_by Good depth need self.now.held }
    {
        let bin = bin_of(need);
        let found = self.found_in(bin, need, depth);
        if found.is_some() {
            return found;
        }
        let higher = self.first_from((u64::from(bin) + 1) * SPAN)?;
        self.found_in(bin_of(higher.size), need, depth)
    }

    /// The gap that is taken of those that fit among the first `depth` of a bin.
    fn found_in(&self, bin: u32, need: u32, depth: u32) -> Option<BinnedGap>
        requires fit { self.now.fit ≡ Good }
        requires bin { bin < BINS }
        ensures { result ≡ found_in bin depth need self.now.held }
    {
        let mut best = None;
        let mut address = 0;
        for index in 0..depth {
            let Some(gap) = self.first_from(u64::from(bin) * SPAN + address) else {
                return best;
            };
            if bin_of(gap.size) != bin {
                return best;
            }
            best = better_of(need, best, gap);
            address = u64::from(gap.address) + 1;
        }
        best
    }

    /// The gap of the least key of at least `bound`, or None where all keys are less.
    fn first_from(&self, bound: u64) -> Option<BinnedGap>
        ensures next { IfSome result (IsNext self.now.fit bound self.now.held) }
        ensures none { IsNone result → All (λ g. key_of self.now.fit g < bound) self.now.held }
        ensures rising { AllPairs IsBelow self.now.held }
        ensures bounded { All (λ g. g.address < 2 ^ 32) self.now.held }
    {
        let found = self.tree.first_from(bound)?;
        self.gaps[found.position as usize]
    }
}

/// The better of `best` and the gap, where that one fits.
fn better_of(need: u32, best: Option<BinnedGap>, gap: BinnedGap) -> Option<BinnedGap>
    ensures { result ≡ considered need best gap }
{
    if gap.size < need {
        return best;
    }
    match best {
        Some(other) if other.size < gap.size => best,
        Some(other) if other.size == gap.size && other.address <= gap.address => best,
        _ => Some(gap),
    }
}
