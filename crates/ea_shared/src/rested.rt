//! What is shared where nobody steps.
ghost use Rattle.std.specs.Prelude.{◌≡◌, ◌≤◌, true, option_map};
ghost use Rattle.ea_machine.specs.Nodes.{spot_named};
ghost use Rattle.ea_machine.specs.Owners as owners;
ghost use Rattle.ea_shared.specs.Carriers.{IsCarrier, home_of};

use ea_machine::OwnerWord;
use ea_model::{Carried, Spot};

/// What schedulers share, to be read where nobody steps. No call takes memory.
pub trait Rested {
    ghost use Rattle.ea_shared.specs.AtRest.{SharedAtRest};

    /// What stands for the content of a multiblock carrier.
    type Content: Carried;

    // what is shared
    ghost shared: { Self → SharedAtRest };

    /// The owner word of a carrier.
    fn word(&self, carrier: u32) -> OwnerWord
        requires migrates { (shared self.now).migrates ≡ true }
        requires carrier { IsCarrier (shared self.now).schedulers carrier }
        ensures { result ≡ owners.word_of ((shared self.now).places carrier) };

    /// The content of a carrier that no scheduler has: one that is pooled, or returns. None exactly
    /// for all others.
    fn home(&self, carrier: u32) -> Option<&Self::Content>
        requires migrates { (shared self.now).migrates ≡ true }
        requires carrier { IsCarrier (shared self.now).schedulers carrier }
        ensures { option_map (λ x. Self.Content.content x.now) result
            ≡ home_of ((shared self.now).places carrier) };

    /// Where the block of the name begins, if the name is given and not taken yet.
    fn given(&self, name: u32) -> Option<Spot>
        requires { (1 ≤ name) × (name ≤ (shared self.now).greatest) }
        ensures { result ≡ spot_named name (shared self.now).named };
}
