//! The scheduler whose text is made.
ghost use Rattle.std.specs.Prelude.{◌≡◌};
ghost use Rattle.ea_gen.specs.Generated.{base_of};
ghost use Rattle.ea_gen.specs.Places.{IsSection};

/// The scheduler whose text is made.
#[derive(Clone, Copy)]
pub struct Section {
    /// The scheduler, from 1.
    pub scheduler: u32,
    /// How many schedulers there are.
    pub schedulers: u32,
    /// How many operations each has.
    pub count: u32,
}

impl Section {
    /// The greatest name of the schedulers before it.
    pub fn base(self) -> u32
        requires { IsSection self }
        ensures { result ≡ base_of self }
    {
        (self.scheduler - 1) * self.count
    }
}
