//! Worked inputs.
ghost use Rattle.std.specs.Prelude.{◌≡◌, [], ◌∷◌};
ghost use Rattle.ea_contents.specs.declared.access.AccessEntry.TheVariants.{Found, ReadSkipped};
ghost use Rattle.ea_contents.specs.declared.access.AccessEntry.TheVariants.{WriteOutside, Wrote};
ghost use Rattle.ea_trials_commands.specs.Contents.{fetched, moved};

/// A block that moves takes its words along; a word after the last one is outside.
pub fn moves()
    ensures { moved.shown 1 ≡ Wrote 1 0 ∷ Found 3 0 7 ∷ Found 3 13 0 ∷ WriteOutside 3 25
        ∷ ReadSkipped 1 ∷ [] }
{}

/// A carrier that is fetched brings its words along.
pub fn migrates()
    ensures wrote { fetched.shown 1 ≡ Wrote 2 3 ∷ [] }
    ensures found { fetched.shown 2 ≡ Found 2 3 9 ∷ [] }
{}
