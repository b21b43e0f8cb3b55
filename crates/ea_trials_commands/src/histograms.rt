//! Worked words and inputs with their histograms.
ghost use Rattle.std.specs.Prelude.{◌≡◌, ◌++◌, Some, codes};
ghost use Rattle.ea_model.specs.Words.{words};
ghost use Rattle.ea_trials_commands.specs.Histograms.{text_of};

/// What the definitions give for worked words and inputs.
pub fn worked_histograms()
    ensures first_block { text_of (words (codes "+MMscs 1 +MHacul 0"))
        (codes "type H\nscheduler 1\nalloc 1 100\nschedule\nend\n")
        ≡ Some
        (codes "carrier 1 blocks 1 0 0 0 0 0 0 0 0 0 0 0 0 0 0 0 0 0"
        ++ codes " gaps 0 0 0 0 0 0 0 0 0 0 0 1 0 0 0 0 0 0\n"
        ++ codes "all blocks 1 0 0 0 0 0 0 0 0 0 0 0 0 0 0 0 0 0"
        ++ codes " gaps 0 0 0 0 0 0 0 0 0 0 0 1 0 0 0 0 0 0\n") }
    ensures joined_gap { text_of (words (codes "+MMscs 1 +MHacul 0"))
        (codes "type H\nscheduler 1\nalloc 1 100\nalloc 2 100\nalloc 3 100\nfree 1\nfree 2\n"
        ++ codes "alloc 4 200\nschedule\nend\n")
        ≡ Some
        (codes "carrier 1 blocks 1 1 0 0 0 0 0 0 0 0 0 0 0 0 0 0 0 0"
        ++ codes " gaps 0 0 0 0 0 0 0 0 0 0 0 1 0 0 0 0 0 0\n"
        ++ codes "all blocks 1 1 0 0 0 0 0 0 0 0 0 0 0 0 0 0 0 0"
        ++ codes " gaps 0 0 0 0 0 0 0 0 0 0 0 1 0 0 0 0 0 0\n") }
    ensures no_carriers { text_of (words (codes "+MMscs 1 +MHacul 0"))
        (codes "type H\nscheduler 1\nalloc 1 100\nfree 1\nfree 1\nschedule\nend\n")
        ≡ Some
        (codes "all blocks 0 0 0 0 0 0 0 0 0 0 0 0 0 0 0 0 0 0"
        ++ codes " gaps 0 0 0 0 0 0 0 0 0 0 0 0 0 0 0 0 0 0\n") }

    // 66000 bytes are 8252 units, and 17 pages leave 444 of them behind the block.
    ensures tail { text_of (words (codes "+MMscs 1 +MHacul 0 +MHsbct 64"))
        (codes "type H\nscheduler 1\nalloc 1 66000\nschedule\nend\n")
        ≡ Some
        (codes "carrier 1 blocks 0 0 0 0 0 0 0 0 0 0 1 0 0 0 0 0 0 0"
        ++ codes " gaps 0 0 0 0 0 1 0 0 0 0 0 0 0 0 0 0 0 0\n"
        ++ codes "all blocks 0 0 0 0 0 0 0 0 0 0 1 0 0 0 0 0 0 0"
        ++ codes " gaps 0 0 0 0 0 1 0 0 0 0 0 0 0 0 0 0 0 0\n") }
{}
