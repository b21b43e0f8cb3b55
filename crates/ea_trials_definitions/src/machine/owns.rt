//! Searches that begin with own carriers: random traces, each with a text that a search of the pool
//! alone would not give. Longer ones are cases of the program.

ghost use Rattle.std.specs.Prelude.{◌≡◌, ◌++◌, codes, Some};
ghost use Rattle.ea_model.specs.Words.{words};
ghost use Rattle.ea_trials_definitions.specs.Texts.{text_of};

/// What the machine gives for worked words and inputs.
pub fn owns()
    ensures random_1 { text_of (words (codes "+MHacul 90 +MHsmbcs 4 +MHlmbcs 8 +MHas aoffcbf"))
        (codes "type H\nscheduler 1\nalloc 1 2000\nalloc 2 3000\nalloc 3 500\nfree 1\n"
        ++ codes "alloc 4 3500\nalloc 5 3000\nrealloc 4 6 500\nalloc 7 1000\n"
        ++ codes "realloc 2 8 500\nfree 8\nfree 6\nrealloc 3 9 500\nfree 5\nfree 7\n"
        ++ codes "realloc 9 10 2500\nschedule\nend\n")
        ≡ Some
        (codes "scheduler 1\nalloc 1 1 8 252\nalloc 2 2 8 376\nalloc 3 1 260 64\n"
        ++ codes "free 1 done\nalloc 4 2 384 440\nalloc 5 3 8 376\n"
        ++ codes "realloc 4 6 2 824 64 moved done\nalloc 7 3 384 126\n"
        ++ codes "realloc 2 8 3 510 64 moved done\nfree 8 done\nfree 6 done\n"
        ++ codes "realloc 3 9 1 324 64 moved done\nfree 5 done\nfree 7 done\n"
        ++ codes "realloc 9 10 1 8 316 moved done\n"
        ++ codes "carrier 1 multi owner 1 pooled 1 base 0 pages 1 allocated 316 largest 188\n"
        ++ codes "total carriers 1 units 512 live 316 queued 0 free 188 header 8\n") }
    ensures random_2 { text_of (words (codes "+MHacul 60 +MHsmbcs 4 +MHlmbcs 8 +MHas aoff"))
        (codes "type H\nscheduler 1\nalloc 1 2000\nfree 1\nalloc 2 3500\nalloc 3 1000\n"
        ++ codes "alloc 4 3900\nfree 3\nalloc 5 1000\nalloc 6 100\nfree 2\nfree 4\n"
        ++ codes "alloc 7 3500\nrealloc 7 8 3600\nalloc 9 2000\nalloc 10 3000\nfree 5\n"
        ++ codes "alloc 11 500\nfree 9\nfree 8\nschedule\nend\n")
        ≡ Some
        (codes "scheduler 1\nalloc 1 1 8 252\nfree 1 done\nalloc 2 1 8 440\n"
        ++ codes "alloc 3 2 8 126\nalloc 4 2 134 490\nfree 3 done\nalloc 5 2 8 126\n"
        ++ codes "alloc 6 1 448 14\nfree 2 done\nfree 4 done\nalloc 7 1 8 440\n"
        ++ codes "realloc 7 8 2 134 452 moved done\nalloc 9 2 586 252\nalloc 10 1 8 376\n"
        ++ codes "free 5 done\nalloc 11 1 384 64\nfree 9 done\nfree 8 done\n"
        ++ codes "carrier 1 multi owner 1 employed 1 base 0 pages 1 allocated 454 largest 50\n"
        ++ codes "total carriers 1 units 512 live 454 queued 0 free 50 header 8\n") }
{}
