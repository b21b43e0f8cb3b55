//! One scheduler whose carriers don't migrate: where blocks lie, which carriers there are; and
//! words and inputs that have no text.

ghost use Rattle.std.specs.Prelude.{◌≡◌, ◌++◌, codes, None, Some, [], ◌∷◌, true};
ghost use Rattle.ea_model.specs.Words.{words};
ghost use Rattle.ea_trials_definitions.specs.Texts.{shows, text_of};

/// What the machine gives for worked words and inputs.
pub fn one_scheduler()
    ensures first_block { text_of (words (codes "+MMscs 1 +MHacul 0"))
        (codes "type H\nscheduler 1\nalloc 1 100\nschedule\nend\n")
        ≡ Some
        (codes "scheduler 1\nalloc 1 1 8 14\n"
        ++ codes "carrier 1 multi owner 1 employed 1 base 0 pages 64 allocated 14 largest 32746\n"
        ++ codes "total carriers 1 units 32768 live 14 queued 0 free 32746 header 8\n") }
    ensures zero_bytes { text_of (words (codes "+MMscs 1 +MHacul 0"))
        (codes "type H\nscheduler 1\nalloc 1 0\nschedule\nend\n")
        ≡ Some
        (codes "scheduler 1\nalloc 1 1 8 6\n"
        ++ codes "carrier 1 multi owner 1 employed 1 base 0 pages 64 allocated 6 largest 32754\n"
        ++ codes "total carriers 1 units 32768 live 6 queued 0 free 32754 header 8\n") }
    ensures free_and_skip { text_of (words (codes "+MMscs 1 +MHacul 0"))
        (codes "type H\nscheduler 1\nalloc 1 100\nfree 1\nfree 1\nschedule\nend\n")
        ≡ Some
        (codes "scheduler 1\nalloc 1 1 8 14\nfree 1 done\nfree 1 skipped\n"
        ++ codes "total carriers 0 units 0 live 0 queued 0 free 0 header 0\n") }
    ensures joined_gap { text_of (words (codes "+MMscs 1 +MHacul 0"))
        (codes "type H\nscheduler 1\nalloc 1 100\nalloc 2 100\nalloc 3 100\nfree 1\nfree 2\n"
        ++ codes "alloc 4 200\nschedule\nend\n")
        ≡ Some
        (codes "scheduler 1\nalloc 1 1 8 14\nalloc 2 1 22 14\nalloc 3 1 36 14\nfree 1 done\n"
        ++ codes "free 2 done\nalloc 4 1 8 28\n"
        ++ codes "carrier 1 multi owner 1 employed 1 base 0 pages 64 allocated 42 largest 32718\n"
        ++ codes "total carriers 1 units 32768 live 42 queued 0 free 32718 header 8\n") }
    ensures spaces_and_carriage_returns { text_of (words (codes "+MMscs 1 +MHacul 0"))
        (codes "type\tH\r\nscheduler\t1\r\nalloc\t1\t100\r\nschedule\r\nend\r\n")
        ≡ Some
        (codes "scheduler 1\nalloc 1 1 8 14\n"
        ++ codes "carrier 1 multi owner 1 employed 1 base 0 pages 64 allocated 14 largest 32746\n"
        ++ codes "total carriers 1 units 32768 live 14 queued 0 free 32746 header 8\n") }
    ensures spaces_and_comments { text_of (words (codes "+MMscs 1 +MHacul 0"))
        (codes "# c\n\ttype  H\r\n\nscheduler 01\n alloc\t1 0000000100 \nschedule\nend\n#")
        ≡ Some
        (codes "scheduler 1\nalloc 1 1 8 14\n"
        ++ codes "carrier 1 multi owner 1 employed 1 base 0 pages 64 allocated 14 largest 32746\n"
        ++ codes "total carriers 1 units 32768 live 14 queued 0 free 32746 header 8\n") }
    ensures no_line_feed_at_the_end { text_of (words (codes "+MMscs 1 +MHacul 0"))
        (codes "type H\nscheduler 1\nalloc 1 100\nschedule\nend")
        ≡ Some
        (codes "scheduler 1\nalloc 1 1 8 14\n"
        ++ codes "carrier 1 multi owner 1 employed 1 base 0 pages 64 allocated 14 largest 32746\n"
        ++ codes "total carriers 1 units 32768 live 14 queued 0 free 32746 header 8\n") }
    ensures exactly_threshold { text_of (words (codes "+MMscs 1 +MHacul 0"))
        (codes "type H\nscheduler 1\nalloc 1 524280\nschedule\nend\n")
        ≡ Some
        (codes "scheduler 1\nalloc 1 1 8 65536\n"
        ++ codes "carrier 1 multi owner 1 employed 1 base 0 pages 129 allocated 65536 largest 504\n"
        ++ codes "total carriers 1 units 66048 live 65536 queued 0 free 504 header 8\n") }
    ensures above_threshold { text_of (words (codes "+MMscs 1 +MHacul 0"))
        (codes "type H\nscheduler 1\nalloc 1 524281\nschedule\nend\n")
        ≡ Some
        (codes "scheduler 1\nalloc 1 1 8 65538\n"
        ++ codes "carrier 1 single owner 1 employed 1 base 0 pages 129 "
        ++ codes "allocated 65538 largest 502\n"
        ++ codes "total carriers 1 units 66048 live 65538 queued 0 free 502 header 8\n") }
    ensures both_kinds { text_of (words (codes "+MHsbct 1 +MHacul 0"))
        (codes "type H\nscheduler 1\nalloc 1 1017\nalloc 2 5000\nfree 1\nalloc 3 100\n"
        ++ codes "alloc 4 1017\nschedule\nend\n")
        ≡ Some
        (codes "scheduler 1\nalloc 1 1 8 130\nalloc 2 2 8 626\nfree 1 done\nalloc 3 1 8 14\n"
        ++ codes "alloc 4 3 8 130\n"
        ++ codes "carrier 1 multi owner 1 employed 1 base 3 pages 64 allocated 14 largest 32746\n"
        ++ codes "carrier 2 single owner 1 employed 1 base 1 pages 2 allocated 626 largest 390\n"
        ++ codes "carrier 3 single owner 1 employed 1 base 0 pages 1 allocated 130 largest 374\n"
        ++ codes "total carriers 3 units 34304 live 770 queued 0 free 33510 header 24\n") }
    ensures space_refused { text_of (words (codes "+MMscs 1 +MHacul 0"))
        (codes "type H\nscheduler 1\nalloc 1 524280\nalloc 2 524280\nalloc 3 100\nschedule\n"
        ++ codes "end\n")
        ≡ Some
        (codes "scheduler 1\nalloc 1 1 8 65536\nalloc 2 fail need 65536 looked 0 space\n"
        ++ codes "alloc 3 1 65544 14\n"
        ++ codes "carrier 1 multi owner 1 employed 1 base 0 pages 129 allocated 65550 largest 490\n"
        ++ codes "total carriers 1 units 66048 live 65550 queued 0 free 490 header 8\n") }
    ensures main_carrier { text_of (words (codes "+MMscs 1 +MHacul 0 +MHmmbcs 100"))
        (codes "type H\nscheduler 1\nalloc 1 100\nfree 1\nschedule\nend\n")
        ≡ Some
        (codes "scheduler 1\nalloc 1 1 8 14\nfree 1 done\n"
        ++ codes "carrier 1 main owner 1 employed 1 base 0 pages 25 allocated 0 largest 12792\n"
        ++ codes "total carriers 1 units 12800 live 0 queued 0 free 12792 header 8\n") }
    ensures main_carrier_just_fits { text_of (words (codes "+MMscs 1 +MHmmbcs 1024"))
        (codes "type H\nscheduler 1\nschedule\nend\n")
        ≡ Some
        (codes "scheduler 1\n"
        ++ codes "carrier 1 main owner 1 employed 1 base 0 pages 256 allocated 0 largest 131064\n"
        ++ codes "total carriers 1 units 131072 live 0 queued 0 free 131064 header 8\n") }
    ensures carrier_growth { text_of (words (codes "+MHacul 0"))
        (codes "type H\nscheduler 1\nalloc 1 200000\nalloc 2 200000\nschedule\nend\n")
        ≡ Some
        (codes "scheduler 1\nalloc 1 1 8 25002\nalloc 2 2 8 25002\n"
        ++ codes "carrier 1 multi owner 1 employed 1 base 0 pages 64 allocated 25002 largest 7758\n"
        ++ codes "carrier 2 multi owner 1 employed 1 base 64 pages 186 "
        ++ codes "allocated 25002 largest 70222\n"
        ++ codes "total carriers 2 units 128000 live 50004 queued 0 free 77980 header 16\n") }
    ensures best_fit { text_of (words (codes "+MHas bf +MHacul 0"))
        (codes "type H\nscheduler 1\nalloc 1 100\nalloc 2 100\nalloc 3 100\nalloc 4 100\nfree 1\n"
        ++ codes "free 3\nalloc 5 100\nschedule\nend\n")
        ≡ Some
        (codes "scheduler 1\nalloc 1 1 8 14\nalloc 2 1 22 14\nalloc 3 1 36 14\nalloc 4 1 50 14\n"
        ++ codes "free 1 done\nfree 3 done\nalloc 5 1 36 14\n"
        ++ codes "carrier 1 multi owner 1 employed 1 base 0 pages 64 allocated 42 largest 32704\n"
        ++ codes "total carriers 1 units 32768 live 42 queued 0 free 32718 header 8\n") }
    ensures address_order_best_fit { text_of (words (codes "+MHas aobf +MHacul 0"))
        (codes "type H\nscheduler 1\nalloc 1 100\nalloc 2 100\nalloc 3 100\nalloc 4 100\nfree 1\n"
        ++ codes "free 3\nalloc 5 100\nschedule\nend\n")
        ≡ Some
        (codes "scheduler 1\nalloc 1 1 8 14\nalloc 2 1 22 14\nalloc 3 1 36 14\nalloc 4 1 50 14\n"
        ++ codes "free 1 done\nfree 3 done\nalloc 5 1 8 14\n"
        ++ codes "carrier 1 multi owner 1 employed 1 base 0 pages 64 allocated 42 largest 32704\n"
        ++ codes "total carriers 1 units 32768 live 42 queued 0 free 32718 header 8\n") }
    ensures good_fit_at_one { text_of (words (codes "+MHas gf +MHmbsd 1 +MHacul 0"))
        (codes "type H\nscheduler 1\nalloc 1 552\nalloc 2 0\nalloc 3 792\nalloc 4 0\nfree 1\n"
        ++ codes "free 3\nalloc 5 632\nschedule\nend\n")
        ≡ Some
        (codes "scheduler 1\nalloc 1 1 8 70\nalloc 2 1 78 6\nalloc 3 1 84 100\nalloc 4 1 184 6\n"
        ++ codes "free 1 done\nfree 3 done\nalloc 5 1 190 80\n"
        ++ codes "carrier 1 multi owner 1 employed 1 base 0 pages 64 allocated 92 largest 32498\n"
        ++ codes "total carriers 1 units 32768 live 92 queued 0 free 32668 header 8\n") }
    ensures good_fit_at_three { text_of (words (codes "+MHas gf +MHmbsd 3 +MHacul 0"))
        (codes "type H\nscheduler 1\nalloc 1 552\nalloc 2 0\nalloc 3 792\nalloc 4 0\nfree 1\n"
        ++ codes "free 3\nalloc 5 632\nschedule\nend\n")
        ≡ Some
        (codes "scheduler 1\nalloc 1 1 8 70\nalloc 2 1 78 6\nalloc 3 1 84 100\nalloc 4 1 184 6\n"
        ++ codes "free 1 done\nfree 3 done\nalloc 5 1 84 80\n"
        ++ codes "carrier 1 multi owner 1 employed 1 base 0 pages 64 allocated 92 largest 32578\n"
        ++ codes "total carriers 1 units 32768 live 92 queued 0 free 32668 header 8\n") }
    ensures address_fit { text_of (words (codes "+MHas af +MHacul 0"))
        (codes "type H\nscheduler 1\nalloc 1 100\nalloc 2 0\nfree 1\nalloc 3 200\nschedule\n"
        ++ codes "end\n")
        ≡ Some
        (codes "scheduler 1\nalloc 1 1 8 14\nalloc 2 1 22 6\nfree 1 done\nalloc 3 2 8 26\n"
        ++ codes "carrier 1 multi owner 1 employed 1 base 0 pages 64 allocated 6 largest 32740\n"
        ++ codes "carrier 2 multi owner 1 employed 1 base 64 pages 186 allocated 26 largest 95198\n"
        ++ codes "total carriers 2 units 128000 live 32 queued 0 free 127952 header 16\n") }
    ensures reused_number_by_address { shows
        (codes "alloc 3 1 8 31252"
        ∷ codes "alloc 4 1 31260 14" ∷ [])
        (text_of (words (codes "+MHacul 0 +MHlmbcs 256 +MHas aoffcbf"))
        (codes "type H\nscheduler 1\nalloc 1 200000\nalloc 2 200000\nfree 1\nalloc 3 250000\n"
        ++ codes "alloc 4 100\nschedule\nend\n"))
        ≡ true }
    ensures reused_number_by_age { shows
        (codes "alloc 3 1 8 31252"
        ∷ codes "alloc 4 2 25010 14" ∷ [])
        (text_of (words (codes "+MHacul 0 +MHlmbcs 256 +MHas ageffcbf"))
        (codes "type H\nscheduler 1\nalloc 1 200000\nalloc 2 200000\nfree 1\nalloc 3 250000\n"
        ++ codes "alloc 4 100\nschedule\nend\n"))
        ≡ true }
    ensures temporary_without_a_flag { text_of (words (codes "+MMscs 1"))
        (codes "type T\nscheduler 1\nidle\nalloc 1 100\nschedule\n1*2 1\nend\n")
        ≡ Some
        (codes "scheduler 1\nidle\nalloc 1 1 8 14\n"
        ++ codes "carrier 1 multi owner 1 employed 1 base 0 pages 64 allocated 14 largest 32746\n"
        ++ codes "total carriers 1 units 32768 live 14 queued 0 free 32746 header 8\n") }
    ensures temporary_blocks_stay { text_of []
        (codes "type T\nscheduler 1\nalloc 1 100\nalloc 2 100\nfree 1\nschedule\nend\n")
        ≡ Some
        (codes "scheduler 1\nalloc 1 1 8 14\nalloc 2 1 22 14\nfree 1 done\n"
        ++ codes "carrier 1 multi owner 1 employed 1 base 0 pages 64 allocated 14 largest 32732\n"
        ++ codes "total carriers 1 units 32768 live 14 queued 0 free 32746 header 8\n") }
    ensures temporary_blocks_stay_whatever_was_set { text_of (words (codes "+MTacul 60"))
        (codes "type T\nscheduler 1\nalloc 1 100\nalloc 2 100\nfree 1\nschedule\nend\n")
        ≡ Some
        (codes "scheduler 1\nalloc 1 1 8 14\nalloc 2 1 22 14\nfree 1 done\n"
        ++ codes "carrier 1 multi owner 1 employed 1 base 0 pages 64 allocated 14 largest 32732\n"
        ++ codes "total carriers 1 units 32768 live 14 queued 0 free 32746 header 8\n") }
    ensures cut_end { text_of (words (codes "+MMscs 1 +MHacul 0"))
        (codes "type H\nscheduler 1\nschedule\nen") ≡ None }
    ensures made_twice { text_of (words (codes "+MMscs 1 +MHacul 0"))
        (codes "type H\nscheduler 1\nalloc 1 100\nalloc 1 100\nschedule\nend\n") ≡ None }
    ensures never_made { text_of (words (codes "+MMscs 1 +MHacul 0"))
        (codes "type H\nscheduler 1\nfree 1\nschedule\nend\n") ≡ None }
    ensures refused_word { text_of (words (codes "+MHsbct x"))
        (codes "type H\nscheduler 1\nschedule\nend\n") ≡ None }
{}
