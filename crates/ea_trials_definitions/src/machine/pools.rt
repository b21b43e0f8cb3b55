//! Carriers that are abandoned, searched for, fetched and sent home. Random traces of this are cases
//! of the program.

ghost use Rattle.std.specs.Prelude.{◌≡◌, ◌++◌, codes, Some, [], ◌∷◌, true};
ghost use Rattle.ea_model.specs.Words.{words};
ghost use Rattle.ea_trials_definitions.specs.Texts.{shows, text_of};

/// What the machine gives for worked words and inputs.
pub fn pools()
    ensures abandon_and_fetch { text_of []
        (codes "type H\nscheduler 1\nalloc 1 100\nalloc 2 100\nfree 1\nalloc 3 100\nschedule\n"
        ++ codes "end\n")
        ≡ Some
        (codes "scheduler 1\nalloc 1 1 8 14\nalloc 2 1 22 14\nfree 1 done\nalloc 3 1 8 14\n"
        ++ codes "carrier 1 multi owner 1 employed 1 base 0 pages 64 allocated 28 largest 32732\n"
        ++ codes "total carriers 1 units 32768 live 28 queued 0 free 32732 header 8\n") }
    ensures abandoned_at_the_end { text_of []
        (codes "type H\nscheduler 1\nalloc 1 100\nalloc 2 100\nfree 1\nschedule\nend\n")
        ≡ Some
        (codes "scheduler 1\nalloc 1 1 8 14\nalloc 2 1 22 14\nfree 1 done\n"
        ++ codes "carrier 1 multi owner 1 pooled 1 base 0 pages 64 allocated 14 largest 32732\n"
        ++ codes "total carriers 1 units 32768 live 14 queued 0 free 32746 header 8\n") }
    ensures returned_carrier { text_of (words (codes "+S 2"))
        (codes "type H\nscheduler 1\nalloc 1 100\nalloc 2 100\nfree 1\nfree 2\nidle\n"
        ++ codes "scheduler 2\nalloc 3 100\nfree 3\nschedule\n1*2054 2*2050 1*4 2*10\nend\n")
        ≡ Some
        (codes "scheduler 1\nalloc 1 1 8 14\nalloc 2 1 22 14\nfree 1 done\nfree 2 queued 2\n"
        ++ codes "idle\nscheduler 2\nalloc 3 1 8 14\nfree 3 done\n"
        ++ codes "total carriers 0 units 0 live 0 queued 0 free 0 header 0\n") }
    ensures forwarded_block { text_of (words (codes "+S 3"))
        (codes "type H\nscheduler 1\nalloc 1 100\nalloc 2 100\ngive 2 3\nfree 1\nidle\n"
        ++ codes "scheduler 2\nalloc 3 100\nidle\nscheduler 3\ntake 2 1\nfree 2\nschedule\n"
        ++ codes "1*3080 3*4 2*3074 3*2\nend\n")
        ≡ Some
        (codes "scheduler 1\nalloc 1 1 8 14\nalloc 2 1 22 14\ngive 2 3\nfree 1 done\nidle\n"
        ++ codes "scheduler 2\nalloc 3 1 8 14\nidle\nscheduler 3\ntake 2 got\nfree 2 queued 1\n"
        ++ codes "carrier 1 multi owner 1 pooled 2 base 0 pages 64 allocated 14 largest 32746\n"
        ++ codes "total carriers 1 units 32768 live 14 queued 0 free 32746 header 8\n") }
    ensures busy_carrier_skipped { text_of (words (codes "+S 2"))
        (codes "type H\nscheduler 1\nalloc 1 100\nalloc 2 100\nalloc 3 100\nfree 1\nfree 2\n"
        ++ codes "scheduler 2\nalloc 4 100\nschedule\n1*2058 2*2050\nend\n")
        ≡ Some
        (codes "scheduler 1\nalloc 1 1 8 14\nalloc 2 1 22 14\nalloc 3 1 36 14\nfree 1 done\n"
        ++ codes "free 2 done\nscheduler 2\nalloc 4 1025 8 14\n"
        ++ codes "carrier 1 multi owner 1 pooled 1 base 0 pages 64 allocated 14 largest 32718\n"
        ++ codes "carrier 1025 multi owner 2 employed 2 base 8192 pages 64 "
        ++ codes "allocated 14 largest 32746\n"
        ++ codes "total carriers 2 units 65536 live 28 queued 0 free 65492 header 16\n") }
    ensures search_limit { shows
        (codes "alloc 35 1 8 252"
        ∷ codes "carrier 17 multi owner 1 pooled 1 base 16 pages 1 allocated 376 largest 128"
        ∷ codes "total carriers 17 units 8704 live 6520 queued 0 free 2048 header 136" ∷ [])
        (text_of (words (codes "+MHacul 100 +MHsmbcs 4 +MHlmbcs 4"))
        (codes "type H\nscheduler 1\nalloc 1 2000\nalloc 2 2000\nalloc 3 3000\nalloc 4 1000\n"
        ++ codes "alloc 5 3000\nalloc 6 1000\nalloc 7 3000\nalloc 8 1000\nalloc 9 3000\n"
        ++ codes "alloc 10 1000\nalloc 11 3000\nalloc 12 1000\nalloc 13 3000\nalloc 14 1000\n"
        ++ codes "alloc 15 3000\nalloc 16 1000\nalloc 17 3000\nalloc 18 1000\nalloc 19 3000\n"
        ++ codes "alloc 20 1000\nalloc 21 3000\nalloc 22 1000\nalloc 23 3000\nalloc 24 1000\n"
        ++ codes "alloc 25 3000\nalloc 26 1000\nalloc 27 3000\nalloc 28 1000\nalloc 29 3000\n"
        ++ codes "alloc 30 1000\nalloc 31 3000\nalloc 32 1000\nalloc 33 3000\nalloc 34 1000\n"
        ++ codes "free 1\nfree 4\nfree 6\nfree 8\nfree 10\nfree 12\nfree 14\nfree 16\nfree 18\n"
        ++ codes "free 20\nfree 22\nfree 24\nfree 26\nfree 28\nfree 30\nfree 32\nfree 34\n"
        ++ codes "alloc 35 2000\nschedule\nend\n"))
        ≡ true }
    ensures sixteen_schedulers { text_of (words (codes "+S 0000000016"))
        (codes "type H\nscheduler 1\nscheduler 2\nscheduler 3\nscheduler 4\nscheduler 5\n"
        ++ codes "scheduler 6\nscheduler 7\nscheduler 8\nscheduler 9\nscheduler 10\nscheduler 11\n"
        ++ codes "scheduler 12\nscheduler 13\nscheduler 14\nscheduler 15\nscheduler 16\nschedule\n"
        ++ codes "end\n")
        ≡ Some
        (codes "scheduler 1\nscheduler 2\nscheduler 3\nscheduler 4\nscheduler 5\nscheduler 6\n"
        ++ codes "scheduler 7\nscheduler 8\nscheduler 9\nscheduler 10\nscheduler 11\nscheduler 12\n"
        ++ codes "scheduler 13\nscheduler 14\nscheduler 15\nscheduler 16\n"
        ++ codes "total carriers 0 units 0 live 0 queued 0 free 0 header 0\n") }
{}
