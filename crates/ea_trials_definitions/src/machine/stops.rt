//! Schedulers that stop.

ghost use Rattle.std.specs.Prelude.{◌≡◌, ◌++◌, codes, Some};
ghost use Rattle.ea_model.specs.Words.{words};
ghost use Rattle.ea_trials_definitions.specs.Texts.{text_of};

/// What the machine gives for worked words and inputs.
pub fn stops()
    ensures stopped_at_once { text_of (words (codes "+S 2 +MHacul 0"))
        (codes "type H\nscheduler 1\nscheduler 2\nalloc 1 100\nstop 2 0\nstop 1 0\nschedule\n"
        ++ codes "1*3 2*4\nend\n")
        ≡ Some
        (codes "scheduler 1\nstopped 0\nscheduler 2\nstopped 0\n"
        ++ codes "total carriers 0 units 0 live 0 queued 0 free 0 header 0\n") }
    ensures stop_at_the_end_of_its_text { text_of (words (codes "+S 2 +MHacul 0"))
        (codes "type H\nscheduler 1\nscheduler 2\nalloc 1 100\nidle\nstop 2 3\nstop 1 1\n"
        ++ codes "schedule\nend\n")
        ≡ Some
        (codes "scheduler 1\nscheduler 2\nalloc 1 1025 8 14\nidle\n"
        ++ codes "carrier 1025 multi owner 2 employed 2 base 8192 pages 64 "
        ++ codes "allocated 14 largest 32746\n"
        ++ codes "total carriers 1 units 32768 live 14 queued 0 free 32746 header 8\n") }
    ensures stopped_a_step_before_its_end { text_of (words (codes "+S 2 +MHacul 0"))
        (codes "type H\nscheduler 1\nscheduler 2\nalloc 1 100\nidle\nstop 2 2\nstop 1 2\n"
        ++ codes "schedule\n2*100 1*5 2*1\nend\n")
        ≡ Some
        (codes "scheduler 1\nscheduler 2\nalloc 1 1025 8 14\nidle\nstopped 2\n"
        ++ codes "carrier 1025 multi owner 2 employed 2 base 8192 pages 64 "
        ++ codes "allocated 14 largest 32746\n"
        ++ codes "total carriers 1 units 32768 live 14 queued 0 free 32746 header 8\n") }
    ensures stopped_before_link { text_of (words (codes "+S 2 +MHacul 0"))
        (codes "type H\nscheduler 1\nalloc 1 100\ngive 1 2\nidle\nscheduler 2\ntake 1 1\nfree 1\n"
        ++ codes "stop 2 4\nschedule\n1*3 2*4\nend\n")
        ≡ Some
        (codes "scheduler 1\nalloc 1 1 8 14\ngive 1 2\nidle\nscheduler 2\ntake 1 got\n"
        ++ codes "stopped 4\n"
        ++ codes "carrier 1 multi owner 1 employed 1 base 0 pages 64 allocated 14 largest 32746\n"
        ++ codes "total carriers 1 units 32768 live 0 queued 14 free 32746 header 8\n") }
    ensures stopped_while_busy { text_of (words (codes "+S 2"))
        (codes "type H\nscheduler 1\nalloc 1 100\nalloc 2 100\nalloc 3 100\nfree 1\nfree 2\n"
        ++ codes "scheduler 2\nalloc 4 100\nstop 1 2058\nschedule\nend\n")
        ≡ Some
        (codes "scheduler 1\nalloc 1 1 8 14\nalloc 2 1 22 14\nalloc 3 1 36 14\nfree 1 done\n"
        ++ codes "stopped 2058\nscheduler 2\nalloc 4 1025 8 14\n"
        ++ codes "carrier 1 multi owner 1 busy 1 base 0 pages 64 allocated 14 largest 32718\n"
        ++ codes "carrier 1025 multi owner 2 employed 2 base 8192 pages 64 "
        ++ codes "allocated 14 largest 32746\n"
        ++ codes "total carriers 2 units 65536 live 28 queued 0 free 65492 header 16\n") }
    ensures own_carrier_fetched_back { text_of (words (codes "+S 2"))
        (codes "type H\nscheduler 1\nalloc 1 100\nalloc 2 100\nfree 1\nalloc 4 100\n"
        ++ codes "scheduler 2\nalloc 3 100\nfree 3\nstop 1 2057\nschedule\n1*2054 2*2053\nend\n")
        ≡ Some
        (codes "scheduler 1\nalloc 1 1 8 14\nalloc 2 1 22 14\nfree 1 done\nalloc 4 1 8 14\n"
        ++ codes "stopped 2057\nscheduler 2\nalloc 3 1 8 14\nfree 3 done\n"
        ++ codes "carrier 1 multi owner 1 employed 1 base 0 pages 64 allocated 28 largest 32732\n"
        ++ codes "total carriers 1 units 32768 live 28 queued 0 free 32732 header 8\n") }
    ensures stopped_between_own_looks { text_of
        (words (codes "+MHacul 100 +MHsmbcs 4 +MHlmbcs 4"))
        (codes "type H\nscheduler 1\nalloc 1 3000\nalloc 2 1000\nalloc 3 2000\nalloc 4 2000\n"
        ++ codes "free 2\nfree 3\nalloc 5 2000\nstop 1 2062\nschedule\nend\n")
        ≡ Some
        (codes "scheduler 1\nalloc 1 1 8 376\nalloc 2 1 384 128\nalloc 3 2 8 252\n"
        ++ codes "alloc 4 2 260 252\nfree 2 done\nfree 3 done\nstopped 2062\n"
        ++ codes "carrier 1 multi owner 1 pooled 1 base 0 pages 1 allocated 376 largest 128\n"
        ++ codes "carrier 2 multi owner 1 pooled 1 base 1 pages 1 allocated 252 largest 252\n"
        ++ codes "total carriers 2 units 1024 live 628 queued 0 free 380 header 16\n") }
    ensures stopped_after_own_try { text_of
        (words (codes "+MHacul 100 +MHsmbcs 4 +MHlmbcs 4"))
        (codes "type H\nscheduler 1\nalloc 1 3000\nalloc 2 1000\nalloc 3 2000\nalloc 4 2000\n"
        ++ codes "free 2\nfree 3\nalloc 5 2000\nstop 1 2064\nschedule\nend\n")
        ≡ Some
        (codes "scheduler 1\nalloc 1 1 8 376\nalloc 2 1 384 128\nalloc 3 2 8 252\n"
        ++ codes "alloc 4 2 260 252\nfree 2 done\nfree 3 done\nalloc 5 2 8 252\nstopped 2064\n"
        ++ codes "carrier 1 multi owner 1 pooled 1 base 0 pages 1 allocated 376 largest 128\n"
        ++ codes "carrier 2 multi owner 1 employed 1 base 1 pages 1 allocated 504 largest 0\n"
        ++ codes "total carriers 2 units 1024 live 880 queued 0 free 128 header 16\n") }
    ensures stopped_before_traitor_try { text_of (words (codes "+S 2"))
        (codes "type H\nscheduler 1\nalloc 1 100\nalloc 2 100\nfree 1\nalloc 4 100\n"
        ++ codes "scheduler 2\nalloc 3 100\nfree 3\nstop 1 2057\nschedule\n"
        ++ codes "1*2054 2*2050 1*2 2*3\nend\n")
        ≡ Some
        (codes "scheduler 1\nalloc 1 1 8 14\nalloc 2 1 22 14\nfree 1 done\nstopped 2057\n"
        ++ codes "scheduler 2\nalloc 3 1 8 14\nfree 3 done\n"
        ++ codes "carrier 1 multi owner 1 pooled 2 base 0 pages 64 allocated 14 largest 32732\n"
        ++ codes "total carriers 1 units 32768 live 14 queued 0 free 32746 header 8\n") }
    ensures stopped_after_traitor_try { text_of (words (codes "+S 2"))
        (codes "type H\nscheduler 1\nalloc 1 100\nalloc 2 100\nfree 1\nalloc 4 100\n"
        ++ codes "scheduler 2\nalloc 3 100\nfree 3\nstop 1 2058\nschedule\n"
        ++ codes "1*2054 2*2050 1*2 2*3\nend\n")
        ≡ Some
        (codes "scheduler 1\nalloc 1 1 8 14\nalloc 2 1 22 14\nfree 1 done\nalloc 4 1 8 14\n"
        ++ codes "stopped 2058\nscheduler 2\nalloc 3 1 8 14\nfree 3 done\n"
        ++ codes "carrier 1 multi owner 1 employed 1 base 0 pages 64 allocated 28 largest 32732\n"
        ++ codes "total carriers 1 units 32768 live 28 queued 0 free 32732 header 8\n") }
{}
