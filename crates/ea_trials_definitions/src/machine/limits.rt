//! At the limits of the rules: what just holds, and what just doesn't, where carriers migrate.

ghost use Rattle.std.specs.Prelude.{◌≡◌, ◌++◌, codes, Some, []};
ghost use Rattle.ea_model.specs.Words.{words};
ghost use Rattle.ea_trials_definitions.specs.Texts.{text_of};

/// What the machine gives for worked words and inputs.
pub fn limits()
    ensures half_is_not_sparse { text_of (words (codes "+MHacul 50 +MHsmbcs 1 +MHlmbcs 1"))
        (codes "type H\nscheduler 1\nalloc 1 2040\nalloc 2 100\nfree 2\nschedule\nend\n")
        ≡ Some
        (codes "scheduler 1\nalloc 1 1 8 256\nalloc 2 1 264 14\nfree 2 done\n"
        ++ codes "carrier 1 multi owner 1 employed 1 base 0 pages 1 allocated 256 largest 248\n"
        ++ codes "total carriers 1 units 512 live 256 queued 0 free 248 header 8\n") }
    ensures less_than_half_is_sparse { text_of (words (codes "+MHacul 50 +MHsmbcs 1 +MHlmbcs 1"))
        (codes "type H\nscheduler 1\nalloc 1 2024\nalloc 2 100\nfree 2\nschedule\nend\n")
        ≡ Some
        (codes "scheduler 1\nalloc 1 1 8 254\nalloc 2 1 262 14\nfree 2 done\n"
        ++ codes "carrier 1 multi owner 1 pooled 1 base 0 pages 1 allocated 254 largest 250\n"
        ++ codes "total carriers 1 units 512 live 254 queued 0 free 250 header 8\n") }
    ensures gap_large_enough { text_of
        (words (codes "+MHacul 50 +MHsmbcs 1 +MHlmbcs 1 +MHacfml 2000"))
        (codes "type H\nscheduler 1\nalloc 1 2024\nalloc 2 100\nfree 2\nschedule\nend\n")
        ≡ Some
        (codes "scheduler 1\nalloc 1 1 8 254\nalloc 2 1 262 14\nfree 2 done\n"
        ++ codes "carrier 1 multi owner 1 pooled 1 base 0 pages 1 allocated 254 largest 250\n"
        ++ codes "total carriers 1 units 512 live 254 queued 0 free 250 header 8\n") }
    ensures gap_a_byte_too_small { text_of
        (words (codes "+MHacul 50 +MHsmbcs 1 +MHlmbcs 1 +MHacfml 2001"))
        (codes "type H\nscheduler 1\nalloc 1 2024\nalloc 2 100\nfree 2\nschedule\nend\n")
        ≡ Some
        (codes "scheduler 1\nalloc 1 1 8 254\nalloc 2 1 262 14\nfree 2 done\n"
        ++ codes "carrier 1 multi owner 1 employed 1 base 0 pages 1 allocated 254 largest 250\n"
        ++ codes "total carriers 1 units 512 live 254 queued 0 free 250 header 8\n") }
    ensures gap_that_just_fits { text_of (words (codes "+MHacul 50 +MHsmbcs 1 +MHlmbcs 1"))
        (codes "type H\nscheduler 1\nalloc 1 2024\nalloc 2 100\nfree 2\nalloc 3 1992\nschedule\n"
        ++ codes "end\n")
        ≡ Some
        (codes "scheduler 1\nalloc 1 1 8 254\nalloc 2 1 262 14\nfree 2 done\nalloc 3 1 262 250\n"
        ++ codes "carrier 1 multi owner 1 employed 1 base 0 pages 1 allocated 504 largest 0\n"
        ++ codes "total carriers 1 units 512 live 504 queued 0 free 0 header 8\n") }
    ensures busy_word_counted { text_of (words (codes "+S 2 +MMscs 1"))
        (codes "type H\nscheduler 1\nalloc 1 100\nalloc 2 100\nalloc 3 100\nfree 1\nfree 2\n"
        ++ codes "scheduler 2\nalloc 4 524280\nschedule\n1*2058 2*2049\nend\n")
        ≡ Some
        (codes "scheduler 1\nalloc 1 1 8 14\nalloc 2 1 22 14\nalloc 3 1 36 14\nfree 1 done\n"
        ++ codes "free 2 done\nscheduler 2\nalloc 4 fail need 65536 looked 1 space\n"
        ++ codes "carrier 1 multi owner 1 pooled 1 base 0 pages 64 allocated 14 largest 32718\n"
        ++ codes "total carriers 1 units 32768 live 14 queued 0 free 32746 header 8\n") }
    ensures pooled_word_counted { text_of (words (codes "+S 2 +MMscs 1"))
        (codes "type H\nscheduler 1\nalloc 1 100\nalloc 2 100\nalloc 3 100\nfree 1\nfree 2\n"
        ++ codes "scheduler 2\nalloc 4 524280\nschedule\n1*2055 2*2049\nend\n")
        ≡ Some
        (codes "scheduler 1\nalloc 1 1 8 14\nalloc 2 1 22 14\nalloc 3 1 36 14\nfree 1 done\n"
        ++ codes "free 2 done\nscheduler 2\nalloc 4 fail need 65536 looked 1 space\n"
        ++ codes "carrier 1 multi owner 1 pooled 1 base 0 pages 64 allocated 14 largest 32718\n"
        ++ codes "total carriers 1 units 32768 live 14 queued 0 free 32746 header 8\n") }
    ensures employed_word_not_counted { text_of (words (codes "+S 2 +MMscs 1"))
        (codes "type H\nscheduler 1\nalloc 1 100\nalloc 2 100\nalloc 3 100\nfree 1\nfree 2\n"
        ++ codes "scheduler 2\nalloc 4 524280\nschedule\n1*2052 2*2049\nend\n")
        ≡ Some
        (codes "scheduler 1\nalloc 1 1 8 14\nalloc 2 1 22 14\nalloc 3 1 36 14\nfree 1 done\n"
        ++ codes "free 2 done\nscheduler 2\nalloc 4 fail need 65536 looked 0 space\n"
        ++ codes "carrier 1 multi owner 1 pooled 1 base 0 pages 64 allocated 14 largest 32718\n"
        ++ codes "total carriers 1 units 32768 live 14 queued 0 free 32746 header 8\n") }
    ensures lost_try_counted_once { text_of (words (codes "+S 3 +MMscs 1"))
        (codes "type H\nscheduler 1\nalloc 1 100\nalloc 2 100\nfree 1\nscheduler 2\nalloc 3 100\n"
        ++ codes "scheduler 3\nalloc 5 200000\nalloc 4 160000\nschedule\n"
        ++ codes "3*3074 1*3078 2*3073 3*3073 2 3\nend\n")
        ≡ Some
        (codes "scheduler 1\nalloc 1 1 8 14\nalloc 2 1 22 14\nfree 1 done\nscheduler 2\n"
        ++ codes "alloc 3 1 8 14\nscheduler 3\nalloc 5 2049 8 25002\n"
        ++ codes "alloc 4 fail need 20002 looked 1 space\n"
        ++ codes "carrier 1 multi owner 1 employed 2 base 0 pages 64 allocated 28 largest 32732\n"
        ++ codes "carrier 2049 multi owner 3 employed 3 base 170 pages 64 "
        ++ codes "allocated 25002 largest 7758\n"
        ++ codes "total carriers 2 units 65536 live 25030 queued 0 free 40490 header 16\n") }
    ensures sum_is_not_sparse { text_of (words (codes "+MHacul 50 +MHsmbcs 1 +MHlmbcs 1"))
        (codes "type H\nscheduler 1\nalloc 1 2024\nalloc 2 100\nalloc 3 4024\nfree 2\nschedule\n"
        ++ codes "end\n")
        ≡ Some
        (codes "scheduler 1\nalloc 1 1 8 254\nalloc 2 1 262 14\nalloc 3 2 8 504\nfree 2 done\n"
        ++ codes "carrier 1 multi owner 1 employed 1 base 0 pages 1 allocated 254 largest 250\n"
        ++ codes "carrier 2 multi owner 1 employed 1 base 1 pages 1 allocated 504 largest 0\n"
        ++ codes "total carriers 2 units 1024 live 758 queued 0 free 250 header 16\n") }
    ensures main_carrier_is_in_the_sum { text_of
        (words (codes "+MHacul 50 +MHsmbcs 1 +MHlmbcs 1 +MHmmbcs 1"))
        (codes "type H\nscheduler 1\nalloc 1 4024\nalloc 2 2024\nalloc 3 100\nfree 3\nschedule\n"
        ++ codes "end\n")
        ≡ Some
        (codes "scheduler 1\nalloc 1 1 8 504\nalloc 2 2 8 254\nalloc 3 2 262 14\nfree 3 done\n"
        ++ codes "carrier 1 main owner 1 employed 1 base 0 pages 1 allocated 504 largest 0\n"
        ++ codes "carrier 2 multi owner 1 employed 1 base 1 pages 1 allocated 254 largest 250\n"
        ++ codes "total carriers 2 units 1024 live 758 queued 0 free 250 header 16\n") }
    ensures single_is_not_in_the_sum { text_of
        (words (codes "+MHacul 50 +MHsmbcs 1 +MHlmbcs 1 +MHsbct 2"))
        (codes "type H\nscheduler 1\nalloc 1 4024\nalloc 2 2024\nalloc 3 100\nfree 3\nschedule\n"
        ++ codes "end\n")
        ≡ Some
        (codes "scheduler 1\nalloc 1 1 8 504\nalloc 2 2 8 254\nalloc 3 2 262 14\nfree 3 done\n"
        ++ codes "carrier 1 single owner 1 employed 1 base 0 pages 1 allocated 504 largest 0\n"
        ++ codes "carrier 2 multi owner 1 pooled 1 base 1 pages 1 allocated 254 largest 250\n"
        ++ codes "total carriers 2 units 1024 live 758 queued 0 free 250 header 16\n") }
    ensures emptied_in_the_pool { text_of []
        (codes "type H\nscheduler 1\nalloc 1 100\nalloc 2 100\nfree 1\nfree 2\nschedule\n"
        ++ codes "end\n")
        ≡ Some
        (codes "scheduler 1\nalloc 1 1 8 14\nalloc 2 1 22 14\nfree 1 done\nfree 2 done\n"
        ++ codes "total carriers 0 units 0 live 0 queued 0 free 0 header 0\n") }
{}
