//! By rules of a node: carriers of a power of two of pages, segments at the end of the highest free
//! run, and a count that holds back abandoning.

ghost use Rattle.std.specs.Prelude.{◌≡◌, ◌++◌, codes, Some, []};
ghost use Rattle.ea_model.specs.Words.{words};
ghost use Rattle.ea_machine.specs.declared.owners.OwnerWord.TheVariants as word;
ghost use Rattle.ea_trials_definitions.specs.Moments.{owner_word};
ghost use Rattle.ea_trials_definitions.specs.NodeRules.{all_rules, count_of, counter, falling};
ghost use Rattle.ea_trials_definitions.specs.NodeRules.{freeing, moment_by, powers, text_by};
ghost use Rattle.ea_trials_definitions.specs.Runs.{scheduled};
ghost use Rattle.ea_trials_definitions.specs.Texts.{text_of};

/// What the machine gives for worked words and inputs by each rule alone, by all, and by none.
pub fn node_rules()
    ensures carriers_by_no_rule { text_of (words (codes "+MHacul 0"))
        (codes "type H\nscheduler 1\nalloc 1 200000\nalloc 2 200000\nschedule\nend\n")
        ≡ Some
        (codes "scheduler 1\nalloc 1 1 8 25002\nalloc 2 2 8 25002\n"
        ++ codes "carrier 1 multi owner 1 employed 1 base 0 pages 64 allocated 25002 largest 7758\n"
        ++ codes "carrier 2 multi owner 1 employed 1 base 64 pages 186 allocated 25002 "
        ++ codes "largest 70222\n"
        ++ codes "total carriers 2 units 128000 live 50004 queued 0 free 77980 header 16\n") }
    ensures power_of_two { text_by powers (words (codes "+MHacul 0"))
        (codes "type H\nscheduler 1\nalloc 1 200000\nalloc 2 200000\nschedule\nend\n")
        ≡ Some
        (codes "scheduler 1\nalloc 1 1 8 25002\nalloc 2 2 8 25002\n"
        ++ codes "carrier 1 multi owner 1 employed 1 base 0 pages 64 allocated 25002 largest 7758\n"
        ++ codes "carrier 2 multi owner 1 employed 1 base 64 pages 256 allocated 25002 "
        ++ codes "largest 106062\n"
        ++ codes "total carriers 2 units 163840 live 50004 queued 0 free 113820 header 16\n") }
    ensures least_pages_where_no_power_fits { text_by powers (words (codes "+MHacul 0 +MMscs 1"))
        (codes "type H\nscheduler 1\nalloc 1 200000\nalloc 2 200000\nschedule\nend\n")
        ≡ Some
        (codes "scheduler 1\nalloc 1 1 8 25002\nalloc 2 2 8 25002\n"
        ++ codes "carrier 1 multi owner 1 employed 1 base 0 pages 64 allocated 25002 largest 7758\n"
        ++ codes "carrier 2 multi owner 1 employed 1 base 64 pages 49 allocated 25002 largest 78\n"
        ++ codes "total carriers 2 units 57856 live 50004 queued 0 free 7836 header 16\n") }
    ensures end_of_the_highest_run { text_by falling (words (codes "+MHacul 0"))
        (codes "type H\nscheduler 1\nalloc 1 200000\nalloc 2 200000\nschedule\nend\n")
        ≡ Some
        (codes "scheduler 1\nalloc 1 1 8 25002\nalloc 2 2 8 25002\n"
        ++ codes "carrier 1 multi owner 1 employed 1 base 16320 pages 64 allocated 25002 "
        ++ codes "largest 7758\n"
        ++ codes "carrier 2 multi owner 1 employed 1 base 16134 pages 186 allocated 25002 "
        ++ codes "largest 70222\n"
        ++ codes "total carriers 2 units 128000 live 50004 queued 0 free 77980 header 16\n") }
    ensures main_carrier_at_the_front { text_by falling (words (codes "+MHacul 0 +MHmmbcs 100"))
        (codes "type H\nscheduler 1\nalloc 1 200000\nschedule\nend\n")
        ≡ Some
        (codes "scheduler 1\nalloc 1 2 8 25002\n"
        ++ codes "carrier 1 main owner 1 employed 1 base 0 pages 25 allocated 0 largest 12792\n"
        ++ codes "carrier 2 multi owner 1 employed 1 base 16320 pages 64 allocated 25002 "
        ++ codes "largest 7758\n"
        ++ codes "total carriers 2 units 45568 live 25002 queued 0 free 20550 header 16\n") }
    ensures both_of_carriers { text_by all_rules (words (codes "+MHacul 0"))
        (codes "type H\nscheduler 1\nalloc 1 200000\nalloc 2 200000\nschedule\nend\n")
        ≡ Some
        (codes "scheduler 1\nalloc 1 1 8 25002\nalloc 2 2 8 25002\n"
        ++ codes "carrier 1 multi owner 1 employed 1 base 16320 pages 64 allocated 25002 "
        ++ codes "largest 7758\n"
        ++ codes "carrier 2 multi owner 1 employed 1 base 16064 pages 256 allocated 25002 "
        ++ codes "largest 106062\n"
        ++ codes "total carriers 2 units 163840 live 50004 queued 0 free 113820 header 16\n") }
    ensures abandoned_by_no_rule { text_of []
        (codes "type H\nscheduler 1\nalloc 1 100\nalloc 2 100\nfree 1\nschedule\nend\n")
        ≡ Some
        (codes "scheduler 1\nalloc 1 1 8 14\nalloc 2 1 22 14\nfree 1 done\n"
        ++ codes "carrier 1 multi owner 1 pooled 1 base 0 pages 64 allocated 14 largest 32732\n"
        ++ codes "total carriers 1 units 32768 live 14 queued 0 free 32746 header 8\n") }
    ensures held_back { text_by counter []
        (codes "type H\nscheduler 1\nalloc 1 100\nalloc 2 100\nfree 1\nschedule\nend\n")
        ≡ Some
        (codes "scheduler 1\nalloc 1 1 8 14\nalloc 2 1 22 14\nfree 1 done\n"
        ++ codes "carrier 1 multi owner 1 employed 1 base 0 pages 64 allocated 14 largest 32732\n"
        ++ codes "total carriers 1 units 32768 live 14 queued 0 free 32746 header 8\n") }
    ensures full_at_the_start { count_of 1 (moment_by counter [] (scheduled
        (codes "type H\nscheduler 1\n") (codes ""))) ≡ Some 1000 }
    ensures none_without_the_rule { count_of 1 (moment_by powers [] (scheduled
        (codes "type H\nscheduler 1\n") (codes ""))) ≡ Some 0 }
    ensures never_above { count_of 1 (moment_by counter [] (scheduled
        (codes "type H\nscheduler 1\nalloc 1 100\nalloc 2 100\n") (codes "1*1027"))) ≡ Some 1000 }
    ensures less_by_a_release { count_of 1 (moment_by counter [] (scheduled
        (codes "type H\nscheduler 1\nalloc 1 100\nalloc 2 100\nfree 1\n") (codes "1*1029")))
        ≡ Some 990 }
    ensures more_by_a_block { count_of 1 (moment_by counter [] (scheduled
        (codes "type H\nscheduler 1\nalloc 1 100\nalloc 2 100\nfree 1\nalloc 3 100\n")
        (codes "1*1030"))) ≡ Some 998 }
    ensures less_by_a_block_that_shrinks { count_of 1 (moment_by counter [] (scheduled
        (codes "type H\nscheduler 1\nalloc 1 1000\nrealloc 1 2 800\n") (codes "1*1027")))
        ≡ Some 998 }
    ensures same_by_a_block_that_stays { count_of 1 (moment_by counter [] (scheduled
        (codes "type H\nscheduler 1\nalloc 1 1000\nrealloc 1 2 1000\n") (codes "1*1027")))
        ≡ Some 1000 }
    ensures full_by_a_block_that_is_alone { count_of 1 (moment_by counter [] (scheduled
        (codes "type H\nscheduler 1\nalloc 1 100\nalloc 2 100\nfree 1\nalloc 3 600000\n")
        (codes "1*1030"))) ≡ Some 1000 }
    ensures same_by_a_release_of_that { count_of 1 (moment_by counter [] (scheduled
        (codes "type H\nscheduler 1\nalloc 1 600000\nalloc 2 100\nfree 1\n") (codes "1*1035")))
        ≡ Some 1000 }
    ensures full_by_a_plan_that_fails { count_of 1 (moment_by counter (words (codes "+MMscs 1"))
        (scheduled
        (codes "type H\nscheduler 1\nalloc 1 100\nalloc 2 100\nfree 1\nalloc 3 524280\n")
        (codes "1*2100"))) ≡ Some 1000 }
    ensures not_yet_0 { count_of 1 (freeing 1325) ≡ Some 10 }
    ensures not_yet_abandoned { owner_word 1 (freeing 1326) ≡ Some (word.Employed 1) }
    ensures reaches_0 { count_of 1 (freeing 1327) ≡ Some 0 }
    ensures abandoned_at_0 { owner_word 1 (freeing 1328) ≡ Some (word.Pooled 1 31332) }
    ensures less_by_a_release_in_the_hand { count_of 1 (freeing 2500) ≡ Some 990 }
{}
