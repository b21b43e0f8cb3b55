//! One scheduler that reallocates: in place, and by a move.

ghost use Rattle.std.specs.Prelude.{◌≡◌, ◌++◌, codes, Some};
ghost use Rattle.ea_model.specs.Words.{words};
ghost use Rattle.ea_trials_definitions.specs.Texts.{text_of};

/// What the machine gives for worked words and inputs.
pub fn resizing()
    ensures in_place { text_of (words (codes "+MMscs 1 +MHacul 0"))
        (codes "type H\nscheduler 1\nalloc 1 100\nrealloc 1 2 200\nrealloc 2 3 150\n"
        ++ codes "realloc 3 4 0\nschedule\nend\n")
        ≡ Some
        (codes "scheduler 1\nalloc 1 1 8 14\nrealloc 1 2 1 8 26 here\nrealloc 2 3 1 8 20 here\n"
        ++ codes "realloc 3 4 1 28 6 moved done\n"
        ++ codes "carrier 1 multi owner 1 employed 1 base 0 pages 64 allocated 6 largest 32734\n"
        ++ codes "total carriers 1 units 32768 live 6 queued 0 free 32754 header 8\n") }
    ensures shrunk_carrier { text_of (words (codes "+MMscs 8 +MHacul 0"))
        (codes "type H\nscheduler 1\nalloc 1 4000000\nrealloc 1 2 2000000\nrealloc 2 3 100\n"
        ++ codes "schedule\nend\n")
        ≡ Some
        (codes "scheduler 1\nalloc 1 1 8 500002\nrealloc 1 2 1 8 250002 here\n"
        ++ codes "realloc 2 3 2 8 14 moved done\n"
        ++ codes "carrier 2 multi owner 1 employed 1 base 489 pages 64 allocated 14 largest 32746\n"
        ++ codes "total carriers 1 units 32768 live 14 queued 0 free 32746 header 8\n") }
    ensures single_stays { text_of (words (codes "+MHacul 0 +MHrsbcmt 100"))
        (codes "type H\nscheduler 1\nalloc 1 600000\nrealloc 1 2 100\nschedule\nend\n")
        ≡ Some
        (codes "scheduler 1\nalloc 1 1 8 75002\nrealloc 1 2 1 8 14 here\n"
        ++ codes "carrier 1 single owner 1 employed 1 base 0 pages 147 allocated 14 largest 75242\n"
        ++ codes "total carriers 1 units 75264 live 14 queued 0 free 75242 header 8\n") }
    ensures age_order_in_the_main_carrier { text_of
        (words (codes "+MHsbct 512 +MHasbcst 3 +MHrsbcmt 80 +MHrmbcmt 75 +MHrsbcst 50 +MHacul "
        ++ codes "0 +MHas ageffcaoff +MHmmbcs 8 +MMscs 1"))
        (codes "type H\nscheduler 1\nalloc 1 7993\nrealloc 1 2 4017\nrealloc 2 3 4072\n"
        ++ codes "realloc 3 4 1007\nfree 4\nalloc 5 1592\nrealloc 5 6 1608\nrealloc 6 7 103\n"
        ++ codes "realloc 7 8 1\nrealloc 8 9 3193\nrealloc 9 10 808\nrealloc 10 11 524271\n"
        ++ codes "realloc 11 12 524297\nrealloc 12 13 524423\nfree 13\nalloc 14 4017\n"
        ++ codes "realloc 14 15 4025\nalloc 16 71\nfree 16\nrealloc 15 17 40\nrealloc 17 18 145\n"
        ++ codes "realloc 18 19 735\nrealloc 19 20 1\nrealloc 20 21 4025\nrealloc 21 22 524273\n"
        ++ codes "schedule\nend\n")
        ≡ Some
        (codes "scheduler 1\nalloc 1 1 8 1002\nrealloc 1 2 1 8 504 here\n"
        ++ codes "realloc 2 3 1 8 510 here\nrealloc 3 4 1 8 128 here\nfree 4 done\n"
        ++ codes "alloc 5 1 8 200\nrealloc 5 6 1 8 202 here\nrealloc 6 7 1 210 14 moved done\n"
        ++ codes "realloc 7 8 1 210 6 here\nrealloc 8 9 1 210 402 here\n"
        ++ codes "realloc 9 10 1 210 102 here\nrealloc 10 11 2 8 65536 moved done\n"
        ++ codes "realloc 11 12 fail need 65540 looked 0 space\nrealloc 12 13 skipped\n"
        ++ codes "free 13 skipped\nalloc 14 1 8 504\nrealloc 14 15 1 8 506 here\n"
        ++ codes "alloc 16 1 514 10\nfree 16 done\nrealloc 15 17 1 514 6 moved done\n"
        ++ codes "realloc 17 18 1 514 20 here\nrealloc 18 19 1 514 94 here\n"
        ++ codes "realloc 19 20 1 8 6 moved done\nrealloc 20 21 1 8 506 here\n"
        ++ codes "realloc 21 22 fail need 65536 looked 0 space\n"
        ++ codes "carrier 1 main owner 1 employed 1 base 0 pages 2 allocated 506 largest 510\n"
        ++ codes "carrier 2 multi owner 1 employed 1 base 2 pages 129 allocated 65536 largest 504\n"
        ++ codes "total carriers 2 units 67072 live 66042 queued 0 free 1014 header 16\n") }
    ensures moves_of_temporary_blocks { text_of
        (words (codes "+MTsbct 2 +MTasbcst 8 +MTrsbcmt 50 +MTrmbcmt 75 +MTrsbcst 50 +MTacul 0 "
        ++ codes "+MTas aoffcbf +MTmmbcs 8 +MMscs 1"))
        (codes "type T\nscheduler 1\nalloc 1 791\nrealloc 1 2 0\nrealloc 2 3 1\n"
        ++ codes "realloc 3 4 4024\nalloc 5 8120\nfree 5\nrealloc 4 6 0\nrealloc 6 7 8120\n"
        ++ codes "alloc 8 3192\nrealloc 7 9 8264\nschedule\nend\n")
        ≡ Some
        (codes "scheduler 1\nalloc 1 1 8 100\nrealloc 1 2 1 108 6 moved done\n"
        ++ codes "realloc 2 3 1 108 6 here\nrealloc 3 4 2 8 504 moved done\nalloc 5 3 8 1016\n"
        ++ codes "free 5 done\nrealloc 4 6 1 8 6 moved done\nrealloc 6 7 2 8 1016 moved done\n"
        ++ codes "alloc 8 3 8 400\nrealloc 7 9 4 8 1034 moved done\n"
        ++ codes "carrier 1 main owner 1 employed 1 base 0 pages 2 allocated 0 largest 1016\n"
        ++ codes "carrier 3 single owner 1 employed 1 base 4 pages 1 allocated 400 largest 104\n"
        ++ codes "carrier 4 single owner 1 employed 1 base 5 pages 3 allocated 1034 largest 494\n"
        ++ codes "total carriers 3 units 3072 live 1434 queued 0 free 1614 header 24\n") }
    ensures failed_move_keeps_the_old_block { text_of
        (words (codes "+MHsbct 512 +MHasbcst 4 +MHrsbcmt 100 +MHrmbcmt 50 +MHrsbcst 0 +MHacul "
        ++ codes "0 +MHsmbcs 8 +MMscs 1"))
        (codes "type H\nscheduler 1\nalloc 1 97\nrealloc 1 2 524273\nrealloc 2 3 524232\n"
        ++ codes "realloc 3 4 528311\nfree 4\nalloc 5 3191\nrealloc 5 6 0\nrealloc 6 7 0\nfree 7\n"
        ++ codes "alloc 8 72\nschedule\nend\n")
        ≡ Some
        (codes "scheduler 1\nalloc 1 1 8 14\nrealloc 1 2 2 8 65536 moved done\n"
        ++ codes "realloc 2 3 2 8 65530 here\nrealloc 3 4 fail need 66040 looked 0 space\n"
        ++ codes "free 4 skipped\nalloc 5 2 65538 400\nrealloc 5 6 2 65938 6 moved done\n"
        ++ codes "realloc 6 7 2 65938 6 here\nfree 7 done\nalloc 8 2 65538 10\n"
        ++ codes "carrier 2 multi owner 1 employed 1 base 2 pages 130 "
        ++ codes "allocated 65540 largest 1012\n"
        ++ codes "total carriers 1 units 66560 live 65540 queued 0 free 1012 header 8\n") }
    ensures in_place_and_moved { text_of
        (words (codes "+MHsbct 512 +MHasbcst 3 +MHrsbcmt 80 +MHrmbcmt 50 +MHrsbcst 25 +MHacul "
        ++ codes "0 +MHsmbcs 8 +MMscs 1"))
        (codes "type H\nscheduler 1\nalloc 1 12209\nfree 1\nalloc 2 524296\nrealloc 2 3 524265\n"
        ++ codes "realloc 3 4 524289\nrealloc 4 5 396216\nrealloc 5 6 524279\nrealloc 6 7 39\n"
        ++ codes "alloc 8 145\nalloc 9 3185\nschedule\nend\n")
        ≡ Some
        (codes "scheduler 1\nalloc 1 1 8 1528\nfree 1 done\nalloc 2 1 8 65538\n"
        ++ codes "realloc 2 3 1 8 65536 here\nrealloc 3 4 1 8 65538 here\n"
        ++ codes "realloc 4 5 1 8 49528 here\nrealloc 5 6 1 8 65536 here\n"
        ++ codes "realloc 6 7 2 8 6 moved done\nalloc 8 2 14 20\nalloc 9 2 34 400\n"
        ++ codes "carrier 2 multi owner 1 employed 1 base 129 pages 2 allocated 426 largest 590\n"
        ++ codes "total carriers 1 units 1024 live 426 queued 0 free 590 header 8\n") }
    ensures address_order_with_many_singles { text_of
        (words (codes "+MTsbct 2 +MTasbcst 8 +MTrsbcmt 80 +MTrmbcmt 75 +MTrsbcst 1 +MTacul 0 "
        ++ codes "+MTas aoff +MMscs 1"))
        (codes "type T\nscheduler 1\nalloc 1 3192\nrealloc 1 2 4024\nfree 2\nalloc 3 785\n"
        ++ codes "realloc 3 4 759\nrealloc 4 5 191\nrealloc 5 6 313\nrealloc 6 7 0\n"
        ++ codes "realloc 7 8 87\nrealloc 8 9 0\nrealloc 9 10 1\nalloc 11 32695\n"
        ++ codes "realloc 11 12 2041\nrealloc 10 13 2032\nalloc 14 12233\nrealloc 14 15 8033\n"
        ++ codes "alloc 16 103\nrealloc 13 17 2032\nrealloc 17 18 4088\nrealloc 12 19 1584\n"
        ++ codes "realloc 15 20 2016\nfree 20\nrealloc 18 21 1583\nrealloc 19 22 0\n"
        ++ codes "realloc 22 23 0\nrealloc 21 24 4025\nalloc 25 8119\nfree 16\nalloc 26 40\n"
        ++ codes "realloc 25 27 8073\nrealloc 23 28 3977\nalloc 29 12232\nalloc 30 152\n"
        ++ codes "alloc 31 8120\nrealloc 24 32 1000\nalloc 33 72\nrealloc 32 34 8104\n"
        ++ codes "realloc 31 35 8224\nrealloc 33 36 761\nrealloc 35 37 8184\nschedule\nend\n")
        ≡ Some
        (codes "scheduler 1\nalloc 1 1 8 400\nrealloc 1 2 1 8 504 here\nfree 2 done\n"
        ++ codes "alloc 3 1 8 100\nrealloc 3 4 1 8 100 here\nrealloc 4 5 1 8 26 here\n"
        ++ codes "realloc 5 6 1 8 42 here\nrealloc 6 7 1 50 6 moved done\n"
        ++ codes "realloc 7 8 1 50 12 here\nrealloc 8 9 1 50 6 here\nrealloc 9 10 1 50 6 here\n"
        ++ codes "alloc 11 2 8 4088\nrealloc 11 12 2 8 258 here\nrealloc 10 13 1 50 256 here\n"
        ++ codes "alloc 14 3 8 1532\nrealloc 14 15 3 8 1006 here\nalloc 16 1 8 14\n"
        ++ codes "realloc 13 17 1 50 256 here\nrealloc 17 18 4 8 512 moved done\n"
        ++ codes "realloc 12 19 2 8 200 here\nrealloc 15 20 3 8 254 here\nfree 20 done\n"
        ++ codes "realloc 18 21 4 8 200 here\nrealloc 19 22 1 22 6 moved done\n"
        ++ codes "realloc 22 23 1 22 6 here\nrealloc 21 24 4 8 506 here\nalloc 25 2 8 1016\n"
        ++ codes "free 16 done\nalloc 26 1 8 6\nrealloc 25 27 2 8 1012 here\n"
        ++ codes "realloc 23 28 3 8 500 moved done\nalloc 29 5 8 1530\nalloc 30 1 14 20\n"
        ++ codes "alloc 31 6 8 1016\nrealloc 24 32 1 34 126 moved done\nalloc 33 1 160 10\n"
        ++ codes "realloc 32 34 4 8 1014 moved done\nrealloc 31 35 7 8 1030 moved done\n"
        ++ codes "realloc 33 36 1 160 98 here\nrealloc 35 37 7 8 1024 here\n"
        ++ codes "carrier 1 multi owner 1 employed 1 base 0 pages 64 allocated 124 largest 32510\n"
        ++ codes "carrier 2 single owner 1 employed 1 base 64 pages 2 allocated 1012 largest 4\n"
        ++ codes "carrier 3 single owner 1 employed 1 base 66 pages 1 allocated 500 largest 4\n"
        ++ codes "carrier 4 single owner 1 employed 1 base 67 pages 2 allocated 1014 largest 2\n"
        ++ codes "carrier 5 single owner 1 employed 1 base 69 pages 4 allocated 1530 largest 510\n"
        ++ codes "carrier 7 single owner 1 employed 1 base 75 pages 3 allocated 1024 largest 504\n"
        ++ codes "total carriers 6 units 38912 live 5204 queued 0 free 33660 header 48\n") }
    ensures age_order_best_fit { text_of
        (words (codes "+MHsbct 512 +MHasbcst 2 +MHrsbcmt 100 +MHrmbcmt 75 +MHrsbcst 1 +MHacul "
        ++ codes "0 +MHsmbcs 4 +MHas ageffcbf +MMscs 1"))
        (codes "type H\nscheduler 1\nalloc 1 785\nrealloc 1 2 728\nfree 2\nalloc 3 7992\n"
        ++ codes "realloc  3  4  0\nrealloc 4 5 0\nalloc 6 8136\nfree 5\nrealloc 6 7 0\n"
        ++ codes "alloc 8 97\nrealloc 8 9 24\nalloc 10 792\nalloc 11 792\nrealloc 11 12 1976\n"
        ++ codes "realloc 7 13 0\nrealloc 9 14 524288\nrealloc 13 15 1977\nrealloc 14 16 524296\n"
        ++ codes "free 12\nfree 10\nrealloc 15 17 1959\nrealloc 17 18 2009\n  realloc 18 19 0\n"
        ++ codes "realloc 19 20 0\nfree 16\nrealloc 20 21 89\nrealloc 21 22 1985\n"
        ++ codes "realloc 22 23 2097\nrealloc 23 24 0\nrealloc 24 25 0\nrealloc 25 26 16313\n"
        ++ codes "realloc 26 27 16297\nrealloc 27 28 16153\nfree 28\nalloc 29 313\nalloc 30 8113\n"
        ++ codes "realloc 29 31 524296\nrealloc 31 32 524247\nrealloc 30 33 8072\nfree 32\n"
        ++ codes "schedule\nend\n")
        ≡ Some
        (codes "scheduler 1\nalloc 1 1 8 100\nrealloc 1 2 1 8 92 here\nfree 2 done\n"
        ++ codes "alloc 3 1 8 1000\nrealloc 3 4 1 1008 6 moved done\nrealloc 4 5 1 1008 6 here\n"
        ++ codes "alloc 6 2 8 1018\nfree 5 done\nrealloc 6 7 2 1026 6 moved done\nalloc 8 2 8 14\n"
        ++ codes "realloc 8 9 2 8 6 here\nalloc 10 2 14 100\nalloc 11 2 114 100\n"
        ++ codes "realloc 11 12 2 114 248 here\nrealloc 7 13 2 1026 6 here\n"
        ++ codes "realloc 9 14 fail need 65538 looked 0 space\nrealloc 13 15 2 1026 250 here\n"
        ++ codes "realloc 14 16 skipped\nfree 12 done\nfree 10 done\n"
        ++ codes "realloc 15 17 2 1026 250 here\nrealloc 17 18 2 1026 254 here\n"
        ++ codes "realloc 18 19 2 14 6 moved done\nrealloc 19 20 2 14 6 here\nfree 16 skipped\n"
        ++ codes "realloc 20 21 2 14 14 here\nrealloc 21 22 2 14 250 here\n"
        ++ codes "realloc 22 23 2 14 264 here\nrealloc 23 24 2 278 6 moved done\n"
        ++ codes "realloc 24 25 2 278 6 here\nrealloc 25 26 2 278 2042 here\n"
        ++ codes "realloc 26 27 2 278 2042 here\nrealloc 27 28 2 278 2022 here\nfree 28 done\n"
        ++ codes "alloc 29 2 14 42\nalloc 30 2 56 1016\n"
        ++ codes "realloc 29 31 fail need 65538 looked 0 space\nrealloc 31 32 skipped\n"
        ++ codes "realloc 30 33 2 56 1010 here\nfree 32 skipped\n"
        ++ codes "carrier 2 multi owner 1 employed 1 base 2 pages 129 "
        ++ codes "allocated 1058 largest 64982\n"
        ++ codes "total carriers 1 units 66048 live 1058 queued 0 free 64982 header 8\n") }
    ensures age_order_address_order_best_fit { text_of
        (words (codes "+MHsbct 4 +MHasbcst 1 +MHrsbcmt 100 +MHrmbcmt 25 +MHrsbcst 1 +MHacul 0 "
        ++ codes "+MHsmbcs 8 +MHas ageffcaobf +MMscs 1"))
        (codes "type H\nscheduler 1\nalloc 1 7991\nrealloc 1 2 15992\nrealloc 2 3 16312\n"
        ++ codes " realloc 3 4 12200\nrealloc 4 5 4105\nrealloc 5 6 8033\nalloc 7 4104\n"
        ++ codes "realloc 6 8 8023\nalloc 9 1591\nrealloc 8 10 8129\nschedule\nend")
        ≡ Some
        (codes "scheduler 1\nalloc 1 1 8 1000\nrealloc 1 2 2 8 2000 moved done\n"
        ++ codes "realloc 2 3 2 8 2040 here\nrealloc 3 4 2 8 1526 here\nrealloc 4 5 2 8 516 here\n"
        ++ codes "realloc 5 6 2 8 1006 here\nalloc 7 1 8 514\nrealloc 6 8 2 8 1004 here\n"
        ++ codes "alloc 9 3 8 200\nrealloc 8 10 4 8 1018 moved done\n"
        ++ codes "carrier 1 single owner 1 employed 1 base 0 pages 2 allocated 514 largest 502\n"
        ++ codes "carrier 3 multi owner 1 employed 1 base 4 pages 2 allocated 200 largest 816\n"
        ++ codes "carrier 4 single owner 1 employed 1 base 6 pages 3 allocated 1018 largest 510\n"
        ++ codes "total carriers 3 units 3584 live 1732 queued 0 free 1828 header 24\n") }
    ensures age_order_with_two_singles { text_of
        (words (codes "+MHsbct 3 +MHasbcst 4 +MHrsbcmt 50 +MHrmbcmt 75 +MHrsbcst 100 +MHacul "
        ++ codes "0 +MHsmbcs 8 +MHas ageffcaobf +MMscs 1"))
        (codes "type H\nscheduler 1\nalloc 1 8129\nalloc 2 7991\nrealloc 2 3 7769\nalloc 4 65\n"
        ++ codes "realloc 1 5 0\nalloc 6 7992\nrealloc 5 7 40\nrealloc 3 8 7752\nrealloc 8 9 4040\n"
        ++ codes "realloc 6 10 8039\nrealloc 9 11 8137\nrealloc 10 12 8152\nrealloc 12 13 12217\n"
        ++ codes "realloc 11 14 8104\nrealloc 14 15 3072\nalloc 16 16312\nrealloc 15 17 3048\n  \n"
        ++ codes "realloc 4 18 8\nalloc 19 4039\nrealloc 7 20 145\nrealloc 13 21 3071\n"
        ++ codes "realloc 17 22 3056\nrealloc 18 23 0\nrealloc 16 24 3057\nrealloc 20 25 41\n"
        ++ codes "schedule\nend\n")
        ≡ Some
        (codes "scheduler 1\nalloc 1 1 8 1018\nalloc 2 2 8 1000\nrealloc 2 3 2 8 974 here\n"
        ++ codes "alloc 4 3 8 10\nrealloc 1 5 3 18 6 moved done\nalloc 6 1 8 1000\n"
        ++ codes "realloc 5 7 3 18 6 here\nrealloc 3 8 2 8 970 here\nrealloc 8 9 2 8 506 here\n"
        ++ codes "realloc 6 10 1 8 1006 here\nrealloc 9 11 4 8 1020 moved done\n"
        ++ codes "realloc 10 12 2 8 1020 moved done\nrealloc 12 13 1 8 1530 moved done\n"
        ++ codes "realloc 11 14 4 8 1014 here\nrealloc 14 15 4 8 386 here\nalloc 16 2 8 2040\n"
        ++ codes "realloc 15 17 3 24 382 moved done\nrealloc 4 18 3 8 10 here\nalloc 19 4 8 506\n"
        ++ codes "realloc 7 20 3 406 20 moved done\nrealloc 13 21 1 8 386 here\n"
        ++ codes "realloc 17 22 3 426 384 moved done\nrealloc 18 23 3 8 10 here\n"
        ++ codes "realloc 16 24 3 18 388 moved done\nrealloc 20 25 3 406 8 here\n"
        ++ codes "carrier 1 single owner 1 employed 1 base 10 pages 4 allocated 386 largest 1654\n"
        ++ codes "carrier 3 multi owner 1 employed 1 base 5 pages 2 allocated 790 largest 214\n"
        ++ codes "carrier 4 single owner 1 employed 1 base 7 pages 2 allocated 506 largest 510\n"
        ++ codes "total carriers 3 units 4096 live 1682 queued 0 free 2390 header 24\n") }
    ensures address_fit_with_three_singles { text_of
        (words (codes "+MTsbct 4 +MTasbcst 0 +MTrsbcmt 10 +MTrmbcmt 100 +MTrsbcst 50 +MTacul "
        ++ codes "0 +MTsmbcs 8 +MTas af +MMscs 1"))
        (codes "type T\nscheduler 1\nalloc 1 104\nrealloc 1 2 16295\nrealloc 2 3 8136\n"
        ++ codes "realloc 3 4 8135\nrealloc 4 5 104\nfree 5\nalloc 6 7992\nrealloc 6 7 4097\n"
        ++ codes "realloc 7 8 8209\nalloc 9 39\nrealloc 8 10 12201\nrealloc 10 11 12209\n"
        ++ codes "realloc 9 12 0\nrealloc 12 13 4032\nalloc 14 4081\nalloc 15 8120\n"
        ++ codes "realloc 14 16 4001\nrealloc 15 17 8120\nfree 11\nrealloc 16 18 4009\n"
        ++ codes "realloc 17 19 8137\nrealloc 13 20 4040\nalloc 21 8137\nrealloc 21 22 16312\n"
        ++ codes "alloc 23 7992\nschedule\nend")
        ≡ Some
        (codes "scheduler 1\nalloc 1 1 8 14\nrealloc 1 2 2 8 2038 moved done\n"
        ++ codes "realloc 2 3 2 8 1018 here\nrealloc 3 4 2 8 1018 here\n"
        ++ codes "realloc 4 5 1 8 14 moved done\nfree 5 done\nalloc 6 1 8 1000\n"
        ++ codes "realloc 6 7 1 8 514 here\nrealloc 7 8 2 8 1028 moved done\nalloc 9 1 8 6\n"
        ++ codes "realloc 8 10 2 8 1528 here\nrealloc 10 11 2 8 1528 here\n"
        ++ codes "realloc 9 12 1 8 6 here\nrealloc 12 13 1 8 506 here\nalloc 14 3 8 512\n"
        ++ codes "alloc 15 4 8 1016\nrealloc 14 16 3 8 502 here\nrealloc 15 17 4 8 1016 here\n"
        ++ codes "free 11 done\nrealloc 16 18 3 8 504 here\nrealloc 17 19 2 8 1020 moved done\n"
        ++ codes "realloc 13 20 1 8 506 here\nalloc 21 4 8 1020\n"
        ++ codes "realloc 21 22 5 8 2040 moved done\nalloc 23 4 8 1000\n"
        ++ codes "carrier 1 multi owner 1 employed 1 base 0 pages 2 allocated 506 largest 510\n"
        ++ codes "carrier 2 single owner 1 employed 1 base 2 pages 3 allocated 1020 largest 508\n"
        ++ codes "carrier 3 multi owner 1 employed 1 base 5 pages 130 allocated 504 largest 66048\n"
        ++ codes "carrier 4 single owner 1 employed 1 base 135 pages 2 allocated 1000 largest 16\n"
        ++ codes "carrier 5 single owner 1 employed 1 base 138 pages 4 allocated 2040 largest 0\n"
        ++ codes "total carriers 5 units 72192 live 5070 queued 0 free 67082 header 40\n") }
    ensures address_order_with_one_single { text_of
        (words (codes "+MHsbct 2 +MHasbcst 4 +MHrsbcmt 90 +MHrmbcmt 25 +MHrsbcst 25 +MHacul 0 "
        ++ codes "+MHsmbcs 4 +MHas aoff +MMscs 1"))
        (codes "type H\nscheduler 1\nalloc 1 8119\nrealloc 1 2 4001\nrealloc 2 3 4120\n"
        ++ codes "realloc 3 4 6056\nalloc 5 16313\nrealloc 4 6 5993\nrealloc 6 7 5976\n"
        ++ codes "realloc 5 8 16328\nrealloc 8 9 16264\nrealloc 7 10 6273\nrealloc 10 11 4720\n"
        ++ codes "realloc 11 12 40\nalloc 13 104\nfree 9\nrealloc 12 14 40\nrealloc 14 15 2040\n"
        ++ codes "realloc 15 16 1\nalloc 17 305\nrealloc 13 18 104\nfree 17\nfree 16\n"
        ++ codes "realloc 18 19 344\nalloc 20 2033\nrealloc 20 21 4088\nalloc 22 145\nschedule\n"
        ++ codes "end\n")
        ≡ Some
        (codes "scheduler 1\nalloc 1 1 8 1016\nrealloc 1 2 1 8 502 here\n"
        ++ codes "realloc 2 3 2 8 516 moved done\nrealloc 3 4 2 8 758 here\nalloc 5 1 8 2042\n"
        ++ codes "realloc 4 6 2 8 752 here\nrealloc 6 7 2 8 748 here\nrealloc 5 8 1 8 2042 here\n"
        ++ codes "realloc 8 9 1 8 2034 here\nrealloc 7 10 2 8 786 here\n"
        ++ codes "realloc 10 11 2 8 592 here\nrealloc 11 12 3 8 6 moved done\nalloc 13 3 14 14\n"
        ++ codes "free 9 done\nrealloc 12 14 3 8 6 here\nrealloc 14 15 3 28 256 moved done\n"
        ++ codes "realloc 15 16 3 8 6 moved done\nalloc 17 3 28 40\nrealloc 13 18 3 14 14 here\n"
        ++ codes "free 17 done\nfree 16 done\nrealloc 18 19 3 14 44 here\nalloc 20 3 58 256\n"
        ++ codes "realloc 20 21 1 8 512 moved done\nalloc 22 3 58 20\n"
        ++ codes "carrier 1 single owner 1 employed 1 base 1 pages 2 allocated 512 largest 504\n"
        ++ codes "carrier 3 multi owner 1 employed 1 base 0 pages 1 allocated 64 largest 434\n"
        ++ codes "total carriers 2 units 1536 live 576 queued 0 free 944 header 16\n") }
    ensures singles_shrink { text_of
        (words (codes "+MHsbct 3 +MHasbcst 4 +MHrsbcmt 0 +MHrmbcmt 100 +MHrsbcst 1 +MHacul 0 "
        ++ codes "+MHsmbcs 8 +MMscs 1"))
        (codes "type H\nscheduler 1\nalloc 1 7985\nrealloc 1 2 7928\nalloc 3 104\n"
        ++ codes "realloc 2 4 16305\nalloc 5 791\nrealloc 5 6 3961\nfree 3\nfree 6\n"
        ++ codes "realloc 4 7 12200\nrealloc 7 8 4017\nschedule\nend\n")
        ≡ Some
        (codes "scheduler 1\nalloc 1 1 8 1000\nrealloc 1 2 1 8 992 here\nalloc 3 2 8 14\n"
        ++ codes "realloc 2 4 3 8 2040 moved done\nalloc 5 2 22 100\n"
        ++ codes "realloc 5 6 1 8 498 moved done\nfree 3 done\nfree 6 done\n"
        ++ codes "realloc 4 7 3 8 1526 here\nrealloc 7 8 3 8 504 here\n"
        ++ codes "carrier 3 single owner 1 employed 1 base 4 pages 1 allocated 504 largest 0\n"
        ++ codes "total carriers 1 units 512 live 504 queued 0 free 0 header 8\n") }
    ensures shrinks_stay { text_of
        (words (codes "+MTsbct 3 +MTasbcst 8 +MTrsbcmt 50 +MTrmbcmt 100 +MTrsbcst 20 +MTacul "
        ++ codes "0 +MTsmbcs 8 +MMscs 1"))
        (codes "type T\nscheduler 1\nalloc 1 3079\nfree 1\nalloc 2 7992\nrealloc 2 3 0\n"
        ++ codes "realloc 3 4 1969\nrealloc 4 5 1960\nalloc 6 1592\nrealloc 5 7 3063\n"
        ++ codes "realloc 6 8 0\nrealloc 8 9 0\nschedule\nend\n")
        ≡ Some
        (codes "scheduler 1\nalloc 1 1 8 386\nfree 1 done\nalloc 2 1 8 1000\n"
        ++ codes "realloc 2 3 2 8 6 moved done\nrealloc 3 4 2 8 248 here\n"
        ++ codes "realloc 4 5 2 8 248 here\nalloc 6 2 256 200\nrealloc 5 7 2 456 384 moved done\n"
        ++ codes "realloc 6 8 2 256 6 here\nrealloc 8 9 2 256 6 here\n"
        ++ codes "carrier 2 multi owner 1 employed 1 base 2 pages 2 allocated 390 largest 248\n"
        ++ codes "total carriers 1 units 1024 live 390 queued 0 free 626 header 8\n") }
    ensures address_fit_over_several_carriers { text_of
        (words (codes "+S 1 +MTacul 0 +MTas af +MMscs 2 +MTsmbcs 8 +MTlmbcs 8 +MTmbsd 4"))
        (codes "type T\nscheduler 1\nalloc 1 40\nalloc 2 0\nalloc 3 2040\nalloc 4 1064\n"
        ++ codes "alloc 5 0\nalloc 6 1080\nalloc 7 0\nalloc 8 1096\nalloc 9 88\nalloc 10 0\n"
        ++ codes "alloc 11 40\nalloc 12 0\nalloc 13 1016\nalloc 14 0\nalloc 15 1032\n"
        ++ codes "alloc 16 1176\nalloc 17 0\nalloc 18 40\nalloc 19 40\nalloc 20 0\nalloc 21 56\n"
        ++ codes "alloc 22 0\nalloc 23 984\nalloc 24 0\nalloc  25  2040\nalloc 26 1176\n"
        ++ codes "alloc 27 0\nalloc 28 1064\nalloc 29 0\nalloc 30 2040\nalloc 31 0\nalloc 32 88\n"
        ++ codes "alloc 33 0\nalloc 34 1048\nalloc 35 0\nrealloc 9 36 88\nfree 26\nfree 30\n"
        ++ codes "free 8\nalloc 37 1512\nalloc 38 56\nfree 37\nalloc 39 1512\nalloc 40 1048\n"
        ++ codes "alloc 41 40\nfree 25\nfree 16\nfree 15\nalloc 42 1016\nfree 38\n"
        ++ codes "realloc 11 43 56\nalloc 44 1064\nfree 42\nrealloc 19 45 2040\nalloc 46 3048\n"
        ++ codes "free 34\nfree 36\nfree 21\nfree 32\nfree 23\nalloc 47 40\nfree 13\n"
        ++ codes "alloc 48 1016\nalloc 49 1512\nalloc 50 1528\nfree 49\nalloc 51 1080\n"
        ++ codes "alloc 52 2040\nalloc 53 40\nalloc 54 40\nfree 3\nalloc 55 56\nalloc 56 1048\n"
        ++ codes "alloc 57 1032\nfree 51\nschedule\nend\n")
        ≡ Some
        (codes "scheduler 1\nalloc 1 1 8 6\nalloc 2 1 14 6\nalloc 3 1 20 256\nalloc 4 1 276 134\n"
        ++ codes "alloc 5 1 410 6\nalloc 6 1 416 136\nalloc 7 1 552 6\nalloc 8 1 558 138\n"
        ++ codes "alloc 9 1 696 12\nalloc 10 1 708 6\nalloc 11 1 714 6\nalloc 12 1 720 6\n"
        ++ codes "alloc 13 1 726 128\nalloc 14 1 854 6\nalloc 15 1 860 130\nalloc 16 2 8 148\n"
        ++ codes "alloc 17 1 990 6\nalloc 18 1 996 6\nalloc 19 1 1002 6\nalloc 20 1 1008 6\n"
        ++ codes "alloc 21 1 1014 10\nalloc 22 2 156 6\nalloc 23 2 162 124\nalloc 24 2 286 6\n"
        ++ codes "alloc 25 2 292 256\nalloc 26 2 548 148\nalloc 27 2 696 6\nalloc 28 2 702 134\n"
        ++ codes "alloc 29 2 836 6\nalloc 30 3 8 256\nalloc 31 2 842 6\nalloc 32 2 848 12\n"
        ++ codes "alloc 33 2 860 6\nalloc 34 2 866 132\nalloc 35 2 998 6\n"
        ++ codes "realloc 9 36 1 696 12 here\nfree 26 done\nfree 30 done\nfree 8 done\n"
        ++ codes "alloc 37 3 8 190\nalloc 38 1 558 8\nfree 37 done\nalloc 39 3 8 190\n"
        ++ codes "alloc 40 4 8 132\nalloc 41 1 566 6\nfree 25 done\nfree 16 done\nfree 15 done\n"
        ++ codes "alloc 42 5 8 128\nfree 38 done\nrealloc 11 43 1 558 8 moved done\n"
        ++ codes "alloc 44 6 8 134\nfree 42 done\nrealloc 19 45 5 8 256 moved done\n"
        ++ codes "alloc 46 7 8 382\nfree 34 done\nfree 36 done\nfree 21 done\nfree 32 done\n"
        ++ codes "free 23 done\nalloc 47 1 572 6\nfree 13 done\nalloc 48 1 578 130\n"
        ++ codes "alloc 49 8 8 190\nalloc 50 9 8 192\nfree 49 done\nalloc 51 8 8 136\n"
        ++ codes "alloc 52 10 8 256\nalloc 53 1 714 6\nalloc 54 1 726 6\nfree 3 done\n"
        ++ codes "alloc 55 1 20 8\nalloc 56 1 28 132\nalloc 57 11 8 130\nfree 51 done\n"
        ++ codes "carrier 1 multi owner 1 employed 1 base 0 pages 2 allocated 632 largest 130\n"
        ++ codes "carrier 2 multi owner 1 employed 1 base 2 pages 2 allocated 176 largest 404\n"
        ++ codes "carrier 3 multi owner 1 employed 1 base 4 pages 2 allocated 190 largest 826\n"
        ++ codes "carrier 4 multi owner 1 employed 1 base 6 pages 2 allocated 132 largest 884\n"
        ++ codes "carrier 5 multi owner 1 employed 1 base 8 pages 2 allocated 256 largest 760\n"
        ++ codes "carrier 6 multi owner 1 employed 1 base 10 pages 2 allocated 134 largest 882\n"
        ++ codes "carrier 7 multi owner 1 employed 1 base 12 pages 2 allocated 382 largest 634\n"
        ++ codes "carrier 9 multi owner 1 employed 1 base 16 pages 2 allocated 192 largest 824\n"
        ++ codes "carrier 10 multi owner 1 employed 1 base 18 pages 2 allocated 256 largest 760\n"
        ++ codes "carrier 11 multi owner 1 employed 1 base 20 pages 2 allocated 130 largest 886\n"
        ++ codes "total carriers 10 units 10240 live 2480 queued 0 free 7680 header 80\n") }
    ensures good_fit { text_of
        (words (codes "+MHsbct 512 +MHasbcst 0 +MHrsbcmt 0 +MHrmbcmt 100 +MHrsbcst 1 +MHacul "
        ++ codes "0 +MHsmbcs 8 +MHas gf +MMscs 1"))
        (codes "type H\nscheduler 1\nalloc 1 524280\nfree 1\nalloc 2 16312\nalloc 3 65\n"
        ++ codes "realloc 2 4 16312\nfree 3\nrealloc 4 5 16311\nrealloc 5 6 16329\n"
        ++ codes "realloc 6 7 12216\nrealloc 7 8 12216\nschedule\nend\n")
        ≡ Some
        (codes "scheduler 1\nalloc 1 1 8 65536\nfree 1 done\nalloc 2 1 8 2040\nalloc 3 2 8 10\n"
        ++ codes "realloc 2 4 1 8 2040 here\nfree 3 done\nrealloc 4 5 1 8 2040 here\n"
        ++ codes "realloc 5 6 2 8 2044 moved done\nrealloc 6 7 2 8 1528 here\n"
        ++ codes "realloc 7 8 2 8 1528 here\n"
        ++ codes "carrier 2 multi owner 1 employed 1 base 4 pages 130 "
        ++ codes "allocated 1528 largest 65024\n"
        ++ codes "total carriers 1 units 66560 live 1528 queued 0 free 65024 header 8\n") }
    ensures singles_beside_a_main_carrier { text_of
        (words (codes "+MTsbct 4 +MTasbcst 4 +MTrsbcmt 80 +MTrmbcmt 50 +MTrsbcst 1 +MTmmbcs 8 "
        ++ codes "+MMscs 1"))
        (codes "type T\nscheduler 1\nalloc 1 65\nrealloc 1 2 32\nrealloc 2 3 4081\n"
        ++ codes "realloc 3 4 4056\nrealloc 4 5 4024\nalloc 6 72\nalloc 7 12232\n"
        ++ codes "realloc 6 8 12200\nalloc 9 4081\nalloc 10 12216\nschedule\nend\n")
        ≡ Some
        (codes "scheduler 1\nalloc 1 1 8 10\nrealloc 1 2 1 8 10 here\nrealloc 2 3 1 8 512 here\n"
        ++ codes "realloc 3 4 1 8 512 here\nrealloc 4 5 1 8 504 here\nalloc 6 1 512 10\n"
        ++ codes "alloc 7 2 8 1530\nrealloc 6 8 3 8 1526 moved done\nalloc 9 1 512 512\n"
        ++ codes "alloc 10 4 8 1528\n"
        ++ codes "carrier 1 main owner 1 employed 1 base 0 pages 2 allocated 1016 largest 0\n"
        ++ codes "carrier 2 single owner 1 employed 1 base 2 pages 4 allocated 1530 largest 510\n"
        ++ codes "carrier 3 single owner 1 employed 1 base 6 pages 3 allocated 1526 largest 2\n"
        ++ codes "carrier 4 single owner 1 employed 1 base 9 pages 3 allocated 1528 largest 0\n"
        ++ codes "total carriers 4 units 6144 live 5600 queued 0 free 512 header 32\n") }
{}
