//! Allocator information: the figures now, since the last report, and ever. Random traces of several
//! schedulers whose carriers migrate are cases of the program.

ghost use Rattle.std.specs.Prelude.{◌≡◌, ◌++◌, codes, Some, []};
ghost use Rattle.ea_model.specs.Words.{words};
ghost use Rattle.ea_trials_definitions.specs.Texts.{text_of};

/// What the machine gives for worked words and inputs.
pub fn reports()
    ensures always_moving { text_of
        (words (codes "+MHsbct 1 +MHacfml 1 +MHmbsd 1000 +MHacul 0 +MHrsbcmt 100 +MHrmbcmt 10 "
        ++ codes "+MHas aoffcaobf +MHramv true +MMscs 8"))
        (codes "type H\nscheduler 1\nalloc 1 152176\nrealloc 1 2 76777\nfree 2\nfree 1\ninfo\n"
        ++ codes "schedule\n1*3 1*3\nend\n")
        ≡ Some
        (codes "scheduler 1\nalloc 1 1 8 19024\nrealloc 1 2 2 8 9600 moved done\nfree 2 done\n"
        ++ codes "free 1 skipped\n"
        ++ codes "info mbcs blocks 0 0 0 blocks_size 0 0 0 carriers 0 0 0 carriers_size 0 0 0\n"
        ++ codes "info sbcs blocks 0 1 1 blocks_size 0 19024 19024 "
        ++ codes "carriers 0 1 1 carriers_size 0 19456 19456\n"
        ++ codes "total carriers 0 units 0 live 0 queued 0 free 0 header 0\n") }
    ensures six_moves { text_of
        (words (codes "+MTsbct 4 +MTasbcst 4 +MTrsbcmt 0 +MTrmbcmt 75 +MTrsbcst 100 +MTsmbcs "
        ++ codes "4 +MTas aoffcaobf +MMscs 2"))
        (codes "type T\nscheduler 1\nalloc 1 4081\nrealloc 1 2 103\nrealloc 2 3 4104\n"
        ++ codes "alloc 4 4105\nrealloc 3 5 8215\nrealloc 5 6 0\nrealloc 6 7 40\nrealloc 4 8 4136\n"
        ++ codes "realloc 8 9 4041\nrealloc 7 10 4039\ninfo\nschedule\nend\n")
        ≡ Some
        (codes "scheduler 1\nalloc 1 1 8 512\nrealloc 1 2 1 520 14 moved done\n"
        ++ codes "realloc 2 3 2 8 514 moved done\nalloc 4 1 8 516\n"
        ++ codes "realloc 3 5 3 8 1028 moved done\nrealloc 5 6 2 8 6 moved done\n"
        ++ codes "realloc 6 7 2 8 6 here\nrealloc 4 8 1 8 518 here\n"
        ++ codes "realloc 8 9 3 8 508 moved done\nrealloc 7 10 3 516 506 moved done\n"
        ++ codes "info mbcs blocks 2 2 2 blocks_size 1014 1014 1014 "
        ++ codes "carriers 1 2 2 carriers_size 66048 66560 66560\n"
        ++ codes "info sbcs blocks 0 2 2 blocks_size 0 1544 1544 "
        ++ codes "carriers 0 2 2 carriers_size 0 2560 2560\n"
        ++ codes "carrier 3 multi owner 1 employed 1 base 3 pages 129 "
        ++ codes "allocated 1014 largest 65026\n"
        ++ codes "total carriers 1 units 66048 live 1014 queued 0 free 65026 header 8\n") }
    ensures beside_a_single { text_of
        (words (codes "+MTsbct 1 +MTasbcst 4 +MTrsbcmt 80 +MTrmbcmt 0 +MTrsbcst 1 +MTsmbcs 16 "
        ++ codes "+MMscs 2"))
        (codes "type T\nscheduler 1\nalloc 1 3185\nrealloc 1 2 3121\nfree 2\nalloc 3 7985\n"
        ++ codes "realloc 3 4 4039\nrealloc 4 5 8056\nrealloc 5 6 8040\nfree 6\nalloc 7 12216\n"
        ++ codes "alloc 8 39\ninfo\nschedule\nend\n")
        ≡ Some
        (codes "scheduler 1\nalloc 1 1 8 400\nrealloc 1 2 1 8 392 here\nfree 2 done\n"
        ++ codes "alloc 3 1 8 1000\nrealloc 3 4 1 8 506 here\nrealloc 4 5 1 8 1008 here\n"
        ++ codes "realloc 5 6 1 8 1006 here\nfree 6 done\nalloc 7 1 8 1528\nalloc 8 2 8 6\n"
        ++ codes "info mbcs blocks 1 1 1 blocks_size 6 6 6 "
        ++ codes "carriers 1 1 1 carriers_size 2048 2048 2048\n"
        ++ codes "info sbcs blocks 1 1 1 blocks_size 1528 1528 1528 "
        ++ codes "carriers 1 1 1 carriers_size 1536 1536 1536\n"
        ++ codes "carrier 1 single owner 1 employed 1 base 0 pages 3 allocated 1528 largest 0\n"
        ++ codes "carrier 2 multi owner 1 employed 1 base 3 pages 4 allocated 6 largest 2034\n"
        ++ codes "total carriers 2 units 3584 live 1534 queued 0 free 2034 header 16\n") }
    ensures freed_before { text_of
        (words (codes "+MLlmbcs 164 +MTacfml 1 +MHas aoffcaobf +MHacul 0 +MHrsbcst 99 "
        ++ codes "+MHrmbcmt 99"))
        (codes "type H\nscheduler 1\nalloc 1 156784\nfree 1\ninfo\nfree 1\nschedule\n1*3\n1*2\n"
        ++ codes "end\n")
        ≡ Some
        (codes "scheduler 1\nalloc 1 1 8 19600\nfree 1 done\n"
        ++ codes "info mbcs blocks 0 1 1 blocks_size 0 19600 19600 "
        ++ codes "carriers 0 1 1 carriers_size 0 32768 32768\n"
        ++ codes "info sbcs blocks 0 0 0 blocks_size 0 0 0 carriers 0 0 0 carriers_size 0 0 0\n"
        ++ codes "free 1 skipped\ntotal carriers 0 units 0 live 0 queued 0 free 0 header 0\n") }
    ensures eight_in_place { text_of
        (words (codes "+MTsbct 3 +MTasbcst 4 +MTrsbcmt 10 +MTrmbcmt 50 +MTrsbcst 0 +MTsmbcs 8 "
        ++ codes "+MMscs 1"))
        (codes "type T\nscheduler 1\nalloc 1 16312\nrealloc 1 2 12216\nrealloc 2 3 12135\n"
        ++ codes "realloc 3 4 12145\nrealloc 4 5 12136\nrealloc 5 6 12152\nalloc 7 313\n"
        ++ codes "realloc 7 8 376\nrealloc 8 9 375\nrealloc 9 10 312\ninfo\nschedule\nend")
        ≡ Some
        (codes "scheduler 1\nalloc 1 1 8 2040\nrealloc 1 2 1 8 1528 here\n"
        ++ codes "realloc 2 3 1 8 1518 here\nrealloc 3 4 1 8 1520 here\nrealloc 4 5 1 8 1518 here\n"
        ++ codes "realloc 5 6 1 8 1520 here\nalloc 7 2 8 42\nrealloc 7 8 2 8 48 here\n"
        ++ codes "realloc 8 9 2 8 48 here\nrealloc 9 10 2 8 40 here\n"
        ++ codes "info mbcs blocks 1 1 1 blocks_size 40 48 48 "
        ++ codes "carriers 1 1 1 carriers_size 1024 1024 1024\n"
        ++ codes "info sbcs blocks 1 1 1 blocks_size 1520 2040 2040 "
        ++ codes "carriers 1 1 1 carriers_size 1536 2048 2048\n"
        ++ codes "carrier 1 single owner 1 employed 1 base 0 pages 3 allocated 1520 largest 8\n"
        ++ codes "carrier 2 multi owner 1 employed 1 base 3 pages 2 allocated 40 largest 976\n"
        ++ codes "total carriers 2 units 2560 live 1560 queued 0 free 984 header 16\n") }
    ensures three_under_age_order { text_of
        (words (codes "+MTacfml 0 +MMscs 3 +MTacul 0 +MHmbcgs 2 +MTlmbcs 20 +S 3 +MTas "
        ++ codes "ageffcaoff +MSmbsd 50 +MTsbct 1 +MTsmbcs 2"))
        (codes "type T\nscheduler 1\nalloc 1 945\nalloc 4 761\nalloc 5 381\n  \nalloc 6 2600\n"
        ++ codes "alloc 7 845\nalloc 9 85\nfree 4\n  free 1\nrealloc 5 12 1048\nscheduler 2\n"
        ++ codes "alloc 2 3509\nalloc 3 1608\nalloc 10 80\nalloc 11 233\ngive 11 3\nscheduler 3\n"
        ++ codes "alloc 8 1008\ninfo\ngive 8 2\nfree 8\nschedule\n2*7 1*3 3*6\nend\n")
        ≡ Some
        (codes "scheduler 1\nalloc 1 1 8 120\nalloc 4 1 128 98\nalloc 5 1 226 50\n"
        ++ codes "alloc 6 2 8 326\nalloc 7 1 276 108\nalloc 9 1 384 12\nfree 4 done\nfree 1 done\n"
        ++ codes "realloc 5 12 3 8 132 moved done\nscheduler 2\nalloc 2 1025 8 440\n"
        ++ codes "alloc 3 1026 8 202\nalloc 10 1027 8 12\nalloc 11 1027 20 32\ngive 11 3\n"
        ++ codes "scheduler 3\nalloc 8 2049 8 128\n"
        ++ codes "info mbcs blocks 1 1 1 blocks_size 128 128 128 "
        ++ codes "carriers 1 1 1 carriers_size 512 512 512\n"
        ++ codes "info sbcs blocks 0 0 0 blocks_size 0 0 0 carriers 0 0 0 carriers_size 0 0 0\n"
        ++ codes "give 8 2\nfree 8 skipped\n"
        ++ codes "carrier 1 multi owner 1 employed 1 base 0 pages 1 allocated 120 largest 268\n"
        ++ codes "carrier 2 single owner 1 employed 1 base 1 pages 1 allocated 326 largest 178\n"
        ++ codes "carrier 3 single owner 1 employed 1 base 2 pages 1 allocated 132 largest 372\n"
        ++ codes "carrier 1025 single owner 2 employed 2 base 256 pages 1 "
        ++ codes "allocated 440 largest 64\n"
        ++ codes "carrier 1026 single owner 2 employed 2 base 257 pages 1 "
        ++ codes "allocated 202 largest 302\n"
        ++ codes "carrier 1027 multi owner 2 employed 2 base 258 pages 1 allocated 44 largest 460\n"
        ++ codes "carrier 2049 multi owner 3 employed 3 base 512 pages 1 "
        ++ codes "allocated 128 largest 376\n"
        ++ codes "total carriers 7 units 3584 live 1392 queued 0 free 2136 header 56\n") }
    ensures three_under_good_fit { text_of
        (words (codes "+MSas gf +MSacfml 4000 +MSrsbcmt 1 +MSrsbcst 25 +S 3 +MSsmbcs 12 "
        ++ codes "+MSacul 0 +MSlmbcs 12 +MSmbsd 5 +MSasbcst 0"))
        (codes "type S\nscheduler 1\nalloc 2 4041\nalloc 3 2360\nalloc 4 526680\ngive 4 3\n"
        ++ codes "alloc 7 6789\nscheduler 2\nalloc 5 10416\nscheduler 3\nalloc 1 40\nalloc 6 9056\n"
        ++ codes "info\nschedule\nend\n")
        ≡ Some
        (codes "scheduler 1\nalloc 2 1 8 508\nalloc 3 1 516 296\nalloc 4 2 8 65836\ngive 4 3\n"
        ++ codes "alloc 7 3 8 850\nscheduler 2\nalloc 5 1025 8 1304\nscheduler 3\n"
        ++ codes "alloc 1 2049 8 6\n"
        ++ codes "alloc 6 2049 14 1134\n"
        ++ codes "info mbcs blocks 2 2 2 blocks_size 1140 1140 1140 "
        ++ codes "carriers 1 1 1 carriers_size 1536 1536 1536\n"
        ++ codes "info sbcs blocks 0 0 0 blocks_size 0 0 0 carriers 0 0 0 carriers_size 0 0 0\n"
        ++ codes "carrier 1 multi owner 1 employed 1 base 0 pages 3 allocated 804 largest 724\n"
        ++ codes "carrier 2 single owner 1 employed 1 base 3 pages 129 "
        ++ codes "allocated 65836 largest 204\n"
        ++ codes "carrier 3 multi owner 1 employed 1 base 132 pages 3 allocated 850 largest 678\n"
        ++ codes "carrier 1025 multi owner 2 employed 2 base 5461 pages 3 "
        ++ codes "allocated 1304 largest 224\n"
        ++ codes "carrier 2049 multi owner 3 employed 3 base 10922 pages 3 "
        ++ codes "allocated 1140 largest 388\n"
        ++ codes "total carriers 5 units 72192 live 69934 queued 0 free 2218 header 40\n") }
    ensures five_main_carriers { text_of
        (words (codes "+MHmbcgs 1 +MHas ageffcaobf +MHacul 0 +MHrmbcmt 50 +MBramv false "
        ++ codes "+MMscs 1 +MHmmbcs 16 +S 0000000005"))
        (codes "type H\nscheduler 1\nscheduler 2\nidle\nscheduler 3\ninfo\nscheduler 4\n"
        ++ codes "alloc 1 163521\ngive 1 2\nalloc 3 251280\nscheduler 5\nalloc 2 67096\nidle\n"
        ++ codes "schedule\n3*2 2*2 5*3\n1*1 4*5\nend\n")
        ≡ Some
        (codes "scheduler 1\nscheduler 2\nidle\nscheduler 3\n"
        ++ codes "info mbcs blocks 0 0 0 blocks_size 0 0 0 "
        ++ codes "carriers 1 1 1 carriers_size 2048 2048 2048\n"
        ++ codes "info sbcs blocks 0 0 0 blocks_size 0 0 0 carriers 0 0 0 carriers_size 0 0 0\n"
        ++ codes "scheduler 4\nalloc 1 3074 8 20442\ngive 1 2\n"
        ++ codes "alloc 3 fail need 31412 looked 0 space\nscheduler 5\nalloc 2 4098 8 8388\nidle\n"
        ++ codes "carrier 1 main owner 1 employed 1 base 0 pages 4 allocated 0 largest 2040\n"
        ++ codes "carrier 1025 main owner 2 employed 2 base 51 pages 4 allocated 0 largest 2040\n"
        ++ codes "carrier 2049 main owner 3 employed 3 base 102 pages 4 allocated 0 largest 2040\n"
        ++ codes "carrier 3073 main owner 4 employed 4 base 153 pages 4 allocated 0 largest 2040\n"
        ++ codes "carrier 3074 multi owner 4 employed 4 base 157 pages 40 "
        ++ codes "allocated 20442 largest 30\n"
        ++ codes "carrier 4097 main owner 5 employed 5 base 204 pages 4 allocated 0 largest 2040\n"
        ++ codes "carrier 4098 multi owner 5 employed 5 base 208 pages 17 "
        ++ codes "allocated 8388 largest 308\n"
        ++ codes "total carriers 7 units 39424 live 28830 queued 0 free 10538 header 56\n") }
    ensures three_main_carriers { text_of
        (words (codes "+S 03 +MEsbct 8 +MMscs 1 +MEmmbcs 1 +MEacul 0 +MRrsbcmt 100 +MEmbsd 5 "
        ++ codes "+MEas bf"))
        (codes "type E\nscheduler 1\nalloc 1 32\nalloc 6 149\nrealloc 1 7 3141\nfree 7\n"
        ++ codes "scheduler 2\nalloc 2 152\nfree 2\ngive 2 1\ninfo\nscheduler 3\nalloc 3 8168\n"
        ++ codes "alloc 4 63848\nalloc 5 57832\nschedule\n1*2 2*5 3*2\nend\n")
        ≡ Some
        (codes "scheduler 1\nalloc 1 1 8 6\nalloc 6 1 14 20\nrealloc 1 7 1 34 394 moved done\n"
        ++ codes "free 7 done\nscheduler 2\nalloc 2 1025 8 20\nfree 2 done\ngive 2 1 skipped\n"
        ++ codes "info mbcs blocks 0 1 1 blocks_size 0 20 20 "
        ++ codes "carriers 1 1 1 carriers_size 512 512 512\n"
        ++ codes "info sbcs blocks 0 0 0 blocks_size 0 0 0 carriers 0 0 0 carriers_size 0 0 0\n"
        ++ codes "scheduler 3\nalloc 3 2050 8 1022\nalloc 4 2051 8 7982\n"
        ++ codes "alloc 5 fail need 7230 looked 0 space\n"
        ++ codes "carrier 1 main owner 1 employed 1 base 0 pages 1 allocated 20 largest 478\n"
        ++ codes "carrier 1025 main owner 2 employed 2 base 85 pages 1 allocated 0 largest 504\n"
        ++ codes "carrier 2049 main owner 3 employed 3 base 170 pages 1 allocated 0 largest 504\n"
        ++ codes "carrier 2050 multi owner 3 employed 3 base 171 pages 64 "
        ++ codes "allocated 1022 largest 31738\n"
        ++ codes "carrier 2051 single owner 3 employed 3 base 235 pages 16 "
        ++ codes "allocated 7982 largest 202\n"
        ++ codes "total carriers 5 units 42496 live 9024 queued 0 free 33432 header 40\n") }
    ensures four_main_carriers { text_of
        (words (codes "+MMsco true +MHsbct 2 +MHmbsd 3 +MHmbcgs 1 +MHsmbcs 4 +MHmmbcs 1 +S 04 "
        ++ codes "+MHacul 0 +MHas aoffcaobf +MHlmbcs 1 +MHasbcst 1024"))
        (codes "type H\nscheduler 1\nalloc 4 152\ngive 4 2\nalloc 17 2680\ngive 17 1\nidle\n"
        ++ codes "scheduler 2\nalloc 2 0\nalloc 3 701\nalloc 12 319992\nalloc 14 152\nfree 12\n"
        ++ codes "info\nalloc 16 3925\nalloc 18 149\ntake 4 40\ngive 3 4\nrealloc 16 20 1640\n"
        ++ codes "scheduler 3\nalloc 1 88\nalloc 8 4024\nalloc 9 197\nalloc 13 45\n"
        ++ codes "realloc 1 19 464\nfree 9\nscheduler 4\nalloc 5 2016\nalloc 6 1216\nalloc 7 1937\n"
        ++ codes "alloc 10 48\nrealloc 10 11 88\nrealloc 7 15 905\nschedule\n2*53 1*8 4*7 3*1 3*6\n"
        ++ codes "end\n")
        ≡ Some
        (codes "scheduler 1\nalloc 4 1 8 20\ngive 4 2\nalloc 17 2 8 336\ngive 17 1\nidle\n"
        ++ codes "scheduler 2\nalloc 2 1025 8 6\nalloc 3 1025 14 90\nalloc 12 1026 8 40000\n"
        ++ codes "alloc 14 1025 104 20\nfree 12 done\n"
        ++ codes "info mbcs blocks 3 3 3 blocks_size 116 116 116 "
        ++ codes "carriers 1 1 1 carriers_size 512 512 512\n"
        ++ codes "info sbcs blocks 0 1 1 blocks_size 0 40000 40000 "
        ++ codes "carriers 0 1 1 carriers_size 0 40448 40448\nalloc 16 1026 8 492\n"
        ++ codes "alloc 18 1025 124 20\ntake 4 absent 40\ngive 3 4\nrealloc 16 20 1026 8 206 here\n"
        ++ codes "scheduler 3\nalloc 1 2049 8 12\nalloc 8 2050 8 504\nalloc 9 2049 20 26\n"
        ++ codes "alloc 13 2049 46 8\nrealloc 1 19 2049 54 60 moved done\nfree 9 done\n"
        ++ codes "scheduler 4\n"
        ++ codes "alloc 5 3073 8 254\nalloc 6 3073 262 154\nalloc 7 3074 8 244\n"
        ++ codes "alloc 10 3073 416 8\n"
        ++ codes "realloc 10 11 3073 416 12 here\nrealloc 7 15 3074 252 116 moved done\n"
        ++ codes "carrier 1 main owner 1 employed 1 base 0 pages 1 allocated 20 largest 484\n"
        ++ codes "carrier 2 single owner 1 employed 1 base 1 pages 1 allocated 336 largest 168\n"
        ++ codes "carrier 1025 main owner 2 employed 2 base 4096 pages 1 "
        ++ codes "allocated 136 largest 368\n"
        ++ codes "carrier 1026 single owner 2 employed 2 base 4097 pages 1 "
        ++ codes "allocated 206 largest 298\n"
        ++ codes "carrier 2049 main owner 3 employed 3 base 8192 pages 1 allocated 68 largest 398\n"
        ++ codes "carrier 2050 single owner 3 employed 3 base 8193 pages 1 "
        ++ codes "allocated 504 largest 0\n"
        ++ codes "carrier 3073 main owner 4 employed 4 base 12288 pages 1 "
        ++ codes "allocated 420 largest 84\n"
        ++ codes "carrier 3074 multi owner 4 employed 4 base 12289 pages 1 "
        ++ codes "allocated 116 largest 244\n"
        ++ codes "total carriers 8 units 4096 live 1806 queued 0 free 2226 header 64\n") }
    ensures gaps_never_large_enough { text_of
        (words (codes "+Muas aoff +S 03 +Mursbcst 50 +Mumbsd 1 +Musmbcs 4 +MMsco true "
        ++ codes "+Mulmbcs 1 +Muacfml 1073741823 +MMscs 2 +Muacul de"))
        (codes "type T\nscheduler 1\nalloc 3 800\ninfo\nscheduler 2\nalloc 4 233\nscheduler 3\n"
        ++ codes "alloc 1 101\nrealloc 1 2 101\ninfo\nschedule\n3 3*3\n2 2*1 1*3\nend\n")
        ≡ Some
        (codes "scheduler 1\nalloc 3 1 8 102\n"
        ++ codes "info mbcs blocks 1 1 1 blocks_size 102 102 102 "
        ++ codes "carriers 1 1 1 carriers_size 512 512 512\n"
        ++ codes "info sbcs blocks 0 0 0 blocks_size 0 0 0 carriers 0 0 0 carriers_size 0 0 0\n"
        ++ codes "scheduler 2\nalloc 4 1025 8 32\nscheduler 3\nalloc 1 2049 8 14\n"
        ++ codes "realloc 1 2 2049 8 14 here\n"
        ++ codes "info mbcs blocks 1 1 1 blocks_size 14 14 14 "
        ++ codes "carriers 1 1 1 carriers_size 512 512 512\n"
        ++ codes "info sbcs blocks 0 0 0 blocks_size 0 0 0 carriers 0 0 0 carriers_size 0 0 0\n"
        ++ codes "carrier 1 multi owner 1 employed 1 base 0 pages 1 allocated 102 largest 402\n"
        ++ codes "carrier 1025 multi owner 2 employed 2 base 170 pages 1 allocated 32 largest 472\n"
        ++ codes "carrier 2049 multi owner 3 employed 3 base 340 pages 1 allocated 14 largest 490\n"
        ++ codes "total carriers 3 units 1536 live 148 queued 0 free 1364 header 24\n") }
    ensures five_that_idle { text_of
        (words (codes "+S 5 +MHasbcst 4 +MHrmbcmt 0 +MHrsbcmt 0 +MHas aoffcaobf +MHacul 0 "
        ++ codes "+MMscs 8"))
        (codes "type H\nscheduler 1\nalloc 2 247128\nfree 2\nalloc 3 233\nrealloc 3 216 156248\n"
        ++ codes "alloc 220 101\nrealloc 216 222 79233\nfree 220\nscheduler 2\nalloc 215 32\n"
        ++ codes "alloc  217  32\nalloc 223 101\nfree 223\nidle\nscheduler 3\nidle\nscheduler 4\n"
        ++ codes "alloc 1 13869\nalloc 218 104\ninfo\nfree 1\nalloc 221 27221\nalloc 224 49\nidle\n"
        ++ codes "scheduler 5\nalloc 219 43261\ngive 219 3\nalloc 225 75032\nidle\nschedule\n"
        ++ codes "end\n")
        ≡ Some
        (codes "scheduler 1\nalloc 2 1 8 30892\nfree 2 done\nalloc 3 1 8 32\n"
        ++ codes "realloc 3 216 1 8 19532 here\nalloc 220 1 19540 14\n"
        ++ codes "realloc 216 222 1 19554 9906 moved done\nfree 220 done\nscheduler 2\n"
        ++ codes "alloc 215 1025 8 6\nalloc 217 1025 14 6\nalloc 223 1025 20 14\nfree 223 done\n"
        ++ codes "idle\n"
        ++ codes "scheduler 3\nidle\nscheduler 4\nalloc 1 3073 8 1736\nalloc 218 3073 1744 14\n"
        ++ codes "info mbcs blocks 2 2 2 blocks_size 1750 1750 1750 "
        ++ codes "carriers 1 1 1 carriers_size 32768 32768 32768\n"
        ++ codes "info sbcs blocks 0 0 0 blocks_size 0 0 0 carriers 0 0 0 carriers_size 0 0 0\n"
        ++ codes "free 1 done\nalloc 221 3073 1758 3404\nalloc 224 3073 8 8\nidle\nscheduler 5\n"
        ++ codes "alloc 219 4097 8 5410\ngive 219 3\nalloc 225 4097 5418 9380\nidle\n"
        ++ codes "carrier 1 multi owner 1 employed 1 base 0 pages 64 allocated 9906 largest 19546\n"
        ++ codes "carrier 1025 multi owner 2 employed 2 base 409 pages 64 "
        ++ codes "allocated 12 largest 32748\n"
        ++ codes "carrier 3073 multi owner 4 employed 4 base 1227 pages 64 "
        ++ codes "allocated 3426 largest 27606\n"
        ++ codes "carrier 4097 multi owner 5 employed 5 base 1636 pages 64 "
        ++ codes "allocated 14790 largest 17970\n"
        ++ codes "total carriers 4 units 131072 live 28134 queued 0 free 102906 header 32\n") }
    ensures three_always_moving { text_of
        (words (codes "+MDacul 0 +MDsmbcs 16 +MDmbsd 3 +S 0000000003 +MMscs 1 +MDramv true "
        ++ codes "+MDlmbcs 50 +MDrsbcst 1"))
        (codes "type D\nscheduler 1\nalloc 2 49\ngive 2 2\nfree 2\nalloc 5 6032\ninfo\n"
        ++ codes "scheduler 2\nalloc 1 9849\nalloc 4 7673\nscheduler 3\nalloc 3 32\nalloc 6 3328\n"
        ++ codes "give 3 3\nidle\nschedule\n3*1 1 3*5 2*3\n1*6\nend")
        ≡ Some
        (codes "scheduler 1\nalloc 2 1 8 8\ngive 2 2\nfree 2 skipped\nalloc 5 1 16 756\n"
        ++ codes "info mbcs blocks 2 2 2 blocks_size 764 764 764 "
        ++ codes "carriers 1 1 1 carriers_size 2048 2048 2048\n"
        ++ codes "info sbcs blocks 0 0 0 blocks_size 0 0 0 carriers 0 0 0 carriers_size 0 0 0\n"
        ++ codes "scheduler 2\nalloc 1 1025 8 1234\nalloc 4 1026 8 962\nscheduler 3\n"
        ++ codes "alloc 3 2049 8 6\nalloc 6 2049 14 418\ngive 3 3\nidle\n"
        ++ codes "carrier 1 multi owner 1 employed 1 base 0 pages 4 allocated 764 largest 1276\n"
        ++ codes "carrier 1025 multi owner 2 employed 2 base 85 pages 4 "
        ++ codes "allocated 1234 largest 806\n"
        ++ codes "carrier 1026 multi owner 2 employed 2 base 89 pages 5 "
        ++ codes "allocated 962 largest 1590\n"
        ++ codes "carrier 2049 multi owner 3 employed 3 base 170 pages 4 "
        ++ codes "allocated 424 largest 1616\n"
        ++ codes "total carriers 4 units 8704 live 3384 queued 0 free 5288 header 32\n") }
    ensures three_of_temporary_blocks { text_of
        (words (codes "+MTlmbcs 50 +MTrsbcst 99 +MTsbct 1 +MTas aobf +MTacul 60 +MMsco true "
        ++ codes "+MTmbsd 2 +MRrsbcst 100 +S 3 +MTsmbcs 16"))
        (codes "type T\nscheduler 1\nscheduler 2\nalloc 1 39989\ninfo\ngive 1 3\nscheduler 3\n"
        ++ codes "alloc 2 152\nschedule\n3*2 2*5 1\nend\n")
        ≡ Some
        (codes "scheduler 1\nscheduler 2\nalloc 1 1025 8 5000\n"
        ++ codes "info mbcs blocks 0 0 0 blocks_size 0 0 0 carriers 0 0 0 carriers_size 0 0 0\n"
        ++ codes "info sbcs blocks 1 1 1 blocks_size 5000 5000 5000 "
        ++ codes "carriers 1 1 1 carriers_size 5120 5120 5120\ngive 1 3\nscheduler 3\n"
        ++ codes "alloc 2 2049 8 20\n"
        ++ codes "carrier 1025 single owner 2 employed 2 base 5461 pages 10 "
        ++ codes "allocated 5000 largest 112\n"
        ++ codes "carrier 2049 multi owner 3 employed 3 base 10922 pages 4 "
        ++ codes "allocated 20 largest 2020\n"
        ++ codes "total carriers 2 units 7168 live 5020 queued 0 free 2132 header 16\n") }
    ensures both_blocks_observed { text_of (words (codes "+MHramv true"))
        (codes "type H\nscheduler 1\nalloc 1 100\nrealloc 1 2 100\ninfo\nschedule\nend\n")
        ≡ Some
        (codes "scheduler 1\nalloc 1 1 8 14\nrealloc 1 2 1 22 14 moved done\n"
        ++ codes "info mbcs blocks 0 2 2 blocks_size 0 28 28 "
        ++ codes "carriers 0 1 1 carriers_size 0 32768 32768\n"
        ++ codes "info sbcs blocks 0 0 0 blocks_size 0 0 0 carriers 0 0 0 carriers_size 0 0 0\n"
        ++ codes "carrier 1 multi owner 1 pooled 1 base 0 pages 64 allocated 14 largest 32732\n"
        ++ codes "total carriers 1 units 32768 live 14 queued 0 free 32746 header 8\n") }
    ensures one_block_observed { text_of (words (codes "+MHramv true +MHacul 0"))
        (codes "type H\nscheduler 1\nalloc 1 100\nrealloc 1 2 100\ninfo\nschedule\nend\n")
        ≡ Some
        (codes "scheduler 1\nalloc 1 1 8 14\nrealloc 1 2 1 22 14 moved done\n"
        ++ codes "info mbcs blocks 1 1 1 blocks_size 14 14 14 "
        ++ codes "carriers 1 1 1 carriers_size 32768 32768 32768\n"
        ++ codes "info sbcs blocks 0 0 0 blocks_size 0 0 0 carriers 0 0 0 carriers_size 0 0 0\n"
        ++ codes "carrier 1 multi owner 1 employed 1 base 0 pages 64 allocated 14 largest 32732\n"
        ++ codes "total carriers 1 units 32768 live 14 queued 0 free 32746 header 8\n") }
    ensures emptied_in_the_pool { text_of []
        (codes "type H\nscheduler 1\nalloc 1 100\nalloc 2 100\nfree 1\ninfo\nfree 2\ninfo\n"
        ++ codes "schedule\nend\n")
        ≡ Some
        (codes "scheduler 1\nalloc 1 1 8 14\nalloc 2 1 22 14\nfree 1 done\n"
        ++ codes "info mbcs blocks 0 2 2 blocks_size 0 28 28 "
        ++ codes "carriers 0 1 1 carriers_size 0 32768 32768\n"
        ++ codes "info sbcs blocks 0 0 0 blocks_size 0 0 0 carriers 0 0 0 carriers_size 0 0 0\n"
        ++ codes "free 2 done\n"
        ++ codes "info mbcs blocks 0 0 2 blocks_size 0 0 28 "
        ++ codes "carriers 0 1 1 carriers_size 0 32768 32768\n"
        ++ codes "info sbcs blocks 0 0 0 blocks_size 0 0 0 carriers 0 0 0 carriers_size 0 0 0\n"
        ++ codes "total carriers 0 units 0 live 0 queued 0 free 0 header 0\n") }
{}
