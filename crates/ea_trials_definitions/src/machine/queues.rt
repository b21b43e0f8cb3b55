//! Several schedulers whose carriers don't migrate: names that are given, taken, freed elsewhere.

ghost use Rattle.std.specs.Prelude.{◌≡◌, ◌++◌, codes, Some};
ghost use Rattle.ea_model.specs.Words.{words};
ghost use Rattle.ea_trials_definitions.specs.Texts.{text_of};

/// What the machine gives for worked words and inputs.
pub fn queues()
    ensures resting_walk { text_of (words (codes "+S 2 +MHacul 0"))
        (codes "type H\nscheduler 1\nalloc 1 100\ngive 1 2\nidle\nscheduler 2\ntake 1 1\nfree 1\n"
        ++ codes "schedule\n1*3 2*4\nend\n")
        ≡ Some
        (codes "scheduler 1\nalloc 1 1 8 14\ngive 1 2\nidle\nscheduler 2\ntake 1 got\n"
        ++ codes "free 1 queued 1\n"
        ++ codes "carrier 1 multi owner 1 employed 1 base 0 pages 64 allocated 14 largest 32746\n"
        ++ codes "total carriers 1 units 32768 live 0 queued 14 free 32746 header 8\n") }
    ensures take_absent { text_of (words (codes "+S 2 +MHacul 0"))
        (codes "type H\nscheduler 1\nalloc 1 100\ngive 1 2\nscheduler 2\ntake 1 3\ntake 1 1\n"
        ++ codes "schedule\n2*4\nend\n")
        ≡ Some
        (codes "scheduler 1\nalloc 1 1 8 14\ngive 1 2\nscheduler 2\ntake 1 absent 3\ntake 1 got\n"
        ++ codes "carrier 1 multi owner 1 employed 1 base 0 pages 64 allocated 14 largest 32746\n"
        ++ codes "total carriers 1 units 32768 live 14 queued 0 free 32746 header 8\n") }
    ensures taken_block_moves { text_of (words (codes "+S 2 +MHacul 0"))
        (codes "type H\nscheduler 1\nalloc 1 100\ngive 1 2\nidle\nscheduler 2\ntake 1 1\n"
        ++ codes "realloc 1 2 200\nschedule\nend\n")
        ≡ Some
        (codes "scheduler 1\nalloc 1 1 8 14\ngive 1 2\nidle\nscheduler 2\ntake 1 got\n"
        ++ codes "realloc 1 2 1025 8 26 moved queued 1\n"
        ++ codes "carrier 1 multi owner 1 employed 1 base 0 pages 64 allocated 14 largest 32746\n"
        ++ codes "carrier 1025 multi owner 2 employed 2 base 8192 pages 64 "
        ++ codes "allocated 26 largest 32734\n"
        ++ codes "total carriers 2 units 65536 live 26 queued 14 free 65480 header 16\n") }
    ensures temporary_blocks_always_move { text_of
        (words (codes "+MTrmbcmt 100 +MTramv true +MTacul de +MMscs 2 +MTmbsd 1 +S 2 "
        ++ codes "+MTrsbcmt 50 +MTrsbcst 0 +MTmbcgs 10000"))
        (codes "type T\nscheduler 1\nalloc 1 101\nfree 1\ngive 1 2\nrealloc 1 4 7488\nfree 4\n"
        ++ codes "give 4 2\nalloc 5 48\nalloc 6 14704\nalloc 7 48\nrealloc 6 8 208701\nalloc 11 0\n"
        ++ codes "scheduler 2\nalloc 2 142512\nfree 2\nfree 2\nalloc 3 8965\nfree 3\n"
        ++ codes "alloc 9 195656\nrealloc 9 10 24480\nschedule\n2*1 2*7\n1*12\nend\n")
        ≡ Some
        (codes "scheduler 1\nalloc 1 1 8 14\nfree 1 done\ngive 1 2 skipped\nrealloc 1 4 skipped\n"
        ++ codes "free 4 skipped\ngive 4 2 skipped\nalloc 5 1 8 8\nalloc 6 1 16 1840\n"
        ++ codes "alloc 7 1 1856 8\nrealloc 6 8 1 1864 26090 moved done\nalloc 11 1 16 6\n"
        ++ codes "scheduler 2\nalloc 2 1025 8 17816\nfree 2 done\nfree 2 skipped\n"
        ++ codes "alloc 3 1025 8 1122\nfree 3 done\nalloc 9 1025 8 24458\n"
        ++ codes "realloc 9 10 1025 24466 3062 moved done\n"
        ++ codes "carrier 1 multi owner 1 employed 1 base 0 pages 64 allocated 26112 largest 4814\n"
        ++ codes "carrier 1025 multi owner 2 employed 2 base 256 pages 64 "
        ++ codes "allocated 3062 largest 24458\n"
        ++ codes "total carriers 2 units 65536 live 29174 queued 0 free 36346 header 16\n") }
    ensures five_with_singles { text_of
        (words (codes "+MRacul 0 +MRmbsd 1000 +MRmbcgs 1 +S 0000000005 +MRlmbcs 16 +MMscs 1 "
        ++ codes "+MRas aobf +MRsbct 1 +MRasbcst 0 +MRsmbcs 16"))
        (codes "type R\nscheduler 1\nalloc 1 6424\ngive 1 2\nalloc 7 1033\nfree 7\nfree 7\n"
        ++ codes "give 7 4\nalloc 14 4248\nrealloc 14 15 1232\nrealloc 15 17 4744\n"
        ++ codes "realloc 1 20 40\nalloc 21 0\ngive 17 2\nscheduler 2\nalloc 3 2461\nalloc 4 88\n"
        ++ codes "alloc 9 7581\nalloc 13 45\nrealloc 4 16 2136\nalloc 18 88\nfree 16\ngive 13 1\n"
        ++ codes "realloc 3 22 4424\nfree 22\nalloc 23 32\ngive 9 5\nalloc 25 152\ngive 18 3\n"
        ++ codes "scheduler 3\nalloc 5 229\nfree 5\ngive 5 2\nalloc 8 319989\nfree 8\nfree 8\n"
        ++ codes "give 8 5\nscheduler 4\nalloc 6 45\nfree 6\n  free 6 \nfree 6\ntake 7 2\n"
        ++ codes "scheduler 5\nalloc 2 14497\ngive 2 5\nalloc 10 4984\nrealloc 10 11 104\n"
        ++ codes "alloc 12 6816\nalloc 19 1077\nalloc 24 16313\nschedule\n3*8 1*15\n"
        ++ codes "4*8 2*18 5*4 5*5\nend\n")
        ≡ Some
        (codes "scheduler 1\nalloc 1 1 8 804\ngive 1 2\nalloc 7 2 8 132\nfree 7 done\n"
        ++ codes "free 7 skipped\ngive 7 4 skipped\nalloc 14 2 8 532\nrealloc 14 15 2 8 156 here\n"
        ++ codes "realloc 15 17 3 8 594 moved done\nrealloc 1 20 skipped\nalloc 21 2 8 6\n"
        ++ codes "give 17 2\nscheduler 2\nalloc 3 1025 8 310\nalloc 4 1026 8 12\n"
        ++ codes "alloc 9 1027 8 950\n"
        ++ codes "alloc 13 1026 20 8\nrealloc 4 16 1028 8 268 moved done\nalloc 18 1026 8 12\n"
        ++ codes "free 16 done\ngive 13 1\nrealloc 3 22 1028 8 554 moved done\nfree 22 done\n"
        ++ codes "alloc 23 1026 28 6\ngive 9 5\nalloc 25 1026 34 20\ngive 18 3\nscheduler 3\n"
        ++ codes "alloc 5 2049 8 30\nfree 5 done\ngive 5 2 skipped\n"
        ++ codes "alloc 8 fail need 40000 looked 0 space\nfree 8 skipped\nfree 8 skipped\n"
        ++ codes "give 8 5 skipped\nscheduler 4\nalloc 6 3073 8 8\nfree 6 done\nfree 6 skipped\n"
        ++ codes "free 6 skipped\ntake 7 absent 2\nscheduler 5\nalloc 2 4097 8 1814\ngive 2 5\n"
        ++ codes "alloc 10 4098 8 624\nrealloc 10 11 4099 8 14 moved done\nalloc 12 4098 8 854\n"
        ++ codes "alloc 19 4100 8 136\nalloc 24 4101 8 2042\n"
        ++ codes "carrier 1 single owner 1 employed 1 base 0 pages 2 allocated 804 largest 212\n"
        ++ codes "carrier 2 multi owner 1 employed 1 base 5 pages 4 allocated 6 largest 2034\n"
        ++ codes "carrier 3 single owner 1 employed 1 base 3 pages 2 allocated 594 largest 422\n"
        ++ codes "carrier 1026 multi owner 2 employed 2 base 52 pages 4 allocated 46 largest 1994\n"
        ++ codes "carrier 1027 single owner 2 employed 2 base 56 pages 2 allocated 950 largest 66\n"
        ++ codes "carrier 4097 single owner 5 employed 5 base 204 pages 4 "
        ++ codes "allocated 1814 largest 226\n"
        ++ codes "carrier 4098 single owner 5 employed 5 base 208 pages 2 "
        ++ codes "allocated 854 largest 162\n"
        ++ codes "carrier 4099 multi owner 5 employed 5 base 210 pages 4 "
        ++ codes "allocated 14 largest 2026\n"
        ++ codes "carrier 4100 single owner 5 employed 5 base 214 pages 1 "
        ++ codes "allocated 136 largest 368\n"
        ++ codes "carrier 4101 single owner 5 employed 5 base 215 pages 5 "
        ++ codes "allocated 2042 largest 510\n"
        ++ codes "total carriers 10 units 15360 live 7260 queued 0 free 8020 header 80\n") }
    ensures two_under_address_fit { text_of
        (words (codes "+MLasbcst 1 +MLacfml 1 +MLlmbcs 1 +MLas af +MLsbct 8 +MLsmbcs 16 "
        ++ codes "+MMscs 4 +S 2 +MLacul 0"))
        (codes "  type L\nscheduler 1\nalloc 2 1400\nalloc 3 1192\n  \nfree 3\nalloc 5 361\n"
        ++ codes "alloc 6 4377\ngive 2 1\nalloc 7 1373\nfree 5\nrealloc 6 10 3953\n"
        ++ codes "realloc 7 13 1384\nalloc 14 16032\nalloc 15 4353\nalloc 16 37\nfree 16\n"
        ++ codes "alloc 19 14600\nrealloc 6 21 2101\nfree 13\ntake 2 40\ntake 4 1\nfree 4\n"
        ++ codes "alloc 27 8197\nscheduler 2\nalloc 1 8873\nfree 1\nalloc 4 2217\n"
        ++ codes " realloc 4 8 2544\nrealloc 1 9 48\nfree 8\ngive 4 1\nrealloc 1 11 14768\n"
        ++ codes "alloc 12 153\nfree 12\nfree 9\nalloc 17 0\nalloc 18 16376\nfree 17\nalloc 20 48\n"
        ++ codes "alloc 22 232\nalloc 23 3504\nalloc 24 833\nalloc 25 1609\nalloc 26 4520\n"
        ++ codes "free 23\nfree 9\nfree 18\nschedule\n1*25 2*24\nend\n")
        ≡ Some
        (codes "scheduler 1\nalloc 2 1 8 176\nalloc 3 1 184 150\nfree 3 done\nalloc 5 1 184 48\n"
        ++ codes "alloc 6 1 232 550\ngive 2 1\nalloc 7 1 782 174\nfree 5 done\n"
        ++ codes "realloc 6 10 1 232 496 here\nrealloc 7 13 1 782 174 here\nalloc 14 2 8 2006\n"
        ++ codes "alloc 15 3 8 546\nalloc 16 1 184 6\nfree 16 done\nalloc 19 4 8 1826\n"
        ++ codes "realloc 6 21 skipped\nfree 13 done\ntake 2 got\ntake 4 absent 1\nfree 4 skipped\n"
        ++ codes "alloc 27 5 8 1026\nscheduler 2\nalloc 1 1025 8 1112\nfree 1 done\n"
        ++ codes "alloc 4 1025 8 280\nrealloc 4 8 1025 8 320 here\nrealloc 1 9 skipped\n"
        ++ codes "free 8 done\n"
        ++ codes "give 4 1 skipped\nrealloc 1 11 skipped\nalloc 12 1025 8 22\nfree 12 done\n"
        ++ codes "free 9 skipped\nalloc 17 1025 8 6\nalloc 18 1026 8 2048\nfree 17 done\n"
        ++ codes "alloc 20 1025 8 8\nalloc 22 1025 16 30\nalloc 23 1025 46 440\n"
        ++ codes "alloc 24 1025 486 106\n"
        ++ codes "alloc 25 1025 592 204\nalloc 26 1025 796 566\nfree 23 done\nfree 9 skipped\n"
        ++ codes "free 18 done\n"
        ++ codes "carrier 1 multi owner 1 employed 1 base 0 pages 4 allocated 672 largest 1320\n"
        ++ codes "carrier 2 single owner 1 employed 1 base 4 pages 4 allocated 2006 largest 34\n"
        ++ codes "carrier 3 multi owner 1 employed 1 base 8 pages 4 allocated 546 largest 1494\n"
        ++ codes "carrier 4 single owner 1 employed 1 base 12 pages 4 allocated 1826 largest 214\n"
        ++ codes "carrier 5 single owner 1 employed 1 base 16 pages 3 allocated 1026 largest 502\n"
        ++ codes "carrier 1025 multi owner 2 employed 2 base 512 pages 4 "
        ++ codes "allocated 914 largest 686\n"
        ++ codes "total carriers 6 units 11776 live 6990 queued 0 free 4738 header 48\n") }
    ensures two_under_best_fit { text_of
        (words (codes "+MEasbcst 1024 +MEas bf +MErmbcmt 10 +MEsbct 1 +MErsbcmt 99 +S 2 "
        ++ codes "+MEacul 0 +MErsbcst 1 +MEmbsd 1 +MMscs 2"))
        (codes "type E\nscheduler 1\nalloc 4 245432\nalloc 5 20257\nfree 4\nfree 5\nfree 5\n"
        ++ codes "scheduler 2\nalloc 1 41\nalloc 2 131688\nalloc 3 262073\nfree 2\ngive 3 2\n"
        ++ codes "schedule\n1*3 1*3 2*2 2*5\nend\n")
        ≡ Some
        (codes "scheduler 1\nalloc 4 1 8 30680\nalloc 5 2 8 2534\nfree 4 done\nfree 5 done\n"
        ++ codes "free 5 skipped\nscheduler 2\nalloc 1 1025 8 8\nalloc 2 1026 8 16462\n"
        ++ codes "alloc 3 1027 8 32762\nfree 2 done\ngive 3 2\n"
        ++ codes "carrier 1025 multi owner 2 employed 2 base 256 pages 64 "
        ++ codes "allocated 8 largest 32752\n"
        ++ codes "carrier 1027 single owner 2 employed 2 base 353 pages 65 "
        ++ codes "allocated 32762 largest 510\n"
        ++ codes "total carriers 2 units 66048 live 32770 queued 0 free 33262 header 16\n") }
    ensures two_under_good_fit { text_of
        (words (codes "+S 2 +MBacul 0 +MBas gf +MMscs 1 +MBsmbcs 256 +MBlmbcs 256 +MBmbsd "
        ++ codes "1000 +MBmmbcs 4"))
        (codes "type B\nscheduler 1\n alloc 1 40\nalloc 2 0\nalloc 3 184\nalloc 4 360\n"
        ++ codes "alloc 5 88\nalloc 6 0\nalloc 7 120\nalloc 8 0\nalloc 9 40\nrealloc 7 10 152\n"
        ++ codes "alloc 11 56\nalloc 12 120\nfree 9\nalloc 13 72\nfree 10\nalloc 14 152\n"
        ++ codes "alloc 15 360\nrealloc 5 16 72\nalloc 17 248\nfree 1\nalloc 18 40\nalloc 19 72\n"
        ++ codes "alloc 20 248\nfree 13\nfree 14\nalloc 21 152\nalloc 22 88\nalloc 23 632\n"
        ++ codes "free 22\nscheduler 2\nalloc 24 120\nalloc 25 0\nalloc 26 632\nalloc 27 0\n"
        ++ codes "alloc 28 632\nalloc 29 200\nalloc 30 0\nalloc 31 120\nalloc 32 0\nalloc 33 56\n"
        ++ codes "alloc 34 0\nalloc 35 40\nalloc 36 0\nalloc 37 152\nalloc 38 0\nalloc 39 104\n"
        ++ codes "alloc 40 0\nalloc 41 72\nalloc 42 0\nalloc 43 632\nalloc 44 0\nalloc 45 152\n"
        ++ codes "alloc 46 40\nalloc 47 440\nalloc 48 248\nalloc 49 248\nrealloc 29 50 88\n"
        ++ codes "free 50\nfree 33\nalloc 51 72\nalloc 52 104\nalloc 53 40\nfree 43\nalloc 54 40\n"
        ++ codes "alloc 55 280\nalloc 56 72\nfree 31\nalloc 57 248\nrealloc 57 58 72\nfree 56\n"
        ++ codes "free 54\nfree 58\nschedule\nend\n")
        ≡ Some
        (codes "scheduler 1\nalloc 1 1 8 6\nalloc 2 1 14 6\nalloc 3 1 20 24\nalloc 4 1 44 46\n"
        ++ codes "alloc 5 1 90 12\nalloc 6 1 102 6\nalloc 7 1 108 16\nalloc 8 1 124 6\n"
        ++ codes "alloc 9 1 130 6\nrealloc 7 10 1 136 20 moved done\nalloc 11 1 108 8\n"
        ++ codes "alloc 12 1 156 16\nfree 9 done\nalloc 13 1 172 10\nfree 10 done\n"
        ++ codes "alloc 14 1 130 20\nalloc 15 1 182 46\nrealloc 5 16 1 90 12 here\n"
        ++ codes "alloc 17 1 228 32\nfree 1 done\nalloc 18 1 8 6\nalloc 19 1 260 10\n"
        ++ codes "alloc 20 1 270 32\nfree 13 done\nfree 14 done\nalloc 21 1 130 20\n"
        ++ codes "alloc 22 1 302 12\nalloc 23 1 314 80\nfree 22 done\nscheduler 2\n"
        ++ codes "alloc 24 1025 8 16\nalloc 25 1025 24 6\nalloc 26 1025 30 80\n"
        ++ codes "alloc 27 1025 110 6\n"
        ++ codes "alloc 28 1025 116 80\nalloc 29 1025 196 26\nalloc 30 1025 222 6\n"
        ++ codes "alloc 31 1025 228 16\nalloc 32 1025 244 6\nalloc 33 1025 250 8\n"
        ++ codes "alloc 34 1025 258 6\n"
        ++ codes "alloc 35 1025 264 6\nalloc 36 1025 270 6\nalloc 37 1025 276 20\n"
        ++ codes "alloc 38 1025 296 6\n"
        ++ codes "alloc 39 1025 302 14\nalloc 40 1025 316 6\nalloc 41 1025 322 10\n"
        ++ codes "alloc 42 1025 332 6\nalloc 43 1025 338 80\nalloc 44 1025 418 6\n"
        ++ codes "alloc 45 1025 424 20\nalloc 46 1025 444 6\nalloc 47 1025 450 56\n"
        ++ codes "alloc 48 1026 8 32\n"
        ++ codes "alloc 49 1026 40 32\nrealloc 29 50 1026 72 12 moved done\nfree 50 done\n"
        ++ codes "free 33 done\nalloc 51 1025 196 10\nalloc 52 1025 206 16\nalloc 53 1025 506 6\n"
        ++ codes "free 43 done\nalloc 54 1025 250 8\nalloc 55 1025 338 36\nalloc 56 1025 374 10\n"
        ++ codes "free 31 done\nalloc 57 1025 384 34\nrealloc 57 58 1025 228 10 moved done\n"
        ++ codes "free 56 done\nfree 54 done\nfree 58 done\n"
        ++ codes "carrier 1 main owner 1 employed 1 base 0 pages 1 allocated 350 largest 118\n"
        ++ codes "carrier 1025 main owner 2 employed 2 base 128 pages 1 allocated 436 largest 44\n"
        ++ codes "carrier 1026 multi owner 2 employed 2 base 129 pages 64 "
        ++ codes "allocated 64 largest 32696\n"
        ++ codes "total carriers 3 units 33792 live 850 queued 0 free 32918 header 24\n") }
    ensures temporary_blocks_given { text_of
        (words (codes "+MTrsbcst 1 +S 02 +MTacul 0 +MTas aobf"))
        (codes "type T\nscheduler 1\nalloc 2 153\nalloc 3 0\nalloc 4 88\nfree 2\nalloc 6 219920\n"
        ++ codes "alloc 299 524205\nfree 4\nfree 299\nalloc 301 102317\nidle\nalloc 303 42848\n"
        ++ codes "free 303\nalloc 304 40\nfree 6\nfree 304\nscheduler 2\nalloc 1 175633\n"
        ++ codes "realloc 1 5 32\nfree 5\nfree 5\nalloc 300 37\nfree 300\ngive 300 1\nfree 1\n"
        ++ codes "alloc 302 89\ngive 302 1\nfree 302\nalloc 305 262137\ngive 305 2\nschedule\n"
        ++ codes "1*16\n2*16\nend\n")
        ≡ Some
        (codes "scheduler 1\nalloc 2 1 8 22\nalloc 3 1 30 6\nalloc 4 1 36 12\nfree 2 done\n"
        ++ codes "alloc 6 1 48 27492\nalloc 299 2 8 65528\nfree 4 done\nfree 299 done\n"
        ++ codes "alloc 301 2 8 12792\nidle\nalloc 303 2 12800 5358\nfree 303 done\n"
        ++ codes "alloc 304 1 36 6\nfree 6 done\nfree 304 done\nscheduler 2\nalloc 1 1025 8 21956\n"
        ++ codes "realloc 1 5 1025 21964 6 moved done\nfree 5 done\nfree 5 skipped\n"
        ++ codes "alloc 300 1025 8 6\nfree 300 done\ngive 300 1 skipped\nfree 1 skipped\n"
        ++ codes "alloc 302 1025 8 14\ngive 302 1\nfree 302 skipped\nalloc 305 1026 8 32770\n"
        ++ codes "give 305 2\n"
        ++ codes "carrier 1 multi owner 1 employed 1 base 0 pages 64 allocated 6 largest 32732\n"
        ++ codes "carrier 2 multi owner 1 employed 1 base 64 pages 186 "
        ++ codes "allocated 12792 largest 82432\n"
        ++ codes "carrier 1025 multi owner 2 employed 2 base 8192 pages 64 "
        ++ codes "allocated 14 largest 32746\n"
        ++ codes "carrier 1026 multi owner 2 employed 2 base 8256 pages 186 "
        ++ codes "allocated 32770 largest 62454\n"
        ++ codes "total carriers 4 units 256000 live 45582 queued 0 free 210386 header 32\n") }
    ensures three_under_age_order { text_of
        (words (codes "+S 0000000003 +MBsmbcs 64 +MBmbcgs 3 +MBlmbcs 20 +MMsco true +MBas "
        ++ codes "ageffcbf +MBacul 0 +MBrmbcmt 0 +MMscs 2"))
        (codes "type B\nscheduler 1\nscheduler 2\nalloc 1 233\nscheduler 3\nalloc 2 88\n"
        ++ codes "realloc 2 3 40\nrealloc 3 4 35585\nschedule\n1*1 3 3*3 2*1 2\nend\n")
        ≡ Some
        (codes "scheduler 1\nscheduler 2\nalloc 1 1025 8 32\nscheduler 3\nalloc 2 2049 8 12\n"
        ++ codes "realloc 2 3 2049 20 6 moved done\nrealloc 3 4 2049 20 4450 here\n"
        ++ codes "carrier 1025 multi owner 2 employed 2 base 170 pages 16 "
        ++ codes "allocated 32 largest 8152\n"
        ++ codes "carrier 2049 multi owner 3 employed 3 base 340 pages 16 "
        ++ codes "allocated 4450 largest 3722\n"
        ++ codes "total carriers 2 units 16384 live 4482 queued 0 free 11886 header 16\n") }
    ensures always_moved { text_of
        (words (codes "+MDacul 100 +MLas aobf +S 2 +MLmmbcs 0 +MMscs 2 +MLlmbcs 64 +MLsmbcs "
        ++ codes "64 +MLasbcst 1 +MTsbct 2 +MLacul 0 +MLramv true"))
        (codes "type L\n  \nscheduler 1\nalloc 1 153\ngive 1 1\nalloc 2 4208\nalloc 3 101\n"
        ++ codes "free 3\ngive 2 2\nfree 3\nscheduler 2\nalloc 4 149\ntake 2 2\nschedule\nend\n")
        ≡ Some
        (codes "scheduler 1\nalloc 1 1 8 22\ngive 1 1\nalloc 2 1 30 528\nalloc 3 1 558 14\n"
        ++ codes "free 3 done\ngive 2 2\nfree 3 skipped\nscheduler 2\nalloc 4 1025 8 20\n"
        ++ codes "take 2 got\n"
        ++ codes "carrier 1 multi owner 1 employed 1 base 0 pages 16 allocated 550 largest 7634\n"
        ++ codes "carrier 1025 multi owner 2 employed 2 base 256 pages 16 "
        ++ codes "allocated 20 largest 8164\n"
        ++ codes "total carriers 2 units 16384 live 570 queued 0 free 15798 header 16\n") }
    ensures many_singles { text_of
        (words (codes "+MMscs 2 +MLacul 0 +S 2 +MLsmbcs 64 +MLmbcgs 3 +MLsbct 2 +MLas aoffcbf "
        ++ codes "+MLlmbcs 64"))
        (codes "type L\nscheduler 1\nalloc 2 19696\nalloc 3 0\nalloc 4 40\ngive 4 1\n"
        ++ codes "realloc 3 5 88\nalloc 7 104\nfree 7\nalloc 9 149\nalloc 10 9809\nalloc 14 29825\n"
        ++ codes "alloc 17 13985\nscheduler 2\nalloc 1 153\nalloc 6 40\nalloc 8 41600\n"
        ++ codes "alloc 11 85\nfree 8\nalloc 12 15856\nalloc 13 15633\nrealloc 1 15 17280\n"
        ++ codes "alloc 16 152\nschedule\n2*1 1*13 2\n2*8\nend\n")
        ≡ Some
        (codes "scheduler 1\nalloc 2 1 8 2464\nalloc 3 2 8 6\nalloc 4 2 14 6\ngive 4 1\n"
        ++ codes "realloc 3 5 2 20 12 moved done\nalloc 7 2 32 14\nfree 7 done\nalloc 9 2 32 20\n"
        ++ codes "alloc 10 3 8 1228\nalloc 14 4 8 3730\nalloc 17 5 8 1750\nscheduler 2\n"
        ++ codes "alloc 1 1025 8 22\nalloc 6 1025 30 6\nalloc 8 1026 8 5202\nalloc 11 1025 36 12\n"
        ++ codes "free 8 done\nalloc 12 1026 8 1984\nalloc 13 1027 8 1956\n"
        ++ codes "realloc 1 15 1028 8 2162 moved done\nalloc 16 1025 8 22\n"
        ++ codes "carrier 1 single owner 1 employed 1 base 0 pages 5 allocated 2464 largest 88\n"
        ++ codes "carrier 2 multi owner 1 employed 1 base 5 pages 16 allocated 38 largest 8140\n"
        ++ codes "carrier 3 single owner 1 employed 1 base 21 pages 3 allocated 1228 largest 300\n"
        ++ codes "carrier 4 single owner 1 employed 1 base 24 pages 8 allocated 3730 largest 358\n"
        ++ codes "carrier 5 single owner 1 employed 1 base 32 pages 4 allocated 1750 largest 290\n"
        ++ codes "carrier 1025 multi owner 2 employed 2 base 256 pages 16 "
        ++ codes "allocated 40 largest 8144\n"
        ++ codes "carrier 1026 single owner 2 employed 2 base 272 pages 4 "
        ++ codes "allocated 1984 largest 56\n"
        ++ codes "carrier 1027 single owner 2 employed 2 base 276 pages 4 "
        ++ codes "allocated 1956 largest 84\n"
        ++ codes "carrier 1028 single owner 2 employed 2 base 280 pages 5 "
        ++ codes "allocated 2162 largest 390\n"
        ++ codes "total carriers 9 units 33280 live 15352 queued 0 free 17856 header 72\n") }
    ensures two_under_age_order { text_of
        (words (codes "+MDmbcgs 1 +MMscs 2 +MDsbct 600 +S 0000000002 +MDsmbcs 8 +MDacul 0 "
        ++ codes "+MDlmbcs 20 +MDrsbcmt 65 +MDas ageffcaobf +MDmbsd 1"))
        (codes "type D\nscheduler 1\nalloc 2 6936\nrealloc 2 3 88\nfree 2\nrealloc 3 8 7613\n"
        ++ codes "scheduler 2\nalloc 1 89\nalloc 4 233\nalloc 5 3000\nalloc 6 614409\nfree 4\n"
        ++ codes "alloc 7 101\nschedule\n1*4 1 2*7\nend\n")
        ≡ Some
        (codes "scheduler 1\nalloc 2 1 8 868\nrealloc 2 3 1 876 12 moved done\nfree 2 skipped\n"
        ++ codes "realloc 3 8 2 8 954 moved done\nscheduler 2\nalloc 1 1025 8 14\n"
        ++ codes "alloc 4 1025 22 32\nalloc 5 1025 54 376\nalloc 6 1026 8 76804\nfree 4 done\n"
        ++ codes "alloc 7 1025 22 14\n"
        ++ codes "carrier 2 multi owner 1 employed 1 base 2 pages 5 allocated 954 largest 1598\n"
        ++ codes "carrier 1025 multi owner 2 employed 2 base 256 pages 2 "
        ++ codes "allocated 404 largest 594\n"
        ++ codes "carrier 1026 single owner 2 employed 2 base 258 pages 151 "
        ++ codes "allocated 76804 largest 500\n"
        ++ codes "total carriers 3 units 80896 live 78162 queued 0 free 2710 header 24\n") }
    ensures taken_among_singles { text_of
        (words (codes "+MEsbct 2 +MElmbcs 50 +MMscs 4 +MEsmbcs 8 +S 2 +MErsbcmt 10 +MEmbcgs 1 "
        ++ codes "+MErmbcmt 50 +MDe true +MEas ageffcaoff +MEacul 0"))
        (codes "type E\nscheduler 1\nalloc 2 3360\nalloc 4 280\nalloc 5 153\nalloc 6 2061\n"
        ++ codes "alloc 7 344\ngive 7 1\nalloc 8 0\nalloc 9 48\nalloc 10 7480\nalloc 11 153\n"
        ++ codes "take 7 1\nalloc 12 784\ngive 10 2\nfree 2\nscheduler 2\nalloc 1 1568\nfree 1\n"
        ++ codes "alloc 3 6249\nfree 3\nalloc 13 5528\nschedule\n2*2 2*3 1*2\nend\n")
        ≡ Some
        (codes "scheduler 1\nalloc 2 1 8 422\nalloc 4 2 8 36\nalloc 5 2 44 22\nalloc 6 3 8 260\n"
        ++ codes "alloc 7 2 66 44\ngive 7 1\nalloc 8 2 110 6\nalloc 9 2 116 8\nalloc 10 4 8 936\n"
        ++ codes "alloc 11 2 124 22\ntake 7 got\nalloc 12 2 146 100\ngive 10 2\nfree 2 done\n"
        ++ codes "scheduler 2\nalloc 1 1025 8 198\nfree 1 done\nalloc 3 1025 8 784\nfree 3 done\n"
        ++ codes "alloc 13 1025 8 692\n"
        ++ codes "carrier 2 multi owner 1 employed 1 base 1 pages 2 allocated 238 largest 778\n"
        ++ codes "carrier 3 single owner 1 employed 1 base 3 pages 1 allocated 260 largest 244\n"
        ++ codes "carrier 4 single owner 1 employed 1 base 4 pages 2 allocated 936 largest 80\n"
        ++ codes "carrier 1025 single owner 2 employed 2 base 512 pages 2 "
        ++ codes "allocated 692 largest 324\n"
        ++ codes "total carriers 4 units 3584 live 2126 queued 0 free 1426 header 32\n") }
    ensures three_main_carriers { text_of
        (words (codes "+MBsbct 2 +MMscs 1 +MBlmbcs 4 +MBmmbcs 1 +MBacul 0 +MBas gf +S 03 "
        ++ codes "+MBsmbcs 4"))
        (codes "type B\nscheduler 1\nalloc 3 104\nalloc 4 560\nalloc 6 61\nfree 6\n"
        ++ codes "realloc 3 12 1301\nrealloc 4 14 1297\nscheduler 2\nalloc 5 120\nalloc 8 2048\n"
        ++ codes "alloc 10 117\nalloc 15 429\nscheduler 3\nalloc 1 3816\nrealloc 1 2 3621\nfree 1\n"
        ++ codes "give 2 1\nrealloc 2 7 152\ngive 1 3\nalloc 9 37\nrealloc 9 11 1680\n"
        ++ codes "alloc 13 488\nschedule\n1*7\n2*3 3*11 2*2\nend\n")
        ≡ Some
        (codes "scheduler 1\nalloc 3 1 8 14\nalloc 4 1 22 72\nalloc 6 1 94 10\nfree 6 done\n"
        ++ codes "realloc 3 12 1 94 164 moved done\nrealloc 4 14 1 258 164 moved done\n"
        ++ codes "scheduler 2\nalloc 5 1025 8 16\nalloc 8 1026 8 258\nalloc 10 1025 24 16\n"
        ++ codes "alloc 15 1025 40 56\nscheduler 3\nalloc 1 2050 8 478\n"
        ++ codes "realloc 1 2 2050 8 454 here\n"
        ++ codes "free 1 skipped\ngive 2 1\nrealloc 2 7 skipped\ngive 1 3 skipped\n"
        ++ codes "alloc 9 2049 8 6\nrealloc 9 11 2049 8 212 here\nalloc 13 2049 220 62\n"
        ++ codes "carrier 1 main owner 1 employed 1 base 0 pages 1 allocated 328 largest 90\n"
        ++ codes "carrier 1025 main owner 2 employed 2 base 85 pages 1 allocated 88 largest 416\n"
        ++ codes "carrier 1026 single owner 2 employed 2 base 86 pages 1 "
        ++ codes "allocated 258 largest 246\n"
        ++ codes "carrier 2049 main owner 3 employed 3 base 170 pages 1 allocated 274 largest 230\n"
        ++ codes "carrier 2050 single owner 3 employed 3 base 171 pages 1 "
        ++ codes "allocated 454 largest 50\n"
        ++ codes "total carriers 5 units 2560 live 1402 queued 0 free 1118 header 40\n") }
    ensures four_under_age_order { text_of
        (words (codes "+S 04 +Murmbcmt 99 +Musmbcs 4 +Mulmbcs 4 +Mumbsd 3 +Muas ageffcaobf "
        ++ codes "+MMscs 4 +Muacul 0"))
        (codes "type B\nscheduler 1\nalloc 3 0\ngive 3 2\ntake 4 40\nalloc 11 384\ngive 11 4\n"
        ++ codes "alloc 13 319989\nalloc 14 524288\nscheduler 2\nalloc 2 517\nfree 2\nfree 2\n"
        ++ codes "free 2\ngive 2 4\nalloc 12 3632\nscheduler 3\nalloc 4 88\nfree 4\ngive 4 1\n"
        ++ codes "free 4\nalloc 8 1160\nfree 8\nfree 8\nscheduler 4\nalloc 1 232\nalloc 5 1048\n"
        ++ codes "alloc 6 2904\nfree 1\nalloc 7 2441\nalloc 9 29\nalloc 10 149\nfree 9\nschedule\n"
        ++ codes "  end\n")
        ≡ Some
        (codes "scheduler 1\nalloc 3 1 8 6\ngive 3 2\ntake 4 absent 40\nalloc 11 1 14 50\n"
        ++ codes "give 11 4\nalloc 13 2 8 40000\nalloc 14 3 8 65538\nscheduler 2\n"
        ++ codes "alloc 2 1025 8 66\nfree 2 done\nfree 2 skipped\nfree 2 skipped\n"
        ++ codes "give 2 4 skipped\n"
        ++ codes "alloc 12 1025 8 456\nscheduler 3\nalloc 4 2049 8 12\nfree 4 done\n"
        ++ codes "give 4 1 skipped\nfree 4 skipped\nalloc 8 2049 8 146\nfree 8 done\n"
        ++ codes "free 8 skipped\nscheduler 4\nalloc 1 3073 8 30\nalloc 5 3073 38 132\n"
        ++ codes "alloc 6 3074 8 364\nfree 1 done\nalloc 7 3073 170 308\nalloc 9 3073 8 6\n"
        ++ codes "alloc 10 3073 14 24\nfree 9 done\n"
        ++ codes "carrier 1 multi owner 1 employed 1 base 0 pages 1 allocated 56 largest 448\n"
        ++ codes "carrier 2 multi owner 1 employed 1 base 1 pages 79 allocated 40000 largest 440\n"
        ++ codes "carrier 3 single owner 1 employed 1 base 80 pages 129 "
        ++ codes "allocated 65538 largest 502\n"
        ++ codes "carrier 1025 multi owner 2 employed 2 base 256 pages 1 allocated 456 largest 48\n"
        ++ codes "carrier 3073 multi owner 4 employed 4 base 768 pages 1 allocated 464 largest 34\n"
        ++ codes "carrier 3074 multi owner 4 employed 4 base 769 pages 1 "
        ++ codes "allocated 364 largest 140\n"
        ++ codes "total carriers 6 units 108544 live 106878 queued 0 free 1618 header 48\n") }
    ensures two_singles { text_of
        (words (codes "+S 2 +MHacul 0 +MHrmbcmt 100 +MHas bf +MHsbct 2 +MMsco true +MDt true "
        ++ codes "+MHrsbcmt 100 +MHmbsd 1 +MHacfml 1073741823 +MMscs 3"))
        (codes "type H\nscheduler 1\nalloc 3 156925\nalloc 4 152\nscheduler 2\nalloc 1 194785\n"
        ++ codes "realloc 1 2 86613\nschedule\nend\n")
        ≡ Some
        (codes "scheduler 1\nalloc 3 1 8 19618\nalloc 4 2 8 20\nscheduler 2\n"
        ++ codes "alloc 1 1025 8 24350\nrealloc 1 2 1025 8 10828 here\n"
        ++ codes "carrier 1 single owner 1 employed 1 base 0 pages 39 allocated 19618 largest 342\n"
        ++ codes "carrier 2 multi owner 1 employed 1 base 39 pages 64 allocated 20 largest 32740\n"
        ++ codes "carrier 1025 single owner 2 employed 2 base 384 pages 48 "
        ++ codes "allocated 10828 largest 13740\n"
        ++ codes "total carriers 3 units 77312 live 30466 queued 0 free 46822 header 24\n") }
{}
