//! The flag language on worked words: what its definition gives for them, computed from it alone.
//! All that is expected was worked out by hand from the description of the flags in
//! docs/reference/flags.md.

ghost use Rattle.std.specs.Prelude.{◌≡◌, ◌*◌, codes, true, []};
ghost use Rattle.ea_model.specs.declared.settings.Strategy.TheVariants.{Bf, Aoff, Gf};
ghost use Rattle.ea_model.specs.declared.units.TheConstants.{MAX_MEGABYTES, MAX_PAGES, MAX_UNITS};
ghost use Rattle.ea_model.specs.declared.units.TheConstants.{MEGABYTE_PAGES, PAGE_UNITS};
ghost use Rattle.ea_model.specs.Words.{words};
ghost use Rattle.ea_flags.specs.Flags.{flags};
ghost use Rattle.ea_trials_definitions.specs.Flags.{usual, plain, strategy_is, limit_is, both_are};
ghost use Rattle.ea_trials_definitions.specs.Flags.{for_all, with_h, with_t, given, unknown, no_value};
ghost use Rattle.ea_trials_definitions.specs.Flags.{bad_value, unsupported, too_small};

/// Words that are refused, each for one reason.
pub fn refused_words()
    ensures no_such_strategy { flags (words (codes "+MHas foo")) ≡ bad_value 2 }
    ensures value_in_the_flag { flags (words (codes "+MHasbf")) ≡ unknown 1 }
    ensures value_missing { flags (words (codes "+MHacul")) ≡ no_value 1 }
    ensures one_for_all_schedulers { flags (words (codes "+MHt false")) ≡ unsupported 1 }
    ensures disabled { flags (words (codes "+MHe false")) ≡ unsupported 1 }
    ensures fixed_size_allocator { flags (words (codes "+MFas bf")) ≡ unsupported 1 }
    ensures low_number_limit { flags (words (codes "+MHacnl 999")) ≡ unsupported 1 }
    ensures schedulers_online { flags (words (codes "+S 4:4")) ≡ bad_value 2 }
    ensures above_hundred_percent { flags (words (codes "+MHacul 101")) ≡ bad_value 2 }
    ensures schedulers_missing { flags (words (codes "+S")) ≡ no_value 1 }
    ensures no_schedulers { flags (words (codes "+S 0")) ≡ bad_value 2 }
    ensures too_many_schedulers { flags (words (codes "+S 65")) ≡ bad_value 2 }
    ensures zeros_are_digits { flags (words (codes "+S 00000000016")) ≡ bad_value 2 }
    ensures eleven_digits { flags (words (codes "+MHacnl 10000000000")) ≡ bad_value 2 }
    ensures no_number { flags (words (codes "+MHacfml 1x")) ≡ bad_value 2 }
    ensures great_super_carrier { flags (words (codes "+MMscs 513")) ≡ bad_value 2 }
    ensures threshold_zero { flags (words (codes "+MHsbct 0")) ≡ bad_value 2 }
    ensures great_threshold { flags (words (codes "+MHsbct 524289")) ≡ bad_value 2 }
    ensures great_least_gap { flags (words (codes "+MHacfml 1073741824")) ≡ bad_value 2 }
    ensures second_value { flags (words (codes "+Muas bf +MHacul x")) ≡ bad_value 4 }
    ensures limit_of_temp_alloc { flags (words (codes "+MTacul 101")) ≡ bad_value 2 }
    ensures default_of_another { flags (words (codes "+MHacfml de")) ≡ bad_value 2 }
    ensures no_truth { flags (words (codes "+MHramv yes")) ≡ bad_value 2 }
    ensures not_only_super_carrier { flags (words (codes "+MMsco false")) ≡ unsupported 1 }
    ensures other_segment_flag { flags (words (codes "+MMother 1")) ≡ unsupported 1 }
    ensures literal_allocator { flags (words (codes "+MIas bf")) ≡ unsupported 1 }
    ensures executable_allocator { flags (words (codes "+MXas bf")) ≡ unsupported 1 }
    ensures system_allocator { flags (words (codes "+MYm 1")) ≡ unsupported 1 }
    ensures system_allocator_alone { flags (words (codes "+MYm")) ≡ unsupported 1 }
    ensures carrier_pool { flags (words (codes "+MHcp 1")) ≡ unsupported 1 }
    ensures carrier_pool_alone { flags (words (codes "+MHcp")) ≡ unsupported 1 }
    ensures tags_of_all { flags (words (codes "+Muatags true")) ≡ unsupported 1 }
    ensures most_single_carriers { flags (words (codes "+MHmmsbc 1")) ≡ unsupported 1 }
    ensures most_multi_carriers { flags (words (codes "+MHmmmbc 1")) ≡ unsupported 1 }
    ensures all_allocators { flags (words (codes "+Mea min")) ≡ unsupported 1 }
    ensures no_such_letter { flags (words (codes "+Meas bf")) ≡ unknown 1 }
    ensures another_letter { flags (words (codes "+MZas bf")) ≡ unknown 1 }
    ensures letter_alone { flags (words (codes "+MH")) ≡ unknown 1 }
    ensures missing_at_the_end { flags (words (codes "+MHacul 30 +MHas")) ≡ no_value 3 }
    ensures bad_value_first { flags (words (codes "+MHas foo +MZas bf")) ≡ bad_value 2 }
    ensures unknown_first { flags (words (codes "+MZas bf +MHas foo")) ≡ unknown 1 }
    ensures unsupported_first { flags (words (codes "+MHcp foo +MHas foo")) ≡ unsupported 1 }
{}

/// Words that set one thing, and those of which one or none has an effect.
pub fn given_settings()
    ensures no_words { flags [] ≡ given plain }
    ensures leading_zeros { flags (words (codes "+MMscs 0000000008"))
        ≡ given (record plain { scs = 8 }) }
    ensures super_carrier_only { flags (words (codes "+MMsco true")) ≡ given plain }
    ensures only_super_carrier { flags (words (codes "+MMsco true +MMscs 128"))
        ≡ given (record plain { scs = 128 }) }
    ensures schedulers { flags (words (codes "+S 64")) ≡ given (record plain { schedulers = 64 }) }
    ensures one_then_all { flags (words (codes "+MHacul 40 +Muacul 30"))
        ≡ given (for_all (limit_is 30)) }
    ensures all_then_one { flags (words (codes "+Muacul 30 +MHacul 40"))
        ≡ given (record (for_all (limit_is 30)) { h = limit_is 40 }) }
    ensures later_holds { flags (words (codes "+MHacul 30 +MHacul 40"))
        ≡ given (with_h (limit_is 40)) }
    ensures default_again { flags (words (codes "+MHacul 10 +MHacul de")) ≡ given plain }
    ensures limit_hundred { flags (words (codes "+MHacul 100")) ≡ given (with_h (limit_is 100)) }
    ensures temp_alloc_at_default { flags (words (codes "+MTacul 60")) ≡ given plain }
    ensures best_fit_migrates { flags (words (codes "+MHas bf +MHacul 60")) ≡ given plain }
    ensures best_fit_by_default { flags (words (codes "+MHas bf")) ≡ given plain }
    ensures best_fit { flags (words (codes "+MHas bf +MHacul 0")) ≡ given (with_h (both_are Bf 0)) }
    ensures limit_before_strategy { flags (words (codes "+MHacul 0 +MHas bf"))
        ≡ given (with_h (both_are Bf 0)) }
    ensures limit_twice { flags (words (codes "+MHacul 0 +MHas bf +MHacul 1"))
        ≡ given (with_h (limit_is 1)) }
    ensures strategy_between { flags (words (codes "+MHacul 1 +MHas bf +MHacul 0"))
        ≡ given (with_h (both_are Bf 0)) }
    ensures address_order_best_fit { flags (words (codes "+MHas aobf +MHacul 1"))
        ≡ given (with_h (limit_is 1)) }
    ensures good_fit { flags (words (codes "+MHas gf +MHacul 1")) ≡ given (with_h (limit_is 1)) }
    ensures address_fit { flags (words (codes "+MHas af +MHacul 1")) ≡ given (with_h (limit_is 1)) }
    ensures first_fit { flags (words (codes "+MHas aoff")) ≡ given (with_h (strategy_is Aoff)) }
    ensures good_fit_of_temp_alloc { flags (words (codes "+MTas gf +MTacul 60"))
        ≡ given (with_t (both_are Gf 0)) }
    ensures no_migration { flags (words (codes "+Muas gf +Muacul 0"))
        ≡ given (for_all (both_are Gf 0)) }
    ensures number_limit { flags (words (codes "+MHacnl 1000")) ≡ given plain }
    ensures greatest_number_limit { flags (words (codes "+MHacnl 4294967295")) ≡ given plain }
    ensures greatest_least_gap { flags (words (codes "+MHacfml 1073741823"))
        ≡ given (with_h (record usual { acfml = 1073741823 })) }
    ensures always_moves { flags (words (codes "+MHramv true"))
        ≡ given (with_h (record usual { ramv = true })) }
    ensures moves_again { flags (words (codes "+MHramv true +MHramv false")) ≡ given plain }
    ensures holds_anyway { flags (words (codes "+MHt true +MHe true")) ≡ given plain }
    ensures a_kilobyte { flags (words (codes "+MHsbct 1"))
        ≡ given (with_h (record usual { sbct = 128 })) }
    ensures greatest_threshold { flags (words (codes "+MHsbct 524288"))
        ≡ given (with_h (record usual { sbct = 67108864 })) }
    ensures sizes { flags (words (codes "+MHsbct 1 +MHsmbcs 2 +MHlmbcs 3 +MHmmbcs 4 +MHasbcst 5"))
        ≡ given (with_h (record usual {
          sbct = 128;
          smbcs = 256;
          lmbcs = 384;
          mmbcs = 512;
          asbcst = 640;
        })) }
    ensures counts { flags (words (codes "+MHmbcgs 10000 +MHmbsd 1000"))
        ≡ given (with_h (record usual { mbcgs = 10000; mbsd = 1000 })) }
    ensures percentages { flags (words (codes "+MHrsbcmt 1 +MHrmbcmt 2 +MHrsbcst 3"))
        ≡ given (with_h (record usual { rsbcmt = 1; rmbcmt = 2; rsbcst = 3 })) }
    ensures first_letters { flags (words (codes "+MBacul 1 +MDacul 2 +MEacul 3"))
        ≡ given (record plain { b = limit_is 1; d = limit_is 2; e = limit_is 3 }) }
    ensures last_letters { flags (words (codes "+MLacul 4 +MRacul 5 +MSacul 6 +MTacul 7"))
        ≡ given (record plain { l = limit_is 4; r = limit_is 5; s = limit_is 6 }) }
{}

/// Main carriers against the region of each instance.
pub fn main_carriers()
    ensures megabyte { flags (words (codes "+MMscs 1 +MHmmbcs 1024"))
        ≡ given (record (with_h (record usual { mmbcs = 131072 })) { scs = 1 }) }
    ensures over_a_megabyte { flags (words (codes "+MMscs 1 +MHmmbcs 1025")) ≡ too_small }
    ensures one_region { flags (words (codes "+MHmmbcs 4097"))
        ≡ given (with_h (record usual { mmbcs = 524416 })) }
    ensures sixteenth { flags (words (codes "+S 16 +MHmmbcs 4096"))
        ≡ given (record (with_h (record usual { mmbcs = 524288 })) { schedulers = 16 }) }
    ensures over_a_sixteenth { flags (words (codes "+S 16 +MHmmbcs 4097")) ≡ too_small }
    ensures sixty_fourth { flags (words (codes "+S 64 +MHmmbcs 1024"))
        ≡ given (record (with_h (record usual { mmbcs = 131072 })) { schedulers = 64 }) }
    ensures over_a_sixty_fourth { flags (words (codes "+S 64 +MHmmbcs 1025")) ≡ too_small }
    ensures schedulers_last { flags (words (codes "+MHmmbcs 4097 +S 16")) ≡ too_small }
    ensures third { flags (words (codes "+S 3 +MHmmbcs 21844"))
        ≡ given (record (with_h (record usual { mmbcs = 2796032 })) { schedulers = 3 }) }
    ensures over_a_third { flags (words (codes "+S 3 +MHmmbcs 21845")) ≡ too_small }
    ensures over_binary { flags (words (codes "+MMscs 1 +MBmmbcs 1025")) ≡ too_small }
    ensures over_std { flags (words (codes "+MMscs 1 +MDmmbcs 1025")) ≡ too_small }
    ensures over_ets { flags (words (codes "+MMscs 1 +MEmmbcs 1025")) ≡ too_small }
    ensures over_long { flags (words (codes "+MMscs 1 +MLmmbcs 1025")) ≡ too_small }
    ensures over_driver { flags (words (codes "+MMscs 1 +MRmmbcs 1025")) ≡ too_small }
    ensures over_short { flags (words (codes "+MMscs 1 +MSmmbcs 1025")) ≡ too_small }
    ensures over_temporary { flags (words (codes "+MMscs 1 +MTmmbcs 1025")) ≡ too_small }
    ensures greatest { flags (words (codes "+MMscs 512 +MHmmbcs 524288"))
        ≡ given (record (with_h (record usual { mmbcs = 67108864 })) { scs = 512 }) }
    ensures smaller_later { flags (words (codes "+MMscs 1 +MHmmbcs 1025 +MHmmbcs 1024"))
        ≡ given (record (with_h (record usual { mmbcs = 131072 })) { scs = 1 }) }
    ensures refused_word_first { flags (words (codes "+MMscs 1 +MHmmbcs 1025 +MHas foo"))
        ≡ bad_value 6 }
{}

/// The largest super carrier.
pub fn largest_super_carrier()
    ensures pages { MAX_PAGES ≡ MAX_MEGABYTES * MEGABYTE_PAGES }
    ensures units { MAX_UNITS ≡ MAX_PAGES * PAGE_UNITS }
{}
