//! Decisions of a reallocation that were worked out by hand, computed from the definition alone.

ghost use Rattle.std.specs.Prelude.{◌≡◌, true};
ghost use Rattle.ea_model.specs.declared.units.TheConstants.{MAX_UNITS};
ghost use Rattle.ea_model.specs.Decision.{decision};
ghost use Rattle.ea_model.specs.declared.reallocation.Decision.TheVariants.{Stay, ShrinkHere};
ghost use Rattle.ea_model.specs.declared.reallocation.Decision.TheVariants.{GrowHere};
ghost use Rattle.ea_model.specs.declared.reallocation.Decision.TheVariants.{ShrinkCarrier, Move};
ghost use Rattle.ea_model.specs.declared.reallocation.Where.TheVariants.{Foreign, Multi, Single};
ghost use Rattle.ea_trials_definitions.specs.Decisions.{multi, single, usual};

/// Each line of the definition in its order, and its borders from both sides.
pub fn worked_decisions()
    ensures foreign { decision usual 100 100 Foreign ≡ Move }
    ensures always { decision (record usual { ramv = true }) 100 100 (Multi 0) ≡ Move }
    ensures above_threshold { multi 65530 65538 100 ≡ Move }
    ensures at_threshold { multi 65530 65536 6 ≡ GrowHere }
    ensures same { multi 100 100 0 ≡ Stay }
    ensures five_less { multi 100 95 0 ≡ Stay }
    ensures four_less_at_a_low_limit { decision (record usual { rmbcmt = 3 }) 100 96 (Multi 0)
        ≡ Stay }
    ensures six_less { multi 100 94 0 ≡ ShrinkHere }
    ensures half { multi 100 50 0 ≡ ShrinkHere }
    ensures less_than_half { multi 100 49 0 ≡ Move }
    ensures gap_suffices { multi 100 110 10 ≡ GrowHere }
    ensures gap_too_small { multi 100 110 9 ≡ Move }
    ensures fills { single 200000 204792 ≡ GrowHere }
    ensures unit_too_many { single 200000 204793 ≡ Move }
    ensures four_fifths_left { single 200000 40952 ≡ Move }
    ensures unit_less_left { single 200000 40953 ≡ ShrinkHere }
    ensures at_single_threshold { single 200000 65536 ≡ ShrinkHere }
    ensures above_single_threshold { single 200000 65537 ≡ ShrinkCarrier 129 }
    ensures enough_left { single 200000 73720 ≡ ShrinkCarrier 144 }
    ensures too_little_left { single 200000 73721 ≡ ShrinkHere }
    ensures stays { single 73720 73720 ≡ Stay }
    ensures grows { single 73719 73720 ≡ GrowHere }
    ensures fifth_left { decision (record usual { asbcst = 0 }) 200000 163832 (Single 204800)
        ≡ ShrinkCarrier 320 }
    ensures less_than_fifth_left { decision (record usual { asbcst = 0 }) 200000 163833
        (Single 204800) ≡ ShrinkHere }
    ensures page_fewer { decision (record usual { asbcst = 0; rsbcst = 0 }) 102392 101880
        (Single 102400) ≡ ShrinkCarrier 199 }
    ensures no_page_fewer { decision (record usual { asbcst = 0; rsbcst = 0 }) 102392 101881
        (Single 102400) ≡ ShrinkHere }
    ensures large { decision (record usual { sbct = MAX_UNITS }) 60000000 13421764
        (Single MAX_UNITS) ≡ Move }
    ensures large_and_unit_less { decision (record usual { sbct = MAX_UNITS }) 60000000 13421765
        (Single MAX_UNITS) ≡ ShrinkHere }
{}
