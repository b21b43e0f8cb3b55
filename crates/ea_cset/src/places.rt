//! Places among carriers by rising number.
ghost use Rattle.std.specs.Prelude.{◌≡◌, ◌<◌, AllPairs, IfSome, get_or, length, option_map};
ghost use Rattle.ea_cset.specs.declared.keys.CarrierFit as keys;
ghost use Rattle.ea_cset.specs.Carriers.{carrier_of, IsBefore};

use crate::keys::CarrierFit;

/// The place of the carrier with the number, if it is held.
pub fn find_in(number: u32, held: &[CarrierFit]) -> Option<usize>
    requires rising { AllPairs IsBefore held.now }
    ensures within { IfSome result (λ i. i < length held.now) }
    ensures item { (d : keys.CarrierFit) → carrier_of held.now number
        ≡ option_map (λ i. get_or held.now i d) result }
{
    match held.binary_search_by_key(&number, |carrier| carrier.key.number) {
        Ok(place) => Some(place),
        Err(_) => None,
    }
}
