// A place that the caller lends for a number beside the answer.
#![tactic(auto)]

ghost use Rattle.std.specs.Prelude.{◌≡◌};
ghost use Rattle.lent_place.specs.Places.{told_in};

// Stores v in the first place; where none is lent it does nothing.
pub fn tell(told: &mut [u64], v: u64)
    ensures { told.new ≡ told_in v told.old }
{
    if let Some(place) = told.first_mut() {
        *place = v;
    }
}
