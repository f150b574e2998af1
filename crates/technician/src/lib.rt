// Who calls the table of readers that two technicians share (paper 02, A12): technicians are 1 and 2.
//
// In: a technician's number, and the owner of a place, 0 where it is free. Out: what is refused: 32 no such technician, 34 the place is free or
// another's, or nothing. Cost: constant.

#![tactic(auto)]

ghost use Rattle.std.specs.Prelude.{◌≡◌};
ghost use Rattle.technician.specs.Technician.{is_technician, denial_by, denial_for};

use refusal::Refusal;

// What a technician is refused of a place with this owner: 32, 34, or nothing.
pub fn denial(technician: u8, owner: u8) -> Option<Refusal>
    ensures { result ≡ denial_for (denial_by technician owner) }
{
    if is_technician(technician) {
        if owner == technician {
            return None;
        }
        return Some(Refusal::PLACE_NOT_HELD);
    }
    Some(Refusal::NO_SUCH_TECHNICIAN)
}

// Whether a technician has this number.
#[tactic(auto, unfolding(crate::specs::Technician::is_technician))]
pub fn is_technician(number: u8) -> bool
    ensures { result ≡ is_technician number }
{
    number == 1 || number == 2
}
