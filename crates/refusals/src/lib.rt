// The refusals of document 01, and document 02's.

#![tactic(auto)]

ghost use Rattle.std.specs.Prelude.{◌≡◌};
ghost use Rattle.refusals.specs.Refusals.{number_of, at_place};

// Why a call was refused, and the number of that.
#[derive(Clone, Copy, Debug, PartialEq, Eq)]
pub enum Refusal {
    Length = 1,
    Kind = 2,
    Field = 3,
    Unfit = 4,
    Short = 5,
    Limit = 6,
    Argument = 7,
    NoCell = 8,
    AlreadySplit = 9,
    Smallest = 10,
    Room = 11,
    Broken = 12,
    Curve = 13,
}

impl From<Refusal> for u32 {
    ghost from_gives = { λ r n. n ≡ number_of r };

    fn from(refusal: Refusal) -> u32 {
        refusal as u32
    }
}

// Why a call was refused, and the record, the position or the pixel at which it was.
#[derive(Clone, Copy, Debug, PartialEq, Eq)]
pub struct Refused {
    pub refusal: Refusal,
    pub place: usize,
}

// A refusal that is about no place has place 0.
impl From<Refusal> for Refused {
    ghost from_gives = { λ r e. e ≡ at_place r 0 };

    fn from(refusal: Refusal) -> Refused {
        Refused { refusal, place: 0 }
    }
}
