// Why a call is turned down, and document 01's number of it.
ghost use Rattle.std.specs.Prelude.{◌≡◌};
ghost use Rattle.sheet.specs.Refusals.{refusal_number, number_of};

#[derive(Clone, Copy, PartialEq, Eq, Debug)]
pub enum Refusal {
    BadCounts = 1,
    BadWords = 2,
    NoTree = 3,
    WrongLength = 4,
    // a change that can't be asked for so, or no such part to show
    BadRequest = 5,
    AltersTied = 6,
    NotSound = 7,
    Contradiction = 8,
    NoRoom = 9,
    BadBase = 10,
}

impl From<Refusal> for u64 {
    ghost from_gives = { λ refusal number. number ≡ refusal_number refusal };

    fn from(refusal: Refusal) -> u64 {
        refusal as u64
    }
}

// Document 01's number of what a call answers: "An accepted call's number is 0".
pub fn number_of<T: Copy>(answer: Result<T, Refusal>) -> u64
    ensures { result ≡ number_of answer }
{
    match answer {
        Ok(_) => 0,
        Err(refusal) => u64::from(refusal),
    }
}
