// What kind of change is asked for, and document 01's number of it.
ghost use Rattle.std.specs.Prelude.{◌≡◌};
ghost use Rattle.change_asked.specs.Kinds.{kind_of};

use sheet::Refusal;

#[derive(Clone, Copy, PartialEq, Eq, Debug)]
pub enum Kind {
    Insert,
    Delete,
    Update,
}

impl TryFrom<u64> for Kind {
    type Error = Refusal;

    ghost try_from_gives = { λ number kind. kind ≡ kind_of number };

    fn try_from(number: u64) -> Result<Kind, Refusal> {
        match number {
            1 => Ok(Kind::Insert),
            2 => Ok(Kind::Delete),
            3 => Ok(Kind::Update),
            _ => Err(Refusal::BadRequest),
        }
    }
}
