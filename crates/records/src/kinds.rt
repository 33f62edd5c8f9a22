// Part 6 of document 01: the kinds of records in a trace.
ghost use Rattle.std.specs.Prelude.{◌≡◌};
ghost use Rattle.records.specs.Kinds.{payload_length};

#[derive(Clone, Copy, PartialEq, Eq)]
pub enum Kind {
    Retirement,
    Break,
    ClearAll,
    ClearUser,
}

// No kind has the number.
#[derive(Clone, Copy)]
pub struct UnknownKind;

// The kind that a number names, if there is one.
impl TryFrom<u16> for Kind {
    ghost use Rattle.records.specs.Kinds.{kind_of};

    type Error = UnknownKind;

    ghost try_from_gives = { λ number kind. kind ≡ kind_of number };

    #[tactic(auto, unfolding(crate::specs::Kinds::kind_of))]
    fn try_from(number: u16) -> Result<Kind, UnknownKind> {
        match number {
            1 => Ok(Kind::Retirement),
            2 => Ok(Kind::Break),
            3 => Ok(Kind::ClearAll),
            4 => Ok(Kind::ClearUser),
            _ => Err(UnknownKind),
        }
    }
}

pub fn payload_length(kind: Kind) -> u16
    ensures { result ≡ payload_length kind }
{
    match kind {
        Kind::Retirement => 16,
        Kind::Break | Kind::ClearAll | Kind::ClearUser => 0,
    }
}
