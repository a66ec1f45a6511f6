// The letters of kinds.
ghost use Rattle.records.specs.Kinds.{ReadsKind};

use crate::record::Kind;

// A letter that no kind has.
#[derive(Clone, Copy, PartialEq, Eq, Debug)]
pub struct UnknownKind(pub u8);

impl TryFrom<u8> for Kind {
    type Error = UnknownKind;

    ghost try_from_gives = { ReadsKind };

    fn try_from(letter: u8) -> Result<Kind, UnknownKind> {
        match letter {
            b'z' => Ok(Kind::Empty),
            b'e' => Ok(Kind::Event),
            b's' => Ok(Kind::Seq),
            b'c' => Ok(Kind::Choice),
            b'f' => Ok(Kind::Frame),
            b'd' => Ok(Kind::Call),
            _ => Err(UnknownKind(letter)),
        }
    }
}
