// The kinds of records: the first byte of each, and how long the record is.
ghost use Rattle.std.specs.Prelude.{◌≡◌, ◌+◌};
ghost use Rattle.catalogue.specs.Records.{body_len};
ghost use Rattle.catalogue.specs.Places.{is_entry};
ghost use Rattle.catalogue.specs.Kinds.{code_of, make_of, IsKindOf};

use crate::make::Make;

#[derive(Clone, Copy, PartialEq, Eq, Debug)]
pub enum Kind {
    Slot = 1,
    Fit = 2,
    Bar = 3,
    Load = 4,
    Row = 5,
    Weight = 6,
    End = 7,
}

// A byte that is the first of no record.
#[derive(Clone, Copy, PartialEq, Eq, Debug)]
pub struct UnknownKind(pub u8);

impl TryFrom<u8> for Kind {
    type Error = UnknownKind;

    ghost try_from_gives = { IsKindOf };

    fn try_from(code: u8) -> Result<Kind, UnknownKind> {
        match code {
            1 => Ok(Kind::Slot),
            2 => Ok(Kind::Fit),
            3 => Ok(Kind::Bar),
            4 => Ok(Kind::Load),
            5 => Ok(Kind::Row),
            6 => Ok(Kind::Weight),
            7 => Ok(Kind::End),
            _ => Err(UnknownKind(code)),
        }
    }
}

impl Kind {
    // The first byte of each record of the kind.
    pub fn code(self) -> u8
        ensures { result ≡ code_of self }
    {
        self as u8
    }

    // How many bytes of body a record of the kind has.
    pub fn body_len(self) -> usize
        ensures { result ≡ body_len (code_of self) }
    {
        match self {
            Kind::Slot => 1,
            Kind::Fit | Kind::Bar => 9,
            Kind::Load => 13,
            Kind::Row => 8,
            Kind::Weight => 4,
            Kind::End => 0,
        }
    }

    // How many bytes a record of the kind has, its first one among them.
    pub fn len(self) -> usize
        ensures { result ≡ 1 + body_len (code_of self) }
    {
        1 + self.body_len()
    }

    // Whether it is the kind of a row or a weight.
    pub fn is_entry(self) -> bool
        ensures { result ≡ is_entry (code_of self) }
    {
        matches!(self, Kind::Row | Kind::Weight)
    }

    // The make of the sheets whose headers are of the kind, if it is a kind of header.
    pub fn make(self) -> Option<Make>
        ensures { result ≡ make_of self }
    {
        match self {
            Kind::Fit => Some(Make::Fit),
            Kind::Bar => Some(Make::Bar),
            Kind::Load => Some(Make::Load),
            _ => None,
        }
    }
}

// How many bytes of body follow a first byte. It is kept for callers that hold a byte and no kind; it says 0, and not
// `None`, where no record begins with the byte.
pub fn body_len(code: u8) -> usize
    ensures { result ≡ body_len code }
{
    Kind::try_from(code).map_or(0, |kind| kind.body_len())
}
