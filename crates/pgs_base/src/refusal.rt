// Why a call is turned down: one variant for each number of the table in 01, 'Why a call is turned down'.
ghost use Rattle.std.specs.Prelude.{◌≡◌};
ghost use Rattle.pgs_base.specs.Refusals.{number_of};

use std::fmt;
use std::num::TryFromIntError;

// Each variant's comment has 01's word for it.
#[derive(Clone, Copy, Debug, PartialEq, Eq)]
pub enum Refusal {
    // short head
    TruncatedHeader = 1,
    // wrong mark
    BadMagic = 2,
    // short body
    TruncatedBody = 3,
    // field cut
    FieldPastEnd = 4,
    // uneven palette
    PartialPaletteEntry = 5,
    // stuffed END
    NonEmptyEnd = 6,
    // standing still
    ZeroLengthSegment = 7,
    // double opening
    PcsInOpenSet = 8,
    // early WDS
    WdsOutsideSet = 9,
    // early PDS
    PdsOutsideSet = 10,
    // early ODS
    OdsOutsideSet = 11,
    // second WDS
    SecondWds = 12,
    // early END
    EndOutsideSet = 13,
    // stray kind
    UnknownOutsideSet = 14,
    // unended set
    UnterminatedSet = 15,
    // reopened chain
    FirstFragmentWhileOpen = 16,
    // twin object
    DuplicateObject = 17,
    // loose fragment
    FragmentWithoutFirst = 18,
    // late fragment
    FragmentAfterLast = 19,
    // open chain
    UnterminatedObject = 20,
    // tiny length
    DeclaredLengthTooSmall = 21,
    // unequal length
    DeclaredLengthMismatch = 22,
    // crowded set
    TooManyObjects = 23,
    // overrun
    RunPastWidth = 24,
    // bare escape
    TruncatedEscape = 25,
    // cut long zero run
    TruncatedLongZeroRun = 26,
    // cut short colour run
    TruncatedShortColorRun = 27,
    // cut long colour run
    TruncatedLongColorRun = 28,
    // short line
    ShortLine = 29,
    // extra line
    TooManyLines = 30,
    // ragged end
    PartialLastLine = 31,
    // line count
    LineCountMismatch = 32,
    // absent object
    ObjectNotInSet = 33,
    // small slate
    BufferTooSmall = 34,
    // unwritable
    NotEncodable = 35,
    // no such set
    NoSuchSet = 36,
}

impl Refusal {
    // The number that support staff look up.
    pub fn number(self) -> u8
        ensures { result ≡ number_of self }
    {
        self as u8
    }
}

// A refusal is printed as its number.
impl fmt::Display for Refusal {
    ghost use Rattle.std.specs.Prelude.{Some};
    ghost use Rattle.std.specs.Fmt.{decimal};

    ghost output = { λ why. Some (decimal (number_of why)) };

    fn fmt<W: fmt::Write>(&self, f: &mut fmt::Formatter<W>) -> fmt::Result {
        let number = self.number();
        write!(f, "{number}")
    }
}

// A number that its field cannot hold: `?` passes it on in a writer. A reading takes each number that a field can hold.
impl From<TryFromIntError> for Refusal {
    ghost use Rattle.pgs_base.specs.declared.refusal.Refusal.TheVariants.{NotEncodable};

    ghost from_gives = { λ _ why. why ≡ NotEncodable };

    fn from(_: TryFromIntError) -> Self {
        Refusal::NotEncodable
    }
}
