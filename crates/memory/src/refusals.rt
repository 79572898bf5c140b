// Why a call, a sheet or an edit is refused or evaluation stops, under the trade's words of document 01, and where.
ghost use Rattle.std.specs.Prelude.{◌≡◌};
ghost use Rattle.memory.specs.Refusals.{number, at, refusal_of};

// In the order of their numbers.
#[derive(Clone, Copy, PartialEq, Eq)]
pub enum Refusal {
    ShortBench = 1,
    LongSheet,
    BadLine,
    OverMeasure,
    OutOfRow,
    UnknownPart,
    WrongThread,
    BrokenTree,
    LooseEnd,
    NoMatch,
    WrongPiece,
    NoSuchMark,
    TooManyLayers,
    NotListed,
    OtherClass,
    StepStop,
    SizeStop,
    SlipTooLong,
    OverTheRange,
    NotASentence,
    BoardFull,
    OutsideProfile,
    CallUpward,
    UnknownDefinition,
}

// A refusal and what is to blame: a line of the sheet, or while rules are typed a node.
#[derive(Clone, Copy)]
pub struct Refused {
    pub refusal: Refusal,
    pub place: u64,
}

// A field that is not spelled as it should be, or that is spelled well and lies outside the limits.
#[derive(Clone, Copy, PartialEq, Eq)]
pub enum Misread {
    Malformed,
    OverLimit,
}

impl Refusal {
    pub fn at(self, place: u64) -> Refused
        ensures { result ≡ at self place }
    {
        Refused {
            refusal: self,
            place,
        }
    }
}

impl From<Refusal> for u64 {
    ghost from_gives = { λ r n. n ≡ number r };

    fn from(refusal: Refusal) -> u64 {
        refusal as u64
    }
}

impl From<Misread> for Refusal {
    ghost from_gives = { λ m r. r ≡ refusal_of m };

    fn from(misread: Misread) -> Refusal {
        match misread {
            Misread::Malformed => Refusal::BadLine,
            Misread::OverLimit => Refusal::OverMeasure,
        }
    }
}
