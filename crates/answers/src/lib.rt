// What the library's calls refuse, a type for those that refuse alike, and the numbers of every answer.
#![tactic(auto)]

pub mod numbers;

ghost use Rattle.std.specs.Prelude.{◌≡◌};
ghost use Rattle.answers.specs.declared.RangeRefusal.TheVariants.{Image as RangeImage};
ghost use Rattle.answers.specs.declared.DigitsRefusal.TheVariants.{Range};
ghost use Rattle.answers.specs.declared.WriteRefusal.TheVariants.{Image as WriteImage};
ghost use Rattle.answers.specs.declared.BuildRefusal.TheVariants.{Image as BuildImage};

use image::answer::{Fault, Side};

// A fault of one of two images, 10 to 19: two tables are not compared.
#[derive(Clone, Copy, Debug, PartialEq, Eq)]
pub struct SideFault {
    pub side: Side,
    pub fault: Fault,
}

// Why ranges of rows of two tables are not compared.
#[derive(Clone, Copy, Debug, PartialEq, Eq)]
pub enum RangeRefusal {
    // 10 to 19
    Image(SideFault),
    // 20: the types differ
    UnequalTypes,
    // 21: start + count exceeds the length
    OutOfRange(Side),
}

// Why ranges are not compared at fewer digits.
#[derive(Clone, Copy, Debug, PartialEq, Eq)]
pub enum DigitsRefusal {
    // as ranges of rows are refused
    Range(RangeRefusal),
    // 22: the root is neither Decimal32 nor Decimal64, or the digits are more than nine
    NotDigits,
}

// Why rows are not written.
#[derive(Clone, Copy, Debug, PartialEq, Eq)]
pub enum WriteRefusal {
    // 10 to 19
    Image(Fault),
    // 21: start + count exceeds the length
    OutOfRange,
    // 43: the output is longer than the buffer
    TooLong,
}

// Why a table is not built from written rows.
#[derive(Clone, Copy, Debug, PartialEq, Eq)]
pub enum BuildRefusal {
    // 10 to 19
    Image(Fault),
    // 23: a type code other than 0 to 30, 33, 34 and 38
    Unreadable,
    // 24: the string is not that many rows, or has ill-formed text
    NotRows,
    // 43: the image is longer than the buffer or the maximum, or a node would have too many rows
    TooLong,
}

impl From<SideFault> for RangeRefusal {
    ghost from_gives = { λ e r. r ≡ RangeImage e };

    fn from(fault: SideFault) -> RangeRefusal {
        RangeRefusal::Image(fault)
    }
}

impl From<RangeRefusal> for DigitsRefusal {
    ghost from_gives = { λ e r. r ≡ Range e };

    fn from(refusal: RangeRefusal) -> DigitsRefusal {
        DigitsRefusal::Range(refusal)
    }
}

impl From<Fault> for WriteRefusal {
    ghost from_gives = { λ e r. r ≡ WriteImage e };

    fn from(fault: Fault) -> WriteRefusal {
        WriteRefusal::Image(fault)
    }
}

impl From<Fault> for BuildRefusal {
    ghost from_gives = { λ e r. r ≡ BuildImage e };

    fn from(fault: Fault) -> BuildRefusal {
        BuildRefusal::Image(fault)
    }
}
