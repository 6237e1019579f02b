// The numbers of an answer, and these as one number of 64 bits.
// Kept: refusals are numbers here, since docs/FORMAT.md numbers them and C hosts are given the numbers.
ghost use Rattle.std.specs.Prelude.{◌≡◌, ℕ, ◌<◌, ◌^◌, IfOk};
ghost use Rattle.image.specs.declared.answer.Side.TheVariants.{Left};
ghost use Rattle.answers.specs.declared.numbers.Numbers.{Numbers};
ghost use Rattle.answers.specs.Numbers.{numbers, fault_numbers, side_fault_numbers, range_refusal_numbers, digits_refusal_numbers, write_refusal_numbers, build_refusal_numbers, unit_value, yes_value, row_value, answer_numbers, packed};

use crate::{BuildRefusal, DigitsRefusal, RangeRefusal, SideFault, WriteRefusal};
use image::answer::{Fault, Side};

// 0 or the refusal's number; the side, 0 left and 1 right; the node; the value. What an answer does not have is 0.
#[derive(Clone, Copy, Debug, PartialEq, Eq)]
pub struct Numbers {
    pub number: u8,
    pub side: u8,
    pub node: u16,
    pub value: usize,
}

// The numbers of the refusals that more than one type has.
pub const UNEQUAL_TYPES: u8 = 20;

pub const OUT_OF_RANGE: u8 = 21;

pub const TOO_LONG: u8 = 43;

// In one number of 64 bits: how far up side, node and value stand.
const SIDE: u64 = 256;

const NODE: u64 = 65536;

const VALUE: u64 = 256;

// A refusal has a number, and a side and a node where it returns them.
pub trait Refusal: Drop {
    ghost refusal_numbers: { Self → Numbers };

    fn numbers(self) -> Numbers
        ensures { result ≡ refusal_numbers self };
}

// What a call answers where it does not refuse has a value. It is asked for where the 56 bits of a packed answer hold it, and there
// alone.
pub trait Found: Drop {
    ghost found_value: { Self → ℕ };

    fn value(self) -> usize
        requires { found_value self < 2 ^ 56 }
        ensures { result ≡ found_value self };
}

// The same of a value that is asked for wherever a usize holds it.
pub trait WideFound: Drop {
    ghost found_value: { Self → ℕ };

    fn wide_value(self) -> usize
        requires { found_value self < 2 ^ 64 }
        ensures { result ≡ found_value self };
}

// What tells its value wherever a usize holds it tells it where 56 bits do.
impl<T: WideFound> Found for T {
    ghost found_value = { T.found_value };

    fn value(self) -> usize {
        T::wide_value(self)
    }
}

// An answer without any of them.
const NOTHING: Numbers = Numbers {
    number: 0,
    side: 0,
    node: 0,
    value: 0,
};

// A refusal that is of no side and no node.
fn refused(number: u8) -> Numbers
    ensures { result ≡ numbers number 0 0 0 }
{
    Numbers {
        number: number,
        ..NOTHING
    }
}

// A call on one image takes it as the left one.
impl Refusal for Fault {
    ghost refusal_numbers = { fault_numbers Left };

    fn numbers(self) -> Numbers {
        Numbers {
            number: self.number,
            node: self.node,
            ..NOTHING
        }
    }
}

impl Refusal for SideFault {
    ghost refusal_numbers = { side_fault_numbers };

    fn numbers(self) -> Numbers {
        Numbers {
            number: self.fault.number,
            side: self.side as u8,
            node: self.fault.node,
            ..NOTHING
        }
    }
}

impl Refusal for RangeRefusal {
    ghost refusal_numbers = { range_refusal_numbers };

    fn numbers(self) -> Numbers {
        match self {
            RangeRefusal::Image(fault) => fault.numbers(),
            RangeRefusal::UnequalTypes => refused(UNEQUAL_TYPES),
            RangeRefusal::OutOfRange(side) => Numbers {
                number: OUT_OF_RANGE,
                side: side as u8,
                ..NOTHING
            },
        }
    }
}

impl Refusal for DigitsRefusal {
    ghost refusal_numbers = { digits_refusal_numbers };

    fn numbers(self) -> Numbers {
        match self {
            DigitsRefusal::Range(refusal) => refusal.numbers(),
            DigitsRefusal::NotDigits => refused(22),
        }
    }
}

impl Refusal for WriteRefusal {
    ghost refusal_numbers = { write_refusal_numbers };

    fn numbers(self) -> Numbers {
        match self {
            WriteRefusal::Image(fault) => fault.numbers(),
            WriteRefusal::OutOfRange => refused(OUT_OF_RANGE),
            WriteRefusal::TooLong => refused(TOO_LONG),
        }
    }
}

impl Refusal for BuildRefusal {
    ghost refusal_numbers = { build_refusal_numbers };

    fn numbers(self) -> Numbers {
        match self {
            BuildRefusal::Image(fault) => fault.numbers(),
            BuildRefusal::Unreadable => refused(23),
            BuildRefusal::NotRows => refused(24),
            BuildRefusal::TooLong => refused(TOO_LONG),
        }
    }
}

// An accepted image.
impl WideFound for () {
    ghost found_value = { unit_value };

    fn wide_value(self) -> usize {
        0
    }
}

// Yes is 1, no is 0.
impl WideFound for bool {
    ghost found_value = { yes_value };

    fn wide_value(self) -> usize {
        usize::from(self)
    }
}

// So many bytes.
impl WideFound for usize {
    ghost found_value = { λ n. n };

    fn wide_value(self) -> usize {
        self
    }
}

// The first unequal row: one more than the row, or 0 where there is none.
impl WideFound for Option<usize> {
    ghost found_value = { row_value };

    fn wide_value(self) -> usize {
        match self {
            Some(row) => row + 1,
            None => 0,
        }
    }
}

// The numbers of an answer whose value 56 bits hold.
pub fn answer_numbers<T: Found, E: Refusal>(answer: Result<T, E>) -> Numbers
    requires { (answer_numbers T.found_value E.refusal_numbers answer).value < 2 ^ 56 }
    ensures { result ≡ answer_numbers T.found_value E.refusal_numbers answer }
{
    match answer {
        Ok(found) => Numbers {
            value: found.value(),
            ..NOTHING
        },
        Err(refusal) => refusal.numbers(),
    }
}

// The same for whatever value a usize can hold: of what the calls find only a row can be one too high.
// Kept: a twin, since one function over both traits would ask of every type what `WideFound` does.
pub fn wide_answer_numbers<T: WideFound, E: Refusal>(answer: Result<T, E>) -> Numbers
    requires { IfOk answer (λ found. T.found_value found < 2 ^ 64) }
    ensures { result ≡ answer_numbers T.found_value E.refusal_numbers answer }
{
    match answer {
        Ok(wide) => Numbers {
            value: wide.wide_value(),
            ..NOTHING
        },
        Err(refusal) => refusal.numbers(),
    }
}

// An answer as one number: a refusal with its side and node, or the value.
pub fn pack<T: Found, E: Refusal>(answer: Result<T, E>) -> u64
    requires { (answer_numbers T.found_value E.refusal_numbers answer).value < 2 ^ 56 }
    ensures { result ≡ packed (answer_numbers T.found_value E.refusal_numbers answer) }
{
    let n = answer_numbers(answer);
    if n.number == 0 {
        return VALUE * n.value as u64;
    }
    u64::from(n.number) + SIDE * u64::from(n.side) + NODE * u64::from(n.node)
}
