// Whole numbers divided by a power of ten, to the nearest.
ghost use Rattle.std.specs.Prelude.{◌≡◌, cond, ◌*◌, ◌-◌, ◌<◌, ◌≤◌, ◌^◌, ltb};
ghost use Rattle.image.specs.Digits.{midway, nearest, divided, whole_number, same_whole};
ghost use Rattle.digits.specs.Parts.{Divisor, TwoNumbers};

use image::type_code::TypeCode;

// The powers of ten by their digits.
const POWERS: [usize; 10] = [
    1, 10, 100, 1000, 10000, 100000, 1000000, 10000000, 100000000, 1000000000,
];

// What numbers are divided by: a power of ten, of so many digits (`new`), or any other number from 1 to 10 to the 9.
#[derive(Clone, Copy)]
pub struct Power {
    pub value: usize,
    ghost divides: { Divisor value },
}

// Where a size midway between q and q + 1 goes: away from zero.
fn from_midway(q: usize) -> usize
    requires { q ≤ 2 ^ 63 }
    ensures { result ≡ midway q }
{
    q + 1
}

// The size of a number in two's complement that reads as x, where those from the sign bit on are negative.
fn size_of(x: usize, sign: usize) -> usize
    requires { (x < 2 * sign) × (sign ≤ 2 ^ 63) }
    ensures { (result ≡ cond (ltb x sign) x (2 * sign - x)) × (result ≤ 2 ^ 63) }
{
    if x < sign {
        return x;
    }
    sign - (x - sign)
}

impl Power {
    // 10 to the number of digits that are dropped.
    pub fn new(digits: usize) -> Power
        requires { digits ≤ 9 }
        ensures { result.value ≡ 10 ^ digits }
    {
        Power {
            value: POWERS[digits],
        }
    }

    // A size divided by it, to the nearest.
    fn to_nearest(self, m: usize) -> usize
        requires { m ≤ 2 ^ 63 }
        ensures { result ≡ nearest midway m self.value }
    {
        let q = m / self.value;
        let twice = 2 * (m % self.value);
        if twice < self.value {
            return q;
        }
        if self.value < twice {
            return q + 1;
        }
        from_midway(q)
    }

    // Two numbers of w bytes that read as x and y agree once they are divided by it: their sizes do, and unless these are 0
    // their signs.
    pub fn numbers_agree(self, x: usize, y: usize, w: usize) -> bool
        requires { TwoNumbers w x y }
        ensures { result ≡ same_whole (divided midway self.value (whole_number w x)) (divided midway self.value (whole_number w y)) }
    {
        let sign = TypeCode::sign_bit(w) as usize;
        let left = self.to_nearest(size_of(x, sign));
        let right = self.to_nearest(size_of(y, sign));
        (left == right) & (((x < sign) == (y < sign)) | (left == 0))
    }
}
