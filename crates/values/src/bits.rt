// Bits of a slice, 64 at a time: what the Rust has in its bit iterators.
ghost use Rattle.std.specs.Prelude.{◌≡◌, ◌≢◌, true, ◌+◌, ◌*◌, ◌/◌, ◌<◌, ◌≤◌, ◌^◌, length, ltb};
ghost use Rattle.std.specs.Bool.{then_some};
ghost use Rattle.image.specs.Bytes.{bit_at};
ghost use Rattle.values.specs.Bits.{bits_at, joined, Leading};
ghost use Rattle.values.specs.Pairs.{first_unequal, same_bit_of};
ghost use Rattle.values.specs.Pair.{Near, Inside, first_unequal_in, from_bit};

use image::bytes::{byte, le, load};

// So many bits make a word.
const WORD: usize = 64;

// The 64 bits from bit `shift` on of the number that eight bytes and the one after them make.
fn joined(low: usize, next: u8, shift: usize) -> usize
    requires { shift < 8 }
    ensures { result ≡ joined low next shift }
{
    if shift == 0 {
        return low;
    }
    (low >> shift) + (usize::from(next) << (WORD - shift))
}

// The 64 bits from bit i on, of the bits that start at a place, as a number, the first bit lowest. INSIDE says that their
// bytes and one more lie inside.
// Kept: a slice and a place here, and no `Bits`: that a byte is below 256 is known of a slice that is itself an argument, and
// not of one inside a struct.
fn word<const INSIDE: bool>(s: &[u8], place: usize, i: usize) -> usize
    requires near { (place < 2 ^ 32) × (i < 2 ^ 35) }
    requires inside { INSIDE ≡ true → place + i / 8 + 9 ≤ length s.now }
    ensures { result ≡ bits_at s.now place i 64 }
{
    let at = place + i / 8;
    if INSIDE || at + 9 <= s.len() {
        return joined(load::<8>(s, at), s[at + 8], i % 8);
    }
    joined(le::<8>(s, at), byte(s, at + 8), i % 8)
}

// The bits that start at a place of a slice, from one of them on.
#[derive(Clone, Copy)]
pub struct Bits<'a> {
    pub bytes: &'a [u8],
    pub place: usize,
    pub first: usize,
}

impl Bits<'_> {
    // The 64 bits from bit k on as a number. INSIDE says that their bytes and one more lie inside.
    fn word_of<const INSIDE: bool>(self, k: usize) -> usize
        requires near { Near self k }
        requires inside { INSIDE ≡ true → Inside self k 9 }
        ensures { result ≡ bits_at self.entry.bytes.now self.entry.place (self.entry.first + k) 64 }
    {
        word::<INSIDE>(self.bytes, self.place, self.first + k)
    }

    // The same wherever they lie.
    pub fn word(self, k: usize) -> usize
        requires { Near self k }
        ensures { result ≡ bits_at self.entry.bytes.now self.entry.place (self.entry.first + k) 64 }
    {
        self.word_of::<false>(k)
    }

    // How many of 64 bits from bit k on are set, up to the first that is not.
    fn leading_word(self, k: usize) -> usize
        requires { Near self k }
        ensures { Leading (bit_at self.entry.bytes.now self.entry.place) (self.entry.first + k) 64 result }
    {
        self.word(k).trailing_ones() as usize
    }

    // How many of n bits are set, up to the first that is not.
    pub fn leading_set(self, n: usize) -> usize
        requires { Near self n }
        ensures { Leading (bit_at self.entry.bytes.now self.entry.place) self.entry.first n result }
    {
        for h in 0..n / WORD {
            let r = self.leading_word(WORD * h);
            if r < WORD {
                return WORD * h + r;
            }
        }
        let k = WORD * (n / WORD);
        k + self.leading_word(k).min(n - k)
    }
}

// The number of the first of the n lowest bits in which two numbers differ that are not the same, or n where it is not
// among these.
// Kept: a number and no Option, here and in what stands below but for the last, where the count says that none differs: it is the lesser of two
// numbers, is added to what was passed, and is compared with the count.
fn first_apart(x: usize, y: usize, n: usize) -> usize
    requires { x ≢ y }
    ensures { result ≡ first_unequal (same_bit_of x y) 0 0 n }
{
    ((x ^ y).trailing_zeros() as usize).min(n)
}

// Of m times 64 pairs of bits the number of the first that are not the same, or their count. INSIDE says that all lie
// inside, and then no word is tested for it. It is no part of what calls it, where its loop would read at each word from the
// stack what it has in registers here.
#[inline(never)]
fn first_unequal_word<const INSIDE: bool>(x: Bits, y: Bits, m: usize) -> usize
    requires near { Near x (64 * m) × Near y (64 * m) }
    requires inside { INSIDE ≡ true → Inside x 0 (8 * m + 1) × Inside y 0 (8 * m + 1) }
    ensures { result ≡ first_unequal_in x.entry y.entry (64 * m) }
{
    for h in 0..m {
        let u = x.word_of::<INSIDE>(WORD * h);
        let v = y.word_of::<INSIDE>(WORD * h);
        if u != v {
            return WORD * h + first_apart(u, v, WORD);
        }
    }
    WORD * m
}

// The same, wherever they lie.
fn first_unequal_whole(x: Bits, y: Bits, m: usize) -> usize
    requires { Near x (64 * m) × Near y (64 * m) }
    ensures { result ≡ first_unequal_in x.entry y.entry (64 * m) }
{
    if x.place + x.first / 8 + 8 * m + 1 <= x.bytes.len() {
        if y.place + y.first / 8 + 8 * m + 1 <= y.bytes.len() {
            return first_unequal_word::<true>(x, y, m);
        }
    }
    first_unequal_word::<false>(x, y, m)
}

// The same of n pairs from pair k on, fewer than a word: two words that are cut off after n bits are compared first.
fn first_unequal_tail(x: Bits, y: Bits, k: usize, n: usize) -> usize
    requires { (n < 64) × Near x k × Near y k }
    ensures { result ≡ first_unequal_in (from_bit x.entry k) (from_bit y.entry k) n }
{
    let size: usize = 1 << n;
    let u = x.word(k) % size;
    let v = y.word(k) % size;
    if u == v {
        return n;
    }
    first_apart(u, v, n)
}

// A number, where it is below n.
pub(crate) fn below(k: usize, n: usize) -> Option<usize>
    ensures { result ≡ then_some (ltb k n) k }
{
    (k < n).then_some(k)
}

// Of n pairs of bits the number of the first that are not the same, if there is one: 64 at a time, and the rest.
pub fn first_unequal_bit(x: Bits, y: Bits, n: usize) -> Option<usize>
    requires { Near x n × Near y n }
    ensures { result ≡ then_some (ltb (first_unequal_in x.entry y.entry n) n) (first_unequal_in x.entry y.entry n) }
{
    let m = n / WORD;
    let whole = WORD * m;
    let r = first_unequal_whole(x, y, m);
    if r < whole {
        return Some(r);
    }
    let k = whole + first_unequal_tail(x, y, whole, n - whole);
    below(k, n)
}
