// Bytes, little-endian numbers and bits of a slice. Past the slice's end every byte reads as 0.
ghost use Rattle.std.specs.Prelude.{◌≡◌, ◌+◌, ◌*◌, ◌≤◌, length};
ghost use Rattle.image.specs.Bytes.{byte_at, number_at, bit_at};
ghost use Rattle.image.specs.Reads.{Read, Nth, Packed};

// The byte at a place.
pub fn byte(s: &[u8], i: usize) -> u8
    ensures { Read (byte_at s.now i) 8 result }
{
    if i < s.len() { s[i] } else { 0 }
}

fn two(s: &[u8], i: usize) -> u16
    requires { i + 2 ≤ length s.now }
    ensures { result ≡ number_at 2 s.now i }
{
    u16::from_le_bytes([s[i], s[i + 1]])
}

fn four(s: &[u8], i: usize) -> u32
    requires { i + 4 ≤ length s.now }
    ensures { result ≡ number_at 4 s.now i }
{
    u32::from_le_bytes([s[i], s[i + 1], s[i + 2], s[i + 3]])
}

fn eight(s: &[u8], i: usize) -> u64
    requires { i + 8 ≤ length s.now }
    ensures { result ≡ number_at 8 s.now i }
{
    u64::from_le_bytes([
        s[i],
        s[i + 1],
        s[i + 2],
        s[i + 3],
        s[i + 4],
        s[i + 5],
        s[i + 6],
        s[i + 7],
    ])
}

// The number that the W bytes at a place make, which lie inside: one load.
pub fn load<const W: usize>(s: &[u8], i: usize) -> usize
    requires { (W ≤ 8) × (i + W ≤ length s.now) }
    ensures { Read (number_at W s.now i) (8 * W) result }
{
    if W == 2 {
        return usize::from(two(s, i));
    }
    if W == 4 {
        return four(s, i) as usize;
    }
    if W == 8 {
        return eight(s, i) as usize;
    }
    let mut x: usize = 0;
    for k in (0..W).rev() {
        x = usize::from(s[i + k]) + 256 * x;
    }
    x
}

// The number that the w bytes at a place make, a byte at a time: of a width that integers do not have, and at a slice's end. It is
// no part of what calls it, so that the readers are small enough to be part of their callers.
#[cold]
#[inline(never)]
fn by_bytes(s: &[u8], i: usize, w: usize) -> usize
    requires { w ≤ 8 }
    ensures { Read (number_at w s.now i) (8 * w) result }
{
    if s.len() <= i {
        return 0;
    }
    let mut x: usize = 0;
    for k in (0..w).rev() {
        x = usize::from(byte(s, i + k)) + 256 * x;
    }
    x
}

// The number that the W bytes at a place make.
pub fn le<const W: usize>(s: &[u8], i: usize) -> usize
    requires { W ≤ 8 }
    ensures { Read (number_at W s.now i) (8 * W) result }
{
    if W <= s.len() && i <= s.len() - W {
        return load::<W>(s, i);
    }
    by_bytes(s, i, W)
}

// The same, of w bytes. It is part of what calls it, as `Numbers::at` is: as a function of its own it is called for each number.
// Kept: a match on a number: the width is known only when the program runs, and each arm names one that is known where it is
// compiled.
#[inline(always)]
pub fn number(s: &[u8], i: usize, w: usize) -> usize
    requires { w ≤ 8 }
    ensures { Read (number_at w s.now i) (8 * w) result }
{
    match w {
        4 => le::<4>(s, i),
        8 => le::<8>(s, i),
        2 => le::<2>(s, i),
        1 => le::<1>(s, i),
        _ => by_bytes(s, i, w),
    }
}

// Bit j of the bits that start at a place.
// Kept: a slice and a place, here and in what reads bytes and numbers: what lies past the slice's end is no part of it.
pub fn bit(s: &[u8], place: usize, j: usize) -> bool
    ensures { result ≡ bit_at s.now place j }
{
    let Some(at) = place.checked_add(j / 8) else {
        return false;
    };
    (usize::from(byte(s, at)) >> (j % 8)) % 2 == 1
}

// Numbers of one width that stand one after the other from a place on.
#[derive(Clone, Copy)]
pub struct Numbers<'a> {
    pub bytes: &'a [u8],
    pub place: usize,
    pub width: usize,
}

impl Numbers<'_> {
    // Number j. It is part of what calls it: a call for each number takes longer than the loads.
    #[inline(always)]
    pub fn at(self, j: usize) -> usize
        requires { Nth self.place self.width j }
        ensures { Read (number_at self.entry.width self.entry.bytes.now (self.entry.place + j * self.entry.width)) (8 * self.entry.width) result }
    {
        number(self.bytes, self.place + j * self.width, self.width)
    }

    // The same where the width is 1, 2, 4 or 8 and the number lies inside: no test but those of the width, which a loop
    // makes once.
    // Kept: a match on a number, as in `number`: each arm names a width that is known where it is compiled.
    pub fn inside(self, j: usize) -> usize
        requires { Packed (length self.bytes.now) self.place self.width (j + 1) }
        ensures { Read (number_at self.entry.width self.entry.bytes.now (self.entry.place + j * self.entry.width)) (8 * self.entry.width) result }
    {
        let i = self.place + j * self.width;
        match self.width {
            4 => load::<4>(self.bytes, i),
            8 => load::<8>(self.bytes, i),
            2 => load::<2>(self.bytes, i),
            _ => load::<1>(self.bytes, i),
        }
    }
}
