// Bytes put into a lent buffer.
ghost use Rattle.std.specs.Prelude.{◌≡◌, ◌+◌, ◌*◌, ◌-◌, ◌<◌, ◌≤◌, ◌^◌, length};
ghost use Rattle.image.specs.Bytes.{number_bytes, bytes_at};
ghost use Rattle.rows.specs.Output.{repeated, Put};

// Bytes put over a part of a buffer that is as long.
// Kept: byte by byte, and not the library's `copy_from_slice`, which would ask every C host for a `memmove`.
pub fn copy_bytes(part: &mut [u8], bytes: &[u8])
    requires { length part.old ≡ length bytes.now }
    ensures len { length part.new ≡ length part.old }
    ensures after { part.new ≡ bytes.now }
{
    for k in 0..bytes.len() {
        part[k] = bytes[k];
    }
}

// A buffer that bytes are put into, and the place that is reached.
#[derive(Drop)]
pub struct Output<'a> {
    pub bytes: &'a mut [u8],
    pub at: usize,
}

impl Output<'_> {
    // The w bytes of a number, the lowest first.
    // Kept: `to_le_bytes` gives eight bytes. A width of more, which no caller has, would have to be ruled out by a `requires`
    // that the function has not.
    pub fn put_number(&mut self, x: usize, w: usize)
        requires { self.old.at + w ≤ length self.old.bytes.now }
        ensures { Put self.old self.new (number_bytes w x) }
    {
        let at = self.at;
        let mut rest = x;
        for k in 0..w {
            self.bytes[at + k] = (rest % 256) as u8;
            rest = rest / 256;
        }
        self.at = at + w;
    }

    // Bytes as they stand.
    pub fn put_bytes(&mut self, bytes: &[u8])
        requires { self.old.at + length bytes.now ≤ length self.old.bytes.now }
        ensures { Put self.old self.new bytes.now }
    {
        let end = self.at + bytes.len();
        copy_bytes(&mut self.bytes[self.at..end], bytes);
        self.at = end;
    }

    // The n bytes from an earlier place of the buffer on, once more.
    // Kept: byte by byte, and not the library's `copy_within`, which would ask every C host for a `memmove`.
    fn put_again(&mut self, from: usize, n: usize)
        requires { (from + n ≤ self.old.at) × (self.old.at + n ≤ length self.old.bytes.now) }
        ensures { Put self.old self.new (bytes_at self.old.bytes.now from n) }
    {
        let at = self.at;
        for k in 0..n {
            self.bytes[at + k] = self.bytes[from + k];
        }
        self.at = at + n;
    }

    // The n bytes before the place that is reached so many times more, behind them. Each time as many are put as stand, or as
    // are left.
    pub fn put_times(&mut self, n: usize, times: usize)
        requires behind { (n ≤ self.old.at) × (self.old.at + times * n ≤ length self.old.bytes.now) }
        requires times_bound { times < 2 ^ 34 }
        ensures { Put self.old self.new (repeated times (bytes_at self.old.bytes.now (self.old.at - n) n)) }
    {
        let from = self.at - n;
        let mut there: usize = 1;
        let mut left = times;
        // Kept: no `for`, since each turn puts as much as all before it.
        while left > 0 {
            let m = there.min(left);
            self.put_again(from, m * n);
            there += m;
            left -= m;
        }
    }
}
