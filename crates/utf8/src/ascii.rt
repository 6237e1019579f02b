// Bytes above 7F, looked for many at once.
ghost use Rattle.std.specs.Prelude.{◌≡◌, ◌+◌, ◌≤◌, ◌<◌, length};
ghost use Rattle.utf8.specs.Ascii.{any_high};

// So many bytes are looked at together, and of the rest so many.
const LARGE_BLOCK: usize = 256;

pub(crate) const SMALL_BLOCK: usize = 16;

// One of the bytes is above 7F. The loop has no way out, so that for a length that is known when it is compiled the compiler
// looks at 16 bytes at once.
pub fn high_among(text: &[u8]) -> bool
    ensures { result ≡ any_high text.now }
{
    let mut found = false;
    for b in text {
        found = found | (*b >= 128);
    }
    found
}

// The same of m to 2 m bytes: the first m, and the last m, some of them once more.
fn high_at_ends(text: &[u8], m: usize) -> bool
    requires { (m ≤ length text.now) × (length text.now ≤ m + m) }
    ensures { result ≡ any_high text.now }
{
    high_among(&text[..m]) || high_among(&text[text.len() - m..])
}

// The same of fewer bytes than a small block.
fn high_in_short(text: &[u8]) -> bool
    requires { length text.now < 16 }
    ensures { result ≡ any_high text.now }
{
    if 8 <= text.len() {
        return high_at_ends(text, 8);
    }
    if 4 <= text.len() {
        return high_at_ends(text, 4);
    }
    high_among(text)
}

// The same of any bytes, in blocks, and no further than the first block that has one. The last small block is some bytes of
// the one before it once more, where the blocks leave a rest.
pub fn has_high(text: &[u8]) -> bool
    ensures { result ≡ any_high text.now }
{
    if text.len() < SMALL_BLOCK {
        return high_in_short(text);
    }
    let blocks = text.chunks_exact(LARGE_BLOCK);
    let rest = blocks.remainder();
    for block in blocks {
        if high_among(block) {
            return true;
        }
    }
    for block in rest.chunks_exact(SMALL_BLOCK) {
        if high_among(block) {
            return true;
        }
    }
    high_among(&text[text.len() - SMALL_BLOCK..])
}
