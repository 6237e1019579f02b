// Lines of lower-case hexadecimal.
ghost use Rattle.std.specs.Prelude.{◌≡◌};
ghost use Rattle.std.specs.Option.{option_copied};
ghost use Rattle.session.specs.Lines.{digit_value, frame_in, NextByte};

// A frame has at most so many bytes.
pub const LONGEST_FRAME: usize = 65;

const SPACE: u8 = b' ';

// What ends a line, of the input and of the output.
pub const LINE_FEED: u8 = b'\n';

// The value of a digit, 0 to 9 and a to f.
// Kept: the library's `to_digit` takes capitals too, for which a line is refused.
fn digit(c: u8) -> Option<u8>
    ensures { result ≡ digit_value c }
{
    match c {
        b'0'..=b'9' => Some(c - b'0'),
        b'a'..=b'f' => Some(c - b'a' + 10),
        _ => None,
    }
}

// What is left of a line where the next byte begins, after one that ends: past one space, if something follows it.
fn after_byte(left: &[u8]) -> &[u8]
    ensures { NextByte left.now result.now }
{
    match left {
        [SPACE, next @ ..] if !next.is_empty() => next,
        _ => left,
    }
}

// The bytes that a line stands for, at the front of the buffer: None where the line is not 1 to 65 bytes of hexadecimal.
pub fn decode<'a>(line: &[u8], buffer: &'a mut [u8; LONGEST_FRAME]) -> Option<&'a [u8]>
    ensures { option_copied result ≡ frame_in line.now }
{
    let bytes: &mut [u8] = buffer;
    let mut left = line;
    let mut n: usize = 0;
    // Kept: no `for`, since a byte has two characters and at times a space before the next.
    while let [high, low, after @ ..] = left {
        let byte = 16 * digit(*high)? + digit(*low)?;
        if n == LONGEST_FRAME {
            return None;
        }
        bytes[n] = byte;
        n += 1;
        left = after_byte(after);
    }
    if n == 0 || !left.is_empty() {
        return None;
    }
    Some(&bytes[..n])
}
