// What a scan reads that has no child: off the front of a string, up to what is left of it, or nothing where it does not begin so.
ghost use Rattle.std.specs.Prelude.{◌≡◌, ◌+◌, ◌≤◌, ◌<◌, length, get_or};
ghost use Rattle.image.specs.Parse.{bytes_in};
ghost use Rattle.built.specs.Typed.{text_fits};
ghost use Rattle.parse.specs.Scan.{boolean_in, text_in, nothing, sized_adds, largest, Begun};

use image::bytes::load;
use image::row_bytes::COUNT_WIDTH;
use image::type_code::TypeCode;
use utf8::is_utf8;

// What is left of a string that is read off its front, and for each node how far the offsets of its rows go on.
// Kept: `spans` is a slice, whose length the ghost field says. Tried: as an array it has its length in its type, but the check
// does not know it of an array that a struct holds by `&mut`.
#[derive(Drop)]
pub(crate) struct Scan<'a, 'b> {
    pub(crate) text: &'a [u8],
    pub(crate) spans: &'b mut [usize],
    ghost begun: { Begun text.now spans.now },
}

// The text is one that the code allows: well-formed where it is one of characters.
fn is_allowed(code: u8, text: &[u8]) -> bool
    ensures { result ≡ text_fits code text.now }
{
    !matches!(code, TypeCode::UTF8 | TypeCode::LARGE_UTF8) || is_utf8(text)
}

impl Scan<'_, '_> {
    ghost use Rattle.parse.specs.Scanned.{Scanned, CountScanned, SpanAdded};

    // The value of a Boolean: one byte, 00 or 01.
    pub(crate) fn boolean(&mut self) -> Option<()>
        ensures { Scanned 0 boolean_in nothing self.old self.new result }
    {
        let (value, rest) = self.text.split_first()?;
        if *value > 1 {
            return None;
        }
        self.text = rest;
        Some(())
    }

    // A value of w bytes.
    pub(crate) fn bytes(&mut self, w: usize) -> Option<()>
        ensures { Scanned 0 (bytes_in w) nothing self.old self.new result }
    {
        let (_, rest) = self.text.split_at_checked(w)?;
        self.text = rest;
        Some(())
    }

    // A length or a count.
    pub(crate) fn count(&mut self) -> Option<usize>
        ensures { CountScanned self.old self.new result }
    {
        let (bytes, rest) = self.text.split_at_checked(COUNT_WIDTH)?;
        self.text = rest;
        Some(load::<COUNT_WIDTH>(bytes, 0))
    }

    // The offsets of a node go on by n.
    pub(crate) fn add_span(&mut self, node: u32, n: usize)
        requires { (node < 256) × (get_or self.old.spans.now node 0 + n + length self.old.text.now ≤ largest) }
        ensures { SpanAdded node n self.old self.new }
    {
        self.spans[node as usize] += n;
    }

    // A text of a node of that code: its length, then its bytes.
    pub(crate) fn text(&mut self, code: u8, node: u32) -> Option<()>
        requires { node < 256 }
        ensures { Scanned 0 (text_in code) (sized_adds node) self.old self.new result }
    {
        let n = self.count()?;
        let (value, rest) = self.text.split_at_checked(n)?;
        if !is_allowed(code, value) {
            return None;
        }
        self.text = rest;
        self.add_span(node, n);
        Some(())
    }
}
