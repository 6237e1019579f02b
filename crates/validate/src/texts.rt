// 19: a text of a row that is not null is ill-formed.
ghost use Rattle.std.specs.Prelude.{◌≡◌, Bool, true, false, List, ℕ, ◌+◌, ◌<◌, ◌≤◌, length};
ghost use Rattle.image.specs.Of.{◌of◌};
ghost use Rattle.image.specs.Ranges.{any};
ghost use Rattle.image.specs.Record.{node_count, length_of, offset_of, buffer_count};
ghost use Rattle.image.specs.Element.{text_at};
ghost use Rattle.image.specs.Faults.{fault19, text_row_fault};
ghost use Rattle.image.specs.Utf8.{well_formed};
ghost use Rattle.laws.specs.Accepted.{NoneBelow};
ghost use Rattle.validate.specs.Texts.{TextNode, ViewNode, OffsetNode, TextsRead, TextRow, EachBuffer, TellsBytes, buffer_bytes, formed_buffer, Found, text_start, splits};

use accepted::byte_view::Views;
use image::bytes::{Numbers, load};
use image::element::{INLINE_LENGTH, VIEW_SIZE};
use image::record::Node;
use image::type_code::TypeCode;
use utf8::ascii::{has_high, high_among};
use utf8::parts::is_tail;
use utf8::{is_utf8, walks_well};

// What was found of the data buffers of views.
#[derive(Clone, Copy)]
enum Buffers {
    // nothing
    Unknown,
    // each is well-formed, as one text
    Formed,
    // none has a byte above 7F
    Plain,
}

// The rows of a node that are views, and what was found of the data buffers.
#[derive(Clone, Copy)]
pub struct ViewTexts<'a> {
    views: Views<'a>,
    buffers: Buffers,
    ghost texts: { ViewNode views.node.image.now views.node.number },
    ghost found: { Found views.node.image.now views.node.number buffers },
}

// A node whose rows are texts between offsets: the offsets from row 0's on, and where the text starts that they count in.
#[derive(Clone, Copy)]
pub struct Texts<'a> {
    node: Node<'a>,
    offsets: Numbers<'a>,
    start: usize,
    ghost texts: { OffsetNode node.image.now node.number },
    ghost read: { TextsRead node.image.now node.number offsets start },
}

// The views have more bytes in all than the image, so that many share theirs. It chooses a path and no answer.
fn bytes_shared(views: Views) -> bool
    requires { ViewNode of views.node }
{
    let image = views.node.image;
    let mut sum: usize = 0;
    for i in 0..views.node.length() {
        sum += load::<4>(image, views.first + i * VIEW_SIZE);
    }
    image.len() < sum
}

// Each data buffer of views passes the test.
fn each_buffer<F: Fn(&[u8]) -> bool>(node: Node, test: F) -> bool
    requires node { TextNode of node }
    requires tested { F.IsAlwaysCallable test }
    ensures { (p : List ℕ → Bool) → TellsBytes (F.post test) p → result ≡ true → EachBuffer (λ j. p ((buffer_bytes of node.entry) j) ≡ true) (buffer_count of node.entry) }
{
    for j in 1..node.buffer_count() {
        let place = node.buffer_place(j);
        let len = node.buffer_length(j);
        if !test(&node.image[place..place + len]) {
            return false;
        }
    }
    true
}

// What can be said of the data buffers of views. That they are well-formed is looked at only where views share their bytes:
// then each is walked once, and no longer for each view.
fn buffers_of(views: Views) -> Buffers
    requires { ViewNode of views.node }
    ensures { (Found of views.entry.node) result }
{
    let node = views.node;
    if each_buffer(node, |bytes| !has_high(bytes)) {
        return Buffers::Plain;
    }
    if bytes_shared(views) && each_buffer(node, |bytes| is_utf8(bytes)) {
        return Buffers::Formed;
    }
    Buffers::Unknown
}

impl<'a> ViewTexts<'a> {
    // What is read once of a node.
    fn new(node: Node<'a>) -> ViewTexts<'a>
        requires { ViewNode of node }
        ensures { result.views.node ≡ node.entry }
    {
        let views = Views::new(node);
        ViewTexts {
            views: views,
            buffers: buffers_of(views),
        }
    }

    // The view of row i is a short one without a byte above 7F, or a long one, where no data buffer has such a byte.
    fn is_plain(self, i: usize) -> bool
        requires { (TextRow of self.views.node) i }
        ensures { result ≡ true → well_formed ((text_at of self.entry.views.node) ((offset_of of self.entry.views.node) + i)) ≡ true }
    {
        let view = self.views.view(i);
        if view.length() <= INLINE_LENGTH {
            return !high_among(&self.views.node.image[view.place..view.place + VIEW_SIZE]);
        }
        matches!(self.buffers, Buffers::Plain)
    }

    // The text of row i, a view, is cut out of its data buffer where no tail stands: it is well-formed where the buffer is, as
    // one text. A short view's text stands in no buffer.
    fn cut_well(self, i: usize) -> bool
        requires { (TextRow of self.views.node) i }
        ensures { result ≡ true → EachBuffer (formed_buffer of self.entry.views.node) (buffer_count of self.entry.views.node) → well_formed ((text_at of self.entry.views.node) ((offset_of of self.entry.views.node) + i)) ≡ true }
    {
        let view = self.views.view(i);
        let len = view.length();
        if len <= INLINE_LENGTH {
            return false;
        }
        let node = self.views.node;
        let buffer = view.buffer();
        let end = node.buffer_place(buffer) + node.buffer_length(buffer);
        let start = view.start();
        if is_tail(node.image[start]) {
            return false;
        }
        end <= start + len || !is_tail(node.image[start + len])
    }

    // The text of row i, a view that is not null, is well-formed.
    fn is_formed(self, i: usize) -> bool
        requires { (TextRow of self.views.node) i }
        ensures { result ≡ well_formed ((text_at of self.entry.views.node) ((offset_of of self.entry.views.node) + i)) }
    {
        if self.is_plain(i) {
            return true;
        }
        if let Buffers::Formed = self.buffers {
            if self.cut_well(i) {
                return true;
            }
        }
        is_utf8(self.views.view(i).bytes())
    }

    // A row that is not null has an ill-formed text.
    fn any_ill_formed(self) -> bool
        ensures { result ≡ any (text_row_fault of self.entry.views.node) 0 (length_of of self.entry.views.node) }
    {
        self.views.node.any_kept(|row| !self.is_formed(row))
    }
}

impl<'a> Texts<'a> {
    // What is read once of a node.
    fn new(node: Node<'a>) -> Texts<'a>
        requires { OffsetNode of node }
        ensures { result.node ≡ node.entry }
    {
        Texts {
            node: node,
            offsets: node.row_numbers(node.element_width()),
            start: node.buffer_place(1),
        }
    }

    // Where the text of row i starts, or where the last one ends.
    fn text_start(self, i: usize) -> usize
        requires { i ≤ length_of of self.node }
        ensures value { result ≡ (text_start of self.entry.node) i }
        ensures inside { result ≤ length self.entry.node.image.now }
    {
        self.start + self.offsets.inside(i)
    }

    // The text of row i, from its start up to the next, is well-formed.
    fn is_formed(self, i: usize) -> bool
        requires { i < length_of of self.node }
        ensures { result ≡ well_formed ((text_at of self.entry.node) ((offset_of of self.entry.node) + i)) }
    {
        is_utf8(&self.node.image[self.text_start(i)..self.text_start(i + 1)])
    }

    // A row's text starts inside a letter: with a tail, before the end of all texts.
    fn letter_split(self, end: usize) -> bool
        requires { end ≤ length self.node.image.now }
        ensures { result ≡ any ((splits of self.entry.node) end) 0 (length_of of self.entry.node) }
    {
        for i in 0..self.node.length() {
            let start = self.text_start(i);
            if start < end && is_tail(self.node.image[start]) {
                return true;
            }
        }
        false
    }

    // The texts of all rows, which stand one after the other, are well-formed, as one look at all of them together tells: there
    // is no byte above 7F, or they are one well-formed text and no row's starts inside a letter. A no tells nothing, since bytes
    // under nulls are among them.
    fn formed_together(self) -> bool
        ensures { result ≡ true → any (text_row_fault of self.entry.node) 0 (length_of of self.entry.node) ≡ false }
    {
        let end = self.text_start(self.node.length());
        let text = &self.node.image[self.text_start(0)..end];
        if !has_high(text) {
            return true;
        }
        walks_well(text) && !self.letter_split(end)
    }

    // A row that is not null has an ill-formed text.
    fn any_ill_formed(self) -> bool
        ensures { result ≡ any (text_row_fault of self.entry.node) 0 (length_of of self.entry.node) }
    {
        if self.formed_together() {
            return false;
        }
        self.node.any_kept(|i| !self.is_formed(i))
    }
}

// The node has fault 19.
pub fn fault_19(node: Node) -> bool
    requires { NoneBelow 19 node.image.now × (node.number < node_count node.image.now) }
    ensures { result ≡ fault19 of node.entry }
{
    let code = node.code();
    if !TypeCode::is_text(code) {
        return false;
    }
    if code == TypeCode::UTF8_VIEW {
        return ViewTexts::new(node).any_ill_formed();
    }
    Texts::new(node).any_ill_formed()
}
