// A long text, cut in four parts that are walked side by side, so that four loads from the table are waited for at once.
// It is cut where no tail stands, and is well-formed exactly where the four parts are (proofs/Cutting.antt).
ghost use Rattle.std.specs.Prelude.{◌≡◌, ◌+◌, ◌≤◌, length};
ghost use Rattle.std.specs.List.{All, AllZip, list_any, list_all};
ghost use Rattle.image.specs.Ranges.{first};
ghost use Rattle.image.specs.Utf8.{has, tail, well_formed};
ghost use Rattle.utf8.specs.Cuts.{begins};
ghost use Rattle.utf8.specs.Walks.{Left, Further, Passed, ends_well, ill, plain};

use crate::ascii::{SMALL_BLOCK, high_among};
use crate::walk::{BETWEEN, ILL_FORMED, Walk, in_one};

// So many bytes of each part are looked at together.
const BLOCK: usize = 64;

// The walks of the four parts of a text.
type Walks<'a> = [Walk<'a>; 4];

// The byte is a tail, 80 to BF: no character begins with it.
pub fn is_tail(b: u8) -> bool
    ensures { result ≡ has tail b }
{
    (b >= 0x80) & (b <= 0xBF)
}

// The first of three places from one on where no tail stands, or the fourth: a character has three tails at most.
// Kept: the text is cut at this place; found in a part of it, it would be added up again.
fn cut(text: &[u8], at: usize) -> usize
    requires { at + 3 ≤ length text.now }
    ensures place { result ≡ first (begins text.now) at 3 }
    ensures near { (at ≤ result) × (result ≤ at + 3) }
{
    for k in 0..3 {
        if !is_tail(text[at + k]) {
            return at + k;
        }
    }
    at + 3
}

// Four walks, each one byte further.
// Kept: by index, here and in `pass_each`: the borrow checker does not cover a loop over `&mut` of an array of structs with a
// ghost field, and the library's `map` of an array takes three times as long.
fn step_each(walks: Walks<'_>) -> Walks<'_>
    requires { All (Left 1) walks }
    ensures { AllZip (Further 1) walks.entry result }
{
    let mut moved = walks;
    for k in 0..moved.len() {
        moved[k] = moved[k].step();
    }
    moved
}

// Four walks, each n bytes further.
fn walk_each(walks: Walks<'_>, n: usize) -> Walks<'_>
    requires { All (Left n) walks }
    ensures { AllZip (Further n) walks.entry result }
{
    let mut moved = walks;
    for _ in 0..n {
        moved = step_each(moved);
    }
    moved
}

// Four walks in the same states, each n bytes further.
fn pass_each(walks: Walks<'_>, n: usize) -> Walks<'_>
    requires { All (Left n) walks }
    ensures { AllZip (Passed n) walks.entry result }
{
    let mut moved = walks;
    for k in 0..moved.len() {
        moved[k] = moved[k].pass(n);
    }
    moved
}

// Four walks are between characters, and none of their next n bytes is above 7F. As in `high_among`, the loops have no way out.
fn are_plain(walks: Walks<'_>, n: usize) -> bool
    requires { All (Left n) walks }
    ensures { result ≡ plain n walks.entry }
{
    let mut all_between = true;
    for walk in walks {
        all_between = all_between & (walk.state == BETWEEN);
    }
    if !all_between {
        return false;
    }
    let mut found = false;
    for walk in walks {
        found = found | high_among(&walk.left[..n]);
    }
    !found
}

// Four walks, each 16 bytes further.
fn walk_small_blocks(walks: Walks<'_>) -> Walks<'_>
    requires { All (Left 16) walks }
    ensures { AllZip (Further 16) walks.entry result }
{
    if are_plain(walks, SMALL_BLOCK) {
        return pass_each(walks, SMALL_BLOCK);
    }
    walk_each(walks, SMALL_BLOCK)
}

// Four walks, each 64 bytes further: all at once where they are plain, or else 16 at a time.
fn walk_blocks(walks: Walks<'_>) -> Walks<'_>
    requires { All (Left 64) walks }
    ensures { AllZip (Further 64) walks.entry result }
{
    if are_plain(walks, BLOCK) {
        return pass_each(walks, BLOCK);
    }
    let mut moved = walks;
    for _ in 0..BLOCK / SMALL_BLOCK {
        moved = walk_small_blocks(moved);
    }
    moved
}

// One of four walks is ill-formed, whatever follows.
fn is_ill(walks: Walks<'_>) -> bool
    ensures { result ≡ list_any ill walks.entry }
{
    walks.iter().any(|walk| walk.state == ILL_FORMED)
}

// Each of four walks ends between characters.
fn each_ends(walks: Walks<'_>) -> bool
    ensures { result ≡ list_all ends_well walks.entry }
{
    walks.iter().all(|walk| walk.ends_well())
}

// The same for four walks of n bytes at least, which go side by side.
fn all_end(walks: Walks<'_>, n: usize) -> bool
    requires { All (Left n) walks }
    ensures { result ≡ list_all ends_well walks.entry }
{
    let mut moved = walks;
    for _ in 0..n / BLOCK {
        moved = walk_blocks(moved);
        if is_ill(moved) {
            return false;
        }
    }
    each_ends(walk_each(moved, n % BLOCK))
}

// The text is well-formed. Where nothing but tails stands at one of its quarters, it is walked in one.
pub(crate) fn in_parts(text: &[u8]) -> bool
    requires { 16 ≤ length text.now }
    ensures { result ≡ well_formed text.now }
{
    let quarter = text.len() / 4;
    let b = cut(text, quarter);
    let c = cut(text, 2 * quarter);
    let d = cut(text, 3 * quarter);
    if is_tail(text[b]) | is_tail(text[c]) | is_tail(text[d]) {
        return in_one(text);
    }
    let walks = [
        Walk::start(&text[..b]),
        Walk::start(&text[b..c]),
        Walk::start(&text[c..d]),
        Walk::start(&text[d..]),
    ];
    all_end(walks, quarter - 3)
}
