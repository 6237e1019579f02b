// Dictionaries. Translated from src/equal/dictionary.rs of arrow-data 60.1.0 (Apache-2.0).
ghost use Rattle.std.specs.Prelude.{◌≡◌};
ghost use Rattle.image.specs.declared.type_code.Layout.TheVariants.{Dictionary};
ghost use Rattle.image.specs.Row.{dictionary_row};
ghost use Rattle.image.specs.Reads.{Nth};
ghost use Rattle.equal.specs.Keys.{KeysOf, KeyPair};
ghost use Rattle.values.specs.Pair.{equal_rows, nested, PartsIn};

use crate::equal_row;
use image::bytes::Numbers;
use values::leaf::leaves_of;
use values::pair::{Pair, Rows};

// In a range of so many rows pairs of keys are kept, and so many at most.
const LONG: usize = 64;

const KEPT: usize = 1024;

// Two keys that are none: a key is below the length of the values.
// Kept: no `Option`, with which an entry of the table below would take 12 bytes in place of 8.
const NO_KEYS: (u32, u32) = (u32::MAX, u32::MAX);

// The keys of two dictionaries.
#[derive(Clone, Copy)]
struct Keys<'a> {
    left: Numbers<'a>,
    right: Numbers<'a>,
}

impl<'a> Keys<'a> {
    // Those of two nodes, which have one width.
    fn new(pair: &Pair<'a>) -> Keys<'a>
        ensures { KeysOf pair.now result }
    {
        let width = pair.left.element_width();
        Keys {
            left: pair.left.numbers(0, width),
            right: pair.right.numbers(0, width),
        }
    }

    // Key i of the left and key j of the right.
    #[inline(always)]
    fn at(self, i: usize, j: usize) -> (usize, usize)
        requires { Nth self.left.place self.left.width i × Nth self.right.place self.right.width j }
        ensures { KeyPair self.entry i j result }
    {
        (self.left.at(i), self.right.at(j))
    }
}

// A long range: a pair of keys whose values are equal is kept at the place that its left key gives, and is not compared again
// while it stands there. The table stands on the stack, and a function of the cycle that this one was a part of would have it at
// every level of nested rows, of whatever layout: as a function of its own it is there at the levels of Dictionaries alone.
// Kept: two `u32`, which may be no keys, and no `Option` of them: an entry of the table takes 8 bytes so, where it would take 12.
#[inline(never)]
#[cycle(rows)]
fn long_equal(pair: &Pair, rows: Rows, depth: usize) -> bool
    requires { PartsIn Dictionary pair.now rows depth }
    ensures { result ≡ equal_rows (nested dictionary_row depth) pair.now rows }
{
    let keys = Keys::new(pair);
    let child = pair.child(0);
    let leaves = leaves_of(child);
    let mut kept = [NO_KEYS; KEPT];
    for row in 0..rows.count {
        let (x, y) = keys.at(rows.left + row, rows.right + row);
        let both = (x as u32, y as u32);
        let place = x % KEPT;
        if kept[place] != both {
            if !equal_row(&child, &leaves, x, y, depth) {
                return false;
            }
            kept[place] = both;
        }
    }
    true
}

// Dictionaries without null keys: the values that the keys name, row by row. A short range has no table, which would take
// longer to fill than the rows take.
#[cycle(rows)]
pub fn equal(pair: &Pair, rows: Rows, depth: usize) -> bool
    requires { PartsIn Dictionary pair.now rows depth }
    ensures { result ≡ equal_rows (nested dictionary_row depth) pair.now rows }
{
    if LONG <= rows.count {
        return long_equal(pair, rows, depth);
    }
    let keys = Keys::new(pair);
    let child = pair.child(0);
    let leaves = leaves_of(child);
    for k in 0..rows.count {
        let (x, y) = keys.at(rows.left + k, rows.right + k);
        if !equal_row(&child, &leaves, x, y, depth) {
            return false;
        }
    }
    true
}
