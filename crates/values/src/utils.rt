// Numbers of a few bytes, null masks and types. Translated from src/equal/utils.rs of arrow-data 60.1.0 (Apache-2.0).
ghost use Rattle.std.specs.Prelude.{◌≡◌, ◌&&◌, ◌+◌, ◌≤◌, length, eqb, ltb};
ghost use Rattle.std.specs.Bool.{then_some};
ghost use Rattle.image.specs.Record.{length_of};
ghost use Rattle.image.specs.Types.{types_agree};
ghost use Rattle.values.specs.Pairs.{all, same_byte};
ghost use Rattle.values.specs.Pair.{same_masks, first_null, FewRows};

use crate::bits::{below, first_unequal_bit};
use crate::data::validity;
use crate::pair::{Pair, Rows};
use crate::types::same_types;
use image::bytes::load;

// The W bytes at two places are the same, as numbers: one, or the first four or eight bytes and the last of as many, which may
// share some.
// Kept: by numbers, and not by the library's `==` of two parts: with it in `valid_same`, elements of 2, 5, 8 and 16 bytes with
// nulls take 4.0, 2.0, 2.4 and 4.6 times as long. Slices and places, and not two parts: a call is then
// `number_same::<W>(&x[h * W..h * W + W], &y[h * W..h * W + W])`, no plainer than with the places.
pub fn number_same<const W: usize>(a: &[u8], b: &[u8], at: usize, bt: usize) -> bool
    requires { (W ≤ 16) × (at + W ≤ length a.now) × (bt + W ≤ length b.now) }
    ensures { result ≡ all (same_byte a.now b.now) at bt W }
{
    if W <= 4 {
        return load::<W>(a, at) == load::<W>(b, bt);
    }
    if W < 8 {
        let end = W - 4;
        return (load::<4>(a, at) == load::<4>(b, bt))
            & (load::<4>(a, at + end) == load::<4>(b, bt + end));
    }
    let end = W - 8;
    (load::<8>(a, at) == load::<8>(b, bt)) & (load::<8>(a, at + end) == load::<8>(b, bt + end))
}

// Of the pairs of rows the number of the first of which one is null and the other is not, if there is one.
pub fn first_unequal_null(pair: &Pair, rows: Rows) -> Option<usize>
    requires { FewRows rows }
    ensures { result ≡ then_some (ltb (first_null pair.now rows) rows.count) (first_null pair.now rows) }
{
    let n = rows.count;
    let left = validity(pair.left, rows.left);
    let right = validity(pair.right, rows.right);
    match (left, right) {
        (None, None) => None,
        (None, Some(bits)) | (Some(bits), None) => below(bits.leading_set(n), n),
        (Some(x), Some(y)) => first_unequal_bit(x, y, n),
    }
}

// Of each pair of rows both are null or neither is.
pub fn equal_nulls(pair: &Pair, rows: Rows) -> bool
    requires { FewRows rows }
    ensures { result ≡ same_masks pair.now rows }
{
    first_unequal_null(pair, rows).is_none()
}

// The types and the lengths of two tables agree.
// Kept: two images and no `Pair`, which would have to be known to be one of roots.
pub fn base_equal(a: &[u8], b: &[u8]) -> bool
    ensures { result ≡ (types_agree a.now b.now && eqb (length_of a.now 0) (length_of b.now 0)) }
{
    if !same_types(a, b) {
        return false;
    }
    let roots = Pair::roots(a, b);
    roots.left.length() == roots.right.length()
}
