// Views. Translated from src/equal/byte_view.rs of arrow-data 60.1.0 (Apache-2.0).
ghost use Rattle.std.specs.Prelude.{◌≡◌};
ghost use Rattle.image.specs.declared.type_code.Layout.TheVariants.{View as ViewLayout};
ghost use Rattle.image.specs.Types.{same_bytes};
ghost use Rattle.image.specs.Row.{view_row};
ghost use Rattle.accepted.specs.Views.{view_bytes};
ghost use Rattle.values.specs.Pairs.{masked_row};
ghost use Rattle.values.specs.Pair.{equal_rows, PartsIn, MaskedOf};

use crate::pair::{Pair, Rows};
use crate::utils::number_same;
use accepted::byte_view::{View, Views};
use image::element::INLINE_LENGTH;

// Two views are equal: length and bytes. Bytes past the length of a short view are zeros, so that twelve of them can be
// compared at once; where these differ, those that count decide.
fn view_equal(left: View, right: View) -> bool
    ensures { result ≡ same_bytes (view_bytes left.entry) (view_bytes right.entry) }
{
    let len = left.length();
    if len != right.length() {
        return false;
    }
    if len <= INLINE_LENGTH {
        let (a, b) = (left.node.image, right.node.image);
        if number_same::<INLINE_LENGTH>(a, b, left.place + 4, right.place + 4) {
            return true;
        }
    }
    left.bytes() == right.bytes()
}

// Rows of views, where the null masks agree: row by row. Only one null mask is looked at, for that reason.
pub fn masked_views_equal(pair: &Pair, rows: Rows) -> bool
    requires { MaskedOf ViewLayout pair.now rows }
    ensures { result ≡ equal_rows (masked_row view_row) pair.now rows }
{
    let bitmap = pair.left.bitmap();
    let left = Views::new(pair.left);
    let right = Views::new(pair.right);
    for k in 0..rows.count {
        let i = rows.left + k;
        let j = rows.right + k;
        if pair.left.is_kept(bitmap, i) {
            if !view_equal(left.view(i), right.view(j)) {
                return false;
            }
        }
    }
    true
}

// Views without nulls: length and bytes.
pub fn byte_view_equal(pair: &Pair, rows: Rows) -> bool
    requires { PartsIn ViewLayout pair.now rows 0 }
    ensures { result ≡ equal_rows view_row pair.now rows }
{
    let rows = Rows {
        left: rows.left - pair.left.offset(),
        right: rows.right - pair.right.offset(),
        count: rows.count,
    };
    masked_views_equal(pair, rows)
}
