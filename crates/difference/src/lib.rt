// The first unequal row of two ranges: blocks of rows that grow, and a bisection of the block that is unequal.
#![tactic(auto)]

ghost use Rattle.std.specs.Prelude.{◌≡◌, false, ◌<◌, min, max, ltb};
ghost use Rattle.std.specs.Bool.{then_some};
ghost use Rattle.image.specs.Record.{max_depth};
ghost use Rattle.image.specs.Equality.{ranges_equal, first_difference};
ghost use Rattle.values.specs.Parts.{Sides};

use equal::rows_equal;
use values::pair::{Pair, Rows};
use values::utils::first_unequal_null;

// The first unequal row of rows that are not all equal. A row that is null on one side alone is unequal, so those after
// the first such row are not looked at; the others are bisected.
fn first_unequal_row(a: &[u8], b: &[u8], rows: Rows) -> usize
    requires sides { Sides a.now b.now 0 0 rows.left rows.right rows.count max_depth }
    requires unequal { ranges_equal a.now b.now rows.left rows.right rows.count ≡ false }
    ensures { result ≡ first_difference a.now b.now rows.left rows.right rows.count }
{
    let mut low: usize = 0;
    let mut high = rows.count;
    if let Some(null) = first_unequal_null(&Pair::roots(a, b), rows) {
        high = null + 1;
    }
    // Kept: no `for`, since each turn halves what is left.
    while 1 < high - low {
        let middle = low + (high - low) / 2;
        if rows_equal(a, b, rows.part(low, middle - low)) {
            low = middle;
        } else {
            high = middle;
        }
    }
    low
}

// How many rows are compared at once, after k rows that are equal and with so many left: the first one alone, then as many
// as were equal so far, and no more than are left.
fn block(k: usize, left: usize) -> usize
    ensures { result ≡ min left (max 1 k) }
{
    left.min(k.max(1))
}

// The first unequal row, if there is one.
// Kept: two images and no `Pair`, which would have to be known to be one of roots.
pub fn first_difference(a: &[u8], b: &[u8], rows: Rows) -> Option<usize>
    requires { Sides a.now b.now 0 0 rows.left rows.right rows.count max_depth }
    ensures { result ≡ then_some (ltb (first_difference a.now b.now rows.left rows.right rows.count) rows.count) (first_difference a.now b.now rows.left rows.right rows.count) }
{
    let n = rows.count;
    let mut k: usize = 0;
    // Kept: no `for`, since the blocks grow.
    while k < n {
        let part = rows.part(k, block(k, n - k));
        if !rows_equal(a, b, part) {
            return Some(k + first_unequal_row(a, b, part));
        }
        k += part.count;
    }
    None
}
