// Run-end encoded rows. Translated from src/equal/run.rs of arrow-data 60.1.0 (Apache-2.0).
ghost use Rattle.std.specs.Prelude.{◌≡◌};
ghost use Rattle.image.specs.declared.type_code.Layout.TheVariants.{Runs};
ghost use Rattle.image.specs.Row.{run_row};
ghost use Rattle.values.specs.Pair.{equal_rows, nested, PartsIn};

use crate::{equal_range, equal_row};
use accepted::runs::{next_run, run_of};
use values::leaf::leaves_of;
use values::pair::{Pair, Rows};
use values::runs::same_runs;

// Runs: where the runs of both sides end together, their values as one range; else the values of overlapping runs, stepping
// over the shorter of the two; the stepping ends as soon as one pair differs.
#[cycle(rows)]
pub fn equal(pair: &Pair, rows: Rows, depth: usize) -> bool
    requires { PartsIn Runs pair.now rows depth }
    ensures { result ≡ equal_rows (nested run_row depth) pair.now rows }
{
    let (s, t, n) = (rows.left, rows.right, rows.count);
    let values = pair.child(1);
    let mut equal = true;
    let mut k: usize = 0;
    if n == 0 {
        return true;
    }
    let mut i = run_of(pair.left, s);
    let mut j = run_of(pair.right, t);
    if let Some(runs) = same_runs(pair, rows, i, j) {
        let whole = Rows {
            left: i,
            right: j,
            count: runs,
        };
        return equal_range(&values, whole, depth);
    }
    let leaves = leaves_of(values);
    let left = pair.left.ends();
    let right = pair.right.ends();
    // Kept: no `for`, since a step is as long as the shorter run goes on; a loop with a label, as document 01 has it here.
    'runs: while k < n {
        if !equal_row(&values, &leaves, i, j, depth) {
            equal = false;
            break 'runs;
        }
        let x = left.at(i);
        let y = right.at(j);
        let step = (x - (s + k)).min(y - (t + k)).min(n - k);
        k += step;
        let last = k - 1;
        i = next_run(s + last, i, x);
        j = next_run(t + last, j, y);
    }
    equal
}
