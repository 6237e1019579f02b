// Runs of two run-end encoded nodes that end together. Translated from src/equal/run.rs of arrow-data 60.1.0
// (Apache-2.0).
ghost use Rattle.std.specs.Prelude.{◌≡◌, true};
ghost use Rattle.values.specs.Parts.{RunRange};
ghost use Rattle.values.specs.Pair.{SameEndsOf, RunPartsOf, TogetherOf};

use crate::pair::{Pair, Rows};
use crate::primitive::elements_equal;
use accepted::runs::run_of;

// The ends of two ranges of runs are the same, as one block of bytes.
fn ends_same(pair: &Pair, runs: Rows) -> bool
    requires left { RunRange pair.now.left.image.now pair.now.left.number runs.left runs.count }
    requires right { RunRange pair.now.right.image.now pair.now.right.number runs.right runs.count }
    ensures { result ≡ true → SameEndsOf pair.now runs }
{
    let ends = pair.child(0);
    if ends.left.element_width() != ends.right.element_width() {
        return false;
    }
    elements_equal(&ends, ends.elements(runs))
}

// How many runs hold the elements of two ranges, i and j the first of them, where those of both sides end together.
pub fn same_runs(pair: &Pair, rows: Rows, i: usize, j: usize) -> Option<usize>
    requires { RunPartsOf pair.now rows i j }
    ensures { TogetherOf pair.now rows i j result }
{
    if rows.left != rows.right {
        return None;
    }
    let last = rows.count - 1;
    let m = run_of(pair.left, rows.left + last) - i;
    if run_of(pair.right, rows.right + last) - j != m {
        return None;
    }
    let runs = Rows {
        left: i,
        right: j,
        count: m,
    };
    if !ends_same(pair, runs) {
        return None;
    }
    Some(m + 1)
}
