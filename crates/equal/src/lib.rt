// Equality of ranges of rows. Translated from src/equal/mod.rs of arrow-data 60.1.0 (Apache-2.0), as are the modules
// below from the files of their names.
#![tactic(auto)]

pub mod dictionary;
pub mod fixed_list;
pub mod list;
pub mod list_view;
pub mod run;
pub mod structure;
pub mod union;

ghost use Rattle.std.specs.Prelude.{◌≡◌, true, suc};
ghost use Rattle.image.specs.Record.{max_depth};
ghost use Rattle.image.specs.Row.{row_at};
ghost use Rattle.values.specs.Pairs.{range_equal};
ghost use Rattle.values.specs.Parts.{Sides};
ghost use Rattle.values.specs.Pair.{equal_rows, values_at, one_row, same_masks, SidesOf, PartsOf, LeavesOf};

use image::record::MAX_DEPTH;
use image::type_code::Layout;
use values::boolean::boolean_equal;
use values::byte_view::{byte_view_equal, masked_views_equal};
use values::data::{contains_nulls, valid_rows};
use values::leaf::{Leaves, leaf_equal};
use values::null::null_equal;
use values::pair::{Pair, Rows};
use values::primitive::{masked_equal, primitive_equal};
use values::utils::equal_nulls;
use values::variable_size::variable_sized_equal;

// The elements of two ranges are equal, none of them null: the rule of their layout.
// Kept: pair, rows and depth are three arguments in the whole cycle, and no struct. Each call on children, on a part of the rows
// or one level down would make it anew, `Ranges { pair: &child, rows: items, depth: depth }` for `&child, items, depth`; and what
// is known of the three, which a ghost field would say, is said of rows in one part of the cycle (`SidesOf`), of elements in
// another (`PartsOf`), and of elements of a layout in each rule (`PartsIn`).
#[cycle(rows)]
fn equal_values(pair: &Pair, rows: Rows, depth: usize) -> bool
    requires { PartsOf pair.now rows depth }
    ensures { result ≡ equal_rows (values_at depth) pair.now rows }
{
    let layout = pair.left.layout();
    match layout {
        Layout::Null => null_equal(),
        Layout::Boolean => boolean_equal(pair, rows),
        Layout::FixedWidth => primitive_equal(pair, rows),
        Layout::VariableSize => variable_sized_equal(pair, rows),
        Layout::View => byte_view_equal(pair, rows),
        Layout::List => list::equal(pair, rows, depth),
        Layout::ListView => list_view::equal(pair, rows, depth),
        Layout::FixedList => fixed_list::equal(pair, rows, depth),
        Layout::Struct => structure::equal(pair, rows, depth),
        Layout::DenseUnion => union::dense(pair, rows, depth),
        Layout::SparseUnion => union::sparse(pair, rows, depth),
        Layout::Dictionary => dictionary::equal(pair, rows, depth),
        Layout::Runs => run::equal(pair, rows, depth),
    }
}

// Two ranges of rows are equal, some of them null, where the null masks agree: rows that are not null are compared as far
// as they follow each other, and null rows are passed over.
#[cycle(rows)]
fn equal_valid(pair: &Pair, rows: Rows, depth: usize) -> bool
    requires sides { SidesOf pair.now rows (suc depth) }
    requires masks { same_masks pair.now rows ≡ true }
    ensures { result ≡ equal_rows (row_at (suc depth)) pair.now rows }
{
    let n = rows.count;
    let layout = pair.left.layout();
    if let Layout::FixedWidth = layout {
        return masked_equal(pair, rows);
    }
    if let Layout::View = layout {
        return masked_views_equal(pair, rows);
    }
    let elements = pair.elements(rows);
    let mut k: usize = 0;
    // Kept: no `for`, since a step is as long as the rows that are not null follow each other.
    while k < n {
        let run = valid_rows(pair.left, rows.left + k, n - k);
        if run == 0 {
            k += 1;
        } else {
            if !equal_values(pair, elements.part(k, run), depth) {
                return false;
            }
            k += run;
        }
    }
    true
}

// Row s of one node and row t of another are equal, by what was read of the nodes if there is such.
#[cycle(rows)]
fn equal_row(pair: &Pair, leaves: &Option<Leaves>, s: usize, t: usize, depth: usize) -> bool
    requires sides { SidesOf pair.now (one_row s t) depth }
    requires leaves { LeavesOf pair.now leaves.now }
    ensures { result ≡ equal_rows (row_at depth) pair.now (one_row s t) }
{
    if 0 < depth {
        if let Some(read) = leaves {
            return leaf_equal(pair, read, s, t);
        }
    }
    let row = Rows {
        left: s,
        right: t,
        count: 1,
    };
    equal_range(pair, row, depth)
}

// Two ranges of rows are equal.
#[cycle(rows)]
pub fn equal_range(pair: &Pair, rows: Rows, depth: usize) -> bool
    requires { SidesOf pair.now rows depth }
    ensures { result ≡ equal_rows (row_at depth) pair.now rows }
{
    if depth == 0 {
        return true;
    }
    if !equal_nulls(pair, rows) {
        return false;
    }
    if contains_nulls(pair.left, rows.left, rows.count) {
        return equal_valid(pair, rows, depth - 1);
    }
    equal_values(pair, pair.elements(rows), depth - 1)
}

// Two ranges of rows of two tables are equal.
// Kept: two images and no `Pair`, which would have to be known to be one of roots.
pub fn rows_equal(a: &[u8], b: &[u8], rows: Rows) -> bool
    requires { Sides a.now b.now 0 0 rows.left rows.right rows.count max_depth }
    ensures { result ≡ range_equal (row_at max_depth a.now 0) (row_at max_depth b.now 0) rows.left rows.right rows.count }
{
    equal_range(&Pair::roots(a, b), rows, MAX_DEPTH)
}
