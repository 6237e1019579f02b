// The types of two images. In the Rust `DataType` compares itself; src/equal/utils.rs says what does not count of a Map at the
// root, and here that does not count of any Map.
ghost use Rattle.std.specs.Prelude.{◌≡◌};
ghost use Rattle.image.specs.Types.{labels_agree, heads_agree, types_agree_at, types_agree};
ghost use Rattle.values.specs.Pair.{agree};

use crate::pair::Pair;
use image::labels::Counted;
use image::record::MAX_DEPTH;
use image::type_code::TypeCode;

// What counts of two children agrees.
fn labels_equal(pair: Pair, counted: Counted) -> bool
    ensures { result ≡ agree (labels_agree counted) pair.entry }
{
    let left = pair.left;
    let right = pair.right;
    let name = !counted.name || left.name_is(right.image, right.name_place(), right.name_length());
    let flag = !counted.flag || left.is_nullable() == right.is_nullable();
    let id = !counted.id || left.type_id() == right.type_id();
    name & flag & id
}

// Codes, parameters and child counts of two nodes agree.
fn heads_equal(pair: Pair) -> bool
    ensures { result ≡ agree heads_agree pair.entry }
{
    if pair.left.code() != pair.right.code() {
        return false;
    }
    if pair.left.p1() != pair.right.p1() {
        return false;
    }
    if pair.left.p2() != pair.right.p2() {
        return false;
    }
    pair.left.child_count() == pair.right.child_count()
}

// The types of two nodes agree, down to the given depth; `entries` says whether the nodes are the entries of a Map.
pub fn types_equal(pair: Pair, entries: bool, depth: usize) -> bool
    ensures { result ≡ agree (types_agree_at depth entries) pair.entry }
{
    if depth == 0 {
        return true;
    }
    if !heads_equal(pair) {
        return false;
    }
    let code = pair.left.code();
    let counted = Counted::below(code, entries);
    let map = code == TypeCode::MAP;
    for k in 0..pair.left.child_count() {
        let child = pair.child(k);
        if !labels_equal(child, counted) {
            return false;
        }
        if !types_equal(child, map, depth - 1) {
            return false;
        }
    }
    true
}

// The types of two tables agree.
// Kept: two images and no `Pair`, which would have to be known to be one of roots.
pub fn same_types(a: &[u8], b: &[u8]) -> bool
    ensures { result ≡ types_agree a.now b.now }
{
    types_equal(Pair::roots(a, b), false, MAX_DEPTH)
}
