// 12: the tree is broken.
ghost use Rattle.std.specs.Prelude.{◌≡◌, ◌&&◌, not, ℕ, ◌+◌, ◌<◌, ◌^◌, eqb};
ghost use Rattle.image.specs.Of.{◌of◌};
ghost use Rattle.image.specs.Record.{max_depth, node_count, code_of, id_of, child_count, child_start, buffer_start};
ghost use Rattle.image.specs.TypeCode.{layout_of, child_rule, counts, is_union};
ghost use Rattle.image.specs.Faults.{fault12, level_end, ids_rise, under_union, map_entries, run_ends};
ghost use Rattle.image.specs.Ranges.{sum_to};
ghost use Rattle.validate.specs.Walks.{Sum, Total, Counts, Passed, Parents, Walks};

use image::record::{MAX_DEPTH, Node, node_count};
use image::type_code::TypeCode;

const LARGEST_ID: usize = 127;

// Of a node, the node that it is a child of, and where that one's children end; the node itself where it is no child.
// Kept: no Option: the walk goes on from it at the next node in either way, and a node that is no child is its own parent by
// the definition's search too.
#[derive(Clone, Copy)]
pub struct Parent {
    pub node: u32,
    pub end: usize,
}

// A walk over the nodes, at one of them, and what it knows there: the sums of the child and buffer counts before the node,
// which number its first child and its first buffer; its parent; and of the whole image the same sums over all nodes, and how
// many nodes are not too deep.
#[derive(Clone, Copy)]
pub struct Walk<'a> {
    pub node: Node<'a>,
    pub children: usize,
    pub buffers: usize,
    pub parent: Parent,
    pub all_children: usize,
    pub all_buffers: usize,
    pub shallow: usize,
    ghost walks: { Walks node.image.now node.number children buffers parent all_children all_buffers shallow },
}

// What the nodes below n make in all, each with a count of its own.
fn sum_below<F: Fn(u32) -> u32>(n: u32, count: F) -> usize
    requires { (k : ℕ) → k < n → F.pre count k }
    ensures { (f : ℕ → ℕ) → Counts (F.post count) n f → Total (sum_to f n) n result }
{
    let mut sum: usize = 0;
    for k in 0..n {
        sum += count(k) as usize;
    }
    sum
}

// 1 plus the child counts of the first n nodes.
// Kept: an image and a number here and in the one below: n is a count, up to that of all nodes, and names none of them.
fn child_start(image: &[u8], n: u32) -> usize
    ensures { Sum (child_start image.now n) n result }
{
    1 + sum_below(n, |k| Node { image, number: k }.child_count())
}

// The buffer counts of the first n nodes.
// Kept: n is a count.
fn buffer_start(image: &[u8], n: u32) -> usize
    ensures { Sum (buffer_start image.now n) n result }
{
    sum_below(n, |k| Node { image, number: k }.buffer_count())
}

// How many nodes of an image are not too deep.
fn level_end(image: &[u8]) -> u32
    ensures { result ≡ level_end image.now max_depth }
{
    let n = node_count(image);
    let mut end = 0;
    for d in 0..MAX_DEPTH {
        end = child_start(image, end).min(n as usize) as u32;
    }
    end
}

// The parent of a node: the first node whose children end past it, looked for from one on that is not past the parent
// and up to the node itself, which is given where there is none.
fn parent_from(node: Node, from: Parent) -> Parent
    requires { (Passed of node) from.node from.end × (node.number < 2 ^ 17) }
    ensures { (Parents of node.entry) result }
{
    let mut end = from.end;
    for parent in from.node..node.number {
        if (node.number as usize) < end {
            return Parent {
                node: parent,
                end: end,
            };
        }
        end += node.other(parent + 1).child_count() as usize;
    }
    Parent {
        node: node.number,
        end: end,
    }
}

impl<'a> Walk<'a> {
    // A walk at the root.
    pub fn start(image: &'a [u8]) -> Walk<'a>
        ensures image { result.node.image ≡ image.entry }
        ensures root { result.node.number ≡ 0 }
    {
        let n = node_count(image);
        let root = Node::root(image);
        Walk {
            node: root,
            children: 1,
            buffers: 0,
            parent: Parent {
                node: 0,
                end: 1 + root.child_count() as usize,
            },
            all_children: child_start(image, n),
            all_buffers: buffer_start(image, n),
            shallow: level_end(image) as usize,
        }
    }

    // The walk at the next node.
    pub fn next(self) -> Walk<'a>
        requires { self.node.number < 2 ^ 16 }
        ensures image { result.node.image ≡ self.entry.node.image }
        ensures number { result.node.number ≡ self.entry.node.number + 1 }
    {
        let next = self.node.other(self.node.number + 1);
        Walk {
            node: next,
            children: self.children + self.node.child_count() as usize,
            buffers: self.buffers + self.node.buffer_count() as usize,
            parent: parent_from(next, self.parent),
            all_children: self.all_children,
            all_buffers: self.all_buffers,
            shallow: self.shallow,
        }
    }

    // The node is a union's child.
    fn is_under_union(self) -> bool
        ensures { result ≡ under_union of self.entry.node }
    {
        self.parent.node < self.node.number
            && TypeCode::is_union(self.node.other(self.parent.node).code())
    }

    // A type id where no union is above.
    fn id_alone(self) -> bool
        ensures { result ≡ (not (eqb (id_of of self.entry.node) 0) && not (under_union of self.entry.node)) }
    {
        self.node.type_id() != 0 && !self.is_under_union()
    }
}

// Node 0 stands for the total: the counts of all nodes do not make what the header or the tables say.
pub fn total_wrong(node: u32, all: usize, total: u32) -> bool
    ensures { result ≡ (eqb node 0 && not (eqb all total)) }
{
    node == 0 && all != total as usize
}

// The type ids of a node's children rise strictly within 0 to 127.
fn ids_rise(node: Node) -> bool
    ensures { result ≡ ids_rise of node.entry }
{
    let mut least: usize = 0;
    for c in 0..node.child_count() {
        let id = usize::from(node.child(c).type_id());
        if id < least || LARGEST_ID < id {
            return false;
        }
        least = id + 1;
    }
    true
}

// A union whose type ids do not rise.
fn ids_fall(node: Node) -> bool
    ensures { result ≡ (is_union (code_of of node.entry) && not (ids_rise of node.entry)) }
{
    TypeCode::is_union(node.code()) && !ids_rise(node)
}

// A Map whose child is not a Struct of two.
fn map_broken(node: Node) -> bool
    ensures { result ≡ (eqb (code_of of node.entry) 42 && not (map_entries of node.entry)) }
{
    let entries = node.child(0);
    node.code() == TypeCode::MAP
        && (entries.code() != TypeCode::STRUCT || entries.child_count() != 2)
}

// Runs whose run ends are not Int16, Int32 or Int64, or have a bitmap.
// Kept: a return for each test: `||` groups to the left, so that of a chain of three and more each test's answer is a nest of cases.
fn runs_broken(node: Node) -> bool
    ensures { result ≡ (eqb (code_of of node.entry) 43 && not (run_ends of node.entry)) }
{
    if node.code() != TypeCode::RUN_END_ENCODED {
        return false;
    }
    let ends = node.child(0);
    let c = ends.code();
    if c < TypeCode::INT16 {
        return true;
    }
    if TypeCode::INT64 < c {
        return true;
    }
    ends.has_bitmap()
}

// The node has fault 12.
// Kept: a return for each test: `||` groups to the left, so that of a chain of three and more each test's answer is a nest of cases.
pub fn fault_12(walk: Walk) -> bool
    ensures { result ≡ fault12 of walk.entry.node }
{
    let node = walk.node;
    if !TypeCode::children(node.code()).allows(node.child_count()) {
        return true;
    }
    let first = node.first_child();
    if first as usize != walk.children {
        return true;
    }
    if first <= node.number {
        return true;
    }
    if total_wrong(node.number, walk.all_children, node_count(node.image)) {
        return true;
    }
    if walk.shallow <= node.number as usize {
        return true;
    }
    if ids_fall(node) {
        return true;
    }
    if walk.id_alone() {
        return true;
    }
    if map_broken(node) {
        return true;
    }
    runs_broken(node)
}
