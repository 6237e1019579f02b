// Two nodes whose rows are compared, and the rows of each.
ghost use Rattle.std.specs.Prelude.{◌≡◌, Bool, ℕ, ◌+◌, ◌<◌, ◌≤◌, ◌^◌};
ghost use Rattle.values.specs.Pairs.{all};
ghost use Rattle.values.specs.Pair.{Roots, children, from_offset, part, TellsParts};

use image::record::Node;

// Two nodes whose rows are compared.
#[derive(Clone, Copy)]
pub struct Pair<'a> {
    pub left: Node<'a>,
    pub right: Node<'a>,
}

impl<'a> Pair<'a> {
    // The roots of two images.
    pub fn roots(a: &'a [u8], b: &'a [u8]) -> Pair<'a>
        ensures { Roots a.now b.now result }
    {
        Pair {
            left: Node::root(a),
            right: Node::root(b),
        }
    }

    // Child c of each.
    pub fn child(self, c: u32) -> Pair<'a>
        requires { c < 2 ^ 31 }
        ensures same { result ≡ children self.entry c }
        ensures near { (result.left.number < c + 2 ^ 16) × (result.right.number < c + 2 ^ 16) }
    {
        Pair {
            left: self.left.child(c),
            right: self.right.child(c),
        }
    }

    // The elements that rows of the two read. It is part of what calls it: for a short range a call takes longer than the sums.
    #[inline(always)]
    pub fn elements(self, rows: Rows) -> Rows
        requires { (rows.left < 2 ^ 63) × (rows.right < 2 ^ 63) }
        ensures { result ≡ from_offset self.entry rows }
    {
        Rows {
            left: self.left.offset() + rows.left,
            right: self.right.offset() + rows.right,
            count: rows.count,
        }
    }
}

// As many rows, or elements, of each of two nodes, from one of the left and from one of the right on.
#[derive(Clone, Copy)]
pub struct Rows {
    pub left: usize,
    pub right: usize,
    pub count: usize,
}

impl Rows {
    // n of them, from the one numbered k on.
    pub fn part(self, k: usize, n: usize) -> Rows
        requires { (self.left + k < 2 ^ 64) × (self.right + k < 2 ^ 64) }
        ensures { result ≡ part self k n }
    {
        Rows {
            left: self.left + k,
            right: self.right + k,
            count: n,
        }
    }

    // Each block of N of them passes the test, and so do those behind the last, which are fewer.
    pub fn each_block<const N: usize, F: Fn(Rows) -> bool>(self, test: F) -> bool
        requires some { 0 < N }
        requires near { (self.left + self.count < 2 ^ 64) × (self.right + self.count < 2 ^ 64) }
        requires tested { (k n : ℕ) → k + n ≤ self.count → n ≤ N → F.pre test (part self k n) }
        ensures { (p : ℕ → ℕ → Bool) → TellsParts (F.post test) self N p → result ≡ all p self.left self.right self.count }
    {
        for h in 0..self.count / N {
            if !test(self.part(N * h, N)) {
                return false;
            }
        }
        let k = N * (self.count / N);
        test(self.part(k, self.count - k))
    }
}
