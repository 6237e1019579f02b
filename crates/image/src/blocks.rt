// A test of many numbers, 64 at a time.
ghost use Rattle.std.specs.Prelude.{◌≡◌, Bool, ℕ, ◌<◌};
ghost use Rattle.image.specs.Ranges.{any, Tells};

// So many numbers are tested at once.
const BLOCK: usize = 64;

// One of the numbers below n passes the test. There is no way out of a block, so that the compiler tests many at once.
pub fn any_in_blocks<F: Fn(usize) -> bool>(n: usize, test: F) -> bool
    requires { (k : ℕ) → k < n → F.pre test k }
    ensures { (p : ℕ → Bool) → Tells (F.post test) n p → result ≡ any p 0 n }
{
    for b in 0..n / BLOCK {
        let mut found = false;
        for j in 0..BLOCK {
            found = found | test(BLOCK * b + j);
        }
        if found {
            return true;
        }
    }
    for k in n / BLOCK * BLOCK..n {
        if test(k) {
            return true;
        }
    }
    false
}
