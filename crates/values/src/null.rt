// Translated from src/equal/null.rs of arrow-data 60.1.0 (Apache-2.0).
ghost use Rattle.std.specs.Prelude.{◌≡◌, true};

// Rows of the Null type are equal.
pub fn null_equal() -> bool
    ensures { result ≡ true }
{
    true
}
