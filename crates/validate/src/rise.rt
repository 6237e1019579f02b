// Numbers that rise, as offsets and run ends must.
ghost use Rattle.std.specs.Prelude.{◌≡◌, ◌+◌, ◌≤◌, length};
ghost use Rattle.image.specs.Ranges.{rises};
ghost use Rattle.image.specs.Reads.{Packed};
ghost use Rattle.validate.specs.Numbers.{number_in, falls};

use image::blocks::any_in_blocks;
use image::bytes::Numbers;

// Number k + 1 is less than a step above number k.
fn falls_at(numbers: Numbers, step: usize, k: usize) -> bool
    requires { Packed (length numbers.bytes.now) numbers.place numbers.width (k + 2) × (step ≤ 1) }
    ensures { result ≡ falls step (number_in numbers.entry.bytes.now numbers.entry.place numbers.entry.width) k }
{
    let low = numbers.inside(k);
    let high = numbers.inside(k + 1);
    (high < low) | ((high == low) & (step == 1))
}

// Of `count` numbers none lies below `least` or above `top`, and each is at least `step` above the one before it. Where
// none falls the first and the last speak for all.
pub fn rise(numbers: Numbers, step: usize, top: usize, least: usize, count: usize) -> bool
    requires { Packed (length numbers.bytes.now) numbers.place numbers.width count × (step ≤ 1) }
    ensures { result ≡ rises step (number_in numbers.entry.bytes.now numbers.entry.place numbers.entry.width) top least 0 count }
{
    if count == 0 {
        return true;
    }
    let last = count - 1;
    if numbers.inside(0) < least {
        return false;
    }
    if top < numbers.inside(last) {
        return false;
    }
    !any_in_blocks(last, |k| falls_at(numbers, step, k))
}
