// The numbers of answers whose values are near the ends of 56 bits and of a usize.
ghost use Rattle.std.specs.Prelude.{◌≡◌, ◌<◌, ◌^◌};

use answers::numbers::{Found, Numbers, answer_numbers, pack, wide_answer_numbers};
use answers::{BuildRefusal, RangeRefusal, WriteRefusal};

// A value that is told where 56 bits hold it, and would not be told above.
#[derive(Clone, Copy)]
struct Told(usize);

impl Found for Told {
    ghost found_value = { λ told. told.0 };

    fn value(self) -> usize {
        self.0 * 256 / 256
    }
}

// The greatest value that 56 bits hold.
const MOST: usize = 72057594037927935;

// An answer of a value.
fn of_value(value: usize) -> Numbers {
    Numbers {
        number: 0,
        side: 0,
        node: 0,
        value,
    }
}

#[test]
fn values_of_56_bits(rt: HostRuntime) {
    for value in [0, 1, MOST] {
        assert_eq!(rt;
            answer_numbers(Ok::<Told, WriteRefusal>(Told(value))),
            of_value(value)
        );
        assert_eq!(rt;
            answer_numbers(Ok::<usize, WriteRefusal>(value)),
            of_value(value)
        );
        assert_eq!(rt;
            pack(Ok::<Told, WriteRefusal>(Told(value))),
            256 * value as u64
        );
    }
    assert_eq!(rt;
        answer_numbers(Err::<Told, WriteRefusal>(WriteRefusal::TooLong)).number,
        43
    );
}

#[test]
fn values_of_a_usize(rt: HostRuntime) {
    for value in [0, MOST + 1, usize::MAX] {
        assert_eq!(rt;
            wide_answer_numbers(Ok::<usize, BuildRefusal>(value)),
            of_value(value)
        );
    }
    assert_eq!(rt;
        wide_answer_numbers(Ok::<Option<usize>, RangeRefusal>(Some(MOST))),
        of_value(MOST + 1)
    );
    assert_eq!(rt;
        wide_answer_numbers(Err::<usize, BuildRefusal>(BuildRefusal::NotRows)).number,
        24
    );
}
