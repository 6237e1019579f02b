// Which of a child's labels, its name, nullable flag and type id, count for the type of the node above it.
ghost use Rattle.std.specs.Prelude.{◌≡◌};
ghost use Rattle.image.specs.Types.{counted_for};

use crate::type_code::TypeCode;

// Which of a child's labels count.
// Kept: each is asked by itself; an enum of the cases there are would be taken apart into these three again.
#[derive(Clone, Copy, Debug, PartialEq, Eq)]
pub struct Counted {
    pub name: bool,
    pub flag: bool,
    pub id: bool,
}

impl Counted {
    // What counts for the children of a node of this code, which may be the entries of a Map: of a Dictionary's child and of a
    // Map's entries neither the name nor the flag, of a Map's key and value the flag.
    pub fn below(code: u8, entries: bool) -> Counted
        ensures { result ≡ counted_for entries code }
    {
        let free = (code == TypeCode::DICTIONARY) | (code == TypeCode::MAP);
        Counted {
            name: !free & !entries,
            flag: !free,
            id: TypeCode::is_union(code),
        }
    }
}
