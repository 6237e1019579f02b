// The type codes of document 01's image, constants of one type, and what each code says of a node.
ghost use Rattle.std.specs.Prelude.{◌≡◌, ◌≤◌};
ghost use Rattle.image.specs.TypeCode.{entry_of, layout_of, integer_width, width_of, child_rule, buffer_rule, takes_bitmap, p1_fits, p2_fits, is_text, is_union, key_signed, sign_bit, counts};

// How a node stores its rows. Every code has one of these layouts.
#[derive(Clone, Copy, Debug, PartialEq, Eq)]
pub enum Layout {
    Null,
    Boolean,
    FixedWidth,
    VariableSize,
    View,
    List,
    ListView,
    FixedList,
    Struct,
    DenseUnion,
    SparseUnion,
    Dictionary,
    Runs,
}

// How many children or buffers a node may have.
#[derive(Clone, Copy, Debug, PartialEq, Eq)]
pub enum Count {
    Exactly(u16),
    AtLeast(u16),
}

impl Count {
    // Whether a node may have n children or buffers.
    pub fn allows(self, n: u32) -> bool
        ensures { result ≡ counts self n }
    {
        match self {
            Count::Exactly(k) => n == u32::from(k),
            Count::AtLeast(k) => u32::from(k) <= n,
        }
    }
}

// The width in bytes of an element of the first buffer, for each code from 0 to 43. It is 0 where the code has no such
// buffer, where elements are bits, and where p1 gives the width.
static WIDTHS: [usize; 44] = [
    // Null, Boolean
    0, 0,
    // Int8 to Int64, UInt8 to UInt64
    1, 2, 4, 8, 1, 2, 4, 8,
    // Float16 to Float64
    2, 4, 8,
    // Date32, Date64
    4, 8,
    // Decimal32 to Decimal256
    4, 8, 16, 32,
    // Time32, Time64, Timestamp, Duration
    4, 8, 8, 8,
    // Interval year-month, day-time, month-day-nano
    4, 8, 16,
    // Utf8, Binary, LargeUtf8, LargeBinary: an offset
    4, 4, 8, 8,
    // FixedSizeBinary: p1
    0,
    // Utf8View, BinaryView: a view
    16, 16,
    // List, LargeList, ListView, LargeListView: an offset
    4, 8, 4, 8,
    // FixedSizeList, Struct
    0, 0,
    // dense and sparse Union: a type id
    1, 1,
    // Dictionary: the width of the integer of code p1
    0,
    // Map: an offset
    4,
    // RunEndEncoded
    0,
];

// The code of a node's type. What a code says is asked of the code itself, as it stands in a record.
#[derive(Clone, Copy)]
pub struct TypeCode {
    pub code: u8,
}

impl TypeCode {
    pub const NULL: u8 = 0;

    pub const BOOLEAN: u8 = 1;

    pub const INT8: u8 = 2;

    pub const INT16: u8 = 3;

    pub const INT32: u8 = 4;

    pub const INT64: u8 = 5;

    pub const UINT8: u8 = 6;

    pub const UINT16: u8 = 7;

    pub const UINT32: u8 = 8;

    pub const UINT64: u8 = 9;

    pub const FLOAT16: u8 = 10;

    pub const FLOAT32: u8 = 11;

    pub const FLOAT64: u8 = 12;

    pub const DATE32: u8 = 13;

    pub const DATE64: u8 = 14;

    pub const DECIMAL32: u8 = 15;

    pub const DECIMAL64: u8 = 16;

    pub const DECIMAL128: u8 = 17;

    pub const DECIMAL256: u8 = 18;

    pub const TIME32: u8 = 19;

    pub const TIME64: u8 = 20;

    pub const TIMESTAMP: u8 = 21;

    pub const DURATION: u8 = 22;

    pub const INTERVAL_YEAR_MONTH: u8 = 23;

    pub const INTERVAL_DAY_TIME: u8 = 24;

    pub const INTERVAL_MONTH_DAY_NANO: u8 = 25;

    pub const UTF8: u8 = 26;

    pub const BINARY: u8 = 27;

    pub const LARGE_UTF8: u8 = 28;

    pub const LARGE_BINARY: u8 = 29;

    pub const FIXED_SIZE_BINARY: u8 = 30;

    pub const UTF8_VIEW: u8 = 31;

    pub const BINARY_VIEW: u8 = 32;

    pub const LIST: u8 = 33;

    pub const LARGE_LIST: u8 = 34;

    pub const LIST_VIEW: u8 = 35;

    pub const LARGE_LIST_VIEW: u8 = 36;

    pub const FIXED_SIZE_LIST: u8 = 37;

    pub const STRUCT: u8 = 38;

    pub const DENSE_UNION: u8 = 39;

    pub const SPARSE_UNION: u8 = 40;

    pub const DICTIONARY: u8 = 41;

    pub const MAP: u8 = 42;

    pub const RUN_END_ENCODED: u8 = 43;

    // The largest p1 of a FixedSizeBinary, its width, and of a FixedSizeList, its rows.
    pub const LARGEST_SIZE: u32 = 16777216;

    // A decimal's scale is below this number,
    pub const SCALE_END: u32 = 128;

    // or a negative one from -128 on, which reads as 2 ^ 32 more.
    pub const LOWEST_SCALE: u32 = 4294967168;

    // How a node of this code stores its rows. Unknown codes, those above 43, answer as Null does.
    pub fn layout(code: u8) -> Layout
        ensures { result ≡ layout_of code }
    {
        match code {
            TypeCode::BOOLEAN => Layout::Boolean,
            TypeCode::INT8..=TypeCode::INTERVAL_MONTH_DAY_NANO | TypeCode::FIXED_SIZE_BINARY =>
                Layout::FixedWidth,
            TypeCode::UTF8..=TypeCode::LARGE_BINARY => Layout::VariableSize,
            TypeCode::UTF8_VIEW | TypeCode::BINARY_VIEW => Layout::View,
            TypeCode::LIST | TypeCode::LARGE_LIST | TypeCode::MAP => Layout::List,
            TypeCode::LIST_VIEW | TypeCode::LARGE_LIST_VIEW => Layout::ListView,
            TypeCode::FIXED_SIZE_LIST => Layout::FixedList,
            TypeCode::STRUCT => Layout::Struct,
            TypeCode::DENSE_UNION => Layout::DenseUnion,
            TypeCode::SPARSE_UNION => Layout::SparseUnion,
            TypeCode::DICTIONARY => Layout::Dictionary,
            TypeCode::RUN_END_ENCODED => Layout::Runs,
            _ => Layout::Null,
        }
    }

    // The width in bytes of an element of the first buffer. FixedSizeBinary's elements have p1 bytes, and a Dictionary's
    // keys are as wide as the integer of code p1. Unknown codes answer 0.
    pub fn width(code: u8, p1: u32) -> usize
        ensures { result ≡ width_of code p1 }
    {
        if code == TypeCode::FIXED_SIZE_BINARY {
            return p1 as usize;
        }
        if code == TypeCode::DICTIONARY {
            return TypeCode::integer_width(p1);
        }
        if code > TypeCode::RUN_END_ENCODED {
            return 0;
        }
        let i = code as usize;
        WIDTHS[i]
    }

    // The width in bytes of an integer of this code, where only integers stand: a Dictionary's key, a run end.
    pub fn integer_width(code: u32) -> usize
        ensures { result ≡ integer_width code }
    {
        if code == TypeCode::INT8 as u32 || code == TypeCode::UINT8 as u32 {
            return 1;
        }
        if code == TypeCode::INT16 as u32 || code == TypeCode::UINT16 as u32 {
            return 2;
        }
        if code == TypeCode::INT32 as u32 || code == TypeCode::UINT32 as u32 {
            return 4;
        }
        8
    }

    // How many children a node of this code may have.
    pub fn children(code: u8) -> Count
        ensures { result ≡ child_rule (layout_of code) }
    {
        let layout = TypeCode::layout(code);
        match layout {
            Layout::List | Layout::ListView | Layout::FixedList | Layout::Dictionary =>
                Count::Exactly(1),
            Layout::Runs => Count::Exactly(2),
            Layout::Struct | Layout::DenseUnion | Layout::SparseUnion => Count::AtLeast(0),
            _ => Count::Exactly(0),
        }
    }

    // How many buffers a node of this code may have, its bitmap not counted.
    pub fn buffers(code: u8) -> Count
        ensures { result ≡ buffer_rule (layout_of code) }
    {
        let layout = TypeCode::layout(code);
        match layout {
            Layout::Null | Layout::FixedList | Layout::Struct | Layout::Runs => Count::Exactly(0),
            Layout::VariableSize | Layout::ListView | Layout::DenseUnion => Count::Exactly(2),
            Layout::View => Count::AtLeast(1),
            _ => Count::Exactly(1),
        }
    }

    // Whether a node of this code may have a bitmap: Null, unions and runs have none.
    pub fn takes_bitmap(code: u8) -> bool
        ensures { result ≡ takes_bitmap (layout_of code) }
    {
        let layout = TypeCode::layout(code);
        !matches!(
            layout,
            Layout::Null | Layout::DenseUnion | Layout::SparseUnion | Layout::Runs
        )
    }

    // Whether p1 lies in the code's range: a precision, a unit, a width, a count of rows, a key code, or 0 where unused.
    pub fn p1_fits(code: u8, p1: u32) -> bool
        ensures { result ≡ p1_fits code p1 }
    {
        let (low, high) = TypeCode::p1_range(code);
        low <= p1 && p1 <= high
    }

    // The lowest and the highest p1 of a code.
    fn p1_range(code: u8) -> (u32, u32)
        ensures low { result.0 ≡ (entry_of code).low }
        ensures high { result.1 ≡ (entry_of code).high }
    {
        match code {
            TypeCode::DECIMAL32 => (1, 9),
            TypeCode::DECIMAL64 => (1, 18),
            TypeCode::DECIMAL128 => (1, 38),
            TypeCode::DECIMAL256 => (1, 76),
            TypeCode::TIME32 => (0, 1),
            TypeCode::TIME64 => (2, 3),
            TypeCode::TIMESTAMP..=TypeCode::DURATION => (0, 3),
            TypeCode::FIXED_SIZE_BINARY => (0, TypeCode::LARGEST_SIZE),
            TypeCode::FIXED_SIZE_LIST => (0, TypeCode::LARGEST_SIZE),
            TypeCode::DICTIONARY => (TypeCode::INT8 as u32, TypeCode::UINT64 as u32),
            TypeCode::MAP => (0, 1),
            _ => (0, 0),
        }
    }

    // Whether p2 fits: a decimal's scale is -128 to 127; elsewhere p2 is unused, and 0.
    pub fn p2_fits(code: u8, p2: u32) -> bool
        ensures { result ≡ p2_fits code p2 }
    {
        match code {
            TypeCode::DECIMAL32..=TypeCode::DECIMAL256 => p2 < TypeCode::SCALE_END
                || p2 >= TypeCode::LOWEST_SCALE,
            _ => p2 == 0,
        }
    }

    // Whether the code is a union's, dense or sparse.
    pub fn is_union(code: u8) -> bool
        ensures { result ≡ is_union code }
    {
        matches!(code, TypeCode::DENSE_UNION | TypeCode::SPARSE_UNION)
    }

    // Whether the rows of a node of this code are text.
    pub fn is_text(code: u8) -> bool
        ensures { result ≡ is_text code }
    {
        matches!(
            code,
            TypeCode::UTF8 | TypeCode::LARGE_UTF8 | TypeCode::UTF8_VIEW
        )
    }

    // Whether a Dictionary's keys, of the integer code p1, are signed.
    pub fn key_signed(p1: u32) -> bool
        ensures { result ≡ key_signed p1 }
    {
        p1 <= TypeCode::INT64 as u32
    }

    // The lowest number of so many bytes that reads as negative in two's complement.
    pub fn sign_bit(width: usize) -> u64
        requires { width ≤ 8 }
        ensures { result ≡ sign_bit width }
    {
        if width == 0 {
            return 0;
        }
        1 << (8 * width - 1)
    }
}
