// The codes of faults, under the names of the Rust's `ErrorCode`. They stay numbers: a fault holds its code as two bytes, the definitions
// state numbers, and nothing matches on a code. Those of Size, Count and ElementSize are three each, and pass 5 counts from
// the first.
pub const DUPLICATE_DECL_IDENTIFIER: u16 = 1;

pub const RECURSIVE_DECL: u16 = 2;

pub const UNDECLARED_GROUP_IDENTIFIER: u16 = 3;

pub const INVALID_GROUP_IDENTIFIER: u16 = 4;

pub const UNDECLARED_TYPE_IDENTIFIER: u16 = 5;

pub const INVALID_TYPE_IDENTIFIER: u16 = 6;

pub const UNDECLARED_PARENT_IDENTIFIER: u16 = 7;

pub const INVALID_PARENT_IDENTIFIER: u16 = 8;

pub const UNDECLARED_TEST_IDENTIFIER: u16 = 9;

pub const INVALID_TEST_IDENTIFIER: u16 = 10;

pub const DUPLICATE_FIELD_IDENTIFIER: u16 = 11;

pub const DUPLICATE_TAG_IDENTIFIER: u16 = 12;

pub const DUPLICATE_TAG_VALUE: u16 = 13;

pub const INVALID_TAG_VALUE: u16 = 14;

pub const DUPLICATE_SIZE_FIELD: u16 = 23;

pub const UNDECLARED_SIZE_IDENTIFIER: u16 = 24;

pub const INVALID_SIZE_IDENTIFIER: u16 = 25;

pub const DUPLICATE_COUNT_FIELD: u16 = 26;

pub const UNDECLARED_COUNT_IDENTIFIER: u16 = 27;

pub const INVALID_COUNT_IDENTIFIER: u16 = 28;

pub const DUPLICATE_ELEMENT_SIZE_FIELD: u16 = 29;

pub const UNDECLARED_ELEMENT_SIZE_IDENTIFIER: u16 = 30;

pub const INVALID_ELEMENT_SIZE_IDENTIFIER: u16 = 31;

pub const FIXED_VALUE_OUT_OF_RANGE: u16 = 32;

// No declaration has the name of a FixedEnum's enum.
pub const E33: u16 = 33;

// The enum has no tag of that name.
pub const E34: u16 = 34;

// The declaration is no enum.
pub const E35: u16 = 35;

pub const DUPLICATE_PAYLOAD_FIELD: u16 = 36;

pub const MISSING_PAYLOAD_FIELD: u16 = 37;

pub const REDUNDANT_ARRAY_SIZE: u16 = 38;

pub const INVALID_PADDING_FIELD: u16 = 39;

pub const INVALID_TAG_RANGE: u16 = 40;

pub const DUPLICATE_TAG_RANGE: u16 = 41;

// A range of the enum holds the value.
pub const E43: u16 = 43;

pub const DUPLICATE_DEFAULT_TAG: u16 = 44;
