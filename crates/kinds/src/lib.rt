// The kinds of records by their numbers, under the names of crates/rules/specs/Kinds.antt, and groups of kinds. They stay numbers: a table
// may hold any byte, for which an enum would need a case, and the definitions compare numbers.
#![tactic(auto)]

ghost use Rattle.std.specs.Prelude.{◌≡◌};
ghost use Rattle.rules.specs.Kinds.{is_decl, is_named_decl, is_packet_or_struct, holds_fields, is_field, is_named_field, may_refer, is_condition_or_entry, is_size, is_size_or_count, is_payload, is_tag, is_outer_tag, is_value, is_written_only};
ghost use Rattle.rules.specs.InlineGroups.{is_constraint_or_condition, is_kept};

// Declarations.
pub const CHECKSUM: u8 = 1;

pub const CUSTOM_FIELD: u8 = 2;

pub const ENUM: u8 = 3;

pub const PACKET: u8 = 4;

pub const STRUCT: u8 = 5;

pub const GROUP: u8 = 6;

pub const TEST: u8 = 7;

// What stands behind a declaration or a field.
pub const CONSTRAINT: u8 = 10;

pub const CONDITION: u8 = 11;

pub const FLAG_ENTRY: u8 = 12;

// Fields.
pub const CHECKSUM_FIELD: u8 = 20;

pub const PADDING: u8 = 21;

pub const SIZE: u8 = 22;

pub const COUNT: u8 = 23;

pub const ELEMENT_SIZE: u8 = 24;

pub const BODY: u8 = 25;

pub const PAYLOAD: u8 = 26;

pub const FIXED_SCALAR: u8 = 27;

pub const FIXED_ENUM: u8 = 28;

pub const RESERVED: u8 = 29;

pub const ARRAY: u8 = 30;

pub const SCALAR: u8 = 31;

pub const FLAG: u8 = 32;

pub const TYPEDEF: u8 = 33;

pub const GROUP_FIELD: u8 = 34;

// Tags.
pub const TAG_VALUE: u8 = 40;

pub const TAG_RANGE: u8 = 41;

pub const INNER_VALUE: u8 = 42;

pub const DEFAULT_TAG: u8 = 43;

// Groups of kinds as numbers, a bit for each kind.
pub const NAMED_DECLS: u64 = (2u64 << GROUP) - (1u64 << CHECKSUM);

pub const SIZES: u64 = (2u64 << ELEMENT_SIZE) - (1u64 << SIZE);

pub const FIXED_FIELDS: u64 = (2u64 << FIXED_ENUM) - (1u64 << FIXED_SCALAR);

const PAYLOADS: u64 = (2u64 << PAYLOAD) - (1u64 << BODY);

pub const PAYLOADS_AND_NAMED_DECLS: u64 = PAYLOADS + NAMED_DECLS;

pub const ARRAYS: u64 = 1u64 << ARRAY;

pub const PADDINGS: u64 = 1u64 << PADDING;

pub fn is_decl(kind: u8) -> bool
    ensures { result ≡ is_decl kind }
{
    matches!(kind, CHECKSUM..=TEST)
}

pub fn is_named_decl(kind: u8) -> bool
    ensures { result ≡ is_named_decl kind }
{
    matches!(kind, CHECKSUM..=GROUP)
}

pub fn is_packet_or_struct(kind: u8) -> bool
    ensures { result ≡ is_packet_or_struct kind }
{
    matches!(kind, PACKET..=STRUCT)
}

pub fn holds_fields(kind: u8) -> bool
    ensures { result ≡ holds_fields kind }
{
    matches!(kind, PACKET..=GROUP)
}

pub fn is_field(kind: u8) -> bool
    ensures { result ≡ is_field kind }
{
    matches!(kind, CHECKSUM_FIELD..=GROUP_FIELD)
}

pub fn is_named_field(kind: u8) -> bool
    ensures { result ≡ is_named_field kind }
{
    matches!(kind, ARRAY..=TYPEDEF)
}

// An array, a Typedef or a Group field. One pattern of kinds that are apart would be compiled to a table.
pub fn may_refer(kind: u8) -> bool
    ensures { result ≡ may_refer kind }
{
    (kind == ARRAY) | matches!(kind, TYPEDEF | GROUP_FIELD)
}

pub fn is_condition_or_entry(kind: u8) -> bool
    ensures { result ≡ is_condition_or_entry kind }
{
    matches!(kind, CONDITION | FLAG_ENTRY)
}

pub fn is_size(kind: u8) -> bool
    ensures { result ≡ is_size kind }
{
    matches!(kind, SIZE..=ELEMENT_SIZE)
}

pub fn is_size_or_count(kind: u8) -> bool
    ensures { result ≡ is_size_or_count kind }
{
    matches!(kind, SIZE..=COUNT)
}

pub fn is_payload(kind: u8) -> bool
    ensures { result ≡ is_payload kind }
{
    matches!(kind, BODY..=PAYLOAD)
}

pub fn is_tag(kind: u8) -> bool
    ensures { result ≡ is_tag kind }
{
    matches!(kind, TAG_VALUE..=DEFAULT_TAG)
}

// A tag that stands in no range.
pub fn is_outer_tag(kind: u8) -> bool
    ensures { result ≡ is_outer_tag kind }
{
    (kind == TAG_VALUE) | matches!(kind, TAG_RANGE | DEFAULT_TAG)
}

pub fn is_value(kind: u8) -> bool
    ensures { result ≡ is_value kind }
{
    matches!(kind, TAG_VALUE | INNER_VALUE)
}

// Flags and their entries are written only.
pub fn is_written_only(kind: u8) -> bool
    ensures { result ≡ is_written_only kind }
{
    matches!(kind, FLAG_ENTRY | FLAG)
}

pub fn is_constraint_or_condition(kind: u8) -> bool
    ensures { result ≡ is_constraint_or_condition kind }
{
    matches!(kind, CONSTRAINT | CONDITION)
}

// Every declaration but a group stays.
pub fn is_kept(kind: u8) -> bool
    ensures { result ≡ is_kept kind }
{
    is_decl(kind) & (kind != GROUP)
}
