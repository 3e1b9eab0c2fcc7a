// The table of records: the row of each kind, and whether a record keeps to its row.
ghost use Rattle.std.specs.Prelude.{◌≡◌};
ghost use Rattle.rules.specs.Layouts.{row, row_of, name_fits, number_fits, key_fits, array_fits, keeps};

use kinds::{is_decl, is_field};
use rules::{Record, Row};

// A name or number that a kind doesn't list, or lists; a name that is opt; a number under its mark. They are numbers, as in the definitions' rows.
const NONE: u8 = 0;

const LISTED: u8 = 1;

const OPT: u8 = 2;

const MARKED: u8 = 2;

fn row(kind: u8, marks: u8, name: u8, second: u8, third: u8, one: u8, two: u8) -> Row
    ensures { result ≡ row kind marks name second third one two }
{
    Row {
        kind,
        marks,
        name,
        second,
        third,
        one,
        two,
    }
}

// The row of a kind, or one of kind 0.
#[tactic(auto, unfolding(rules::specs::Layouts::row_of, rules::specs::Layouts::row_among, rules::specs::Layouts::rows))]
fn row_of(kind: u8) -> Row
    ensures { result ≡ row_of kind }
{
    match kind {
        kinds::CHECKSUM => row(kind, 0, LISTED, NONE, NONE, LISTED, NONE),
        kinds::CUSTOM_FIELD => row(kind, 1, LISTED, NONE, NONE, MARKED, NONE),
        kinds::ENUM => row(kind, 0, LISTED, NONE, NONE, LISTED, NONE),
        kinds::PACKET => row(kind, 0, LISTED, OPT, NONE, NONE, NONE),
        kinds::STRUCT => row(kind, 0, LISTED, OPT, NONE, NONE, NONE),
        kinds::GROUP => row(kind, 0, LISTED, NONE, NONE, NONE, NONE),
        kinds::TEST => row(kind, 0, NONE, LISTED, NONE, NONE, NONE),
        kinds::CONSTRAINT => row(kind, 1, LISTED, OPT, NONE, MARKED, NONE),
        kinds::CONDITION => row(kind, 1, LISTED, OPT, NONE, MARKED, NONE),
        kinds::FLAG_ENTRY => row(kind, 0, LISTED, NONE, NONE, LISTED, NONE),
        kinds::CHECKSUM_FIELD => row(kind, 0, NONE, LISTED, NONE, NONE, NONE),
        kinds::PADDING => row(kind, 0, NONE, NONE, NONE, LISTED, NONE),
        kinds::SIZE => row(kind, 0, NONE, LISTED, NONE, LISTED, NONE),
        kinds::COUNT => row(kind, 0, NONE, LISTED, NONE, LISTED, NONE),
        kinds::ELEMENT_SIZE => row(kind, 0, NONE, LISTED, NONE, LISTED, NONE),
        kinds::BODY => row(kind, 0, NONE, NONE, NONE, NONE, NONE),
        kinds::PAYLOAD => row(kind, 0, NONE, NONE, OPT, NONE, NONE),
        kinds::FIXED_SCALAR => row(kind, 0, NONE, NONE, NONE, LISTED, LISTED),
        kinds::FIXED_ENUM => row(kind, 0, NONE, LISTED, LISTED, NONE, NONE),
        kinds::RESERVED => row(kind, 0, NONE, NONE, NONE, LISTED, NONE),
        kinds::ARRAY => row(kind, 3, LISTED, OPT, OPT, MARKED, MARKED),
        kinds::SCALAR => row(kind, 0, LISTED, NONE, NONE, LISTED, NONE),
        kinds::FLAG => row(kind, 0, LISTED, NONE, NONE, NONE, NONE),
        kinds::TYPEDEF => row(kind, 0, LISTED, LISTED, NONE, NONE, NONE),
        kinds::GROUP_FIELD => row(kind, 0, NONE, LISTED, NONE, NONE, NONE),
        kinds::TAG_VALUE => row(kind, 0, LISTED, NONE, NONE, LISTED, NONE),
        kinds::TAG_RANGE => row(kind, 0, LISTED, NONE, NONE, LISTED, LISTED),
        kinds::INNER_VALUE => row(kind, 0, LISTED, NONE, NONE, LISTED, NONE),
        kinds::DEFAULT_TAG => row(kind, 0, LISTED, NONE, NONE, NONE, NONE),
        _ => row(0, 0, NONE, NONE, NONE, NONE, NONE),
    }
}

fn name_fits(listed: u8, name: u16) -> bool
    ensures { result ≡ name_fits listed name }
{
    (listed == OPT) | (((listed == LISTED) & !(name == 0)) | ((listed == NONE) & (name == 0)))
}

fn number_fits(listed: u8, mark: bool, number: u64) -> bool
    ensures { result ≡ number_fits listed mark number }
{
    (number == 0) | ((listed == LISTED) | ((listed == MARKED) & mark))
}

fn key_fits(r: Record) -> bool
    ensures { result ≡ key_fits r }
{
    (r.key == 0) | (is_decl(r.kind) | is_field(r.kind))
}

fn array_fits(r: Record) -> bool
    ensures { result ≡ array_fits r }
{
    let width = r.marks % 2 == 1;
    !(r.kind == kinds::ARRAY) | ((width & (r.second == 0)) | (!width & !(r.second == 0)))
}

// Whether a record keeps to a row.
fn keeps(row: Row, r: Record) -> bool
    ensures { result ≡ keeps row r }
{
    let width = r.marks % 2 == 1;
    let count = 2 <= r.marks;
    !((row.kind == 0) | kinds::is_written_only(row.kind))
        & ((r.marks <= row.marks)
            & (name_fits(row.name, r.name)
                & (name_fits(row.second, r.second)
                    & (name_fits(row.third, r.third)
                        & (number_fits(row.one, width, r.one)
                            & (number_fits(row.two, count, r.two)
                                & (key_fits(r) & array_fits(r))))))))
}

// Whether a record keeps to the row of its kind.
pub fn keeps_row(r: Record) -> bool
    ensures { result ≡ keeps (row_of r.kind) r }
{
    keeps(row_of(r.kind), r)
}
