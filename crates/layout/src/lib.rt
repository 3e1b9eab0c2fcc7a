// The layout of a table: its length, the row of each record and the place where it stands.
#![tactic(auto)]

mod rows;

ghost use Rattle.std.specs.Prelude.{◌≡◌, ◌+◌, ◌<◌, ◌≤◌, length};
ghost use Rattle.rules.specs.Table.{decode};
ghost use Rattle.rules.specs.Layouts.{spare_zero, constraint_stands, stands, sound_at, layout};
ghost use Rattle.rules.specs.Replies.{layout_numbered};
ghost use Rattle.layout.specs.Surroundings.{around, after};

use kinds::{holds_fields, is_decl, is_field, is_packet_or_struct};
use rules::LayoutError;
use rules::limits::{MOST_RECORDS, RECORD_LENGTH};

// The kinds around a place: of its declaration, and of the records two and one before it; 0 outside the table.
#[derive(Clone, Copy, Default)]
struct Around {
    decl: u8,
    before2: u8,
    before1: u8,
}

// Whether a constraint may stand behind records of kinds `before2` and `before1`.
fn constraint_stands(before2: u8, before1: u8) -> bool
    ensures { result ≡ constraint_stands before2 before1 }
{
    is_packet_or_struct(before1)
        | ((before1 == kinds::GROUP_FIELD)
            | (((before1 == kinds::CONDITION) & (before2 == kinds::GROUP_FIELD))
                | (before1 == kinds::CONSTRAINT)))
}

// Whether a record of `kind` may stand where the kinds around it are these.
fn may_stand(surroundings: Around, kind: u8) -> bool
    ensures { result ≡ stands surroundings.decl surroundings.before2 surroundings.before1 kind }
{
    let q = surroundings.before1;
    is_decl(kind)
        | (((kind == kinds::CONSTRAINT) & constraint_stands(surroundings.before2, q))
            | ((is_field(kind) & holds_fields(surroundings.decl))
                | (((kind == kinds::CONDITION) & is_field(q))
                    | ((kinds::is_outer_tag(kind) & (surroundings.decl == kinds::ENUM))
                        | ((kind == kinds::INNER_VALUE)
                            & ((q == kinds::TAG_RANGE) | (q == kinds::INNER_VALUE)))))))
}

// Whether the bytes of a record that hold nothing are zero; `start` is where its bytes start.
fn spare_zero(table: &[u8], start: usize) -> bool
    requires { start + 40 ≤ length table.now }
    ensures { result ≡ spare_zero table.now start }
{
    (numbers::number2(table, start + 26) == 0)
        & ((numbers::number2(table, start + 30) == 0)
            & ((numbers::number2(table, start + 34) == 0)
                & (numbers::number4(table, start + 36) == 0)))
}

// Whether the record at `place` breaks neither its row nor its place.
fn sound_at(table: &[u8], place: usize, surroundings: Around) -> bool
    requires { (place < length (decode table.now)) × (surroundings ≡ around (decode table.now) place) }
    ensures { result ≡ sound_at table.now place }
{
    let r = records::record(table, place);
    let i = records::base(table, place);
    if !spare_zero(table, i) {
        return false;
    }
    rows::keeps_row(r) & may_stand(surroundings, r.kind)
}

// The kinds around the next place, behind a record of `kind`.
fn step(surroundings: Around, kind: u8) -> Around
    ensures { result ≡ after surroundings kind }
{
    let decl = if is_decl(kind) {
        kind
    } else {
        surroundings.decl
    };
    Around {
        decl,
        before2: surroundings.before1,
        before1: kind,
    }
}

// The rows Uneven, TooLong and Malformed, or a sound layout.
pub fn check_layout(table: &[u8]) -> Result<(), LayoutError>
    ensures value { result ≡ layout table.now }
    ensures numbered { layout_numbered result ≡ layout_numbered (layout table.now) }
{
    if table.len() % RECORD_LENGTH != 0 {
        return Err(LayoutError::Uneven);
    }
    let n = records::count(table);
    if MOST_RECORDS < n {
        return Err(LayoutError::TooLong);
    }
    let mut a = Around::default();
    for p in 0..n {
        if !sound_at(table, p, a) {
            return Err(LayoutError::Malformed(p));
        }
        a = step(a, records::record(table, p).kind);
    }
    Ok(())
}
