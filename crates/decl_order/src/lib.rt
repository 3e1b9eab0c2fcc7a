// Pass 2: the visits, and, if they find no fault, the copy of the declarations in listed order.
#![tactic(auto)]

pub mod bytes;

ghost use Rattle.std.specs.Prelude.{◌≡◌, ◌++◌, ◌≤◌, length, drop};
ghost use Rattle.rules.specs.DeclIdentifiers.{all_records};
ghost use Rattle.decl_order.specs.Contract.{Placed, DeclIdentifiersChecked};

use decl_visits::VisitProgress;
use declarations::Names;
use declarations::starts::large;
use rules::{Record, Tally};
use table::{NO_PLACE, REMAINDERS, Table};

// Copies records, as `copy_from_slice`, which calls memmove: the static library asks C for memset alone.
fn copy(records: &[Record], out: &mut [Record])
    requires { length records.now ≡ length out.old }
    ensures { out.new ≡ records.now }
{
    for (place, r) in records.iter().enumerate() {
        out[place] = *r;
    }
}

// Copies the records of the declarations at these places to the start of out. Returns how many records they are.
fn copy_listed(table: &[Record], places: &[u16], out: &mut [Record]) -> usize
    requires { Placed table.now places.now out.old }
    ensures { (result ≡ length (all_records table.now places.now)) × (out.new ≡ all_records table.now places.now ++ drop result out.old) }
{
    let mut count = 0;
    for place in places {
        let d = usize::from(*place);
        let m = 1 + search::members::member_count(table, d);
        copy(&table[d..d + m], &mut out[count..count + m]);
        count += m;
    }
    count
}

// The visits, then the copy, if no fault is found. The bound stays a clause here and of `visit_all`: `Names` has none, for the passes that ask
// for none, and a second struct of names with it would be longer than the inequality.
fn order_from(names: &Names, buffer: &mut [u8], out: &mut [Record]) -> Result<usize, Tally>
    requires { (length names.now.table.now ≤ 1600) × (length names.now.table.now ≤ length out.old) }
    ensures { DeclIdentifiersChecked names.now.table.now buffer.old out.old buffer.new out.new result }
{
    let mut a = VisitProgress::new();
    decl_visits::visit_all(names, &mut a, buffer);
    let tally = a.tally;
    if 0 < tally.total {
        return Err(tally);
    }
    Ok(copy_listed(names.table, a.order(), out))
}

// Pass 2: its faults, or how many records are listed; they then stand at the start of out, all others of its records unchanged.
pub fn check_decl_identifiers(
    table: Table,
    buffer: &mut [u8],
    out: &mut [Record],
) -> Result<usize, Tally>
    requires { length table.records.now ≤ length out.old }
    ensures { DeclIdentifiersChecked table.entry.records.now buffer.old out.old buffer.new out.new result }
{
    // The array is made only for a large table, as those of pass_faults.
    let Some(large) = large(table.records) else {
        return order_from(&Names::new(table.records), buffer, out);
    };
    let mut starts = [NO_PLACE; REMAINDERS];
    let names = Names::with_starts(large, &mut starts);
    order_from(&names, buffer, out)
}
