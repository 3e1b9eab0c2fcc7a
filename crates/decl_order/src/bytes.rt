// Pass 2 on the bytes of a table: the bytes of the listed declarations, those that no record number is read from too.
ghost use Rattle.std.specs.Prelude.{◌≡◌, ◌*◌, ◌≤◌, length};
ghost use Rattle.rules.specs.Bytes.{written};
ghost use Rattle.rules.specs.Table.{decode};
ghost use Rattle.rules.specs.DeclIdentifiers.{all_records};
ghost use Rattle.decl_order.specs.Bytes.{all_bytes, BytesPlaced, BytesChecked};

use decl_visits::VisitProgress;
use declarations::Names;
use declarations::starts::large;
use rules::limits::{MOST_RECORDS, RECORD_LENGTH};
use rules::{Record, Tally};
use table::{FEW_RECORDS, NO_PLACE, REMAINDERS};

// Copies the bytes of the declarations at these places to the start of out. Returns how many records they are.
fn copy_listed(table: &[u8], records: &[Record], places: &[u16], out: &mut [u8]) -> usize
    requires { (records.now ≡ decode table.now) × BytesPlaced (decode table.now) places.now out.old }
    ensures { (result ≡ length (all_records (decode table.now) places.now)) × (out.new ≡ written out.old 0 (all_bytes table.now places.now)) }
{
    let mut count = 0;
    for place in places {
        let d = usize::from(*place);
        let m = 1 + search::members::member_count(records, d);
        let bytes = &table[RECORD_LENGTH * d..RECORD_LENGTH * (d + m)];
        out[RECORD_LENGTH * count..RECORD_LENGTH * (count + m)].copy_from_slice(bytes);
        count += m;
    }
    count
}

// The visits, then the copy, if no fault is found.
fn order_from(
    names: &Names,
    table: &[u8],
    buffer: &mut [u8],
    out: &mut [u8],
) -> Result<usize, Tally>
    requires { (names.now.table.now ≡ decode table.now) × (length (decode table.now) ≤ 1600) × (40 * length (decode table.now) ≤ length out.old) }
    ensures { BytesChecked table.now buffer.old out.old buffer.new out.new result }
{
    let mut a = VisitProgress::new();
    decl_visits::visit_all(names, &mut a, buffer);
    let tally = a.tally;
    if 0 < tally.total {
        return Err(tally);
    }
    Ok(copy_listed(table, names.table, a.order(), out))
}

// With room of its own for N records of the table.
fn check_in<const N: usize>(table: &[u8], buffer: &mut [u8], out: &mut [u8]) -> Result<usize, Tally>
    requires { (length (decode table.now) ≤ N) × (N ≤ 1600) × (40 * length (decode table.now) ≤ length out.old) }
    ensures { BytesChecked table.now buffer.old out.old buffer.new out.new result }
{
    let mut records = [Record::default(); N];
    let n = records::read(table, &mut records);
    // The array is made only for a large table, as those of pass_faults.
    let Some(large) = large(&records[..n]) else {
        return order_from(&Names::new(&records[..n]), table, buffer, out);
    };
    let mut starts = [NO_PLACE; REMAINDERS];
    let names = Names::with_starts(large, &mut starts);
    order_from(&names, table, buffer, out)
}

// Pass 2: its faults, or how many records are listed; their bytes then stand at the start of out, all others of its bytes unchanged.
pub fn check_decl_identifiers(
    table: &[u8],
    buffer: &mut [u8],
    out: &mut [u8],
) -> Result<usize, Tally>
    requires { (length (decode table.now) ≤ 1600) × (40 * length (decode table.now) ≤ length out.old) }
    ensures { BytesChecked table.now buffer.old out.old buffer.new out.new result }
{
    if FEW_RECORDS < records::count(table) {
        return check_in::<MOST_RECORDS>(table, buffer, out);
    }
    check_in::<FEW_RECORDS>(table, buffer, out)
}
