// Where the search for the declaration of a name may start, so that few records are looked at.
ghost use Rattle.std.specs.Prelude.{◌≡◌, ◌+◌, ◌<◌, IfSome, length, replicate};
ghost use Rattle.declarations.specs.Starts.{StartsFrom, Starts};

use rules::Record;
use rules::limits::MOST_RECORDS;
use table::{DIVISOR, FEW_RECORDS, Table};

// The table, if it has so many records that arrays by remainder spare time, and not too many for their places.
pub fn large(records: &[Record]) -> Option<Table>
    ensures { IfSome result (λ t. t.records ≡ records.entry) }
{
    let n = records.len();
    if (FEW_RECORDS < n) & (n <= MOST_RECORDS) {
        return Some(Table { records });
    }
    None
}

// The declaration at `place`, if one with a name stands there, as the start for its name.
fn set_start(table: Table, place: usize, starts: &mut [u16])
    requires { (place < length table.records.now) × (length starts.old ≡ 4093) × StartsFrom table.records.now starts.old (place + 1) }
    ensures { StartsFrom table.entry.records.now starts.new place }
{
    let r = table::at(table.records, place);
    if kinds::is_named_decl(r.kind) {
        let h = usize::from(r.name % DIVISOR);
        starts[h] = place as u16;
    }
}

// Fills the starts, which are past every table at first, from the last place to the first.
pub fn fill(table: Table, starts: &mut [u16])
    requires { starts.old ≡ replicate 4093 65535 }
    ensures { Starts table.entry.records.now starts.new }
{
    for place in (0..table.records.len()).rev() {
        set_start(table, place, starts);
    }
}
