// What the program prints, appended to one lent text: the reply's line, and a line for each fault kept or record.
#![tactic(auto)]

ghost use Rattle.std.specs.Prelude.{◌≡◌, ◌+◌, ◌*◌, ◌≤◌, min, length};
ghost use Rattle.rules.specs.Faults.{fault_at, fault_room};
ghost use Rattle.rules.specs.Replies.{numbered, answered};
ghost use Rattle.rules.specs.Printed.{record_line, fault_line, record_lines, fault_lines, detail, printed};
ghost use Rattle.printed_text.specs.TextAppended.{TextAppended, TextBegins};
ghost use Rattle.printed.specs.Whole.{Whole};

use rules::limits::FAULT_LENGTH;
use rules::{Fault, Record, Reply};

// A record's line: ten numbers.
#[tactic(auto, unfolding(rules::specs::Printed::record_line))]
fn append_record(text: &mut [u8], at: usize, r: Record) -> usize
    requires { at + 210 ≤ length text.old }
    ensures { TextAppended text.old at (record_line r) text.new result }
{
    let ns = [
        u64::from(r.marks),
        u64::from(r.name),
        u64::from(r.second),
        u64::from(r.third),
        r.one,
        r.two,
        u64::from(r.key),
        u64::from(r.start),
        u64::from(r.end),
    ];
    printed_text::append_list(text, at, u64::from(r.kind), &ns)
}

// A fault's line: its code and its primary location, and the secondary one where there is one.
#[tactic(auto, unfolding(rules::specs::Printed::fault_line))]
fn append_fault(text: &mut [u8], at: usize, fault: Fault) -> usize
    requires { at + 105 ≤ length text.old }
    ensures { TextAppended text.old at (fault_line fault) text.new result }
{
    if fault.secondary == 0 {
        let ns = [u64::from(fault.start), u64::from(fault.end)];
        return printed_text::append_list(text, at, u64::from(fault.code), &ns);
    }
    let ns = [
        u64::from(fault.start),
        u64::from(fault.end),
        u64::from(fault.start2),
        u64::from(fault.end2),
    ];
    printed_text::append_list(text, at, u64::from(fault.code), &ns)
}

// The fault in the 20 bytes from `from`. No impl of `From`, as neither type is this crate's own.
fn fault_at(faults: &[u8], from: usize) -> Fault
    requires { from + 20 ≤ length faults.now }
    ensures { result ≡ fault_at faults.now from }
{
    Fault {
        code: numbers::number2(faults, from),
        secondary: numbers::number2(faults, from + 2),
        start: numbers::number4(faults, from + 4),
        end: numbers::number4(faults, from + 8),
        start2: numbers::number4(faults, from + 12),
        end2: numbers::number4(faults, from + 16),
    }
}

// Two loops and not one over a closure, whose contract would have to say what each call does to the text.

// The lines of the first `count` records of a table, by number: the definition counts places of the whole table, and the parts that
// `chunks_exact` gives would need laws of their own.
#[tactic(auto, using(crate::proofs::Laws::record_laws))]
fn append_records(text: &mut [u8], at: usize, table: &[u8], count: usize) -> usize
    requires { (at + 210 * count ≤ length text.old) × (40 * count ≤ length table.now) }
    ensures { TextAppended text.old at (record_lines table.now count) text.new result }
{
    let mut p = at;
    for i in 0..count {
        p = append_record(text, p, records::record(table, i));
    }
    p
}

// The lines of the first `count` faults of a fault buffer, by number as those of records.
#[tactic(auto, using(crate::proofs::Laws::fault_laws))]
fn append_faults(text: &mut [u8], at: usize, faults: &[u8], count: usize) -> usize
    requires { (at + 105 * count ≤ length text.old) × (20 * count ≤ length faults.now) }
    ensures { TextAppended text.old at (fault_lines faults.now count) text.new result }
{
    let mut p = at;
    for i in 0..count {
        p = append_fault(text, p, fault_at(faults, FAULT_LENGTH * i));
    }
    p
}

// How many faults of a total are kept in the fault buffer.
fn kept_faults(total: usize, faults: &[u8]) -> usize
    ensures { result ≡ min total (fault_room faults.now) }
{
    total.min(faults.len() / FAULT_LENGTH)
}

// What stands behind the reply's line: the faults kept, or the records.
fn append_detail(text: &mut [u8], at: usize, reply: Reply, table: &[u8], faults: &[u8]) -> usize
    requires { (at + 336000 ≤ length text.old) × (length table.now ≤ 64000) × (length faults.now ≤ 64000) × Whole (answered reply table.now faults.now) }
    ensures { TextAppended text.old at (detail (numbered reply) table.now faults.now) text.new result }
{
    match reply {
        Reply::Faulty(pass, total) => append_faults(text, at, faults, kept_faults(total, faults)),
        Reply::Accepted(records) => append_records(text, at, table, records),
        _ => at,
    }
}

// All that is printed, from the start of the text; it ends at the place returned.
#[tactic(auto, using(crate::proofs::Laws::answer_laws), unfolding(rules::specs::Printed::printed))]
pub fn append_answer(text: &mut [u8], reply: Reply, table: &[u8], faults: &[u8]) -> usize
    requires { (340000 ≤ length text.old) × (length table.now ≤ 64000) × (length faults.now ≤ 64000) × Whole (answered reply table.now faults.now) }
    ensures { TextBegins text.old (printed (answered reply table.now faults.now)) text.new result }
{
    let p = printed_text::replies::append_reply(text, 0, reply);
    append_detail(text, p, reply, table, faults)
}
