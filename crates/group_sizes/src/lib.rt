// The groups of a table: the declarations that its group fields name, and the sizes of declarations once their groups are inlined.
#![tactic(auto)]

pub mod members;
pub mod targets;

ghost use Rattle.std.specs.Prelude.{◌≡◌, ◌+◌, ◌<◌, ◌≤◌, min, length, get_or};
ghost use Rattle.rules.specs.Kinds.{group_field};
ghost use Rattle.group_sizes.specs.GroupsFirst.{GroupsFirst};
ghost use Rattle.group_sizes.specs.Targets.{TargetsKnown};
ghost use Rattle.group_sizes.specs.Sizes.{size_here, size_from, SizingAfter, Sized, Measured, total_size};
ghost use Rattle.std.proofs.Props.{props};

use kinds::is_kept;
use members::{Member, Members};
use rules::limits::MOST_RECORDS;
use table::Table;

// A table in listed order, of at most 1,600 records: each group stands before the declaration that holds a field of it.
#[derive(Clone, Copy)]
pub struct Listed<'a> {
    pub table: Table<'a>,
    pub ghost groups_first: { GroupsFirst table.records.now } by { Prim.hlevel props },
}

// A table, with arrays by place: the declarations that group fields name, and the sizes of declarations.
#[derive(Clone, Copy)]
pub struct Groups<'a> {
    pub table: Table<'a>,
    pub targets: &'a [u16],
    pub sizes: &'a [u16],
    pub ghost measured: { Measured table.records.now targets.now sizes.now } by { Prim.hlevel props },
}

impl<'a> Groups<'a> {
    // The groups of a table in listed order, with arrays that it fills.
    pub fn new(listed: Listed<'a>, targets: &'a mut [u16], sizes: &'a mut [u16]) -> Self
        requires { (length listed.table.records.now ≤ length targets.old) × (length listed.table.records.now ≤ length sizes.old) }
        ensures { result.table ≡ listed.entry.table }
    {
        targets::fill(listed, targets);
        measure(listed, targets, sizes);
        Groups {
            table: listed.table,
            targets,
            sizes,
        }
    }

    // How many records the inlined table has, if that is at most 1,600.
    pub fn total(&self) -> usize
        ensures { result ≡ total_size self.now.sizes.now self.now.table.records.now (length self.now.table.records.now) }
    {
        total(self.table, self.sizes)
    }
}

// How many records a record behind a declaration becomes.
fn size_here(targets: &[u16], sizes: &[u16], member: Member) -> usize
    requires { (member.place < length targets.now) × (member.kind ≡ group_field → get_or targets.now member.place 0 < length sizes.now) }
    ensures { (result ≡ size_here targets.now sizes.now member.kind member.place member.bound) × (result ≤ 65535) }
{
    if member.kind == kinds::GROUP_FIELD {
        usize::from(sizes[usize::from(targets[member.place])])
    } else {
        usize::from(!member.bound)
    }
}

// How many records stand behind the declaration at `decl` once its groups are inlined, by the sizes of those groups.
fn size_after(table: Table, targets: &[u16], sizes: &[u16], decl: usize) -> usize
    requires { SizingAfter table.records.now targets.now sizes.now decl }
    ensures { result ≡ size_from targets.now sizes.now table.entry.records.now (decl + 1) }
{
    let mut s: usize = 0;
    for member in Members::new(table.records, decl) {
        s += size_here(targets, sizes, member);
    }
    s
}

// One record more than a table may have: the size that stands for it and all above.
const TOO_MANY: usize = MOST_RECORDS + 1;

// Writes the sizes of the declarations, in the order of the table: each group stands before what holds a field of it.
pub fn measure(listed: Listed, targets: &[u16], sizes: &mut [u16])
    requires { TargetsKnown listed.table.records.now targets.now (length listed.table.records.now)
        × (length listed.table.records.now ≤ length sizes.old) }
    ensures { Sized listed.entry.table.records.now targets.now sizes.new (length listed.entry.table.records.now) }
{
    let table = listed.table;
    for d in 0..table.records.len() {
        if kinds::is_decl(table::kind(table.records, d)) {
            let s = size_after(table, targets, sizes, d);
            sizes[d] = s.min(TOO_MANY) as u16;
        }
    }
}

// How many records the inlined table has by the sizes passed, if that is at most 1,600.
pub fn total(table: Table, sizes: &[u16]) -> usize
    requires { length table.records.now ≤ length sizes.now }
    ensures { result ≡ total_size sizes.now table.entry.records.now (length table.entry.records.now) }
{
    let mut s: usize = 0;
    for (d, r) in table.records.iter().enumerate() {
        if is_kept(r.kind) {
            s += 1 + usize::from(sizes[d]);
        }
    }
    s
}
