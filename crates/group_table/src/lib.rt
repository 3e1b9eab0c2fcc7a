// The table with each group field replaced by the fields of its group, fixed as its constraints say, written record by record.
#![tactic(auto)]

ghost use Rattle.std.specs.Prelude.{◌≡◌, ◌+◌, ◌<◌, ◌≤◌, length};
ghost use Rattle.rules.specs.InlineGroups.{inlined};
ghost use Rattle.group_sizes.specs.Sizes.{total_size};
ghost use Rattle.group_table.specs.Outputs.{unfit_after, output, added, added_all, empty, ExpandReady, Expanded};

use group_constraints::inlined_record;
use group_constraints::stack::Stack;
use group_sizes::Groups;
use group_sizes::members::{Member, Members};
use kinds::is_kept;
use rules::{FieldKey, Inlined, Record};

// How many records are written, and the key of the first that is not fit.
#[derive(Clone, Copy)]
pub struct ExpandProgress {
    pub count: usize,
    pub unfit: Option<FieldKey>,
}

// The first record that is not fit tells its key.
fn unfit_after(unfit: Option<FieldKey>, next: Inlined) -> Option<FieldKey>
    ensures { result ≡ unfit_after unfit next }
{
    unfit.or((!next.fit).then_some(FieldKey(next.made.key)))
}

// Writes one record more.
fn add(out: &mut [Record], progress: ExpandProgress, next: Inlined) -> ExpandProgress
    requires { progress.count < length out.old }
    ensures { output result out.new ≡ added (output progress out.old) next }
{
    out[progress.count] = next.made;
    ExpandProgress {
        count: progress.count + 1,
        unfit: unfit_after(progress.unfit, next),
    }
}

// Writes what stands behind the declaration at `decl`, under the constraints on the stack. The group of a field is the
// declaration at its place of targets; one of size 0 is passed over.
fn expand(
    groups: &Groups,
    decl: usize,
    env: &mut Stack,
    out: &mut [Record],
    progress: ExpandProgress,
) -> ExpandProgress
    requires { ExpandReady groups.now.table.records.now groups.now.sizes.now decl env.old out.old progress }
    ensures { Expanded groups.now.table.records.now groups.now.sizes.now decl env.old out.old progress env.new out.new result }
{
    let table = groups.table.records;
    let mut s = progress;
    for Member { place, kind, bound } in Members::new(table, decl) {
        if kind == kinds::GROUP_FIELD {
            let g = usize::from(groups.targets[place]);
            if groups.sizes[g] != 0 {
                let top = env.len();
                env.push_constraints(groups.table, place + 1);
                s = expand(groups, g, env, out, s);
                env.truncate(top);
            }
        } else if !bound {
            let r = table::at(table, place);
            s = add(out, s, inlined_record(table, env.as_slice(), r));
        }
    }
    s
}

// Writes the inlined table.
pub fn write_all(groups: &Groups, out: &mut [Record]) -> ExpandProgress
    requires room_for_inlined { total_size groups.now.sizes.now groups.now.table.records.now (length groups.now.table.records.now) ≤ length out.old }
    requires table_bound { total_size groups.now.sizes.now groups.now.table.records.now (length groups.now.table.records.now) ≤ 1600 }
    ensures { output result out.new ≡ added_all (output empty out.old) (inlined groups.now.table.records.now) }
{
    let mut env = Stack::new();
    let mut s = ExpandProgress {
        count: 0,
        unfit: None,
    };
    for (d, r) in groups.table.records.iter().enumerate() {
        if is_kept(r.kind) {
            let first = add(
                out,
                s,
                Inlined {
                    made: *r,
                    fit: true,
                },
            );
            s = expand(groups, d, &mut env, out, first);
        }
    }
    s
}
