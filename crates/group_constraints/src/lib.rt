// Constraints: the stack of their places, the one that holds, and what it makes of a field.
#![tactic(auto)]

pub mod stack;

ghost use Rattle.std.specs.Prelude.{◌≡◌, ◌++◌, ◌+◌, ◌≤◌, length, take, reverse, nat_eq, MatchOption};
ghost use Rattle.std.specs.List.{find};
ghost use Rattle.rules.specs.Table.{at};
ghost use Rattle.rules.specs.InlineGroups.{kept, lookup, fixed_scalar, fixed_enum, inlined_record};
ghost use Rattle.group_constraints.specs.Constraints.{constraints_from};

use rules::{Inlined, Record};
use table::Table;

// The constraint of `name` that holds: of one name the innermost, then the last.
fn lookup(table: &[Record], env: &[u16], name: u16) -> Option<u16>
    ensures { result ≡ find (λ q. nat_eq (at table.now q).name name) (reverse env.now) }
{
    env.iter()
        .rev()
        .copied()
        .find(|q| table::at(table, usize::from(*q)).name == name)
}

// A Scalar that `constraint` fixes; it needs a value.
fn fixed_scalar(scalar: Record, constraint: Record) -> Inlined
    ensures { result ≡ fixed_scalar scalar constraint }
{
    Inlined {
        made: Record {
            kind: kinds::FIXED_SCALAR,
            marks: 0,
            name: 0, // a fixed field has none
            second: 0,
            third: 0,
            two: constraint.one,
            ..scalar
        },
        fit: constraint.marks % 2 == 1,
    }
}

// A Typedef that `constraint` fixes; it needs a tag. It is no twin of the Scalar's: other fields are set, and another part of the constraint is read.
fn fixed_enum(typedef: Record, constraint: Record) -> Inlined
    ensures { result ≡ fixed_enum typedef constraint }
{
    Inlined {
        made: Record {
            kind: kinds::FIXED_ENUM,
            marks: 0,
            name: 0,
            third: constraint.second,
            one: 0,
            two: 0,
            ..typedef
        },
        fit: constraint.second != 0,
    }
}

// `r` as `fix` makes it from the constraint that holds, or as it is where none does.
fn under<F: Fn(Record, Record) -> Inlined>(
    table: &[Record],
    env: &[u16],
    r: Record,
    fix: F,
) -> Inlined
    requires { F.IsAlwaysCallable fix }
    ensures { MatchOption (lookup table.now env.now r.name) (result ≡ kept r) (λ q. F.post fix r (at table.now q) result) }
{
    match lookup(table, env, r.name) {
        Some(q) => fix(r, table::at(table, usize::from(q))),
        None => Inlined { made: r, fit: true },
    }
}

// `r` under the constraints at the places of `env`.
pub fn inlined_record(table: &[Record], env: &[u16], r: Record) -> Inlined
    ensures { result ≡ inlined_record table.now env.now r }
{
    if r.kind == kinds::SCALAR {
        under(table, env, r, fixed_scalar)
    } else if r.kind == kinds::TYPEDEF {
        under(table, env, r, fixed_enum)
    } else {
        Inlined { made: r, fit: true }
    }
}

// Puts the places of the constraints of the field before `place` behind the first `count` of `env`. Returns how many it holds then.
pub fn push_constraints(table: Table, place: usize, env: &mut [u16], count: usize) -> usize
    requires { count + length (constraints_from table.records.now place) ≤ length env.old }
    ensures { (result ≡ count + length (constraints_from table.entry.records.now place))
        × (take result env.new ≡ take count env.old ++ constraints_from table.entry.records.now place) }
{
    let mut m = count;
    for p in place..table.records.len() {
        let k = table::kind(table.records, p);
        if k == kinds::CONSTRAINT {
            env[m] = p as u16;
            m += 1;
        } else if k != kinds::CONDITION {
            return m;
        }
    }
    m
}
