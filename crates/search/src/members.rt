// What a declaration has behind its record, up to the next declaration.
ghost use Rattle.std.specs.Prelude.{◌≡◌, if◌then◌else◌, ◌+◌, ◌<◌, ◌≤◌, length};
ghost use Rattle.rules.specs.Places.{first_from, found_inside, member_count};

use rules::{Record, Target};

// How many records the declaration at `decl` has behind its own, up to the next declaration.
pub fn member_count(table: &[Record], decl: usize) -> usize
    requires { decl < length table.now }
    ensures { (result ≡ member_count table.now decl) × (decl + 1 + result ≤ length table.now) }
{
    let a = decl + 1;
    crate::first(table, Target::Decl, a).unwrap_or(table.len()) - a
}

// What a search found, if it is no declaration.
pub fn inside(table: &[Record], found: Option<usize>) -> Option<usize>
    ensures { result ≡ (if found_inside table.now found then found else None) }
{
    found.filter(|q| !kinds::is_decl(table::kind(table, *q)))
}

// Whether the declaration at `decl` has what `target` looks for.
pub fn has_member(table: &[Record], target: Target, decl: usize) -> bool
    ensures { result ≡ found_inside table.now (first_from table.now target (decl + 1)) }
{
    decl < table.len() && inside(table, crate::first(table, target, decl + 1)).is_some()
}
