// What a declaration refers to by a name, its parent or the packet of a test: nothing, a fault, or a declaration to visit.
#![tactic(auto)]

pub mod field_references;

ghost use Rattle.std.specs.Prelude.{◌≡◌};
ghost use Rattle.decl_references.specs.Named.{named_reference};
ghost use Rattle.rules.specs.DeclIdentifiers.{parent_reference, test_reference, own_reference, root_reference};

use declarations::Names;
use rules::{Record, Reference, codes};

// What the name at `place` refers to, by the declaration found: `missing` is the code where there is none, `invalid` where it
// is not allowed. An allowed one is followed, or only checked.
fn named_reference(
    place: usize,
    found: Option<usize>,
    missing: u16,
    invalid: u16,
    allowed: bool,
    followed: bool,
) -> Reference
    ensures { result ≡ named_reference missing invalid allowed followed place found }
{
    match found {
        None => Reference::Wrong(missing, place),
        Some(_) if !allowed => Reference::Wrong(invalid, place),
        Some(e) if followed => Reference::Follow(e),
        Some(_) => Reference::Nowhere,
    }
}

// The parent of the declaration at `decl`.
#[tactic(auto, unfolding(rules::specs::DeclIdentifiers::parent_reference))]
fn parent_reference(table: &[Record], decl: usize, found: Option<usize>) -> Reference
    ensures { result ≡ parent_reference table.now decl found }
{
    let missing = codes::UNDECLARED_PARENT_IDENTIFIER;
    let invalid = codes::INVALID_PARENT_IDENTIFIER;
    let kind = table::kind(table, decl);
    let allowed = found.is_some_and(|e| table::kind(table, e) == kind);
    named_reference(decl, found, missing, invalid, allowed, true)
}

// The packet of the test at `place`, which is checked and not followed.
#[tactic(auto, unfolding(rules::specs::DeclIdentifiers::test_reference))]
fn test_reference(table: &[Record], place: usize, found: Option<usize>) -> Reference
    ensures { result ≡ test_reference table.now place found }
{
    let missing = codes::UNDECLARED_TEST_IDENTIFIER;
    let invalid = codes::INVALID_TEST_IDENTIFIER;
    let allowed = found.is_some_and(|e| table::kind(table, e) == kinds::PACKET);
    named_reference(place, found, missing, invalid, allowed, false)
}

// The declaration at `decl`, by its parent's name.
#[tactic(auto, unfolding(rules::specs::DeclIdentifiers::own_reference))]
pub fn own_reference(names: &Names, decl: usize) -> Reference
    ensures { result ≡ own_reference names.now.table.now decl }
{
    let r = table::at(names.table, decl);
    if kinds::is_packet_or_struct(r.kind) & !(r.second == 0) {
        return parent_reference(names.table, decl, names.decl_named(r.second));
    }
    Reference::Nowhere
}

// The record at `place`, in table order: a declaration is visited, a test is checked.
#[tactic(auto, unfolding(rules::specs::DeclIdentifiers::root_reference))]
pub fn root_reference(names: &Names, place: usize) -> Reference
    ensures { result ≡ root_reference names.now.table.now place }
{
    let r = table::at(names.table, place);
    if kinds::is_named_decl(r.kind) {
        return Reference::Follow(place);
    }
    if r.kind == kinds::TEST {
        return test_reference(names.table, place, names.decl_named(r.second));
    }
    Reference::Nowhere
}
