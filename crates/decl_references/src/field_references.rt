// What a field refers to by a name: nothing, a fault, or a declaration to visit.
ghost use Rattle.std.specs.Prelude.{◌≡◌};
ghost use Rattle.rules.specs.DeclIdentifiers.{group_reference, type_reference, field_reference};

use crate::named_reference;
use declarations::Names;
use rules::{Record, Reference, codes};

// The Group field at `place`.
#[tactic(auto, unfolding(rules::specs::DeclIdentifiers::group_reference))]
fn group_reference(table: &[Record], place: usize, found: Option<usize>) -> Reference
    ensures { result ≡ group_reference table.now place found }
{
    let missing = codes::UNDECLARED_GROUP_IDENTIFIER;
    let invalid = codes::INVALID_GROUP_IDENTIFIER;
    let allowed = found.is_some_and(|e| table::kind(table, e) == kinds::GROUP);
    named_reference(place, found, missing, invalid, allowed, true)
}

// The Typedef or typed array at `place`, which may be checked and not followed.
#[tactic(auto, unfolding(rules::specs::DeclIdentifiers::type_reference))]
fn type_reference(followed: bool, table: &[Record], place: usize, found: Option<usize>) -> Reference
    ensures { result ≡ type_reference followed table.now place found }
{
    let missing = codes::UNDECLARED_TYPE_IDENTIFIER;
    let invalid = codes::INVALID_TYPE_IDENTIFIER;
    let allowed = found.is_some_and(|e| table::kind(table, e) != kinds::PACKET);
    named_reference(place, found, missing, invalid, allowed, followed)
}

// The record at `place`, as a field.
#[tactic(auto, unfolding(rules::specs::DeclIdentifiers::field_reference))]
pub fn field_reference(names: &Names, place: usize) -> Reference
    ensures { result ≡ field_reference names.now.table.now place }
{
    let r = table::at(names.table, place);
    if r.kind == kinds::GROUP_FIELD {
        return group_reference(names.table, place, names.decl_named(r.second));
    }
    if r.kind == kinds::TYPEDEF {
        return type_reference(true, names.table, place, names.decl_named(r.second));
    }
    if (r.kind == kinds::ARRAY) & !(r.second == 0) {
        return type_reference(2 <= r.marks, names.table, place, names.decl_named(r.second));
    }
    Reference::Nowhere
}
