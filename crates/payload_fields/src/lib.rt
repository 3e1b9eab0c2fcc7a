// Pass 7, `check_payload_fields`: a second Payload or Body, and a parent that has none though a child has fields.
#![tactic(auto)]

pub mod parents;

ghost use Rattle.std.specs.Prelude.{◌≡◌, length};
ghost use Rattle.std.specs.Option.{option_to_list};
ghost use Rattle.rules.specs.Places.{first};
ghost use Rattle.rules.specs.PayloadFields.{second_payload, child_with_field, missing_payload, pass7_at};

use crate::parents::ParentMarks;
use faults::when;
use repeats::marks::mark_at;
use rules::{Fault, Record, Target, codes};
use search::members::has_member;
use table::DIVISOR;

// 36 with the first one as secondary.
#[tactic(auto, unfolding(rules::specs::PayloadFields::second_payload, rules::specs::Choice::when))]
fn second_payload(table: &[Record], place: usize, found: Option<usize>) -> Option<Fault>
    ensures { option_to_list result ≡ second_payload table.now place found }
{
    let q = found?;
    when(
        q < place,
        faults::fault::double(
            codes::DUPLICATE_PAYLOAD_FIELD,
            table::at(table, place),
            table::at(table, q),
        ),
    )
}

// Whether the declaration at `child` is a child of that at `decl` and has a field.
fn is_child_with_field(table: &[Record], decl: usize, child: usize) -> bool
    ensures { result ≡ child_with_field table.now decl child }
{
    kinds::is_packet_or_struct(table::kind(table, child))
        && table::at(table, child).second == table::at(table, decl).name
        && has_member(table, Target::FieldOrDecl, child)
}

// The first child of the declaration at `decl` that has a field.
fn child_with_field(table: &[Record], decl: usize) -> Option<usize>
    ensures { result ≡ first (child_with_field table.now decl) 0 (length table.now) }
{
    (0..table.len()).find(|c| is_child_with_field(table, decl, *c))
}

// 37 if there is no Payload or Body and some child has a field.
#[tactic(auto, using(crate::proofs::Laws::none_missing), unfolding(rules::specs::PayloadFields::missing_payload, rules::specs::Choice::when))]
fn missing_payload(parents: &ParentMarks, decl: usize) -> Option<Fault>
    ensures { option_to_list result ≡ missing_payload parents.now.table.now decl (first (child_with_field parents.now.table.now decl) 0 (length parents.now.table.now)) }
{
    let table = parents.table;
    let r = table::at(table, decl);
    if !mark_at(parents.marks, usize::from(r.name % DIVISOR)) {
        return None;
    }
    if has_member(table, Target::PayloadOrDecl, decl) {
        return None;
    }
    child_with_field(table, decl)?;
    Some(faults::fault::single(codes::MISSING_PAYLOAD_FIELD, r))
}

// The fault of the Payload, Body or declaration at `place`, if any.
#[tactic(auto, unfolding(rules::specs::PayloadFields::pass7_at))]
#[inline(never)]
pub fn at_place(parents: &ParentMarks, place: usize) -> Option<Fault>
    ensures { option_to_list result ≡ pass7_at parents.now.table.now place }
{
    let table = parents.table;
    let k = table::kind(table, place);
    if kinds::is_payload(k) {
        let found = search::first_within(table, Target::PayloadOrDecl, place);
        return second_payload(table, place, found);
    }
    if kinds::is_named_decl(k) {
        return missing_payload(parents, place);
    }
    None
}
