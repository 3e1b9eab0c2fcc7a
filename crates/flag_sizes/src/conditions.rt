// Conditions: their place in a declaration, the name that they give and the field before them.
ghost use Rattle.std.specs.Prelude.{◌≡◌, ◌+◌, ◌-◌, ◌<◌};
ghost use Rattle.rules.specs.DesugarFlags.{members_start, entry_of, is_condition_on};

use rules::Record;

// The place before `place`: 0 has none and stays.
pub fn place_before(place: usize) -> usize
    ensures { result ≡ place - 1 }
{
    place.saturating_sub(1)
}

// Whether a condition that names `flag` stands at `place`.
pub fn is_condition_on(table: &[Record], flag: u16, place: usize) -> bool
    ensures { result ≡ is_condition_on table.now flag place }
{
    let kind = table::kind(table, place);
    let name = table::at(table, place).name;
    (kind == kinds::CONDITION) & (name == flag)
}

// The entry of the condition at `place`.
pub fn entry_of(table: &[Record], place: usize) -> Record
    ensures { result ≡ entry_of table.now place }
{
    let field = table::at(table, place_before(place));
    let condition = table::at(table, place);
    Record {
        kind: kinds::FLAG_ENTRY,
        name: field.name,
        one: condition.one,
        ..Record::default()
    }
}

// Where the members of the declaration start that the place behind `place` stands in.
#[tactic(auto, using(crate::proofs::Laws::start_next))]
pub fn next_start(table: &[Record], place: usize, members: usize) -> usize
    requires { (place < 1600) × (members ≡ members_start table.now place) }
    ensures { result ≡ members_start table.now (place + 1) }
{
    let is_decl = kinds::is_decl(table::kind(table, place));
    if is_decl { place + 1 } else { members }
}
