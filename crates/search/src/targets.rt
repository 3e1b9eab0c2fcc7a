// What a search looks for. It is data, as in the definitions: with closures, each caller would have to show what its own computes.
ghost use Rattle.std.specs.Prelude.{◌≡◌};
ghost use Rattle.rules.specs.Places.{holds, holds_at};

use rules::{Record, Target};

// Whether a record is what the search looks for.
pub fn holds(target: Target, r: &Record) -> bool
    ensures { result ≡ holds target r.now }
{
    let k = r.kind;
    let decl = kinds::is_decl(k);
    let named = kinds::is_named_field(k);
    match target {
        Target::Decl => decl,
        Target::DeclNamed(n) => kinds::is_named_decl(k) & (r.name == n),
        Target::FieldOrDecl => decl | kinds::is_field(k),
        Target::NameOrDecl(n) => decl | (named & (r.name == n)),
        Target::SizeOrDecl(n) => decl | (kinds::is_size_or_count(k) & (r.second == n)),
        Target::ElementSizeOrDecl(n) => decl | ((k == kinds::ELEMENT_SIZE) & (r.second == n)),
        Target::SizedOrDecl(n) => {
            let sized = ((k == kinds::PAYLOAD) & (n == table::PAYLOAD_NAME))
                | ((k == kinds::BODY) & (n == table::BODY_NAME));
            decl | ((named & (r.name == n)) | sized)
        }
        Target::PayloadOrDecl => decl | kinds::is_payload(k),
        Target::TagOrDecl(n) => decl | (kinds::is_tag(k) & (r.name == n)),
        Target::OuterTagOrDecl(n) => { decl | (kinds::is_outer_tag(k) & (r.name == n)) }
        Target::ValueOrDecl(v) => decl | (kinds::is_value(k) & (r.one == v)),
        Target::DefaultOrDecl => decl | (k == kinds::DEFAULT_TAG),
        Target::Range => k == kinds::TAG_RANGE,
    }
}

// Whether the record at `place` is what the search looks for: none is past the end.
pub fn holds_at(table: &[Record], target: Target, place: usize) -> bool
    ensures { result ≡ holds_at table.now target place }
{
    table.get(place).is_some_and(|r| holds(target, r))
}
