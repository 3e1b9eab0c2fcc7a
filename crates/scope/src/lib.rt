// Pass 1, `Scope::new`: code 1 at each repeated name of a declaration.
#![tactic(auto)]

ghost use Rattle.std.specs.Prelude.{◌≡◌};
ghost use Rattle.std.specs.Option.{option_to_list};
ghost use Rattle.rules.specs.Scopes.{pass1_at};

use declarations::Names;
use rules::{Fault, codes};

// The fault of the declaration at `place` if its name is repeated.
#[tactic(auto, unfolding(rules::specs::Scopes::pass1_at, rules::specs::Scopes::redeclared))]
#[inline(never)]
pub fn at_place(names: &Names, place: usize) -> Option<Fault>
    ensures { option_to_list result ≡ pass1_at names.now.table.now place }
{
    let table = names.table;
    if !kinds::is_named_decl(table::kind(table, place)) {
        return None;
    }
    let q = names.earlier(place)?;
    Some(faults::fault::double(
        codes::DUPLICATE_DECL_IDENTIFIER,
        table::at(table, place),
        table::at(table, q),
    ))
}
