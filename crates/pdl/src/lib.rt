// The C interface of the analyzer: library/pdl.h is its header.
#![tactic(auto)]

mod header;

ghost use Rattle.std.specs.Prelude.{◌≡◌};
ghost use Rattle.rules.specs.Replies.{answer};
ghost use Rattle.pdl.specs.Outputs.{outputs, header_answer};

// Analyzes a table as analyzer::analyze does, with the reply as its row and two values.
#[unsafe(no_mangle)]
pub extern "C" fn pdl_analyze(
    input: &[u8],
    table: &mut [u8],
    faults: &mut [u8],
    reply: &mut [u64; 3],
)
    ensures { outputs reply.new table.new faults.new ≡ header_answer (answer input.now table.old faults.old) }
{
    *reply = header::header_numbers(analyzer::analyze(input, table, faults));
}
