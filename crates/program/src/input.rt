// Standard input, read to its end into a buffer: a long one is shortened to a length that gets the same reply.
ghost use Rattle.std.specs.Prelude.{◌≡◌, List, ◌++◌, ℕ, ◌+◌, ◌<◌, ◌≤◌, IfOk, IfSome, length, take};
ghost use Rattle.program.specs.Inputs.{short_length, StandsFor};

use rules::limits::{RECORD_LENGTH, TABLE_LENGTH};
use std::io;
use std::io::{ErrorKind, Read};

// Room for the longest table and for each remainder of a length above it.
pub const INPUT_LENGTH: usize = TABLE_LENGTH + RECORD_LENGTH;

// The least length that is too long.
const TOO_LONG: usize = TABLE_LENGTH + 1;

// The length of an input that gets the same reply as one of `total` bytes.
fn short_length(total: usize) -> usize
    ensures { result ≡ short_length total }
{
    if total <= INPUT_LENGTH {
        return total;
    }
    TOO_LONG + (total - TOO_LONG) % RECORD_LENGTH
}

// Puts the next bytes behind the first ones of the input, as far as there is room.
fn append_input(input: &mut [u8], total: usize, next: &[u8]) -> usize
    requires { (64040 ≤ length input.old) × (total ≤ 64040) × (length next.now ≤ 65536) }
    ensures { ((i : List ℕ) → StandsFor i (take total input.old) → StandsFor (i ++ next.now) (take result input.new)) × (result ≤ 64040) }
{
    let n = next.len();
    let m = n.min(INPUT_LENGTH - total);
    store::write(input, total, &next[..m]);
    short_length(total + n)
}

// Reads to the reader's end. Returns how many bytes at the start of the input stand for what was read, where the chunk has room for a byte.
// The turns are bounded by a number that no run uses up.
pub fn read_all<R: Read>(reader: &mut R, input: &mut [u8], chunk: &mut [u8]) -> io::Result<usize>
    requires { (64040 ≤ length input.old) × (length chunk.old ≤ 65536) }
    ensures few { IfOk result (λ n. n ≤ 64040) }
    ensures whole { IfOk result (λ n. 0 < length chunk.old → IfSome (R.remaining reader.old) (λ i. StandsFor i (take n input.new))) }
{
    let mut total = 0;
    for _ in 0..u64::MAX {
        let n = reader.read(chunk)?;
        if n == 0 {
            return Ok(total);
        }
        total = append_input(input, total, &chunk[..n]);
    }
    Err(io::Error::from(ErrorKind::TimedOut))
}
