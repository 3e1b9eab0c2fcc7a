// The buffers that stored cases are replayed with: a function for each, which promises the length that its buffer is for.
ghost use Rattle.std.specs.Prelude.{◌≡◌, length};

use rules::limits::{RECORD_LENGTH, TABLE_LENGTH};

// The longest input: one record more than a table may have, and a byte.
const LONGEST_INPUT: usize = TABLE_LENGTH + RECORD_LENGTH + 1;

pub fn input_buffer() -> [u8; LONGEST_INPUT]
    ensures { 64041 ≡ length result }
{
    [0; LONGEST_INPUT]
}

// A table or fault buffer as large as the program's.
pub fn buffer() -> [u8; TABLE_LENGTH]
    ensures { 64000 ≡ length result }
{
    [0; TABLE_LENGTH]
}
