// Lines of words and decimal numbers, appended to one lent text.
#![tactic(auto)]

pub mod replies;

ghost use Rattle.std.specs.Prelude.{[], ◌∷◌, ◌++◌, ◌+◌, ◌*◌, ◌≤◌, length};
ghost use Rattle.rules.specs.Printed.{decimal, listing, line};
ghost use Rattle.printed_text.specs.TextAppended.{TextAppended};

// The decimal digits of `number`. By hand: std prints a number to a writer or a String only, and the crate `itoa` would be trusted beside std.
#[tactic(auto, using(crate::proofs::Laws::digits))]
fn append_digits(text: &mut [u8], at: usize, number: u64) -> usize
    requires { at + 20 ≤ length text.old }
    ensures { TextAppended text.old at (decimal number) text.new result }
{
    if number < 10 {
        text[at] = 48 + (number as u8);
        return at + 1;
    }
    let p = append_digits(text, at, number / 10);
    text[p] = 48 + ((number % 10) as u8);
    p + 1
}

// Numbers, each behind a blank. Text and place stay two parameters: of a struct that holds the lent text, nothing is known of the lender's bytes
// at its end.
#[tactic(auto, using(crate::proofs::Laws::lines))]
fn append_numbers(text: &mut [u8], at: usize, numbers: &[u64]) -> usize
    requires { at + 21 * length numbers.now ≤ length text.old }
    ensures { TextAppended text.old at (listing numbers.now) text.new result }
{
    let mut p = at;
    for number in numbers {
        text[p] = b' ';
        p = append_digits(text, p + 1, *number);
    }
    p
}

// Numbers and a newline: what stands in a line behind its first word or number.
#[tactic(auto, using(crate::proofs::Laws::lines))]
fn append_rest(text: &mut [u8], at: usize, numbers: &[u64]) -> usize
    requires { at + 21 * length numbers.now + 1 ≤ length text.old }
    ensures { TextAppended text.old at (listing numbers.now ++ 10 ∷ []) text.new result }
{
    let p = append_numbers(text, at, numbers);
    text[p] = b'\n';
    p + 1
}

// A line of a word and numbers.
#[tactic(auto, using(crate::proofs::Laws::lines))]
pub(crate) fn append_line(text: &mut [u8], at: usize, word: &[u8], numbers: &[u64]) -> usize
    requires { at + length word.now + 21 * length numbers.now + 1 ≤ length text.old }
    ensures { TextAppended text.old at (line word.now numbers.now) text.new result }
{
    store::write(text, at, word);
    append_rest(text, at + word.len(), numbers)
}

// A line of numbers, of which there is at least one.
#[tactic(auto, using(crate::proofs::Laws::lines))]
pub fn append_list(text: &mut [u8], at: usize, first: u64, others: &[u64]) -> usize
    requires { at + 21 * length others.now + 21 ≤ length text.old }
    ensures { TextAppended text.old at (line (decimal first) others.now) text.new result }
{
    let p = append_digits(text, at, first);
    append_rest(text, p, others)
}
