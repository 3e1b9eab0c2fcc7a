// The line of a reply, appended to a lent text: its name and its values.
ghost use Rattle.std.specs.Prelude.{◌+◌, ◌≤◌, length};
ghost use Rattle.rules.specs.Replies.{numbered};
ghost use Rattle.rules.specs.Printed.{reply_line};
ghost use Rattle.printed_text.specs.TextAppended.{TextAppended};

use crate::append_line;
use rules::Reply;

// The reply and its numbers.
pub fn append_reply(text: &mut [u8], at: usize, reply: Reply) -> usize
    requires { at + 60 ≤ length text.old }
    ensures { TextAppended text.old at (reply_line (numbered reply)) text.new result }
{
    match reply {
        Reply::Uneven => append_line(text, at, b"Uneven", &[]),
        Reply::TooLong => append_line(text, at, b"TooLong", &[]),
        Reply::Malformed(place) => append_line(text, at, b"Malformed", &[place as u64]),
        Reply::Faulty(pass, total) => append_line(
            text,
            at,
            b"Faulty",
            &[u64::from(pass), total as u64],
        ),
        Reply::Swollen => append_line(text, at, b"Swollen", &[]),
        Reply::Unfit(key) => append_line(text, at, b"Unfit", &[u64::from(key.0)]),
        Reply::Loose(key) => append_line(text, at, b"Loose", &[u64::from(key.0)]),
        Reply::Overlisted => append_line(text, at, b"Overlisted", &[]),
        Reply::NoRoom(needed) => append_line(text, at, b"NoRoom", &[needed as u64]),
        Reply::Accepted(records) => append_line(text, at, b"Accepted", &[records as u64]),
    }
}
