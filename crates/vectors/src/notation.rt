// How the vectors write a message: a byte stands for itself; `{GS}` is a control byte by its name, `{30*A}` a byte 30 times, and
// `{30*GS}` a control byte 30 times.
ghost use Rattle.std.specs.Prelude.{◌<◌, ◌≤◌, length, IfSome};

use crate::{decimals, split};
use arrayvec::ArrayVec;

// Room for more bytes than a message may have.
pub(crate) const ROOM: usize = 4200;

pub(crate) type Message = ArrayVec<u8, ROOM>;

// A byte, and how many times it is to be written.
#[derive(Clone, Copy)]
struct Run {
    times: usize,
    byte: u8,
}

// Writes the message that a text stands for behind what is there, as far as there is room. Braces that nothing closes write nothing, nor
// does what stands behind them. The message is lent, as all of its room would be copied if it were handed back.
pub(crate) fn expand(text: &[u8], message: &mut Message) {
    let mut rest = text;
    while let Some((run, behind)) = first_run(rest) {
        put_run(run, message);
        rest = behind;
    }
}

// What a text's front writes, and what stands behind it: outside of braces a byte itself, else what stands in them.
fn first_run(text: &[u8]) -> Option<(Run, &[u8])>
    ensures { IfSome result (λ parts. length parts.1.now < length text.now) }
{
    let (first, behind) = text.split_first()?;
    if *first == b'{' {
        return in_braces(behind);
    }
    let byte = *first;
    Some((Run { times: 1, byte }, behind))
}

// What stands in braces, whose opening one is passed: a byte or a control byte's name, with a count and a `*` in front where it is to be
// written more than once.
fn in_braces(text: &[u8]) -> Option<(Run, &[u8])>
    ensures { IfSome result (λ parts. length parts.1.now < length text.now) }
{
    let (times, named) = counted(text);
    let (first, more) = named.split_first()?;
    let (name, behind) = split::once(more, b'}')?;
    let byte = if name.is_empty() {
        *first
    } else {
        control(*first)
    };
    Some((Run { times, byte }, behind))
}

// The count that a `*` ends, and what stands behind that; where none does it is 1, and digits in front are passed over.
fn counted(text: &[u8]) -> (usize, &[u8])
    ensures { length result.1.now ≤ length text.now }
{
    let end = text
        .iter()
        .position(|b| !b.is_ascii_digit())
        .unwrap_or(text.len());
    match text[end..].strip_prefix(b"*") {
        Some(behind) => (decimals::number(&text[..end]), behind),
        None => (1, &text[end..]),
    }
}

// A control byte by the first letter of its name. The way back, shown::name, is a match of its own: one list for both would be searched by
// hand twice, and this one takes any letter.
fn control(first: u8) -> u8 {
    match first {
        b'E' => leaves::EOT,
        b'F' => leaves::FS,
        b'G' => leaves::GS,
        b'R' => leaves::RS,
        b'U' => leaves::US,
        _ => first,
    }
}

// Writes a run into a message, as far as it has room.
fn put_run(run: Run, message: &mut Message) {
    for _ in 0..run.times.min(message.remaining_capacity()) {
        let _ = message.try_push(run.byte);
    }
}
