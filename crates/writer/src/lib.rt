// Writing rows: they are laid out in local memory as the one message that they can have, that message is read back and
// compared with them, and only then is it copied into the lent output (01, Numbers for the receiving desk, paragraph Writer).
#![tactic(auto)]

mod laying;
mod marks;

ghost use Rattle.std.specs.Prelude.{◌≡◌, true, [], length};
ghost use Rattle.std.specs.Option.{option_map};
ghost use Rattle.label.specs.ReadMessage.{reading};
ghost use Rattle.label.specs.Answer.{rows_read};
ghost use Rattle.label.specs.Writing.{rows_in, rows_stand, ordinals_in, items_in, composed, write_answer_of, write_answer, output_after};
ghost use Rattle.given.specs.Given.{alike};

use label::{Edition, ROW, WriteReason, Writing};
use laying::Candidate;

// Whether a message is read in an edition, and its rows have the kinds, formats and lengths of those given.
fn same_rows(edition: Edition, m: &[u8], rows: &[u32]) -> bool
    ensures { result ≡ alike (rows_read (reading edition m.now)) (rows_in rows.now) }
{
    if stretches::rows_of(edition, m) != rows.len() / ROW {
        return false;
    }
    let mut c = steps::first(m);
    for numbers in rows.chunks_exact(ROW) {
        if !given::like(c, numbers, 0) {
            return false;
        }
        c = steps::next(m, c);
    }
    true
}

// Lays out the good message in an edition with these rows' kinds, formats, contents and ordinals, if there is one. Rows of the same
// lengths that are laid out alike have the same contents, so that no content is compared; and ordinals that are counted right are
// those of any message with these rows.
fn compose<'a>(
    edition: Edition,
    held: &[u8],
    rows: &[u32],
    out: &'a mut Candidate,
) -> Option<&'a [u8]>
    requires stand { rows_stand held.now rows.now ≡ true }
    requires empty { out.old.items ≡ [] }
    ensures { option_map (λ m. m.now) result ≡ composed edition (items_in held.now rows.now) (ordinals_in rows.now) }
{
    if rows.is_empty() {
        return None;
    }
    if !given::ordinals_counted(rows) {
        return None;
    }
    laying::lay_out(held, rows, out).ok()?;
    let message = out.as_slice();
    if same_rows(edition, message, rows) {
        Some(message)
    } else {
        None
    }
}

// Writes rows in an edition, five numbers each, that name stretches of the data held, to an output; all of any length. Written:
// how many bytes, and the output's first bytes are the message; what follows them stays as it was. Declined: why, and the output
// stays as it was.
pub fn write(edition: Edition, held: &[u8], rows: &[u32], output: &mut [u8]) -> Writing
    ensures answer { write_answer_of result ≡ write_answer edition held.now rows.now (length output.old) }
    ensures bytes { output.new ≡ output_after edition held.now rows.now output.old }
{
    if !given::rows_stand(held, rows) {
        return Err(WriteReason::BadRows);
    }
    let mut candidate = Candidate::new();
    let Some(message) = compose(edition, held, rows, &mut candidate) else {
        return Err(WriteReason::NoSuchMessage);
    };
    let count = message.len();
    if output.len() < count {
        return Err(WriteReason::NoOutputRoom);
    }
    output[..count].copy_from_slice(message);
    Ok(count)
}
