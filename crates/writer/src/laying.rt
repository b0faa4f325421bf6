// Laying a message out: bytes are put one behind the other, as long as there is room for them.
ghost use Rattle.std.specs.Prelude.{◌<◌, ◌+◌, ◌≡◌, true, [], ◌++◌, length, OnOk, OnErr};
ghost use Rattle.std.specs.Option.{option_map};
ghost use Rattle.label.specs.Bytes.{every};
ghost use Rattle.label.specs.Limits.{longest};
ghost use Rattle.label.specs.Rendered.{rendered};
ghost use Rattle.label.specs.Writing.{rows_in, inside, items_in};
ghost use Rattle.given.specs.Given.{as_row};
ghost use Rattle.writer.specs.Laying.{marks_before, laid};

use crate::marks::{between, ending_of};
use arrayvec::{ArrayVec, CapacityError};
use given::{Given, row_at};
use label::{HEADER, LONGEST, ROW};

// Room for as many bytes as a message has at most.
pub(crate) type Candidate = ArrayVec<u8, LONGEST>;

// What stands before a row: marks behind the row before it, and nothing before the first, which the header stands before.
fn marks_before(before: Option<Given>, row: Given) -> &'static [u8]
    ensures { result.now ≡ marks_before (option_map as_row before) (as_row row) }
{
    match before {
        Some(before) => between(before, row),
        None => &[],
    }
}

// Puts marks, one at a time: there are so few that a call to copy them takes longer.
fn put_marks(marks: &[u8], out: &mut Candidate) -> Result<(), CapacityError>
    ensures ok { OnOk result (out.new.items ≡ out.old.items ++ marks.now) }
    ensures long { OnErr result (longest < length out.old.items + length marks.now) }
{
    for mark in marks {
        out.try_push(*mark).map_err(|full| full.simplify())?;
    }
    Ok(())
}

// Puts a row: what stands before it, and its content.
fn put_row(
    held: &[u8],
    before: Option<Given>,
    row: Given,
    out: &mut Candidate,
) -> Result<(), CapacityError>
    requires { inside held.now (as_row row) ≡ true }
    ensures ok { OnOk result (out.new.items ≡ out.old.items ++ laid held.now (option_map as_row before) (as_row row)) }
    ensures long { OnErr result (longest < length out.old.items + length (laid held.now (option_map as_row before) (as_row row))) }
{
    put_marks(marks_before(before, row), out)?;
    let start = row.start as usize;
    let end = start + row.length as usize;
    out.try_extend_from_slice(&held[start..end])
}

// Lays out the message of the rows, unless it is too long.
pub(crate) fn lay_out(held: &[u8], rows: &[u32], out: &mut Candidate) -> Result<(), CapacityError>
    requires lie { every (inside held.now) (rows_in rows.now) ≡ true }
    requires empty { out.old.items ≡ [] }
    ensures ok { OnOk result (out.new.items ≡ rendered (items_in held.now rows.now)) }
    ensures long { OnErr result (longest < length (rendered (items_in held.now rows.now))) }
{
    out.try_extend_from_slice(&HEADER)?;
    let mut before = None;
    for numbers in rows.chunks_exact(ROW) {
        let row = row_at(numbers, 0).unwrap();
        put_row(held, before, row, out)?;
        before = Some(row);
    }
    match before {
        Some(last) => out.try_extend_from_slice(ending_of(last)),
        None => Ok(()),
    }
}
