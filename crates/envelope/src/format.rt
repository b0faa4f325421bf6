// Each format behind its indicator: its header, then its body.
ghost use Rattle.std.specs.Prelude.{◌≡◌};
ghost use Rattle.envelope.specs.Formats.{transport_found, rest_found, segments_found, elements_found, payload_found, count_found, count_only_found, compression_found, counted_found};

use crate::body::judge_body;
use crate::due::Due;
use crate::header::{digits_value, value_end};
use crate::{Fault, Found};
use label::{
    LEAST_COMPRESSION, LEAST_COUNT, LEAST_TYPE, MOST_COMPRESSION, MOST_COUNT, MOST_TYPE,
    RELEASE_LENGTH, Reason, Version,
};
use leaves::{Class, RS};
use pieces::Kind;

// 01: GS, `02` or `96`, fields.
pub(crate) fn judge_transport(due: Due) -> Result<Found, Fault>
    ensures { result ≡ transport_found due.entry.message.now due.entry.at }
{
    let version = if due.begins(b"\x1D02") {
        Version::Version02
    } else if due.begins(b"\x1D96") {
        Version::Version96
    } else {
        return Err(Reason::BadFormatHeader.into());
    };
    judge_body(due.ahead(3), Kind::Fields(version), 2)
}

// 02: all the rest, at least one byte.
pub(crate) fn judge_rest(due: Due) -> Result<Found, Fault>
    ensures { result ≡ rest_found due.entry.message.now due.entry.at }
{
    if due.rest().is_empty() {
        return Err(Reason::BodyBreaksRules.into());
    }
    if leaves::all_in(Class::RestByte, due.rest()) {
        return Ok(Found::Whole(2));
    }
    Err(Reason::ByteNotPermitted.into())
}

// 03, 04: six digits or capitals, FS GS US, segments.
pub(crate) fn judge_segments(due: Due, k: Kind) -> Result<Found, Fault>
    ensures { result ≡ segments_found k due.entry.message.now due.entry.at }
{
    if due.rest().len() < RELEASE_LENGTH {
        return Err(Reason::BadFormatHeader.into());
    }
    let marks = due.ahead(RELEASE_LENGTH);
    if !leaves::all_in(Class::CapitalOrDigit, due.to(marks.at)) {
        return Err(Reason::BadFormatHeader.into());
    }
    if !marks.begins(b"\x1C\x1D\x1F") {
        return Err(Reason::BadFormatHeader.into());
    }
    judge_body(marks.ahead(3), k, 2)
}

// 05, 06, 12: GS, elements.
pub(crate) fn judge_elements(due: Due, k: Kind) -> Result<Found, Fault>
    ensures { result ≡ elements_found k due.entry.message.now due.entry.at }
{
    if !due.begins(b"\x1D") {
        return Err(Reason::BadFormatHeader.into());
    }
    judge_body(due.ahead(1), k, 1)
}

// 09, 15: the payload of a count, and the RS behind it; nothing is looked for inside. The envelope's rows are told.
fn judge_payload(due: Due, n: usize, rows: usize) -> Result<Found, Fault>
    ensures { result ≡ payload_found rows n due.entry.message.now due.entry.at }
{
    if due.rest().get(n) != Some(&RS) {
        return Err(Reason::PayloadDoesNotFit.into());
    }
    Ok(Found::Closed(due.at + n + 1, rows))
}

// 09, 15: the count and its GS, then the payload.
fn judge_count(due: Due, rows: usize) -> Result<Found, Fault>
    ensures { result ≡ count_found rows due.entry.message.now due.entry.at }
{
    let end = value_end(due, LEAST_COUNT..=MOST_COUNT, Class::Digit)?;
    let n = digits_value(due.to(end));
    judge_payload(due.behind(end), n, rows)
}

// 09: the compression and its GS, then the count.
fn judge_compression(due: Due) -> Result<Found, Fault>
    ensures { result ≡ compression_found due.entry.message.now due.entry.at }
{
    let end = value_end(due, LEAST_COMPRESSION..=MOST_COMPRESSION, Class::Plain)?;
    judge_count(due.behind(end), 5)
}

// 09: GS, the type and its GS, then the compression.
pub(crate) fn judge_counted(due: Due) -> Result<Found, Fault>
    ensures { result ≡ counted_found due.entry.message.now due.entry.at }
{
    if !due.begins(b"\x1D") {
        return Err(Reason::BadFormatHeader.into());
    }
    let end = value_end(due.ahead(1), LEAST_TYPE..=MOST_TYPE, Class::Plain)?;
    judge_compression(due.behind(end))
}

// 15: the count right behind the indicator.
pub(crate) fn judge_count_only(due: Due) -> Result<Found, Fault>
    ensures { result ≡ count_only_found due.entry.message.now due.entry.at }
{
    judge_count(due, 3)
}
