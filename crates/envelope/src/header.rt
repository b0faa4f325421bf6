// Indicators and header values.
ghost use Rattle.std.specs.Prelude.{◌≡◌, ◌≤◌, length, drop, false};
ghost use Rattle.std.specs.Range.{range_inclusive_start, range_inclusive_end, range_inclusive_exhausted};
ghost use Rattle.label.specs.Values.{value, count_length};
ghost use Rattle.leaves.specs.Classes.{class_of};
ghost use Rattle.envelope.specs.Headers.{if_below, no_indicator, indicator_of, value_end, value_found};

use crate::due::Due;
use label::Reason;
use leaves::{Class, GS};
use std::ops::RangeInclusive;

// The number of the indicator at an offset.
#[tactic(auto, using(crate::proofs::HeaderLaws::indicator_steps))]
pub(crate) fn indicator(m: &[u8], at: usize) -> Option<usize>
    ensures { result ≡ if_below no_indicator (indicator_of (drop at m.now)) }
{
    let [tens, units, ..] = m.get(at..)? else {
        return None;
    };
    Some(usize::from(leaves::digit(*tens)?) * 10 + usize::from(leaves::digit(*units)?))
}

// Where a header value of 09 or 15 ends that begins at a place, given how long it may be and of which bytes: at the next GS; else 8.
pub(crate) fn value_end(due: Due, sizes: RangeInclusive<usize>, k: Class) -> Result<usize, Reason>
    requires { range_inclusive_exhausted sizes ≡ false }
    ensures { result ≡ value_found due.entry.message.now (value_end (range_inclusive_start sizes) (range_inclusive_end sizes) (class_of k) due.entry.message.now due.entry.at) }
{
    let end = leaves::find(due.message, due.at, GS);
    if due.message.len() <= end {
        return Err(Reason::BadFormatHeader);
    }
    let value = due.to(end);
    if sizes.contains(&value.len()) && leaves::all_in(k, value) {
        return Ok(end);
    }
    Err(Reason::BadFormatHeader)
}

// The number that the digits of a count make. `value` has a number for every byte: one below `0` adds nothing. A loop: that a sum fits
// follows from how many digits came before, which a fold's closure isn't told.
pub(crate) fn digits_value(s: &[u8]) -> usize
    requires { length s.now ≤ count_length.1 }
    ensures { result ≡ value s.now }
{
    let mut n = 0;
    for b in s {
        n = n * 10 + usize::from(b.saturating_sub(b'0'));
    }
    n
}
