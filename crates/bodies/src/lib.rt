// Whether a body keeps its format's rules (01, Envelope rules and Transport fields), and how many rows it has. A body is the stretch
// before an RS whose bytes are permitted; the functions take every stretch. What is asked of one of its pieces is said in `pieces`.
#![tactic(auto)]

ghost use Rattle.std.specs.Prelude.{◌≡◌};
ghost use Rattle.label.specs.Pieces.{pieces, last_is_empty};
ghost use Rattle.label.specs.Fields.{transport};
ghost use Rattle.leaves.specs.Classes.{class_of};
ghost use Rattle.pieces.specs.PieceTests.{piece_test};
ghost use Rattle.bodies.specs.Kinds.{permitted_of, rules_of, rows_of_body, separator_of, every_from, segments_of};

use label::{LEAST_FIELDS, Version};
use leaves::{Class, FS, GS, US};
use pieces::Kind;

// A separator less than there are pieces.
const LEAST_SEPARATORS: usize = LEAST_FIELDS - 1;

// The class of the bytes that are permitted.
pub fn permitted(k: Kind) -> Class
    ensures { class_of result ≡ permitted_of k }
{
    match k {
        Kind::Segments03 | Kind::Segments04 => Class::SegmentByte,
        Kind::Text => Class::TextByte,
        _ => Class::PlainOrGs,
    }
}

// At which byte a body is cut into pieces.
fn separator(k: Kind) -> u8
    ensures { result ≡ separator_of k }
{
    match k {
        Kind::Segments03 | Kind::Segments04 => FS,
        _ => GS,
    }
}

// Whether each piece is as asked. `all` stops at the first that isn't: the answer is false then, whatever pieces follow.
fn pieces_hold(k: Kind, s: &[u8]) -> bool
    ensures { result ≡ every_from (piece_test k) 0 (pieces (separator_of k) s.now) }
{
    let c = separator(k);
    s.split(|b| *b == c)
        .enumerate()
        .all(|(i, p)| pieces::piece_holds(k, i, p))
}

// Whether the last piece is empty: there are no bytes, or the last is the separator.
pub fn last_empty(s: &[u8], c: u8) -> bool
    ensures { result ≡ last_is_empty (pieces c s.now) }
{
    match s {
        [] => true,
        [.., last] => *last == c,
    }
}

// Fields of a version: five at least, not too many, each as stated, and past the fifth the last not empty.
fn fields_hold(version: Version, body: &[u8]) -> bool
    ensures { result ≡ transport version (pieces GS body.now) }
{
    let gs = tallies::tally(body, GS);
    let most = limits::most_fields(version);
    let all = pieces_hold(Kind::Fields(version), body);
    let ends = last_empty(body, GS);
    (LEAST_SEPARATORS <= gs) & (gs < most) & all & ((gs == LEAST_SEPARATORS) | !ends)
}

// Segments: one or more, each ended by FS, each with its tag.
fn segments_hold(k: Kind, body: &[u8]) -> bool
    ensures { result ≡ segments_of (piece_test k) (separator_of k) body.now }
{
    match body {
        [segments @ .., FS] => pieces_hold(k, segments),
        _ => false,
    }
}

// Whether a body keeps its format's rules.
pub fn rules_hold(k: Kind, body: &[u8]) -> bool
    ensures { result ≡ rules_of k body.now }
{
    match k {
        Kind::Fields(version) => fields_hold(version, body),
        Kind::Segments03 | Kind::Segments04 => segments_hold(k, body),
        // An arm each, so that the test is compiled for each: in one arm case e of the benchmark misses its bar (docs/PERFORMANCE.md).
        Kind::Elements05 => pieces_hold(k, body),
        Kind::Elements06 => pieces_hold(k, body),
        Kind::Elements12 => pieces_hold(k, body),
        Kind::Text => true,
    }
}

// How many rows a body of segments has: one for a tag, and one behind each GS and US.
fn segment_rows(body: &[u8]) -> usize
    ensures { result ≡ rows_of_body Kind.Segments03 body.now }
{
    let fs = tallies::tally(body, FS);
    let gs = tallies::tally(body, GS);
    let us = tallies::tally(body, US);
    fs + gs + us
}

// How many rows a body of fields or elements has: one, and one behind each GS.
fn piece_rows(body: &[u8]) -> usize
    ensures { result ≡ rows_of_body Kind.Elements06 body.now }
{
    tallies::tally(body, GS) + 1
}

// How many rows a body has.
pub fn rows_in(k: Kind, body: &[u8]) -> usize
    ensures { result ≡ rows_of_body k body.now }
{
    match k {
        Kind::Segments03 | Kind::Segments04 => segment_rows(body),
        Kind::Text => 1,
        _ => piece_rows(body),
    }
}
