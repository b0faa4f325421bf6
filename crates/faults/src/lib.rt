// Which fault a body has that breaks its format's rules, and where in it (02, No. 1). It is asked only of a body whose rules don't hold, so
// that a good label pays nothing for it; the functions take every stretch.
#![tactic(auto)]

ghost use Rattle.std.specs.Prelude.{◌≡◌};
ghost use Rattle.label.specs.Bytes.{GS};
ghost use Rattle.label.specs.Pieces.{pieces};
ghost use Rattle.label.specs.Faults.{first_fault, fields_fault};
ghost use Rattle.faults.specs.PieceFaults.{field_reason, reason_of, piece_fault, fault_of};

use label::{LEAST_FIELDS, Reason, Refusal, Version};
use leaves::GS;
use pieces::Kind;

// Why a field of so many bytes is refused that isn't as stated: it is too short or too long, which `limits::fits` doesn't tell apart, or
// else by its bytes.
fn field_reason(version: Version, i: usize, n: usize) -> Reason
    ensures { result ≡ field_reason version i n }
{
    let limit = limits::limits_in(version, i);
    if n < usize::from(limit.0) {
        return Reason::FieldTooShort;
    }
    if usize::from(limit.1) < n {
        return Reason::FieldTooLong;
    }
    Reason::BadFieldBytes
}

// Why a piece of so many bytes is refused that isn't as asked.
fn reason_of(k: Kind, i: usize, n: usize) -> Reason
    ensures { result ≡ reason_of k i n }
{
    match k {
        Kind::Fields(version) => field_reason(version, i, n),
        _ => Reason::BodyBreaksRules,
    }
}

// Why the piece with an index is refused, if it isn't as asked.
fn piece_fault(k: Kind, i: usize, p: &[u8]) -> Option<Reason>
    ensures { result ≡ piece_fault k i p.now }
{
    if pieces::piece_holds(k, i, p) {
        return None;
    }
    Some(reason_of(k, i, p.len()))
}

// The first faulty piece and where it starts: one sweep, a piece a turn, that leaves there. By `split` lengths would have to be added up.
fn first_fault(k: Kind, s: &[u8]) -> Option<Refusal>
    ensures { result ≡ first_fault (piece_fault k) 0 0 (pieces GS s.now) }
{
    let mut i = 0;
    let mut at = 0;
    while at <= s.len() {
        let end = leaves::find(s, at, GS);
        if let Some(reason) = piece_fault(k, i, &s[at..end]) {
            return Some(Refusal { reason, place: at });
        }
        i += 1;
        at = end + 1;
    }
    None
}

// Fields of a version: their number, with it the last one, and then each from the left.
fn fields_fault(version: Version, body: &[u8]) -> Option<Refusal>
    ensures { result ≡ fields_fault version body.now }
{
    let reason = Reason::BadFieldCount;
    let most = limits::most_fields(version);
    let fields = tallies::tally(body, GS) + 1;
    if (fields < LEAST_FIELDS) | (most < fields) {
        return Some(Refusal { reason, place: 0 });
    }
    if (LEAST_FIELDS < fields) & bodies::last_empty(body, GS) {
        return Some(Refusal {
            reason,
            place: body.len(),
        });
    }
    first_fault(Kind::Fields(version), body)
}

// The fault of a body whose rules don't hold: which piece is refused, why, and where in the body it starts; or no piece by itself, so that
// the body is refused as a whole.
#[tactic(auto, unfolding(label::specs::Faults::elements_fault, label::specs::Faults::element_fault))]
pub fn fault_in(k: Kind, body: &[u8]) -> Option<Refusal>
    ensures { result ≡ fault_of k body.now }
{
    match k {
        Kind::Fields(version) => fields_fault(version, body),
        // An arm each, so that the search is compiled for each: in one arm case e of the benchmark misses its bar (docs/PERFORMANCE.md).
        Kind::Elements05 => first_fault(k, body),
        Kind::Elements06 => first_fault(k, body),
        Kind::Elements12 => first_fault(k, body),
        Kind::Segments03 | Kind::Segments04 | Kind::Text => None,
    }
}
