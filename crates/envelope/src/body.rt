// Bodies that run to the first RS: 12, then 10, then the fault of one that breaks its rules: 30 to 33 in 01, else 11.
ghost use Rattle.std.specs.Prelude.{◌≡◌, ◌+◌, ◌^◌, ◌<◌, ◌≤◌, length};
ghost use Rattle.faults.specs.PieceFaults.{fault_of};
ghost use Rattle.envelope.specs.Bodies.{fault_found, body_found};

use crate::due::Due;
use crate::{Fault, Found};
use label::Reason;
use leaves::RS;
use pieces::Kind;

// A body that breaks its rules and stands at an offset: refused where a piece of it is at fault, or as a whole.
#[tactic(auto, using(crate::proofs::BodyLaws::fault_fits))]
fn judge_fault(at: usize, body: &[u8], k: Kind) -> Result<Found, Fault>
    requires { at + length body.now < 2 ^ 64 }
    ensures { result ≡ fault_found at (fault_of k body.now) }
{
    match faults::fault_in(k, body) {
        Some(fault) => Err(Fault {
            reason: fault.reason,
            place: Some(at + fault.place),
        }),
        None => Err(Reason::BodyBreaksRules.into()),
    }
}

// The body of a kind, behind rows that the header has.
#[tactic(auto, using(crate::proofs::BodyLaws::rows_of_part), unfolding(crate::specs::Bodies::body_found))]
pub(crate) fn judge_body(due: Due, k: Kind, before: usize) -> Result<Found, Fault>
    requires { before ≤ 2 }
    ensures { result ≡ body_found k before due.entry.message.now due.entry.at }
{
    let end = leaves::find_far(due.message, due.at, RS);
    if due.message.len() <= end {
        return Err(Reason::NoRecordSeparator.into());
    }
    let body = due.to(end);
    if !leaves::all_in(bodies::permitted(k), body) {
        return Err(Reason::ByteNotPermitted.into());
    }
    if !bodies::rules_hold(k, body) {
        return judge_fault(due.at, body, k);
    }
    Ok(Found::Closed(end + 1, before + bodies::rows_in(k, body)))
}
