// The walk over a message's envelopes from the left.
ghost use Rattle.std.specs.Prelude.{◌≡◌, true, ◌+◌, ◌^◌, ◌<◌, ◌≤◌, length, drop};
ghost use Rattle.label.specs.ReadEnvelope.{read_envelope};
ghost use Rattle.label.specs.ReadMessage.{unbounded_walk};
ghost use Rattle.envelope.specs.Shown.{shown};
ghost use Rattle.label.specs.Message.{header};
ghost use Rattle.judge.specs.Shown.{placed, tallied};
ghost use Rattle.judge.specs.Turns.{Sound, TurnSo, boundary_turn, with_envelope};

use crate::{State, Turn};
use envelope::{Found, judge_envelope};
use label::{Counts, Edition, HEADER_LENGTH, Reading, Reason, Refusal};
use leaves::EOT;
use std::ops::ControlFlow::{Break, Continue};

// At a boundary after an envelope, with the counts so far: 4, then EOT with 5, then the next envelope.
fn boundary(m: &[u8], at: usize, counts: Counts) -> Result<Turn, Refusal>
    requires { at ≤ length m.now }
    ensures { result ≡ boundary_turn m.now at counts }
{
    if m.len() <= at {
        return Err(Refusal {
            reason: Reason::NoTrailer,
            place: at,
        });
    }
    if m[at] != EOT {
        return Ok(Continue(State { at, counts }));
    }
    if m.len() <= at + 1 {
        return Ok(Break(counts));
    }
    Err(Refusal {
        reason: Reason::BytesAfterTrailer,
        place: at + 1,
    })
}

// What is found where an envelope is due, with the place of each refusal.
fn judge_at(edition: Edition, m: &[u8], at: usize, first: bool) -> Result<Found, Refusal>
    ensures { result ≡ placed at (shown m.now (read_envelope edition first (drop at m.now))) }
{
    judge_envelope(edition, m, at, first).map_err(|fault| Refusal {
        reason: fault.reason,
        place: fault.place.unwrap_or(at),
    })
}

// Counts with another envelope, given its rows.
fn with_envelope(counts: Counts, rows: usize) -> Counts
    requires one_more { counts.envelopes + 1 < 2 ^ 64 }
    requires its_rows { counts.rows + rows < 2 ^ 64 }
    ensures { result ≡ with_envelope counts rows }
{
    Counts {
        envelopes: counts.envelopes + 1,
        rows: counts.rows + rows,
    }
}

// One envelope, and what follows it.
#[tactic(auto, using(crate::proofs::WalkLaws::turn_steps))]
fn turn(edition: Edition, m: &[u8], s: State) -> Result<Turn, Refusal>
    requires { Sound m.now s }
    ensures { TurnSo edition m.now s result }
{
    let first = s.counts.envelopes == 0;
    match judge_at(edition, m, s.at, first)? {
        Found::Whole(n) => Ok(Break(with_envelope(s.counts, n))),
        Found::Closed(next, n) => boundary(m, next, with_envelope(s.counts, n)),
    }
}

// All envelopes from behind the header on.
pub(crate) fn walk_envelopes(edition: Edition, m: &[u8]) -> Reading
    requires { length header ≤ length m.now }
    ensures { result ≡ tallied 0 0 (unbounded_walk edition m.now true (drop (length header) m.now)) }
{
    let mut s = State {
        at: HEADER_LENGTH,
        counts: Counts {
            envelopes: 0,
            rows: 0,
        },
    };
    loop {
        match turn(edition, m, s)? {
            Break(counts) => return Ok(counts),
            Continue(next) => s = next,
        }
    }
}
