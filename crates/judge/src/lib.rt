// The first pass over a message: each envelope is judged from the left, envelopes and rows are counted, and nothing is written.
#![tactic(auto)]

mod envelopes;

ghost use Rattle.std.specs.Prelude.{◌≡◌};
ghost use Rattle.label.specs.ReadMessage.{reading};
ghost use Rattle.judge.specs.Shown.{judged_as};

use label::{Counts, Edition, HEADER, LONGEST, MOST_ROWS, Reading, Reason, Refusal};
use std::ops::ControlFlow;

// Where the walk stands: the offset at which an envelope is due, the first where none was counted yet, and what was counted so far. It is
// public because laws of other crates speak of it.
#[derive(Clone, Copy)]
pub struct State {
    pub at: usize,
    pub counts: Counts,
}

// What a turn comes to: the counts of a message that ends here, or where the walk goes on.
pub(crate) type Turn = ControlFlow<Counts, State>;

// The reading of a message in an edition, whatever table is lent: 1, 2, then its envelopes, then 13, only when all envelopes stand.
#[tactic(auto, using(crate::proofs::JudgeLaws::judge_steps))]
pub fn judge(edition: Edition, m: &[u8]) -> Reading
    ensures { result ≡ judged_as (reading edition m.now) }
{
    if LONGEST < m.len() {
        return Err(Refusal {
            reason: Reason::TooLong,
            place: LONGEST,
        });
    }
    if !tallies::is_headed(m) {
        return Err(Refusal {
            reason: Reason::NoMessageHeader,
            place: tallies::agree(m, 0, &HEADER),
        });
    }
    let counts = envelopes::walk_envelopes(edition, m)?;
    if MOST_ROWS < counts.rows {
        return Err(Refusal {
            reason: Reason::TooManyRows,
            place: 0,
        });
    }
    Ok(counts)
}
