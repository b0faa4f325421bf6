// What is found where an envelope is due, at an offset of a message: its indicator, header and body are judged, its rows counted.
#![tactic(auto)]

mod body;
mod due;
mod format;
mod header;

ghost use Rattle.std.specs.Prelude.{◌≡◌, ◌≤◌, length, drop, None};
ghost use Rattle.label.specs.ReadEnvelope.{read_envelope};
ghost use Rattle.envelope.specs.Shapes.{shape_found};
ghost use Rattle.envelope.specs.Shown.{shown};

use due::Due;
use formats::{Shape, shape_in};
use label::{Edition, Reason};
use pieces::Kind;

// What is found where an envelope is due: an envelope with the offset behind its RS and its rows, or one that takes all the rest with its
// rows. Both are envelopes, so neither is an error or a None.
#[derive(Clone, Copy)]
pub enum Found {
    Closed(usize, usize),
    Whole(usize),
}

// Why there is none: the reason, and where a field or an element is at fault the place at which that starts. Else the place is where the
// envelope is due.
#[derive(Clone, Copy)]
pub struct Fault {
    pub reason: Reason,
    pub place: Option<usize>,
}

impl From<Reason> for Fault {
    ghost from_gives = { λ reason fault. fault ≡ record { reason = reason; place = None } };

    fn from(reason: Reason) -> Fault {
        Fault {
            reason,
            place: None,
        }
    }
}

// An envelope of a shape behind its indicator: 6, then 7, then its header and body.
fn judge_shape(shape: Shape, due: Due, first: bool) -> Result<Found, Fault>
    ensures { result ≡ shape_found shape first due.entry.message.now due.entry.at }
{
    match shape {
        Shape::Fields | Shape::Rest if !first => Err(Reason::NotFirst.into()),
        Shape::Fields => format::judge_transport(due),
        Shape::Rest => format::judge_rest(due),
        Shape::Segments03 => format::judge_segments(due, Kind::Segments03),
        Shape::Segments04 => format::judge_segments(due, Kind::Segments04),
        Shape::Elements05 => format::judge_elements(due, Kind::Elements05),
        Shape::Elements06 => format::judge_elements(due, Kind::Elements06),
        Shape::Text => body::judge_body(due, Kind::Text, 1),
        Shape::Counted => format::judge_counted(due),
        Shape::Elements12 => format::judge_elements(due, Kind::Elements12),
        Shape::CountOnly => format::judge_count_only(due),
        Shape::Unknown => Err(Reason::UnknownFormat.into()),
    }
}

// What is found where an envelope is due: 3, then its format.
#[tactic(auto, using(crate::proofs::ShapeLaws::envelope_steps))]
pub fn judge_envelope(edition: Edition, m: &[u8], at: usize, first: bool) -> Result<Found, Fault>
    ensures { result ≡ shown m.now (read_envelope edition first (drop at m.now)) }
{
    let Some(f) = header::indicator(m, at) else {
        return Err(Reason::NoIndicator.into());
    };
    let due = Due {
        message: m,
        at: at + 2,
    };
    judge_shape(shape_in(edition, f), due, first)
}
