// The paper's number of a reason. Types and definitions are `label`'s; these functions stand apart, so that no edit of a definition is
// tried with their proofs.
#![tactic(auto)]

ghost use Rattle.std.specs.Prelude.{◌≡◌};
ghost use Rattle.label.specs.Answer.{number};
ghost use Rattle.label.specs.Writing.{write_number};

use label::{Reason, WriteReason};

// The paper's number of a reason.
pub fn number_of(reason: Reason) -> u32
    ensures { result ≡ number reason }
{
    reason as u32
}

// The paper's number of a reason not to write.
pub fn write_number_of(why: WriteReason) -> u32
    ensures { result ≡ write_number why }
{
    why as u32
}
