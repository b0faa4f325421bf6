// Whether bytes begin with a message's header.
ghost use Rattle.std.specs.Prelude.{◌≡◌, length, leb};
ghost use Rattle.label.specs.Message.{header};
ghost use Rattle.label.specs.ReadMessage.{agreement};

use label::HEADER;

// Whether a message begins with its header.
pub fn is_headed(m: &[u8]) -> bool
    ensures { result ≡ leb (length header) (agreement header m.now) }
{
    m.starts_with(&HEADER)
}
