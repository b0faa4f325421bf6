// How far bytes agree with a text.
ghost use Rattle.std.specs.Prelude.{◌≡◌, drop};
ghost use Rattle.label.specs.ReadMessage.{agreement};

// How many bytes from an offset on agree with a text, from its first on; none where the offset lies behind the end.
pub fn agree(m: &[u8], at: usize, text: &[u8]) -> usize
    ensures { result ≡ agreement text.now (drop at m.now) }
{
    let from = m.get(at..).unwrap_or(&[]);
    from.iter().zip(text).take_while(|(a, b)| *a == *b).count()
}
