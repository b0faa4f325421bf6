// A text taken apart at a byte.
ghost use Rattle.std.specs.Prelude.{◌<◌, length, IfSome};

// What stands before a text's first separator, and what stands behind it; nothing where there is none.
pub(crate) fn once(text: &[u8], separator: u8) -> Option<(&[u8], &[u8])>
    ensures { IfSome result (λ parts. length parts.1.now < length text.now) }
{
    let at = text.iter().position(|b| *b == separator)?;
    Some((&text[..at], &text[at + 1..]))
}

// A text's first word, which is all of it where it has no space, and what stands behind that space.
pub(crate) fn word(text: &[u8]) -> (&[u8], &[u8]) {
    match once(text, b' ') {
        Some(parts) => parts,
        None => (text, &[]),
    }
}
