// Bytes printed in the notation of the vectors: ten or more of the same in a row as `{10*A}`.
use std::io;
use std::io::Write;

// The least number of equal bytes that are printed as a number and a byte.
const LONG: usize = 10;

// Prints how many bytes there are, the bytes behind a space if there are any, and a line end.
pub(crate) fn print_part<W: Write>(out: &mut W, bytes: &[u8]) -> io::Result<()> {
    let length = bytes.len();
    write!(out, "{length}")?;
    if length > 0 {
        out.write_all(b" ")?;
    }
    print_bytes(out, bytes)
}

// Prints bytes and a line end.
pub(crate) fn print_bytes<W: Write>(out: &mut W, bytes: &[u8]) -> io::Result<()> {
    for run in bytes.chunk_by(|a, b| a == b) {
        print_run(out, run)?;
    }
    out.write_all(b"\n")
}

// Prints equal bytes.
fn print_run<W: Write>(out: &mut W, run: &[u8]) -> io::Result<()> {
    let times = run.len();
    if times < LONG {
        return print_each(out, run);
    }
    write!(out, "{{{times}*")?;
    print_byte(out, run[0], "", "")?;
    out.write_all(b"}")
}

fn print_each<W: Write>(out: &mut W, bytes: &[u8]) -> io::Result<()> {
    for b in bytes {
        print_byte(out, *b, "{", "}")?;
    }
    Ok(())
}

// Prints a control byte by its name, given what stands around a name, another as it is.
fn print_byte<W: Write>(out: &mut W, b: u8, before: &str, behind: &str) -> io::Result<()> {
    match name(b) {
        Some(name) => write!(out, "{before}{name}{behind}"),
        None => out.write_all(&[b]),
    }
}

// A control byte's name.
fn name(b: u8) -> Option<&'static str> {
    match b {
        leaves::EOT => Some("EOT"),
        leaves::FS => Some("FS"),
        leaves::GS => Some("GS"),
        leaves::RS => Some("RS"),
        leaves::US => Some("US"),
        _ => None,
    }
}
