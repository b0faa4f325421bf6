// Runs the vectors of data/ in each edition: messages that are read (vectors.txt, formats.txt), rows that are written (writing.txt), and
// parts that are handed back (parts.txt). Prints each vector's name and what comes of it. The head of a file says how its vectors are
// written.
#![tactic(auto)]

mod decimals;
mod notation;
mod reading;
mod shown;
mod split;
mod writing;

use label::Edition;
use std::io::Write;
use std::rt::Files;
use std::{fs, io};

// How much of a file is run at most; what lies behind is left.
const LONGEST_FILE: usize = 65_536;

fn main(rt: HostRuntime) -> io::Result<()> {
    println!(rt; "edition 2005")?;
    run_files(&rt, Edition::Edition2005)?;
    println!(rt; "edition 2025")?;
    run_files(&rt, Edition::Edition2025)
}

fn run_files(rt: &(impl Files + Print + Eprint), edition: Edition) -> io::Result<()> {
    let out = &mut io::writer(rt);
    run_file(rt, out, "vectors.txt", edition, reading::run_message)?;
    run_file(rt, out, "formats.txt", edition, reading::run_message)?;
    run_file(rt, out, "writing.txt", edition, writing::run_rows)?;
    run_file(rt, out, "parts.txt", edition, reading::run_part)
}

// Tries each vector of a file. One that can't be opened is named on standard error, and the others are run.
// That the trial may be called is asked of each function that hands it on: a closure has no other way to say so.
fn run_file<R: Files + Eprint, W: Write, F: Fn(&mut W, Edition, &[u8]) -> io::Result<()>>(
    rt: &R,
    out: &mut W,
    name: &str,
    edition: Edition,
    trial: F,
) -> io::Result<()>
    requires { F.IsAlwaysCallable trial }
{
    match fs::open(rt, name) {
        Ok(mut file) => {
            let mut text = [0u8; LONGEST_FILE];
            let length = report::read_full(&mut file, &mut text)?;
            run_lines(out, &text[..length], edition, trial)
        }
        Err(error) => eprintln!(rt; "{name}: {error}"),
    }
}

fn run_lines<W: Write, F: Fn(&mut W, Edition, &[u8]) -> io::Result<()>>(
    out: &mut W,
    text: &[u8],
    edition: Edition,
    trial: F,
) -> io::Result<()>
    requires { F.IsAlwaysCallable trial }
{
    for line in text.split(|b| *b == b'\n') {
        run_line(out, line, edition, &trial)?;
    }
    Ok(())
}

// Prints a vector's name and what comes of it; nothing for an empty line or a comment.
fn run_line<W: Write, F: Fn(&mut W, Edition, &[u8]) -> io::Result<()>>(
    out: &mut W,
    line: &[u8],
    edition: Edition,
    trial: &F,
) -> io::Result<()>
    requires { F.IsAlwaysCallable trial.now }
{
    if line.is_empty() || line.starts_with(b"#") {
        return Ok(());
    }
    let (name, vector) = split::word(line);
    out.write_all(name)?;
    out.write_all(b"\n")?;
    trial(out, edition, vector)
}
