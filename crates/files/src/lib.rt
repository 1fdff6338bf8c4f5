// Input and output of the programs. What fails is said in a line on standard error.
#![tactic(auto)]

ghost use Rattle.std.specs.Prelude.{IfErr};
ghost use Rattle.std.specs.Io.{ReadsAtMost};
ghost use Rattle.io.specs.Counts.{IsPrefixLen};
ghost use Rattle.files.specs.declared.Cut.{Cut};

use std::env::FillError;
use std::fs::File;
use std::io::{Cursor, Error, Read, Write};
use std::rt::{Env, Files};

// Something failed, and the line that says what is written.
#[derive(Clone, Copy, Debug)]
pub struct Said;

// Says what failed and why: the system's words alone, without the number that std adds.
fn say<R: Eprint>(rt: &R, what: &str, error: &Error) -> Said {
    let mut text = Cursor::new([0u8; 256]);
    let _ = write!(text, "{error}");
    let bytes = text.into_inner();
    let words = str::from_utf8(&bytes).unwrap_or("").trim_end_matches('\0');
    let why = match words.split_once(" (os error ") {
        Some((why, _)) => why,
        None => words,
    };
    let _ = eprintln!(rt; "{what}: {why}");
    Said
}

// What the input is read from: standard input, or a file.
#[derive(Drop)]
pub enum Source<I, F> {
    Standard(I),
    File(F),
}

impl<I: Read, F: Read> Read for Source<I, F> {
    fn read(&mut self, buf: &mut [u8]) -> std::io::Result<usize> {
        match self {
            Source::Standard(input) => input.read(buf),
            Source::File(file) => file.read(buf),
        }
    }
}

fn open_path<R: Files + Eprint>(rt: &R, path: &[u8]) -> Result<R::File, Said> {
    match str::from_utf8(path) {
        Ok(path) => File::open(rt, path).map_err(|error| say(rt, path, &error)),
        Err(error) => {
            let _ = eprintln!(rt; "argument: {error}");
            Err(Said)
        }
    }
}

// The input: the file that the first argument names, or standard input without one.
pub fn open<R: Files + Env + Eprint, I: Drop>(
    rt: &R,
    standard: I,
) -> Result<Source<I, R::File>, Said> {
    let mut path = io::buffer();
    match rt.arg(1, &mut path) {
        Ok(n) => Ok(Source::File(open_path(rt, &path[..n])?)),
        Err(FillError::NotPresent) => Ok(Source::Standard(standard)),
        Err(FillError::TooLong) => {
            let _ = eprintln!(rt; "argument: File name too long");
            Err(Said)
        }
    }
}

// Reading failed after so many bytes, and the line that says why is written.
#[derive(Clone, Copy, Debug)]
pub struct Cut {
    pub bytes: usize,
}

// Reads until a buffer is full or the input ends: how many bytes it put into the buffer. (It counts what came, which no range or
// iterator gives; `read_exact` fails where the input ends early.)
pub fn read<R: Eprint, S: Read>(rt: &R, source: &mut S, buf: &mut [u8]) -> Result<usize, Cut>
    ensures whole { ReadsAtMost result buf.new }
    ensures cut { IfErr result (λ (cut : Cut). IsPrefixLen cut.bytes buf.new) }
{
    let mut done = 0;
    while done < buf.len() {
        match source.read(&mut buf[done..]) {
            Ok(0) => break,
            Ok(n) => done += n,
            Err(error) => {
                say(rt, "cannot read the input", &error);
                return Err(Cut { bytes: done });
            }
        }
    }
    Ok(done)
}

// Writes a text to standard output.
pub fn write<R: Print + Eprint>(rt: &R, text: &[u8]) -> Result<(), Said> {
    rt.write_all(text)
        .map_err(|error| say(rt, "cannot write the output", &error))
}
