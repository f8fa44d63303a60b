// Standard input, and files that arguments name, read into a lent buffer; bytes for standard output.
#![tactic(auto)]

ghost use Rattle.std.specs.Prelude.{◌≤◌, length};

use std::env::FillError;
use std::fs::File;
use std::io;
use std::io::{Error, Read};
use std::rt::{Env, Files};

// Reads standard input until the buffer is full, the input ends or a read fails, and answers how many bytes there are.
pub fn read_input<R: Input>(rt: &R, buffer: &mut [u8]) -> usize
    ensures { result ≤ length buffer.new }
{
    let mut reader = rt.reader();
    let (length, _) = fill(&mut reader, buffer);
    length
}

// Prints the bytes. Where standard output takes no more, the rest is left out.
pub fn print<P: Print>(rt: &P, bytes: &[u8]) {
    let _ = rt.write_all(bytes);
}

// How many words the program was started with, its own name among them, but `most` if there are more.
pub fn count_words<R: Env>(rt: &R, most: usize) -> usize {
    (0..most).take_while(|i| has_word(rt, *i)).count()
}

// Is there an argument i, the program's name being the first?
pub fn has_word<R: Env>(rt: &R, i: usize) -> bool {
    let mut nothing = [0u8; 0];
    !matches!(rt.arg(i, &mut nothing), Err(FillError::NotPresent))
}

// Reads the file that argument i names, and answers how many bytes it has, or None where standard error says why. It has to leave
// a byte of the buffer, or it is too large. `missing` is said where there is no such argument, what is not ASCII in it escaped. A
// length and no slice: what of the buffer is the file is cut where a contract says so (audit_lines).
pub fn load<R: Env + Files + Eprint>(
    rt: &R,
    i: usize,
    missing: &[u8],
    buffer: &mut [u8],
) -> Option<usize> {
    let mut room = [0u8; 4096];
    let path = path_named(rt, i, missing, &mut room)?;
    let length = read_named(rt, path, buffer)?;
    if length == buffer.len() {
        let _ = eprintln!(rt; "{path}: larger than any well-formed file");
        return None;
    }
    Some(length)
}

// The same, and of a file that is too large the front.
pub fn load_front<R: Env + Files + Eprint>(
    rt: &R,
    i: usize,
    missing: &[u8],
    buffer: &mut [u8],
) -> Option<usize> {
    let mut room = [0u8; 4096];
    let path = path_named(rt, i, missing, &mut room)?;
    read_named(rt, path, buffer)
}

// The path that argument i is. Where there is none, standard error has `missing` and why.
pub fn path_named<'a, R: Env + Eprint>(
    rt: &R,
    i: usize,
    missing: &[u8],
    room: &'a mut [u8],
) -> Option<&'a str> {
    match rt.arg(i, room) {
        Ok(length) => match str::from_utf8(&room[..length]) {
            Ok(path) => Some(path),
            Err(error) => {
                let _ = eprintln!(rt; "{}: {error}", missing.escape_ascii());
                None
            }
        },
        Err(FillError::NotPresent) => {
            let _ = eprintln!(rt; "{}: Invalid argument", missing.escape_ascii());
            None
        }
        Err(FillError::TooLong) => {
            let _ = eprintln!(rt; "{}: File name too long", missing.escape_ascii());
            None
        }
    }
}

fn read_named<R: Files + Eprint>(rt: &R, path: &str, buffer: &mut [u8]) -> Option<usize> {
    match read_file(rt, path, buffer) {
        Ok(length) => Some(length),
        Err(error) => {
            let _ = eprintln!(rt; "{path}: {error}");
            None
        }
    }
}

// A read that ends before the buffer is full met the file's end, where there is no further byte.
fn read_file<R: Files>(rt: &R, path: &str, buffer: &mut [u8]) -> Result<usize, Error> {
    let mut file = File::open(rt, path)?;
    let (length, end) = fill(&mut file, buffer);
    end?;
    Ok(length)
}

// How many bytes stand in the buffer once it is full, the input has ended or a read has failed, and what that failed with. Each
// read gives as many bytes as it likes, so that nothing counts them one by one.
fn fill<R: Read>(reader: &mut R, buffer: &mut [u8]) -> (usize, Result<(), Error>)
    ensures { result.0 ≤ length buffer.new }
{
    let mut done = 0;
    while done < buffer.len() {
        match reader.read(&mut buffer[done..]) {
            Ok(0) => break,
            Ok(n) => done += n,
            Err(error) => return (done, Err(error)),
        }
    }
    (done, Ok(()))
}
