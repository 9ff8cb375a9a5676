// What the programs read and write: standard input and output, files by name, and arguments.
#![tactic(auto)]

ghost use Rattle.std.specs.Prelude.{◌≡◌, false, ℕ, ◌/◌, ◌%◌, ◌<◌, ◌≤◌, List, [], ◌∷◌, ◌++◌, length, take, IfOk, IsOk, IsErr};
ghost use Rattle.std.specs.Fmt.{decimal, digit_glyph};
ghost use Rattle.std.specs.Io.{ReadsAtMost};
ghost use Rattle.std.specs.Io.KnownBytes.{Appends, Consumes, IsAtEnd};

use std::env::Env;
use std::io::{Read, Stdout, Write};
use std::rt::Files;
use std::{env, fs, io};

// Reads until the slice is full or the input ends, and says how many bytes it put at the slice's start. A short read goes on. A read that fails ends it with
// its error, also where bytes came before.
pub fn read_full<R: Read>(reader: &mut R, bytes: &mut [u8]) -> io::Result<usize>
    ensures bound { ReadsAtMost result bytes.new }
    ensures read { IfOk result (λ n. Consumes (R.remaining reader.old) (R.remaining reader.new) (take n bytes.new)) }
    ensures end { IfOk result (λ n. n < length bytes.new → IsAtEnd (R.remaining reader.new)) }
{
    let mut done: usize = 0;
    while done < bytes.len() {
        let n = reader.read(&mut bytes[done..])?;
        if n == 0 {
            return Ok(done);
        }
        done += n;
    }
    Ok(done)
}

// What the programs write goes here, until a write fails: from then on nothing is written, and `end` hands out that error.
#[derive(Drop)]
pub struct Output<W> {
    to: W,
    outcome: io::Result<()>,
}

// Standard output.
pub type Screen = Output<Stdout>;

impl<W: Write> Output<W> {
    pub fn new(to: W) -> Output<W>
        ensures { (result.to ≡ to) × IsOk result.outcome }
    {
        Output {
            to,
            outcome: Ok(()),
        }
    }

    // Writes all of the text.
    pub fn put(&mut self, text: &[u8])
        ensures written { IsOk self.new.outcome → Appends (W.contents self.old.to) (W.contents self.new.to) text.now }
        ensures whole { IsOk self.new.outcome → IsOk self.old.outcome }
        ensures ended { IsErr self.old.outcome → self.new ≡ self.old }
    {
        if self.outcome.is_ok() {
            self.outcome = self.to.write_all(text);
        }
    }

    // Writes a number in decimal digits, with no zero in front.
    pub fn put_decimal(&mut self, n: u64)
        ensures written { IsOk self.new.outcome → Appends (W.contents self.old.to) (W.contents self.new.to) (decimal n) }
        ensures ended { IsErr self.old.outcome → self.new ≡ self.old }
    {
        if self.outcome.is_ok() {
            self.outcome = write!(self.to, "{n}");
        }
    }

    // Writes a space and a number in decimal digits.
    pub fn put_number(&mut self, n: u64)
        ensures written { IsOk self.new.outcome → Appends (W.contents self.old.to) (W.contents self.new.to) (32 ∷ decimal n) }
        ensures ended { IsErr self.old.outcome → self.new ≡ self.old }
    {
        self.put(b" ");
        self.put_decimal(n);
    }

    // Writes a byte in two hexadecimal digits.
    pub fn put_byte(&mut self, b: u8)
        ensures written { IsOk self.new.outcome
            → Appends (W.contents self.old.to) (W.contents self.new.to) (digit_glyph false (b / 16) ∷ digit_glyph false (b % 16) ∷ []) }
        ensures ended { IsErr self.old.outcome → self.new ≡ self.old }
    {
        self.put(&[digit(b / 16), digit(b % 16)]);
    }

    // Writes a line that says what failed and why: a colon, and the error's text, less its number.
    pub fn put_error(&mut self, what: &[u8], error: io::Error)
        ensures written { IsOk self.new.outcome → (why : List ℕ)
            × Appends (W.contents self.old.to) (W.contents self.new.to) (what.now ++ 58 ∷ 32 ∷ why ++ 10 ∷ []) }
        ensures ended { IsErr self.old.outcome → self.new ≡ self.old }
    {
        let mut room = [0u8; 512];
        let n = text_of(error, &mut room);
        let text = str::from_utf8(&room[..n]).unwrap_or("");
        let (why, _) = text.split_once(" (os error ").unwrap_or((text, ""));
        self.put_reason(what, why.as_bytes());
    }

    fn put_reason(&mut self, what: &[u8], why: &[u8])
        ensures written { IsOk self.new.outcome
            → Appends (W.contents self.old.to) (W.contents self.new.to) (what.now ++ 58 ∷ 32 ∷ why.now ++ 10 ∷ []) }
        ensures ended { IsErr self.old.outcome → self.new ≡ self.old }
    {
        self.put(what);
        self.put(b": ");
        self.put(why);
        self.put(b"\n");
    }

    // The error of the write that failed, if one did.
    pub fn end(self) -> io::Result<()>
    where
        W: Drop,
        ensures { result ≡ self.outcome }
    {
        self.outcome
    }
}

// Puts an error's text at the start of the room, as much as it has room for, and says how many bytes that is.
fn text_of(error: io::Error, room: &mut [u8]) -> usize
    ensures { result ≤ length room.new }
{
    let size = room.len();
    let mut rest: &mut [u8] = room;
    let _ = write!(rest, "{error}");
    size.saturating_sub(rest.len())
}

// A hexadecimal digit, in lower case.
fn digit(d: u8) -> u8
    requires { d < 16 }
    ensures { result ≡ digit_glyph false d }
{
    if d < 10 { b'0' + d } else { b'a' + (d - 10) }
}

// How many arguments the program was started with, its own name among them, counted up to so many.
pub fn argument_count<R: Env>(rt: &R, most: usize) -> usize
    ensures { result ≤ most }
{
    for i in 0..most {
        if !has_argument(rt, i) {
            return i;
        }
    }
    most
}

fn has_argument<R: Env>(rt: &R, i: usize) -> bool {
    !matches!(rt.arg(i, &mut []), Err(env::FillError::NotPresent))
}

// Puts argument i at the start of the slice, and says how long it is: 0 where it is missing or does not fit.
pub fn argument<R: Env>(rt: &R, i: usize, name: &mut [u8]) -> usize
    ensures { result ≤ length name.new }
{
    rt.arg(i, name).unwrap_or(0)
}

// A file's name as std takes it. One that is not UTF-8 names no file.
fn name_of(name: &[u8]) -> io::Result<&str>
    ensures { IfOk result (λ text. text.now ≡ name.now) }
{
    match str::from_utf8(name) {
        Ok(text) => Ok(text),
        Err(_) => Err(io::Error::new(io::ErrorKind::InvalidInput, "Invalid argument")),
    }
}

// Opens the file of this name for reading.
pub fn open<R: Files>(rt: &R, name: &[u8]) -> io::Result<R::File> {
    fs::open(rt, name_of(name)?)
}

// Writes the bytes to the file of this name, which is made where it is missing, and emptied where it is not.
pub fn store<R: Files>(rt: &R, name: &[u8], bytes: &[u8]) -> io::Result<()> {
    fs::write(rt, name_of(name)?, bytes)
}
