// Writes the job book of each list on standard input into a dirty buffer. A line there is a label, a space and bytes in hexadecimal: the buffer's length (2 bytes),
// the job number (4), and the numbers of the list (4 each). Prints the label, then 0 0 and the book's bytes, or the refusal's number and place; and `changed`
// if a byte of the buffer is not as it is due.
#![tactic(auto)]

ghost use Rattle.std.specs.Prelude.{◌≡◌, ◌≤◌, length};

use console::{Output, Screen};
use std::io;

// Prints `changed` if a byte of the buffer from a place on is not 7.
fn print_kept(screen: &mut Screen, out: &[u8], from: usize)
    requires { from ≤ length out.now }
{
    if out[from..].iter().any(|b| *b != 7) {
        screen.put(b" changed");
    }
}

// The numbers whose words the bytes are, as many as there is room for; the answer is how many they are.
fn numbers_of(bytes: &[u8], numbers: &mut [i32]) -> usize
    ensures { result ≤ length numbers.new }
{
    let n = (bytes.len() / 4).min(numbers.len());
    for k in 0..n {
        numbers[k] = job::signed_of(job::le32(bytes, 4 * k));
    }
    n
}

// Every byte of the buffer is 7 before the call, which is lent the first of them.
fn try_list(screen: &mut Screen, number: u32, runs: &[i32], out: &mut [u8], room: usize) {
    let end = room.min(out.len());
    match job_writer::write(number, runs, &mut out[..end]) {
        Ok(length) => {
            let n = length.min(out.len());
            screen.put(b" 0 0 ");
            for b in &out[..n] {
                screen.put_byte(*b);
            }
            print_kept(screen, out, n);
        }
        Err(refusal) => {
            screen.put_number(u64::from(refusal::number(refusal)));
            screen.put_number(refusal::place(refusal) as u64);
            print_kept(screen, out, 0);
        }
    }
    screen.put(b"\n");
}

fn sevens() -> [u8; 700]
    ensures { 700 ≡ length result }
{
    [7; 700]
}

fn zeros() -> [i32; 170]
    ensures { 170 ≡ length result }
{
    [0; 170]
}

fn try_bytes(screen: &mut Screen, bytes: &[u8]) {
    if bytes.len() < 6 {
        screen.put(b" too short\n");
        return;
    }
    let mut numbers = zeros();
    let n = numbers_of(&bytes[6..], &mut numbers);
    let mut out = sevens();
    let room = job::le16(bytes, 0) as usize;
    try_list(screen, job::le32(bytes, 2), &numbers[..n], &mut out, room);
}

fn try_line(screen: &mut Screen, line: &[u8]) {
    let space = hexadecimal::place_of(line, b' ', 0);
    let digits = line.len().min(space + 1);
    screen.put(&line[..space]);
    let mut bytes = [0u8; 4096];
    let n = hexadecimal::unhex(&line[digits..], &mut bytes);
    try_bytes(screen, &bytes[..n]);
}

// Zeros, enough for all lists.
fn buffer() -> [u8; 131072]
    ensures { 131072 ≡ length result }
{
    [0; 131072]
}

fn main(rt: HostRuntime) -> io::Result<()> {
    let mut lines = buffer();
    let n = console::read_full(&mut rt.stdin(), &mut lines)?;
    let mut screen = Output::new(rt.stdout());
    for line in lines[..n].split_inclusive(|b| *b == b'\n') {
        try_line(&mut screen, line.strip_suffix(b"\n").unwrap_or(line));
    }
    screen.end()
}
