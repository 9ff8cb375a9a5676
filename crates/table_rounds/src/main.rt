// Fills one table and traces the walk in it, as often as the record on standard input says, and prints what the best walk shares and a sum over
// the walks: for who times it. The record has 1,546 bytes; those that are missing count as 0.
//
//     0     rounds, a word, modulo 1,048,576
//     4     columns of the frame less 1, modulo 64
//     5     rows of the frame less 1, modulo 64
//     6     the leaves that slope the other way than the centre, a word
//     10    64 columns, each three words: leaves on it, leaves on it and on the line before it, length from that line modulo 2,000,001
//     778   64 rows, the same
#![tactic(auto)]

ghost use Rattle.std.specs.Prelude.{◌≡◌, List, ℕ, ◌+◌, ◌≤◌, ◌<◌, length};
ghost use Rattle.table.specs.Frame.{line_in, group_of};
ghost use Rattle.table.specs.Rule.{Fit};

use console::{Output, Screen};
use std::io;
use table::frame::{Frame, Line};
use table::trace::Trace;

// The line at a place of the record.
fn line_at(bytes: &[u8; 1546], at: usize) -> Line
    requires { at + 12 ≤ 1546 }
    ensures { result.len ≤ 2000000 }
{
    Line {
        on: job::le32(bytes, at),
        into: job::le32(bytes, at + 4),
        len: job::le32(bytes, at + 8) % 2000001,
    }
}

// The 64 lines from a place of the record on.
fn lines_at(bytes: &[u8; 1546], at: usize, lines: &mut [Line; 64])
    requires { (at + 768 ≤ 1546) × (length lines.old ≡ 64) }
    ensures { (length lines.new ≡ 64) × ((i : ℕ) → i < 64 → (line_in lines.new i).len ≤ 2000000) }
{
    for i in 0..64 {
        lines[i] = line_at(bytes, at + 12 * i);
    }
}

// The count at a place of the record.
fn count_at(bytes: &[u8; 1546], at: usize) -> usize
    requires { at < 1546 }
    ensures { (1 ≤ result) × (result ≤ 64) }
{
    1 + (bytes[at] % 64) as usize
}

// The frame that the record holds.
fn frame_of(bytes: &[u8; 1546]) -> Frame
    ensures { (words : List ℕ) → 16384 ≤ length words → Fit (group_of result) words }
{
    let mut g = Frame::new();
    lines_at(bytes, 10, &mut g.cols);
    lines_at(bytes, 778, &mut g.rows);
    g.cross = job::le32(bytes, 6);
    g.w = count_at(bytes, 4);
    g.h = count_at(bytes, 5);
    g
}

// Fills and traces so many times. The sum has each walk's first step, which is found last.
fn go_round(work: &mut [u32], g: &Frame, rounds: u32) -> u32
    requires { (16384 ≤ length work.old) × ((words : List ℕ) → 16384 ≤ length words → Fit (group_of g.now) words) }
    ensures { length work.new ≡ length work.old }
{
    let mut trace = Trace::new();
    let mut sum: u32 = 0;
    for _ in 0..rounds {
        table::fill::fill(work, g);
        trace.put_walk(&*work, g);
        sum = (sum + u32::from(trace.shares[0]) + 64 * u32::from(trace.steps[0])) % 65536;
    }
    sum
}

fn print(screen: &mut Screen, figure: u32, sum: u32) {
    screen.put_decimal(figure as u64);
    screen.put_number(sum as u64);
    screen.put(b"\n");
}

fn main(rt: HostRuntime) -> io::Result<()> {
    let mut bytes = [0u8; 1546];
    console::read_full(&mut rt.stdin(), &mut bytes)?;
    let mut screen = Output::new(rt.stdout());
    let rounds = job::le32(&bytes, 0) % 1048576;
    let g = frame_of(&bytes);
    let mut work = [0u32; 16384];
    let sum = go_round(&mut work, &g, rounds);
    print(&mut screen, table::fill::figure_of(&work, &g), sum);
    screen.end()
}
