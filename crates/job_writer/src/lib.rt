// Writes a job book (document 01, "Job book") from a list of numbers, five a run (document 02, C-15).
#![tactic(auto)]

ghost use Rattle.std.specs.Prelude.{◌≡◌, true, ◌∷◌, ◌+◌, ◌*◌, ◌≤◌, length, Ok};
ghost use Rattle.fields.specs.Bytes.{Wrote};
ghost use Rattle.job.specs.Written.{bytes4, run_bytes, runs_bytes};
ghost use Rattle.job_writer.specs.Listed.{listed_at, biased, run_of, runs_from, number_before, follows, in_range, coordinates_in, run_answer, runs_answer, room_answer, list_answer};
ghost use Rattle.job_writer.specs.Call.{book_of, call_of};

use job::Run;
use refusal::Refusal;

// A run as it is listed: its number, and its two points in decimetres.
#[derive(Clone, Copy)]
pub struct Listed {
    pub number: i32,
    pub x1: i32,
    pub y1: i32,
    pub x2: i32,
    pub y2: i32,
}

// Run i of the list.
fn listed_at(runs: &[i32], i: usize) -> Listed
    requires { 5 * i + 5 ≤ length runs.now }
    ensures { result ≡ listed_at runs.now i }
{
    Listed {
        number: runs[5 * i],
        x1: runs[5 * i + 1],
        y1: runs[5 * i + 2],
        x2: runs[5 * i + 3],
        y2: runs[5 * i + 4],
    }
}

// The number of the run before run i, 0 where there is none.
fn number_before(runs: &[i32], i: usize) -> i32
    requires { 5 * i ≤ length runs.now }
    ensures { result ≡ number_before runs.now i }
{
    if i == 0 {
        return 0;
    }
    runs[5 * (i - 1)]
}

// A run number is in its range and above the one before.
fn number_follows(last: i32, number: i32) -> bool
    ensures { result ≡ follows last number }
{
    (1..=9999).contains(&number) && last < number
}

// A coordinate is in its range.
fn in_range(c: i32) -> bool
    ensures { result ≡ in_range c }
{
    (-1000000..=1000000).contains(&c)
}

// All four coordinates are in their range.
fn coordinates_in(run: Listed) -> bool
    ensures { result ≡ coordinates_in run }
{
    in_range(run.x1) & in_range(run.y1) & in_range(run.x2) & in_range(run.y2)
}

// A coordinate plus 1,000,000.
fn biased_of(c: i32) -> u32
    requires { in_range c ≡ true }
    ensures { result ≡ biased c }
{
    (c + 1000000).unsigned_abs()
}

// A run as a job holds it.
fn run_of(run: Listed) -> Run
    requires { coordinates_in run ≡ true }
    ensures { result ≡ run_of run }
{
    Run {
        number: run.number.unsigned_abs(),
        x1: biased_of(run.x1),
        y1: biased_of(run.y1),
        x2: biased_of(run.x2),
        y2: biased_of(run.y2),
    }
}

// Whether run i of the list is refused.
#[tactic(auto, unfolding(crate::specs::Listed::run_answer))]
fn check_run(runs: &[i32], i: usize) -> Result<(), Refusal>
    requires { 5 * i + 5 ≤ length runs.now }
    ensures { result ≡ run_answer runs.now i }
{
    let run = listed_at(runs, i);
    if !number_follows(number_before(runs, i), run.number) {
        return Err(Refusal::WrongNumber(i));
    }
    if !coordinates_in(run) {
        return Err(Refusal::OutOfRange(i));
    }
    if job::coincide(run_of(run)) {
        return Err(Refusal::Coincident(i));
    }
    Ok(())
}

// Whether one of the first `count` runs is refused.
fn check_runs(runs: &[i32], count: usize) -> Result<(), Refusal>
    requires { 5 * count ≤ length runs.now }
    ensures { result ≡ runs_answer runs.now count 0 }
{
    for i in 0..count {
        check_run(runs, i)?;
    }
    Ok(())
}

// Whether the buffer is refused.
fn check_room(count: usize, room: usize) -> Result<(), Refusal>
    requires { count ≤ 32 }
    ensures { result ≡ room_answer count room }
{
    if room < 8 + 19 * count {
        return Err(Refusal::ShortBuffer);
    }
    Ok(())
}

// Whether a list is refused, with a buffer of so many bytes: 3, 9, then 7, 8 and 17 run by run, then 2.
#[tactic(auto, unfolding(crate::specs::Listed::list_answer))]
pub fn check(runs: &[i32], room: usize) -> Result<(), Refusal>
    ensures { result ≡ list_answer runs.now room }
{
    let n = runs.len();
    if n % 5 != 0 {
        return Err(Refusal::Cut(n));
    }
    let count = n / 5;
    if 32 < count {
        return Err(Refusal::TooManyRuns(32));
    }
    check_runs(runs, count)?;
    check_room(count, room)
}

fn write_head(out: &mut [u8], number: u32) -> usize
    requires { 5 ≤ length out.old }
    ensures { Wrote (0x48 ∷ bytes4 number) out.old out.new result }
{
    fields::put1(out, 0x48);
    fields::put4(out, 1, number);
    5
}

fn write_run(out: &mut [u8], run: Run) -> usize
    requires { 19 ≤ length out.old }
    ensures { Wrote (run_bytes run) out.old out.new result }
{
    fields::put1(out, 0x52);
    fields::put2(out, 1, run.number);
    fields::put4(out, 3, fields::word(run.x1));
    fields::put4(out, 7, fields::word(run.y1));
    fields::put4(out, 11, fields::word(run.x2));
    fields::put4(out, 15, fields::word(run.y2));
    19
}

// The first `count` runs, one behind the other.
fn write_runs(out: &mut [u8], runs: &[i32], count: usize) -> usize
    requires { (count ≤ 32) × (5 * count ≤ length runs.now) × (19 * count ≤ length out.old) × (runs_answer runs.now count 0 ≡ Ok tt) }
    ensures { Wrote (runs_bytes (runs_from runs.now count 0)) out.old out.new result × (result ≡ 19 * count) }
{
    let mut at: usize = 0;
    for i in 0..count {
        at += write_run(&mut out[at..], run_of(listed_at(runs, i)));
    }
    at
}

// The whole book, and its length.
fn write_book(out: &mut [u8], number: u32, runs: &[i32]) -> usize
    requires { list_answer runs.now (length out.old) ≡ Ok tt }
    ensures { Wrote (book_of number runs.now) out.old out.new result }
{
    let count = runs.len() / 5;
    let start = write_head(out, number);
    let at = start + write_runs(&mut out[start..], runs, count);
    at + fields::write_end(&mut out[at..], count as u32)
}

// Writes the job book of a number and a list of runs: the book stands in the first bytes of `out`; or the list is refused, and nothing is written.
pub fn write(number: u32, runs: &[i32], out: &mut [u8]) -> Result<usize, Refusal>
    ensures { call_of number runs.now out.old ≡ record { says = result; out = out.new } }
{
    check(runs, out.len())?;
    Ok(write_book(out, number, runs))
}
