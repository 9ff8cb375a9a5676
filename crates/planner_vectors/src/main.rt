// Tells what planning each job on standard input needs, and plans it on dirty work words and into a dirty plan buffer. A line of the input is a label,
// a space and the job's bytes in hexadecimal. A line of the output has the label, then `needs` and the forecast's words and bytes, or `refused` and the
// number and place of its refusal; and for each call the refusal's number and place, or the plan's groups, trench and saved, and of each run the meets
// figure and the number of its centre; then `kept`, or `changed` if a byte or a word, lent or not, is not as it is due.
// Of the seven calls four are of `plan`, lent just the forecast, more of both, a word less and a byte less; two of `plan_for_map`, lent the forecast's
// bytes and one less; and the last of `plan_in`, lent just the forecast.
#![tactic(auto)]

ghost use Rattle.std.specs.Prelude.{◌≡◌, ◌≤◌, length};

use console::{Output, Screen};
use planner::Needs;
use records::Record;
use refusal::Refusal;
use std::io;

// Whether the first words, as many as are cleared, are 0, and the others are 3.
fn words_kept(work: &[u32], cleared: usize) -> bool {
    work.iter().take(cleared).all(|word| *word == 0)
        & work.iter().skip(cleared).all(|word| *word == 3)
}

// Whether all bytes from a place on are 7.
fn bytes_kept(out: &[u8], from: usize) -> bool {
    out.iter().skip(from).all(|byte| *byte == 7)
}

fn print_refusal(screen: &mut Screen, refusal: Refusal) {
    screen.put_number(u64::from(refusal::number(refusal)));
    screen.put_number(refusal::place(refusal) as u64);
}

fn print_kept(screen: &mut Screen, kept: bool) {
    screen.put(if kept { b" kept" } else { b" changed" });
}

// The figures of a record.
fn print_record(screen: &mut Screen, found: Record) {
    match found {
        Record::Head(head) => {
            screen.put_number(u64::from(head.last));
            screen.put_number(u64::from(head.trench));
            screen.put_number(u64::from(head.saved));
            screen.put(b" :");
        }
        Record::Route { meets, centre, .. } => {
            screen.put_number(u64::from(meets));
            screen.put_number(u64::from(centre));
            screen.put(b",");
        }
        Record::Corner { .. } | Record::End(_) => {}
        Record::Other => screen.put(b" other"),
    }
}

// The figures of a plan; the answer is the place of its end record, which takes all bytes that are left.
fn print_figures(screen: &mut Screen, plan: &[u8]) -> usize {
    let mut at: usize = 0;
    while at < plan.len() {
        let found = records::first_record(&plan[at..]);
        print_record(screen, found);
        let left = plan.len() - at;
        let size = text::record_size(found, left);
        if size >= left {
            return at;
        }
        at += size;
    }
    at
}

// The figures of a plan of this length, and whether its end record, which has 3 bytes, ends there and the bytes behind it are kept.
fn plan_kept(screen: &mut Screen, out: &[u8], length: usize) -> bool {
    let end = print_figures(screen, out);
    (length.checked_sub(3) == Some(end)) & bytes_kept(out, length)
}

// What a code tells, the plan or the refusal, and whether the bytes that are not the plan's are kept.
fn code_kept(screen: &mut Screen, job: &[u8], code: i32, out: &[u8]) -> bool {
    if code < 0 {
        screen.put_number(u64::from(code.unsigned_abs()));
        screen.put_number(planner::place_for_map(job) as u64);
        return bytes_kept(out, 0);
    }
    plan_kept(screen, out, code as usize)
}

// ---- the calls: of 16,400 words of 3 and 36,926 bytes of 7 the first are lent, and a plan clears so many words

fn call(screen: &mut Screen, job: &[u8], words: usize, bytes: usize, cleared: usize)
    requires { (words ≤ 16400) × (bytes ≤ 36926) }
{
    let mut work = [3u32; 16400];
    let mut out = [7u8; 36926];
    screen.put(b" |");
    match planner::plan(job, &mut work[..words], &mut out[..bytes]) {
        Ok(length) => {
            let kept = plan_kept(screen, &out, length);
            print_kept(screen, kept & words_kept(&work, cleared));
        }
        Err(refusal) => {
            print_refusal(screen, refusal);
            print_kept(screen, words_kept(&work, 0) & bytes_kept(&out, 0));
        }
    }
}

fn map_call(screen: &mut Screen, job: &[u8], bytes: usize)
    requires { bytes ≤ 36926 }
{
    let mut out = [7u8; 36926];
    screen.put(b" |");
    let code = planner::plan_for_map(job, &mut out[..bytes]);
    let kept = code_kept(screen, job, code, &out);
    print_kept(screen, kept);
}

fn lent_call(screen: &mut Screen, job: &[u8], words: usize, bytes: usize)
    requires { (words ≤ 16400) × (bytes ≤ 36926) }
{
    let mut work = [3u32; 16400];
    let mut out = [7u8; 36926];
    screen.put(b" |");
    let code = planner::plan_in(job, &mut work[..words], &mut out[..bytes]);
    let kept = code_kept(screen, job, code, &out);
    let cleared = if code < 0 { 0 } else { words };
    print_kept(screen, kept & words_kept(&work, cleared));
}

// The seven calls for a job of this forecast.
fn calls(screen: &mut Screen, job: &[u8], words: usize, bytes: usize)
    requires { (words ≤ 16384) × (bytes ≤ 36886) }
{
    call(screen, job, words, bytes, words);
    call(screen, job, words + 16, bytes + 40, words);
    call(screen, job, words.saturating_sub(1), bytes, words);
    call(screen, job, words, bytes.saturating_sub(1), words);
    map_call(screen, job, bytes);
    map_call(screen, job, bytes.saturating_sub(1));
    lent_call(screen, job, words, bytes);
}

// A forecast above the most that a job can need is lent as the most. Where there is none, nothing is lent, or little.
fn try_job(screen: &mut Screen, job: &[u8]) {
    match planner::forecast(job) {
        Ok(Needs { words, bytes }) => {
            screen.put(b" needs");
            screen.put_number(words as u64);
            screen.put_number(bytes as u64);
            calls(screen, job, words.min(16384), bytes.min(36886));
        }
        Err(refusal) => {
            screen.put(b" refused");
            print_refusal(screen, refusal);
            calls(screen, job, 0, 0);
        }
    }
    screen.put(b"\n");
}

fn try_line(screen: &mut Screen, line: &[u8]) {
    let space = hexadecimal::place_of(line, b' ', 0);
    let digits = (space + 1).min(line.len());
    screen.put(&line[..space]);
    let mut bytes = [0u8; 4096];
    let n = hexadecimal::unhex(&line[digits..], &mut bytes);
    try_job(screen, &bytes[..n]);
}

fn try_lines(screen: &mut Screen, lines: &[u8]) {
    for line in lines.split_inclusive(|b| *b == b'\n') {
        try_line(screen, line.strip_suffix(b"\n").unwrap_or(line));
    }
}

// Zeros, enough for all jobs.
fn buffer() -> [u8; 262144]
    ensures { 262144 ≡ length result }
{
    [0; 262144]
}

fn main(rt: HostRuntime) -> io::Result<()> {
    let mut lines = buffer();
    let n = console::read_full(&mut rt.stdin(), &mut lines)?;
    let mut screen = Output::new(rt.stdout());
    try_lines(&mut screen, &lines[..n]);
    screen.end()
}
