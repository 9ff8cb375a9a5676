// Reads a job (document 01, "Job book"): one head, then the runs, then one end.
#![tactic(auto)]

ghost use Rattle.std.specs.Prelude.{◌≡◌, [], ◌+◌, ◌<◌, ◌≤◌, length, drop};
ghost use Rattle.std.specs.Int.{w32};
ghost use Rattle.std.proofs.Common.{to_z};
ghost use Rattle.job.specs.Fields.{word2, word4, biased_of};
ghost use Rattle.job.specs.Records.{run_body, decoded, record_of};
ghost use Rattle.job.specs.Parse.{follows, coordinates_in, coincide, run_step, end_step, step_of};
ghost use Rattle.job.specs.Reading.{answer_place, head_number, job_of, with_run, Blank, ReadsInto, Reads};

use refusal::Refusal;

// A run from its first point (x1, y1) to its second (x2, y2). A coordinate is the decimetres plus 1,000,000.
#[derive(Clone, Copy)]
pub struct Run {
    pub number: u32,
    pub x1: u32,
    pub y1: u32,
    pub x2: u32,
    pub y2: u32,
}

// What runs have on one axis: the values of their first points and of their second. Run k stands at k in both arrays.
#[derive(Clone, Copy)]
pub struct Spans {
    pub first: [u32; 32],
    pub second: [u32; 32],
}

// A job: run k stands at k in each array, for k below count; the entries from count on are 0.
#[derive(Clone, Copy)]
pub struct Job {
    pub number: u32,
    pub count: usize,
    pub numbers: [u32; 32],
    pub x: Spans,
    pub y: Spans,
}

// What stands at a place of the job.
#[derive(Clone, Copy)]
pub enum Record {
    Head(u32),
    Run(Run),
    End(u32),
    Unknown,
    Cut,
}

// The two bytes from i on, little-endian.
pub fn le16(b: &[u8], i: usize) -> u32
    requires { i + 1 < length b.now }
    ensures { result ≡ word2 b.now i }
{
    u32::from(u16::from_le_bytes([b[i], b[i + 1]]))
}

// The four bytes from i on, little-endian.
pub fn le32(b: &[u8], i: usize) -> u32
    requires { i + 3 < length b.now }
    ensures { result ≡ word4 b.now i }
{
    u32::from_le_bytes([b[i], b[i + 1], b[i + 2], b[i + 3]])
}

// A word, read as two's complement.
pub fn signed_of(word: u32) -> i32
    ensures { result ≡ to_z w32 word }
{
    word.cast_signed()
}

// A coordinate's word, read as two's complement, plus 1,000,000: above 2,000,000 where it lies outside its range.
pub fn biased(word: u32) -> u32
    ensures { result ≡ biased_of word }
{
    word.wrapping_add(1000000)
}

// The run in a body.
fn run_of(body: &[u8]) -> Run
    requires { 18 ≤ length body.now }
    ensures { result ≡ run_body body.now }
{
    Run {
        number: le16(body, 0),
        x1: biased(le32(body, 2)),
        y1: biased(le32(body, 6)),
        x2: biased(le32(body, 10)),
        y2: biased(le32(body, 14)),
    }
}

// The record of this kind whose body the bytes begin with.
#[tactic(auto, unfolding(crate::specs::Records::decoded))]
fn decode(kind: u8, body: &[u8]) -> Record
    ensures { result ≡ decoded kind body.now }
{
    match kind {
        0x48 if body.len() >= 4 => Record::Head(le32(body, 0)),
        0x52 if body.len() >= 18 => Record::Run(run_of(body)),
        0x5A if body.len() >= 2 => Record::End(le16(body, 0)),
        0x48 | 0x52 | 0x5A => Record::Cut,
        _ => Record::Unknown,
    }
}

// The record at a place. Its body is handed on as the part of the job after the kind byte.
fn record_at(job: &[u8], at: usize) -> Record
    ensures { result ≡ record_of (drop at job.now) }
{
    if at >= job.len() {
        return Record::Cut;
    }
    decode(job[at], &job[at + 1..])
}

// A run number is in its range and above the one before.
fn number_follows(last: u32, number: u32) -> bool
    ensures { result ≡ follows last number }
{
    (1..=9999).contains(&number) & (last < number)
}

// All four coordinates are in their range. With `&` the compiler makes one comparison of the four, with `&&` a jump each.
fn coordinates_in(run: Run) -> bool
    ensures { result ≡ coordinates_in run }
{
    (run.x1 <= 2000000) & (run.y1 <= 2000000) & (run.x2 <= 2000000) & (run.y2 <= 2000000)
}

// The two points of a run are one.
pub fn coincide(run: Run) -> bool
    ensures { result ≡ coincide run }
{
    (run.x1 == run.x2) & (run.y1 == run.y2)
}

// A run record at a place, after n runs of which the last has the number last: one more run, or a refusal.
#[tactic(auto, unfolding(crate::specs::Parse::run_step))]
fn run_step(run: Run, at: usize, n: usize, last: u32) -> Result<Option<Run>, Refusal>
    ensures { result ≡ run_step at n last run }
{
    if n >= 32 {
        return Err(Refusal::TooManyRuns(at));
    }
    if !number_follows(last, run.number) {
        return Err(Refusal::WrongNumber(at));
    }
    if !coordinates_in(run) {
        return Err(Refusal::OutOfRange(at));
    }
    if coincide(run) {
        return Err(Refusal::Coincident(at));
    }
    Ok(Some(run))
}

// An end record at a place, after n runs: no more run, or a refusal.
#[tactic(auto, unfolding(crate::specs::Parse::end_step))]
fn end_step(count: u32, job: &[u8], at: usize, n: usize) -> Result<Option<Run>, Refusal>
    requires { at ≤ length job.now }
    ensures { result ≡ end_step at n count (drop at job.now) }
{
    if count as usize != n {
        return Err(Refusal::WrongCount(at));
    }
    if 3 < job.len() - at {
        return Err(Refusal::Misplaced(at + 3));
    }
    Ok(None)
}

// The record at a place, after n runs of which the last has the number last: one more run, none at the end of the job, or a refusal.
#[tactic(auto, unfolding(crate::specs::Parse::step_by))]
fn step_at(job: &[u8], at: usize, n: usize, last: u32) -> Result<Option<Run>, Refusal>
    requires { at ≤ length job.now }
    ensures { result ≡ step_of at n last (drop at job.now) }
{
    let record = record_at(job, at);
    let Record::Run(run) = record else {
        return match record {
            Record::Unknown => Err(Refusal::UnknownKind(at)),
            Record::Cut => Err(Refusal::Cut(at)),
            Record::Run(_) => unreachable!(),
            Record::Head(_) => Err(Refusal::Misplaced(at)),
            Record::End(count) => end_step(count, job, at, n),
        };
    };
    run_step(run, at, n, last)
}

// The number in a job's head, which is the first record.
fn head_number(job: &[u8]) -> Result<u32, Refusal>
    ensures { result ≡ head_number (record_of job.now) }
{
    match record_at(job, 0) {
        Record::Unknown => Err(Refusal::UnknownKind(0)),
        Record::Cut => Err(Refusal::Cut(0)),
        Record::Head(number) => Ok(number),
        Record::Run(_) | Record::End(_) => Err(Refusal::Misplaced(0)),
    }
}

// The place of an answer, 0 where the job is accepted.
pub fn place_of(answer: Result<(), Refusal>) -> usize
    ensures { result ≡ answer_place answer }
{
    match answer {
        Ok(_) => 0,
        Err(refusal) => refusal::place(refusal),
    }
}

// The job of number 0 with no run.
pub fn empty_job() -> Job
    ensures { result ≡ job_of 0 [] }
{
    let none = Spans {
        first: [0; 32],
        second: [0; 32],
    };
    Job {
        number: 0,
        count: 0,
        numbers: [0; 32],
        x: none,
        y: none,
    }
}

impl Job {
    // A run behind the n others.
    fn add(&mut self, n: usize, run: Run)
        requires { (n ≡ self.old.count) × (n < 32) }
        ensures { self.new ≡ with_run self.old run }
    {
        self.numbers[n] = run.number;
        self.x.first[n] = run.x1;
        self.y.first[n] = run.y1;
        self.x.second[n] = run.x2;
        self.y.second[n] = run.y2;
        self.count = n + 1;
    }
}

// Reads a job into one whose arrays are zeros, or gives the first refusal of 3 to 9 and 17 that applies. Of a job that is refused, the runs before the refusal
// stand there. Nothing is loaded from the job that is lent: where its caller wants the answer alone, the compiler leaves the zeros out.
pub fn read_into(bytes: &[u8], job: &mut Job) -> Result<(), Refusal>
    requires { Blank job.old }
    ensures { ReadsInto bytes.now result job.new }
{
    job.number = 0;
    job.count = 0;
    job.number = head_number(bytes)?;
    let mut at: usize = 5;
    let mut n: usize = 0;
    let mut last: u32 = 0;
    while let Some(run) = step_at(bytes, at, n, last)? {
        job.add(n, run);
        at += 19;
        n += 1;
        last = run.number;
    }
    Ok(())
}

// Reads a job: the job, or the first refusal of 3 to 9 and 17 that applies.
pub fn read(bytes: &[u8]) -> Result<Job, Refusal>
    ensures { Reads bytes.now result }
{
    let mut job = empty_job();
    read_into(bytes, &mut job)?;
    Ok(job)
}
