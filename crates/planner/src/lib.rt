// The planner: a job's bytes into the bytes of a least plan.
#![tactic(auto)]

pub mod codes;
pub mod meetings;
mod survey;
mod writer;

ghost use Rattle.std.specs.Prelude.{◌≡◌, ℕ, ◌+◌, ◌*◌, ◌≤◌, length};
ghost use Rattle.intersection.specs.Centres.{meets_in, neighbour_sets};
ghost use Rattle.job.specs.Parse.{accepted};
ghost use Rattle.job.specs.Reading.{place_said};
ghost use Rattle.table.specs.Rule.{Beyond};
ghost use Rattle.planner.specs.Call.{runs_of, gives, said, Plans};
ghost use Rattle.planner.specs.Forecast.{words_for, needs_of};
ghost use Rattle.planner.specs.Verdict.{foretold_by, forecast_of, Words, judged, weighed, verdict};
ghost use Rattle.planner.specs.Outcome.{Outcome, MapOutcome, LentOutcome};
ghost use Rattle.planner.specs.Held.{runs_in, Held};
ghost use Rattle.planner.specs.Stages.{Surveyed, Lent, Settled, Scratch, Ample};

use job::Job;
use refusal::Refusal;
use table::side::Survey;

// What a forecast tells of a well-formed job: the work words and the bytes that it needs.
#[derive(Clone, Copy)]
pub struct Needs {
    pub words: usize,
    pub bytes: usize,
}

// A job whose groups are stars, its surveys on both axes, the runs that each run meets, and the centre of each run's group. All of it is lent: handed on by value, it
// would be copied.
#[derive(Clone, Copy)]
pub struct Grouped<'a> {
    pub job: &'a Job,
    pub x: &'a Survey,
    pub y: &'a Survey,
    pub neighbours: &'a [u32; 32],
    pub centres: &'a [usize; 32],
}

// ---- from a job to its plan

// Lays the routes in lent bytes and writes the plan; the answer is its length. The work words are left as the last table leaves them.
fn plan_routes(
    grouped: &Grouped,
    routes: &mut [u8],
    marks: &mut [u8],
    work: &mut [u32],
    out: &mut [u8],
) -> usize
    requires { Settled grouped.now × Lent grouped.now.job.now work.old out.old × Scratch grouped.now routes.old marks.old }
    ensures { Plans grouped.now.job.now.number (runs_in grouped.now.job.now) out.old (gives result) out.new
        × Beyond work.old work.new (words_for (runs_of (runs_in grouped.now.job.now))) }
{
    let stride = grouped.x.axis.count + grouped.y.axis.count;
    let saved = laying::lay(
        grouped.x,
        grouped.y,
        grouped.job.count,
        grouped.centres,
        grouped.neighbours,
        work,
        routes,
        stride,
    );
    writer::write(grouped, saved, &*routes, marks, out)
}

// In N bytes of its own each for the steps of the routes and for the marks: to set more to 0 than a job needs takes longer than to lay its routes.
fn plan_within<const N: usize>(grouped: &Grouped, work: &mut [u32], out: &mut [u8]) -> usize
    requires { Settled grouped.now × Lent grouped.now.job.now work.old out.old × Ample grouped.now N × (N ≤ 4096) }
    ensures { Plans grouped.now.job.now.number (runs_in grouped.now.job.now) out.old (gives result) out.new
        × Beyond work.old work.new (words_for (runs_of (runs_in grouped.now.job.now))) }
{
    let mut routes = [0u8; N];
    let mut marks = [0u8; N];
    plan_routes(grouped, &mut routes, &mut marks, work, out)
}

// The plan of a job whose groups are stars, and its length: 256 bytes are enough for 8 runs, and 4,096 for every job.
fn plan_stars(grouped: &Grouped, work: &mut [u32], out: &mut [u8]) -> usize
    requires { Settled grouped.now × Lent grouped.now.job.now work.old out.old }
    ensures { Plans grouped.now.job.now.number (runs_in grouped.now.job.now) out.old (gives result) out.new
        × Beyond work.old work.new (words_for (runs_of (runs_in grouped.now.job.now))) }
{
    if (grouped.x.axis.count <= 16) & (grouped.y.axis.count <= 16) & (grouped.job.count <= 8) {
        return plan_within::<256>(grouped, work, out);
    }
    plan_within::<4096>(grouped, work, out)
}

// The plan of a well-formed job, unless some group of its runs is no star. Its words are cleared.
fn plan_groups(
    job: &Job,
    x: &Survey,
    y: &Survey,
    neighbours: &[u32; 32],
    work: &mut [u32],
    out: &mut [u8],
) -> Result<usize, Refusal>
    requires { Held job.now × Surveyed job.now x.now y.now × Lent job.now work.old out.old
        × (neighbours.now ≡ neighbour_sets (meets_in (runs_of (runs_in job.now))) job.now.count) }
    ensures { Outcome (judged (accepted job.now.number (runs_in job.now))) out.old (said result) out.new
        × Words (foretold_by (accepted job.now.number (runs_in job.now))) (said result) work.old work.new }
{
    let Some(centres) = intersection::finder::centres_of(neighbours, job.count) else {
        return Err(Refusal::NoStar);
    };
    let grouped = Grouped {
        job,
        x,
        y,
        neighbours,
        centres: &centres,
    };
    let length = plan_stars(&grouped, work, out);
    let words = survey::words_for(x, y);
    work[..words].fill(0);
    Ok(length)
}

// The plan of a well-formed job, unless fewer words or bytes are lent than it needs, or some group of its runs is no star. The places of the runs hold the sides of
// their boxes first.
fn plan_job(job: &Job, work: &mut [u32], out: &mut [u8]) -> Result<usize, Refusal>
    requires { Held job.now }
    ensures { Outcome (weighed (foretold_by (accepted job.now.number (runs_in job.now))) (length work.old) (length out.old)
        (judged (accepted job.now.number (runs_in job.now)))) out.old (said result) out.new
        × Words (foretold_by (accepted job.now.number (runs_in job.now))) (said result) work.old work.new }
{
    let mut x = Survey::new();
    let mut y = Survey::new();
    let mut neighbours = [0u32; 32];
    intersection::find_neighbours(
        &job.x,
        &job.y,
        job.count,
        &mut neighbours,
        &mut x.places,
        &mut y.places,
    );
    survey::lay_out(job, &mut x, &mut y);
    if work.len() < survey::words_for(&x, &y) {
        return Err(Refusal::ShortWork);
    }
    if out.len() < survey::bytes_for(job.count, &x.places, &y.places) {
        return Err(Refusal::ShortBuffer);
    }
    plan_groups(job, &x, &y, &neighbours, work, out)
}

// Plans a job: the plan stands in the first bytes of `out`, and the words of `work` that the forecast tells are cleared; or the call is refused and
// changes nothing.
pub fn plan(job: &[u8], work: &mut [u32], out: &mut [u8]) -> Result<usize, Refusal>
    ensures { Outcome (verdict job.now (length work.old) (length out.old)) out.old (said result) out.new
        × Words (forecast_of job.now) (said result) work.old work.new }
{
    let mut read = job::empty_job();
    job::read_into(job, &mut read)?;
    plan_job(&read, work, out)
}

// ---- the forecast

// What a well-formed job needs.
fn needs_of(job: &Job) -> Needs
    requires { job.now.count ≤ 32 }
    ensures { result ≡ needs_of (runs_of (runs_in job.now)) }
{
    let mut x = Survey::new();
    let mut y = Survey::new();
    survey::lay_out(job, &mut x, &mut y);
    Needs {
        words: survey::words_for(&x, &y),
        bytes: survey::bytes_for(job.count, &x.places, &y.places),
    }
}

// What planning a job needs, or why it is not well formed.
pub fn forecast(job: &[u8]) -> Result<Needs, Refusal>
    ensures { result ≡ forecast_of job.now }
{
    let mut read = job::empty_job();
    job::read_into(job, &mut read)?;
    Ok(needs_of(&read))
}

// ---- with work words of its own

// In N words, no fewer than a job of the runs that its length allows can need: to set more to 0 takes longer than to plan a small job.
fn plan_with<const N: usize>(job: &[u8], out: &mut [u8]) -> Result<usize, Refusal>
    requires { ((n : ℕ) → n ≤ 32 → length job.now ≡ 8 + 19 * n → (n + n) * (n + n) * 4 ≤ N) × (N ≤ 16384) }
    ensures { Outcome (verdict job.now 16384 (length out.old)) out.old (said result) out.new }
{
    let mut work = [0u32; N];
    plan(job, &mut work, out)
}

// By the job's length: a job of n runs has 8 + 19 n bytes.
fn plan_own(job: &[u8], out: &mut [u8]) -> Result<usize, Refusal>
    ensures { Outcome (verdict job.now 16384 (length out.old)) out.old (said result) out.new }
{
    match job.len() {
        0..=160 => plan_with::<1024>(job, out),
        161..=312 => plan_with::<4096>(job, out),
        313..=464 => plan_with::<9216>(job, out),
        _ => plan_with::<16384>(job, out),
    }
}

// ---- for C

// Plans a job for the map screen: the plan's length, or minus the refusal number. It has work words of its own.
pub fn plan_for_map(job: &[u8], out: &mut [u8]) -> i32
    ensures { MapOutcome (verdict job.now 16384 (length out.old)) out.old result out.new }
{
    codes::answer_code(plan_own(job, out))
}

// The same in lent work words.
pub fn plan_in(job: &[u8], work: &mut [u32], out: &mut [u8]) -> i32
    ensures { LentOutcome job.now work.old out.old result work.new out.new }
{
    codes::answer_code(plan(job, work, out))
}

// The place of the refusal that planning a job tells, whatever is lent; 0 where it tells none.
pub fn place_for_map(job: &[u8]) -> usize
    ensures { (work out : ℕ) → result ≡ place_said (verdict job.now work out) }
{
    let mut read = job::empty_job();
    job::place_of(job::read_into(job, &mut read))
}
