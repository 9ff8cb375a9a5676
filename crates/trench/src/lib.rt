// The functions for C: what planning a job needs, planning it, writing a job book from its runs, reading a plan book, and choosing between two of them.
// include/trench.h says what each is lent and leaves.
#![tactic(auto)]

ghost use Rattle.std.specs.Prelude.{◌≡◌, ◌≤◌, ◌<◌, ℕ, length};
ghost use Rattle.job.specs.Reading.{place_said};
ghost use Rattle.job_writer.specs.Call.{call_of};
ghost use Rattle.planner.specs.Verdict.{forecast_of, verdict};
ghost use Rattle.planner.specs.Outcome.{MapOutcome, LentOutcome};
ghost use Rattle.book.specs.Parse.{parse_plan};
ghost use Rattle.book.specs.Reading.{figures_of, places_of, route_by, corner_by};
ghost use Rattle.choice.specs.Choice.{choice_of, place_of as choice_place};
ghost use Rattle.trench.specs.Words.{Filled};
ghost use Rattle.trench.specs.Jobs.{outcome_code, outcome_place};
ghost use Rattle.trench.specs.Needed.{words_code, bytes_code};
ghost use Rattle.trench.specs.Told.{code_of, place_of, kind_of, figure_words, route_words, spot_words};
ghost use Rattle.trench.specs.Chosen.{choice_code};

use choice::Chosen;
use planner::codes::answer_code;

// The work words that planning a job needs, or minus the refusal number.
#[unsafe(no_mangle)]
pub extern "C" fn trench_words(job: &[u8]) -> i32
    ensures { result ≡ words_code (forecast_of job.now) }
{
    answer_code(planner::forecast(job).map(|needs| needs.words))
}

// The bytes of a plan buffer that planning a job needs, or minus the refusal number.
#[unsafe(no_mangle)]
pub extern "C" fn trench_bytes(job: &[u8]) -> i32
    ensures { result ≡ bytes_code (forecast_of job.now) }
{
    answer_code(planner::forecast(job).map(|needs| needs.bytes))
}

// Plans a job: the plan's length, or minus the refusal number.
#[unsafe(no_mangle)]
pub extern "C" fn trench_plan(job: &[u8], out: &mut [u8]) -> i32
    ensures { MapOutcome (verdict job.now 16384 (length out.old)) out.old result out.new }
{
    planner::plan_for_map(job, out)
}

// The same in lent work words.
#[unsafe(no_mangle)]
pub extern "C" fn trench_plan_in(job: &[u8], work: &mut [u32], out: &mut [u8]) -> i32
    ensures { LentOutcome job.now work.old out.old result work.new out.new }
{
    planner::plan_in(job, work, out)
}

// The place of the refusal of a job, whatever is lent; 0 where it has none.
#[unsafe(no_mangle)]
pub extern "C" fn trench_plan_place(job: &[u8]) -> usize
    ensures { (work out : ℕ) → result ≡ place_said (verdict job.now work out) }
{
    planner::place_for_map(job)
}

// Writes the job book of a number and a list of runs: its length, or minus the refusal number.
#[unsafe(no_mangle)]
pub extern "C" fn trench_job(number: u32, runs: &[i32], out: &mut [u8]) -> i32
    ensures { (result ≡ outcome_code (call_of number runs.now out.old).says)
        × (out.new ≡ (call_of number runs.now out.old).out) }
{
    answer_code(job_writer::write(number, runs, out))
}

// The place of the refusal of a list of runs, with this buffer; 0 where it has none.
#[unsafe(no_mangle)]
pub extern "C" fn trench_job_place(number: u32, runs: &[i32], out: &[u8]) -> usize
    ensures { result ≡ outcome_place (call_of number runs.now out.now).says }
{
    job::place_of(job_writer::check(runs, out.len()))
}

// Reads a plan book: its number of routes, or minus the refusal number.
#[unsafe(no_mangle)]
pub extern "C" fn trench_read(book: &[u8]) -> i32
    ensures { result ≡ code_of (parse_plan book.now) }
{
    answer_code(book::read(book).map(|reading| reading.head.runs as usize))
}

// The place of a plan book's refusal, 0 where it has none.
#[unsafe(no_mangle)]
pub extern "C" fn trench_read_place(book: &[u8]) -> usize
    ensures { result ≡ place_of (parse_plan book.now) }
{
    job::place_of(book::read(book).map(|_| ()))
}

// Puts words at the front of those that are lent, and says how many: none where there is no room for all.
fn fill<T: Copy>(words: &[T], lent: &mut [T]) -> usize
    ensures { Filled words.now lent.old lent.new result }
{
    let n = words.len();
    if lent.len() < n {
        return 0;
    }
    lent[..n].copy_from_slice(words);
    n
}

// The kind of a head.
fn kind_of(grouped: bool) -> u32
    ensures { result ≡ kind_of grouped }
{
    if grouped { 0x51 } else { 0x50 }
}

// The figures of a plan book: job, runs, trench, saved, pits, groups or centre, and the kind of its head.
#[unsafe(no_mangle)]
pub extern "C" fn trench_figures(book: &[u8], figures: &mut [u32]) -> usize
    ensures { Filled (figure_words (figures_of (parse_plan book.now))) figures.old figures.new result }
{
    let Some(head) = book::figures_of(book) else {
        return 0;
    };
    let words = [
        head.job,
        head.runs,
        head.trench,
        head.saved,
        head.pits,
        head.last,
        kind_of(head.grouped),
    ];
    fill(&words, figures)
}

// The places of a plan book's routes, of its end, and zeros.
#[unsafe(no_mangle)]
pub extern "C" fn trench_places(book: &[u8], places: &mut [u32]) -> usize
    ensures words { Filled (places_of (parse_plan book.now)) places.old places.new result }
    ensures count { (33 ≤ length places.old → result ≡ 33) × (length places.old < 33 → result ≡ 0) }
{
    match book::read(book) {
        Ok(reading) => fill(&reading.places, places),
        Err(_) => fill(&[0; 33], places),
    }
}

// Route i of a plan book by its places: run number, meets, corners, centre.
#[unsafe(no_mangle)]
pub extern "C" fn trench_route(book: &[u8], places: &[u32], i: usize, route: &mut [u32]) -> usize
    ensures { Filled (route_words (route_by book.now places.now i)) route.old route.new result }
{
    let Some(found) = book::route_in(book, places, i) else {
        return 0;
    };
    fill(
        &[found.number, found.meets, found.corners, found.centre],
        route,
    )
}

// Corner j of route i of a plan book by its places: x, y in decimetres.
#[unsafe(no_mangle)]
pub extern "C" fn trench_corner(
    book: &[u8],
    places: &[u32],
    i: usize,
    j: usize,
    corner: &mut [i32],
) -> usize
    ensures { Filled (spot_words (corner_by book.now places.now i j)) corner.old corner.new result }
{
    let Some(found) = book::corner_in(book, places, i, j) else {
        return 0;
    };
    fill(&[found.x, found.y], corner)
}

// Which of two plan books of a job is to be staked from: 1 or 2, or minus the refusal number.
#[unsafe(no_mangle)]
pub extern "C" fn trench_choose(job: &[u8], first: &[u8], second: &[u8]) -> i32
    ensures { result ≡ choice_code (choice_of job.now first.now second.now) }
{
    match choice::which(job, first, second) {
        Ok(Chosen::First) => 1,
        Ok(Chosen::Second) => 2,
        Err(refusal) => planner::codes::code_of(refusal),
    }
}

// The place of the refusal of a job and two plan books, 0 where it has none.
#[unsafe(no_mangle)]
pub extern "C" fn trench_choose_place(job: &[u8], first: &[u8], second: &[u8]) -> usize
    ensures { result ≡ choice_place (choice_of job.now first.now second.now) }
{
    choice::refusal_of(job, first, second).map_or(0, refusal::place)
}
