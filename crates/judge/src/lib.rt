// Judges a plan book for a job (document 02, C-17): whether it is a book of the job, and true.
#![tactic(auto)]

mod compared;
mod routes;

ghost use Rattle.std.specs.Prelude.{◌≡◌, List};
ghost use Rattle.plan.specs.Plan.{Entry};
ghost use Rattle.book.specs.Parse.{accepted, parse_plan};
ghost use Rattle.planner.specs.Held.{runs_in};
ghost use Rattle.planner.specs.Stages.{Leased};
ghost use Rattle.judge.specs.Judged.{of_book, judgement_of, is_true};
ghost use Rattle.judge.specs.Steps.{ReadAs, Knows};

use book::Reading;
use grid::Axis;
use job::Job;
use refusal::Refusal;

// What is known of a job before a book of it is looked at: the meets figure of each run, the run number of its group's centre, the number of groups, the sum of
// the runs' distances, and the lines.
#[derive(Clone, Copy)]
pub struct Known {
    pub job: Job,
    pub meets: [u32; 32],
    pub centres: [u32; 32],
    pub groups: usize,
    pub total: u32,
    pub columns: Axis,
    pub rows: Axis,
}

// What is known of a job whose groups are stars with the given centres.
pub fn known_of(j: &Job, neighbours: &[u32; 32], centres: &[usize; 32]) -> Known
    requires { Leased j.now neighbours.now centres.now }
    ensures { (result.job ≡ j.now) × Knows result }
{
    let groups = intersection::finder::count_groups(centres, j.count);
    let mut meets = [0u32; 32];
    figures::tell_meets(neighbours, j.count, &mut meets);
    let mut middles = [0u32; 32];
    figures::tell_centres(&j.numbers, centres, j.count, &mut middles);
    let total = figures::total_distance(&j.x, &j.y, j.count);
    let columns = Axis::of(&j.x, j.count);
    let rows = Axis::of(&j.y, j.count);
    Known {
        job: *j,
        meets,
        centres: middles,
        groups,
        total,
        columns,
        rows,
    }
}

// A refusal of a book, with the book for its place.
fn of_book(refusal: Refusal, place: usize) -> Refusal
    ensures { result ≡ of_book place refusal }
{
    match refusal {
        Refusal::ShortWork => Refusal::ShortWork,
        Refusal::ShortBuffer => Refusal::ShortBuffer,
        Refusal::Cut(_) => Refusal::Cut(place),
        Refusal::UnknownKind(_) => Refusal::UnknownKind(place),
        Refusal::Misplaced(_) => Refusal::Misplaced(place),
        Refusal::WrongCount(_) => Refusal::WrongCount(place),
        Refusal::WrongNumber(_) => Refusal::WrongNumber(place),
        Refusal::OutOfRange(_) => Refusal::OutOfRange(place),
        Refusal::TooManyRuns(_) => Refusal::TooManyRuns(place),
        Refusal::NoStar => Refusal::NoStar,
        Refusal::NotWhole(_) => Refusal::NotWhole(place),
        Refusal::NoTurn(_) => Refusal::NoTurn(place),
        Refusal::Miscounted(_) => Refusal::Miscounted(place),
        Refusal::OtherJob(_) => Refusal::OtherJob(place),
        Refusal::Untrue(_) => Refusal::Untrue(place),
        Refusal::Coincident(_) => Refusal::Coincident(place),
    }
}

// Whether a book of the job is true: its kinds, the figures of its runs, and what is measured on its routes.
fn is_true(book: &[u8], reading: &Reading, known: &Known) -> bool
    requires { Knows known.now × ((es : List Entry) × ReadAs book.now reading.now es) × (reading.now.head.runs ≡ known.now.job.count) }
    ensures { (es : List Entry) → ReadAs book.now reading.now es → result ≡ is_true (runs_in known.now.job) reading.now.head es }
{
    if !reading.head.grouped {
        return false;
    }
    if !compared::are_those(book, reading, known) {
        return false;
    }
    if book::wide(reading.head.last) != known.groups {
        return false;
    }
    routes::are_measured(book, reading, known)
}

// A book that was read is judged.
fn judge_read(book: &[u8], reading: &Reading, place: usize, known: &Known) -> Result<u32, Refusal>
    requires { Knows known.now × ((es : List Entry) × ReadAs book.now reading.now es) }
    ensures { (es : List Entry) → ReadAs book.now reading.now es
        → result ≡ judgement_of known.now.job.number (runs_in known.now.job) place (accepted reading.now.head es) }
{
    if !compared::is_of(book, reading, &known.job) {
        return Err(Refusal::OtherJob(place));
    }
    if !is_true(book, reading, known) {
        return Err(Refusal::Untrue(place));
    }
    Ok(reading.head.trench)
}

// Judges a book, the first of a call or the second, for the job that is known: its trench figure, or why it is refused.
pub fn judge(book: &[u8], place: usize, known: &Known) -> Result<u32, Refusal>
    requires { Knows known.now }
    ensures { result ≡ judgement_of known.now.job.number (runs_in known.now.job) place (parse_plan book.now) }
{
    match book::read(book) {
        Ok(reading) => judge_read(book, &reading, place, known),
        Err(refusal) => Err(of_book(refusal, place)),
    }
}
