// The figures of a book's head and routes, compared with those of the job.
ghost use Rattle.std.specs.Prelude.{◌≡◌, true, ◌&&◌, List, ◌≤◌, eqb, get_or};
ghost use Rattle.network.specs.Lists.{every};
ghost use Rattle.network.specs.Graph.{below};
ghost use Rattle.plan.specs.Plan.{Entry};
ghost use Rattle.planner.specs.Held.{runs_in, Held};
ghost use Rattle.judge.specs.Judged.{entry_at, is_of};
ghost use Rattle.judge.specs.Steps.{ReadAs};

use crate::Known;
use book::Reading;
use job::Job;

// Whether a book carries the job's number, its run count, and its run numbers in order.
pub fn is_of(book: &[u8], reading: &Reading, job: &Job) -> bool
    requires { Held job.now × ((es : List Entry) × ReadAs book.now reading.now es) }
    ensures { (es : List Entry) → ReadAs book.now reading.now es → result ≡ is_of job.now.number (runs_in job.now) reading.now.head es }
{
    if reading.head.job != job.number || book::wide(reading.head.runs) != job.count {
        return false;
    }
    for i in 0..job.count {
        let at = book::wide(reading.places[i]);
        if job::le16(book, at + 1) != job.numbers[i] {
            return false;
        }
    }
    true
}

// Whether the routes of a book of the newer kinds carry the meets figures and the centres that are known.
pub fn are_those(book: &[u8], reading: &Reading, known: &Known) -> bool
    requires { (known.now.job.count ≤ 32) × (reading.now.head.runs ≡ known.now.job.count) × (reading.now.head.grouped ≡ true)
        × ((es : List Entry) × ReadAs book.now reading.now es) }
    ensures { (es : List Entry) → ReadAs book.now reading.now es
        → result ≡ every (λ i. eqb (entry_at es i).meets (get_or known.now.meets i 0) && eqb (entry_at es i).centre (get_or known.now.centres i 0))
        (below known.now.job.count) }
{
    for i in 0..known.job.count {
        let at = book::wide(reading.places[i]);
        if job::le16(book, at + 3) != known.meets[i]
            || job::le16(book, at + 7) != known.centres[i]
        {
            return false;
        }
    }
    true
}
