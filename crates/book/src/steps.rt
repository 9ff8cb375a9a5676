// What a record after the head says.
ghost use Rattle.std.specs.Prelude.{◌≡◌, ◌≤◌, length, drop};
ghost use Rattle.book.specs.Parse.{in_range, no_turn, corner_step, step_of};

use crate::{Corner, Route, Step, Walk};
use records::Record;
use refusal::Refusal;

fn in_range(c: Corner) -> bool
    ensures { result ≡ in_range c }
{
    (c.x <= 2000000) & (c.y <= 2000000)
}

// Whether a corner is equal to the one before it, or shares neither its x nor its y, or is on one row or column with both of the two before it.
fn no_turn(w: Walk, c: Corner) -> bool
    ensures { result ≡ no_turn w c }
{
    if w.corners < 1 {
        return false;
    }
    let same_x = w.last.x == c.x;
    let same_y = w.last.y == c.y;
    if same_x == same_y {
        return true;
    }
    if w.corners < 2 {
        return false;
    }
    w.upright == same_x
}

// A corner record at a place: 12, then 8, then 13.
fn corner_step(at: usize, w: Walk, c: Corner) -> Result<Step, Refusal>
    ensures { result ≡ corner_step at w c }
{
    if (w.routes == 0) | (w.corners >= 127) {
        return Err(Refusal::NotWhole(at));
    }
    if !in_range(c) {
        return Err(Refusal::OutOfRange(at));
    }
    if no_turn(w, c) {
        return Err(Refusal::NoTurn(at));
    }
    Ok(Step::Corner(c))
}

// The record at a place, after the head.
pub fn step_at(book: &[u8], at: usize, w: Walk) -> Result<Step, Refusal>
    requires { at ≤ length book.now }
    ensures { result ≡ step_of at w (drop at book.now) }
{
    match records::first_record(&book[at..]) {
        Record::Route {
            grouped,
            number,
            meets,
            corners,
            centre,
        } => {
            if (grouped != w.grouped) | (w.routes >= 32) {
                return Err(Refusal::NotWhole(at));
            }
            Ok(Step::Route(Route {
                number,
                meets,
                corners,
                centre,
            }))
        }
        Record::Corner { x, y } => corner_step(
            at,
            w,
            Corner {
                x: job::biased(x),
                y: job::biased(y),
            },
        ),
        Record::End(total) => {
            if 3 < book.len() - at {
                return Err(Refusal::NotWhole(at + 3));
            }
            Ok(Step::End(total))
        }
        Record::Head(_) | Record::Other => Err(Refusal::NotWhole(at)),
    }
}
