// The corners of a route, taken one behind the other.
ghost use Rattle.std.specs.Prelude.{◌≤◌, length, MatchResult};
ghost use Rattle.book.specs.Shape.{Runs, Breaks};

use crate::steps::step_at;
use crate::{Run, Step, Walk};
use refusal::Refusal;

// Takes the corners from a place on, up to the record that is none, or is refused.
pub fn run_from(book: &[u8], at: usize, w: Walk) -> Result<Run, Refusal>
    requires { at ≤ length book.now }
    ensures { MatchResult result (Runs book.now at w) (Breaks book.now at w) }
{
    let mut to = at;
    let mut walk = w;
    loop {
        match step_at(book, to, walk)? {
            Step::Corner(c) => {
                walk = walk.pass(c);
                to += 9;
            }
            Step::Route(_) => {
                return Ok(Run {
                    at: to,
                    walk,
                    end: None,
                });
            }
            Step::End(total) => {
                return Ok(Run {
                    at: to,
                    walk,
                    end: Some(total),
                });
            }
        }
    }
}
