// The lines of a job, the places of its runs' points among them, and what its forecast counts of both.
ghost use Rattle.std.specs.Prelude.{◌≡◌, ◌+◌, ◌*◌, ◌≤◌};
ghost use Rattle.planner.specs.Stages.{Blank, Surveyed, Within, steps_on};

use job::{Job, Spans};
use table::side::Survey;

// Puts the lines of a job on both axes among zeros, and the places of its runs' points among them. The axes take turns: a line waits for the one before it on its axis.
pub fn lay_out(job: &Job, x: &mut Survey, y: &mut Survey)
    requires { (job.now.count ≤ 32) × Blank x.old × Blank y.old }
    ensures { Surveyed job.now x.new y.new }
{
    for i in 0..job.count {
        x.axis.add_run(&job.x, i);
        y.axis.add_run(&job.y, i);
    }
    x.place(&job.x, job.count);
    y.place(&job.y, job.count);
}

// The words that planning needs: four for each vertex.
pub fn words_for(x: &Survey, y: &Survey) -> usize
    requires { (x.now.axis.count ≤ 64) × (y.now.axis.count ≤ 64) }
    ensures { result ≡ x.now.axis.count * y.now.axis.count * 4 }
{
    x.axis.count * y.axis.count * 4
}

// How many steps from line to line n runs pass on one axis, together, from the places of their points.
fn steps_on(n: usize, places: &Spans) -> usize
    requires { (n ≤ 32) × Within places.now n }
    ensures { (result ≡ steps_on places.now n) × (result ≤ 64 * n) }
{
    let mut sum: usize = 0;
    for k in 0..n {
        sum += places.first[k].abs_diff(places.second[k]) as usize;
    }
    sum
}

// The bytes that the plan of n runs needs: a run's box is touched by one column and one row more than the run passes steps on the two axes.
pub fn bytes_for(n: usize, x: &Spans, y: &Spans) -> usize
    requires { (n ≤ 32) × Within x.now n × Within y.now n }
    ensures { result ≡ 22 + 18 * n + 9 * (steps_on x.now n + steps_on y.now n) }
{
    22 + 18 * n + 9 * (steps_on(n, x) + steps_on(n, y))
}
