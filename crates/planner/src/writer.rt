// The plan of a lease: the figures of its routes, and the bytes.
ghost use Rattle.std.specs.Prelude.{◌≡◌, ◌≤◌, length};
ghost use Rattle.fields.specs.Bytes.{Wrote};
ghost use Rattle.plan.specs.Plan.{head_of};
ghost use Rattle.laying.specs.Lease.{Layout, drawn_by, LaidOut};
ghost use Rattle.planner.specs.Call.{runs_of, plan_of};
ghost use Rattle.planner.specs.Forecast.{bytes_for};
ghost use Rattle.planner.specs.Held.{runs_in};
ghost use Rattle.planner.specs.Stages.{Settled, Scratch, laid_by, own_of, Heading};

use crate::Grouped;
use job::Job;
use plan::{Figures, Head};
use route::Routes;

// The figures of the head, from the number of groups, the sum of the runs' distances, what the routes save, and their pits.
fn head_of(job: &Job, groups: usize, total: u32, saved: u32, pits: usize) -> Head
    requires { (laid : Layout) × Heading job.now groups total saved pits laid }
    ensures { (laid : Layout) → Heading job.now groups total saved pits laid → result ≡ head_of job.now.number (runs_of (runs_in job.now)) (own_of (runs_of (runs_in job.now)) laid) }
{
    Head {
        grouped: true,
        job: job.number,
        runs: (job.count % 65536) as u32,
        trench: total - saved,
        saved,
        pits: (pits % 65536) as u32,
        last: (groups % 65536) as u32,
    }
}

// Writes the plan of the routes, whose steps stand in the lent bytes, and says its length. Their vertices are marked in bytes that are 0.
pub fn write(grouped: &Grouped, saved: u64, steps: &[u8], marks: &mut [u8], out: &mut [u8]) -> usize
    requires { Settled grouped.now × LaidOut (runs_of (runs_in grouped.now.job.now)) (laid_by saved steps.now grouped.now)
        × Scratch grouped.now steps.now marks.old × (bytes_for (runs_of (runs_in grouped.now.job.now)) ≤ length out.old) }
    ensures { Wrote (plan_of grouped.now.job.now.number (runs_in grouped.now.job.now) (drawn_by (runs_of (runs_in grouped.now.job.now)) (laid_by saved steps.now grouped.now)))
        out.old out.new result }
{
    let job = grouped.job;
    let x = grouped.x;
    let y = grouped.y;
    let routes = Routes {
        steps,
        stride: x.axis.count + y.axis.count,
        x: &x.places,
        y: &y.places,
        count: job.count,
    };
    let mut corners = [0usize; 32];
    let pits = route::mark_routes(&routes, marks, x.axis.count, &mut corners);
    let groups = intersection::finder::count_groups(grouped.centres, job.count);
    let total = figures::total_distance(&job.x, &job.y, job.count);
    let head = head_of(job, groups, total, saved as u32, pits);
    let mut meets = [0u32; 32];
    let mut middles = [0u32; 32];
    figures::tell_meets(grouped.neighbours, job.count, &mut meets);
    figures::tell_centres(&job.numbers, grouped.centres, job.count, &mut middles);
    let figures = Figures {
        numbers: &job.numbers,
        meets: &meets,
        centres: &middles,
        corners: &corners,
    };
    plan::write_plan(out, head, &figures, &routes, &x.axis.lines, &y.axis.lines)
}
