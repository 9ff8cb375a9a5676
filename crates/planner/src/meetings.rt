// Which runs of a job meet.
ghost use Rattle.std.specs.Prelude.{◌≡◌, ◌≤◌};
ghost use Rattle.intersection.specs.Centres.{meets_in, neighbour_sets};
ghost use Rattle.planner.specs.Call.{runs_of};
ghost use Rattle.planner.specs.Held.{runs_in};

use job::Job;

// The sets of the runs that each run of a job meets.
pub fn neighbours_of(j: &Job) -> [u32; 32]
    requires { j.now.count ≤ 32 }
    ensures { result ≡ neighbour_sets (meets_in (runs_of (runs_in j.now))) j.now.count }
{
    intersection::neighbours(&j.x, &j.y, j.count)
}
