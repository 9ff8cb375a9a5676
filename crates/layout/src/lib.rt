// From a centre's moves to the route of a run of its group, as steps on the grid's lines. A run is known by its index, and its points by the indexes of their
// lines on the two axes (`xs` and `ys`). The centre's moves are the trace of the table: steps (0 along the row, any other along the column), and for each
// the leaf that it is shared with (32 or above: none).
#![tactic(auto)]

ghost use Rattle.std.specs.Prelude.{◌≡◌, cond, List, [], map, reverse, ℕ, ◌+◌, ◌≤◌, ◌<◌, length, get_or};
ghost use Rattle.network.specs.Plane.{gap};
ghost use Rattle.network.specs.Steps.{hor, ver};
ghost use Rattle.sharing.specs.View.{index};
ghost use Rattle.sharing.specs.Leaf.{turn_if};
ghost use Rattle.route.specs.Route.{dir_of};
ghost use Rattle.table.specs.Side.{side_of};
ghost use Rattle.table.specs.Walk.{trace_of, moves_of};
ghost use Rattle.layout.specs.Points.{OnLines, number_of, points_of};
ghost use Rattle.layout.specs.Stretch.{along_row, grown};
ghost use Rattle.layout.specs.Way.{way_of, passes_forth, leg_of};
ghost use Rattle.layout.specs.Laid.{Longer, route_to, Ready, Stretched, Laid};

use job::Spans;
use table::trace::Trace;

// The moves that are shared with a leaf: `size` moves from index `from` on. Of the moves before them `across` go along the row, and of themselves
// `wide`.
#[derive(Clone, Copy)]
pub struct Stretch {
    pub from: u8,
    pub size: u8,
    pub across: u8,
    pub wide: u8,
}

// The points of a run on one axis, by the indexes of their lines.
#[derive(Clone, Copy)]
pub struct Ends {
    pub first: u32,
    pub second: u32,
}

// The points of a run on both axes.
#[derive(Clone, Copy)]
pub struct Points {
    pub x: Ends,
    pub y: Ends,
}

// A leaf's way along one axis: how many steps lead to its stretch, how many lead on from it, and if it goes as the centre does.
#[derive(Clone, Copy)]
pub struct Way {
    pub before: usize,
    pub after: usize,
    pub forward: bool,
}

// ---- steps that grow

// Writes the steps of a part of a walk at index `at` on, and gives the index behind them.
fn forth(to: &mut [u8], at: usize, part: &[u8]) -> usize
    requires { at + length part.now ≤ length to.old }
    ensures { Longer to.old at (length part.now) (map dir_of part.now) to.new result }
{
    let end = at + part.len();
    to[at..end].copy_from_slice(part);
    end
}

// The same steps, the last one first.
fn back(to: &mut [u8], at: usize, part: &[u8]) -> usize
    requires { at + length part.now ≤ length to.old }
    ensures { Longer to.old at (length part.now) (reverse (map dir_of part.now)) to.new result }
{
    let size = part.len();
    for i in 0..size {
        to[at + i] = part[size - 1 - i];
    }
    at + size
}

// A step of a leg, along the row or along the column.
fn leg_step(row: bool) -> u8
    ensures { dir_of result ≡ cond row hor ver }
{
    if row { 0 } else { 1 }
}

// Writes steps along the row and then along the column. One loop: a loop for each direction would become a call for a few bytes.
fn leg(to: &mut [u8], at: usize, across: usize, up: usize) -> usize
    requires { at + (across + up) ≤ length to.old }
    ensures { Longer to.old at (across + up) (leg_of across up) to.new result }
{
    let n = across + up;
    for i in 0..n {
        to[at + i] = leg_step(i < across);
    }
    at + n
}

// Which way a run that goes `right` along the row and `up` along the column passes a stretch that begins with the step.
fn passes_forth(step: u8, right: bool, up: bool) -> bool
    ensures { result ≡ passes_forth step right up }
{
    if step == 0 { right } else { up }
}

// Writes the steps of a stretch.
fn along(to: &mut [u8], at: usize, part: &[u8], right: bool, up: bool) -> usize
    requires { (0 < length part.now) × (at + length part.now ≤ length to.old) }
    ensures { Longer to.old at (length part.now) (turn_if (passes_forth (get_or part.now 0 0) right up) (map dir_of part.now)) to.new result }
{
    if passes_forth(part[0], right, up) {
        return forth(to, at, part);
    }
    back(to, at, part)
}

// ---- where the moves shared with each leaf stand

// How many columns a step passes.
pub fn along_row(step: u8) -> u8
    ensures { (result ≡ along_row step) × (result ≤ 1) }
{
    if step == 0 { 1 } else { 0 }
}

impl Stretch {
    // The stretch with the move i more, before which `across` moves go along the row.
    pub fn with_move(self, i: u8, across: u8, step: u8) -> Self
        requires { (self.size < 255) × (self.wide < 255) }
        ensures { result ≡ grown self i across step }
    {
        let wide = self.wide + along_row(step);
        let size = self.size + 1;
        if self.size == 0 {
            return Stretch {
                from: i,
                size,
                across,
                wide,
            };
        }
        Stretch { size, wide, ..self }
    }
}

// ---- the ways of a run

// The number of a line in the centre's view: lines are counted as the centre goes.
fn number(flip: bool, i: u32) -> usize
    requires { i < 64 }
    ensures { (result ≡ index flip 64 i) × (result < 64) }
{
    let i = i as usize;
    if flip { 63 - i } else { i }
}

// From line p to line q by way of a stretch that begins at line `near` and goes n lines along the axis.
fn way_by(p: usize, q: usize, near: usize, n: usize) -> Way
    requires { (near < 512) × (n < 512) }
    ensures { result ≡ way_of p q near n }
{
    let far = near + n;
    if p <= q {
        return Way {
            before: p.abs_diff(near),
            after: far.abs_diff(q),
            forward: true,
        };
    }
    Way {
        before: p.abs_diff(far),
        after: near.abs_diff(q),
        forward: false,
    }
}

// The way of a leaf along one axis, by a stretch of n lines before which the centre passes so many.
fn way_of(centre: Ends, leaf: Ends, passed: usize, n: usize) -> Way
    requires { OnLines centre × OnLines leaf × (passed ≤ 128) × (n ≤ 128) }
    ensures { result ≡ way_of (number_of centre leaf.first) (number_of centre leaf.second) (number_of centre centre.first + passed) n }
{
    let flip = centre.second < centre.first;
    let near = number(flip, centre.first) + passed;
    let p = number(flip, leaf.first);
    let q = number(flip, leaf.second);
    way_by(p, q, near, n)
}

// ---- the routes

impl Points {
    // The points of run k, by its places on the two axes.
    pub fn of(x: &Spans, y: &Spans, k: usize) -> Self
        requires { k < 32 }
        ensures { result ≡ points_of (side_of x.now.first x.now.second []) (side_of y.now.first y.now.second []) k }
    {
        Points {
            x: Ends {
                first: x.first[k],
                second: x.second[k],
            },
            y: Ends {
                first: y.first[k],
                second: y.second[k],
            },
        }
    }
}

// Writes the steps of a leaf by way of the stretch that it shares with the centre.
fn leaf_route(centre: Points, leaf: Points, trace: &Trace, s: Stretch, to: &mut [u8])
    requires { (length trace.now.steps ≡ 128) × ((route_to to.old leaf).count ≤ length to.old)
        × ((c : ℕ) × (k : ℕ) × (shares : List ℕ) × (count : ℕ) × Stretched centre leaf c (moves_of (trace_of trace.now.steps shares count)) k s) }
    ensures { ((c k : ℕ) (shares : List ℕ) (count : ℕ) → Stretched centre leaf c (moves_of (trace_of trace.now.steps shares count)) k s
        → Laid centre leaf c (moves_of (trace_of trace.now.steps shares count)) k to.new) × (length to.new ≡ length to.old) }
{
    let from = s.from as usize;
    let size = s.size as usize;
    let across = s.across as usize;
    let wide = s.wide as usize;
    let x = way_of(centre.x, leaf.x, across, wide);
    let y = way_of(centre.y, leaf.y, from - across, size - wide);
    let at = leg(to, 0, x.before, y.before);
    let at = along(
        to,
        at,
        &trace.steps[from..from + size],
        x.forward,
        y.forward,
    );
    leg(to, at, x.after, y.after);
}

// How many lines a run passes along an axis.
fn extent(run: Ends) -> usize
    requires { OnLines run }
    ensures { (result ≡ gap run.first run.second) × (result ≤ 63) }
{
    run.first.abs_diff(run.second) as usize
}

// Writes the steps of run k, with the index c of the centre, by the trace's steps, whatever shares go with them. A leaf that shares nothing goes along
// the row, then the column.
pub fn route_of(
    centre: Points,
    run: Points,
    c: usize,
    k: usize,
    trace: &Trace,
    s: Stretch,
    to: &mut [u8],
)
    requires { (length trace.now.steps ≡ 128) × ((route_to to.old run).count ≤ length to.old)
        × ((shares : List ℕ) × Ready centre run c (moves_of (trace_of trace.now.steps shares trace.now.count)) k s) }
    ensures { ((shares : List ℕ) → Ready centre run c (moves_of (trace_of trace.now.steps shares trace.now.count)) k s
        → Laid centre run c (moves_of (trace_of trace.now.steps shares trace.now.count)) k to.new) × (length to.new ≡ length to.old) }
{
    if k == c {
        forth(to, 0, &trace.steps[..trace.count]);
        return;
    }
    if s.size == 0 {
        leg(to, 0, extent(run.x), extent(run.y));
        return;
    }
    leaf_route(centre, run, trace, s, to)
}
