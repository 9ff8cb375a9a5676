// Which runs of a job meet, and the centre of each run's group.
#![tactic(auto)]

pub mod finder;
pub mod sets;

ghost use Rattle.std.specs.Prelude.{◌≡◌, ◌≤◌, ◌<◌, replicate};
ghost use Rattle.grid.specs.Runs.{runs_held};
ghost use Rattle.network.specs.Graph.{below, degree};
ghost use Rattle.intersection.specs.Cases.{Common, Makes, meeting};
ghost use Rattle.intersection.specs.Centres.{meets_in, neighbour_sets, joined_in};
ghost use Rattle.intersection.specs.Steps.{no_sides, sides_of, box_at, Compared, AllCompared};

use job::Spans;

// The smallest upright rectangle that holds a run's two points.
#[derive(Clone, Copy)]
pub struct Box {
    pub left: u32,
    pub right: u32,
    pub low: u32,
    pub high: u32,
}

// What two boxes have in common, as a person draws it.
#[derive(Clone, Copy)]
pub enum Case {
    Apart,
    OnePoint,
    LinePiece,
    Area,
}

// Puts the sides of the first n runs' boxes on one axis, the lower of each run's two values and the higher, among zeros.
fn box_sides(spans: &Spans, n: usize, sides: &mut Spans)
    requires { (n ≤ 32) × (sides.old ≡ no_sides) }
    ensures { sides.new ≡ sides_of spans.now n }
{
    for i in 0..n {
        let a = spans.first[i];
        let b = spans.second[i];
        sides.first[i] = a.min(b);
        sides.second[i] = a.max(b);
    }
}

fn box_at(wide: &Spans, high: &Spans, i: usize) -> Box
    requires { i < 32 }
    ensures { result ≡ box_at wide.now high.now i }
{
    Box {
        left: wide.first[i],
        right: wide.second[i],
        low: high.first[i],
        high: high.second[i],
    }
}

// The case that the common points of two boxes make.
pub fn case_of(a: Box, b: Box) -> Case
    ensures { Makes (Common a b) result }
{
    let left = a.left.max(b.left);
    let right = a.right.min(b.right);
    let low = a.low.max(b.low);
    let high = a.high.min(b.high);
    if (right < left) | (high < low) {
        return Case::Apart;
    }
    if (left == right) & (low == high) {
        return Case::OnePoint;
    }
    if (left == right) | (low == high) {
        return Case::LinePiece;
    }
    Case::Area
}

// Two different runs meet whose boxes are in this case.
fn is_meeting(case: Case) -> bool
    ensures { result ≡ meeting case }
{
    matches!(case, Case::LinePiece | Case::Area)
}

// Runs i and j are compared: where they meet, each is put into the set of the other.
fn compare(wide: &Spans, high: &Spans, i: usize, j: usize, neighbours: &mut [u32; 32])
    requires { (j < i) × (i < 32) }
    ensures { Compared (box_at wide.now high.now) i j neighbours.old neighbours.new }
{
    let a = box_at(wide, high, i);
    let b = box_at(wide, high, j);
    if is_meeting(case_of(a, b)) {
        neighbours[i] = sets::add(neighbours[i], j);
        neighbours[j] = sets::add(neighbours[j], i);
    }
}

// Run i is compared with each run before it.
fn compare_all(wide: &Spans, high: &Spans, i: usize, neighbours: &mut [u32; 32])
    requires { i < 32 }
    ensures { AllCompared (box_at wide.now high.now) i neighbours.old neighbours.new }
{
    for j in 0..i {
        compare(wide, high, i, j, neighbours);
    }
}

// Puts the set of the runs that each of the first n runs meets among zeros, and the sides of their boxes on both axes too. Each pair is compared once:
// 496 comparisons for 32 runs.
pub fn find_neighbours(
    x: &Spans,
    y: &Spans,
    n: usize,
    sets: &mut [u32; 32],
    wide: &mut Spans,
    high: &mut Spans,
)
    requires { (n ≤ 32) × (sets.old ≡ replicate 32 0) × (wide.old ≡ no_sides) × (high.old ≡ no_sides) }
    ensures { (sets.new ≡ neighbour_sets (meets_in (runs_held x.now.first y.now.first x.now.second y.now.second n)) n)
        × (wide.new ≡ sides_of x.now n) × (high.new ≡ sides_of y.now n) }
{
    box_sides(x, n, wide);
    box_sides(y, n, high);
    for i in 0..n {
        compare_all(&*wide, &*high, i, sets);
    }
}

// The same sets by value.
pub fn neighbours(x: &Spans, y: &Spans, n: usize) -> [u32; 32]
    requires { n ≤ 32 }
    ensures { result ≡ neighbour_sets (meets_in (runs_held x.now.first y.now.first x.now.second y.now.second n)) n }
{
    let mut sets = [0; 32];
    let mut wide = Spans {
        first: [0; 32],
        second: [0; 32],
    };
    let mut high = wide;
    find_neighbours(x, y, n, &mut sets, &mut wide, &mut high);
    sets
}

// How many runs run i meets.
pub fn meets_of(neighbours: &[u32; 32], i: usize) -> u32
    requires { i < 32 }
    ensures { (result ≡ degree (joined_in neighbours.now) (below 32) i) × (result ≤ 32) }
{
    sets::size(neighbours[i])
}
