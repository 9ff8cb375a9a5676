// The runs of a job on one axis: where their points stand among the axis' lines, and which leaves' boxes have a line of the centre's frame.
ghost use Rattle.std.specs.Prelude.{◌≡◌, cond, ◌&&◌, [], ℕ, ◌+◌, ◌^◌, ◌≤◌, ◌<◌, length, replicate};
ghost use Rattle.network.specs.Plane.{gap};
ghost use Rattle.grid.specs.Lines.{axis_of};
ghost use Rattle.intersection.specs.Sets.{has};
ghost use Rattle.table.specs.Side.{PlacesOf, Placed, covers, leaves_on};
ghost use Rattle.table.specs.Frame.{line_in, line_of};

use crate::frame::Line;
use grid::Axis;
use job::Spans;

// A job on one axis: its lines, and the positions of its runs' points among them.
#[derive(Clone, Copy)]
pub struct Survey {
    pub axis: Axis,
    pub places: Spans,
}

impl Survey {
    // No line and no place.
    pub fn new() -> Survey
        ensures { result ≡ record { axis = axis_of []; places = record { first = replicate 32 0; second = replicate 32 0 } } }
    {
        Survey {
            axis: Axis::new(),
            places: Spans {
                first: [0; 32],
                second: [0; 32],
            },
        }
    }

    // Puts the places of n runs' values among the lines.
    pub fn place(&mut self, values: &Spans, n: usize)
        requires { (self.old.axis.count ≤ 64) × (n ≤ 32) × (length self.old.places.first ≡ 32) × (length self.old.places.second ≡ 32) }
        ensures { PlacesOf self.old.axis.lines self.old.axis.count values.now.first n self.new.places.first
            × PlacesOf self.old.axis.lines self.old.axis.count values.now.second n self.new.places.second
            × (self.new.axis ≡ self.old.axis) × (length self.new.places.first ≡ 32) × (length self.new.places.second ≡ 32) }
    {
        for k in 0..n {
            let at = self.axis.positions(values.first[k], values.second[k]);
            self.places.first[k] = at.first;
            self.places.second[k] = at.second;
        }
    }
}

// The sets with one more member, which has the bit given and is in none of them, at the frame's lines from lo to hi. They are few, and a `for` over
// them would become a loop of four lines at a time and one for the rest.
fn spread(t: &mut [Line; 64], bit: u32, lo: usize, hi: usize)
    requires { (length t.old ≡ 64) × (lo ≤ hi) × (hi < 64) × ((i : ℕ) → i ≤ hi → bit + (line_in t.old i).on < 2 ^ 32) }
    ensures { (length t.new ≡ 64) × ((i : ℕ) → (line_in t.new i).on ≡ cond (covers lo hi i) bit 0 + (line_in t.old i).on) }
{
    let mut i = lo;
    while i <= hi {
        t[i].on = bit + t[i].on;
        i += 1;
    }
}

// The sets with one more member at those of the frame's lines, from position p to position q, that the box from a to b has.
fn put_box(t: &mut [Line; 64], bit: u32, a: usize, b: usize, p: usize, q: usize)
    requires { (length t.old ≡ 64) × (p < 64) × (q < 64) × ((i : ℕ) → i ≤ gap p q → bit + (line_in t.old i).on < 2 ^ 32) }
    ensures { (length t.new ≡ 64)
        × ((i : ℕ) → i ≤ gap p q → (line_in t.new i).on ≡ cond (covers a b (line_of p q i)) bit 0 + (line_in t.old i).on) }
{
    let lo = a.min(b).max(p.min(q));
    let hi = a.max(b).min(p.max(q));
    if hi < lo {
        return;
    }
    if q < p {
        spread(t, bit, p - hi, p - lo);
        return;
    }
    spread(t, bit, lo - p, hi - p)
}

// The sets with run k, which is above their members, if it is a leaf; its points are at positions a and b.
fn put_run(t: &mut [Line; 64], leaves: u32, k: usize, a: usize, b: usize, p: usize, q: usize)
    requires { (length t.old ≡ 64) × (k < 32) × (p < 64) × (q < 64) × ((i : ℕ) → i ≤ gap p q → (line_in t.old i).on < 2 ^ k) }
    ensures { (length t.new ≡ 64)
        × ((i : ℕ) → i ≤ gap p q → (line_in t.new i).on ≡ cond (has leaves k && covers a b (line_of p q i)) (2 ^ k) 0 + (line_in t.old i).on) }
{
    if intersection::sets::member(leaves, k) {
        put_box(t, 1u32 << k, a, b, p, q);
    }
}

// For each line of the frame from position p to position q, the leaves whose box has it.
pub fn leaves_on(places: &Spans, n: usize, leaves: u32, p: usize, q: usize, t: &mut [Line; 64])
    requires { (n ≤ 32) × Placed places.now.first places.now.second n × (p < 64) × (q < 64) × (length t.old ≡ 64) }
    ensures { (length t.new ≡ 64)
        × ((i : ℕ) → i ≤ gap p q → (line_in t.new i).on ≡ leaves_on places.now.first places.now.second n leaves (line_of p q i)) }
{
    let size = p.abs_diff(q) + 1;
    for i in 0..size {
        t[i].on = 0;
    }
    for k in 0..n {
        let a = places.first[k] as usize;
        let b = places.second[k] as usize;
        put_run(t, leaves, k, a, b, p, q);
    }
}
