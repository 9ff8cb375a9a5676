// The centre's frame: columns and rows counted from its first point to its second, with the sets of leaves from which the owner of an edge is found.
ghost use Rattle.std.specs.Prelude.{◌≡◌, cond, ℕ, suc, ◌+◌, ◌-◌, ◌^◌, ◌≤◌, ◌<◌, length, get_or};
ghost use Rattle.network.specs.Plane.{gap};
ghost use Rattle.grid.specs.Lines.{length_at};
ghost use Rattle.intersection.specs.Sets.{pack};
ghost use Rattle.table.specs.Side.{Placed, Rises, side_by};
ghost use Rattle.table.specs.Frame.{line_in, group_of, line_of, lower_of, frame_line, ahead, goes_down, crosses, FrameLines, Grouped};

use crate::side::Survey;
use job::Spans;

// A line of the frame: the leaves whose box has it, those whose box has the line before it too (none at the first line), and the length of the edge from that line.
#[derive(Clone, Copy)]
pub struct Line {
    pub on: u32,
    pub into: u32,
    pub len: u32,
}

// A centre's frame: the lines of its w columns and h rows, and the leaves that slope the other way than the centre.
#[derive(Clone, Copy)]
pub struct Frame {
    pub cols: [Line; 64],
    pub rows: [Line; 64],
    pub cross: u32,
    pub w: usize,
    pub h: usize,
}

impl Frame {
    // No column and no row.
    pub fn new() -> Frame
        ensures { (length result.cols ≡ 64) × (length result.rows ≡ 64) }
    {
        let none = Line {
            on: 0,
            into: 0,
            len: 0,
        };
        Frame {
            cols: [none; 64],
            rows: [none; 64],
            cross: 0,
            w: 0,
            h: 0,
        }
    }

    // The frame of the centre and its leaves, of n runs.
    pub fn put_group(&mut self, x: &Survey, y: &Survey, n: usize, centre: usize, leaves: u32)
        requires { (n ≤ 32) × Placed x.now.places.first x.now.places.second n × Placed y.now.places.first y.now.places.second n × (centre < n)
            × Rises x.now.axis.lines (get_or x.now.places.first centre 0) (get_or x.now.places.second centre 0)
            × Rises y.now.axis.lines (get_or y.now.places.first centre 0) (get_or y.now.places.second centre 0)
            × (length self.old.cols ≡ 64) × (length self.old.rows ≡ 64) }
        ensures { Grouped (side_by x.now) (side_by y.now) n centre leaves (group_of self.new)
            × (length self.new.cols ≡ 64) × (length self.new.rows ≡ 64) }
    {
        self.w = lines_of(x, n, leaves, centre, &mut self.cols);
        self.h = lines_of(y, n, leaves, centre, &mut self.rows);
        self.cross = crossing(&x.places, &y.places, n, centre);
    }
}

// The lower one of the lines after i and after i + 1 steps.
fn lower_of(p: usize, q: usize, i: usize) -> usize
    requires { (p < 64) × (q < 64) × (i < gap p q) }
    ensures { (result ≡ lower_of p q i) × (result < 64) }
{
    if q < p { p - (i + 1) } else { p + i }
}

// Line i of the frame, of which the array holds the leaves already, and those of the line before it: with the length between the two.
fn line_at(t: &[Line; 64], lines: &[u32; 64], p: usize, q: usize, i: usize) -> Line
    requires { (p < 64) × (q < 64) × (i ≤ gap p q) × (i < 64) × Rises lines.now p q }
    ensures { ((on : ℕ → ℕ) → (line_in t.now i).on ≡ on (line_of p q i) → (line_in t.now (i - 1)).on ≡ on (line_of p q (i - 1))
        → result ≡ frame_line on (length_at lines.now) p q i)
        × (result.on ≡ (line_in t.now i).on) }
{
    let on = t[i].on;
    if i == 0 {
        return Line {
            on,
            into: 0,
            len: 0,
        };
    }
    let low = lower_of(p, q, i - 1);
    Line {
        on,
        into: on & t[i - 1].on,
        len: lines[low + 1] - lines[low],
    }
}

// The lines of the frame from position p to position q, whose leaves the array holds already, and how many there are.
fn frame_lines(lines: &[u32; 64], p: usize, q: usize, t: &mut [Line; 64]) -> usize
    requires { (p < 64) × (q < 64) × Rises lines.now p q × (length t.old ≡ 64) }
    ensures { (length t.new ≡ 64) × (result ≡ suc (gap p q))
        × ((on : ℕ → ℕ) → ((i : ℕ) → i ≤ gap p q → (line_in t.old i).on ≡ on (line_of p q i))
        → (i : ℕ) → i ≤ gap p q → line_in t.new i ≡ frame_line on (length_at lines.now) p q i) }
{
    let size = p.abs_diff(q) + 1;
    for i in 0..size {
        t[i] = line_at(&*t, lines, p, q, i);
    }
    size
}

// The lines of the centre's frame on one axis, and how many there are.
fn lines_of(side: &Survey, n: usize, leaves: u32, centre: usize, t: &mut [Line; 64]) -> usize
    requires { (n ≤ 32) × Placed side.now.places.first side.now.places.second n × (centre < n)
        × Rises side.now.axis.lines (get_or side.now.places.first centre 0) (get_or side.now.places.second centre 0) × (length t.old ≡ 64) }
    ensures { (length t.new ≡ 64) × (result ≡ suc (gap (get_or side.now.places.first centre 0) (get_or side.now.places.second centre 0)))
        × FrameLines (side_by side.now) n leaves centre (line_in t.new) }
{
    let p = side.places.first[centre] as usize;
    let q = side.places.second[centre] as usize;
    crate::side::leaves_on(&side.places, n, leaves, p, q, t);
    frame_lines(&side.axis.lines, p, q, t)
}

// From position p to position q it goes ahead on an axis, which may be counted back.
fn goes_ahead(back: bool, p: u32, q: u32) -> bool
    ensures { result ≡ ahead back p q }
{
    if back { q < p } else { p < q }
}

// A run from (a, b) to (c, d), taken from its left end, goes down in the frame.
fn goes_down(u: bool, v: bool, a: u32, b: u32, c: u32, d: u32) -> bool
    ensures { result ≡ goes_down u v a b c d }
{
    (goes_ahead(u, a, c) & goes_ahead(v, d, b)) | (goes_ahead(u, c, a) & goes_ahead(v, b, d))
}

// The set s, of numbers below k, with k if the test holds.
fn with_bit(s: u32, k: usize, test: bool) -> u32
    requires { (k < 32) × (s < 2 ^ k) }
    ensures { result ≡ cond test (2 ^ k) 0 + s }
{
    if test { (1u32 << k) + s } else { s }
}

// The runs that go down in the frame of the centre.
fn crossing(x: &Spans, y: &Spans, n: usize, centre: usize) -> u32
    requires { (n ≤ 32) × (centre < n) }
    ensures { result ≡ pack (crosses x.now.first x.now.second y.now.first y.now.second centre) n }
{
    let u = x.second[centre] < x.first[centre];
    let v = y.second[centre] < y.first[centre];
    let mut s: u32 = 0;
    for k in 0..n {
        let down = goes_down(u, v, x.first[k], y.first[k], x.second[k], y.second[k]);
        s = with_bit(s, k, down);
    }
    s
}
