// The table of best sharing: four words a vertex, row after row, in the lent work words.
ghost use Rattle.std.specs.Prelude.{◌≡◌, ◌+◌, ◌-◌, ◌*◌, ◌^◌, ◌≤◌, ◌<◌, length};
ghost use Rattle.sharing.specs.Table.{plus};
ghost use Rattle.table.specs.Frame.{group_of};
ghost use Rattle.table.specs.Rule.{pair_of, edge_by, unless_own, if_own, rule_of, start_of, Ruled, figure_of, Fit, Beyond, four, enter_of, into_of, Light, Near, cell_in};

use crate::frame::{Frame, Line};

// The edge along one direction that ends at a vertex: its two words, the set whose one member is its owner, and its length.
#[derive(Clone, Copy)]
pub struct Edge {
    pub best: u32,
    pub run: u32,
    pub own: u32,
    pub len: u32,
}

// The two words of an edge.
#[derive(Clone, Copy)]
pub struct Pair {
    pub best: u32,
    pub run: u32,
}

// The words of the two edges that end at a vertex.
#[derive(Clone, Copy)]
pub struct Cell {
    pub hor: Pair,
    pub ver: Pair,
}

// len more, but 0 stays 0.
fn plus_len(x: u32, len: u32) -> u32
    requires { x + len < 2 ^ 32 }
    ensures { (result ≡ plus x len) × (result ≤ x + len) }
{
    if x == 0 { 0 } else { x + len }
}

// The best word, or 0 if the edge has the owner o.
pub fn unless_own(e: Edge, o: u32) -> u32
    ensures { (result ≡ unless_own e o) × (result ≤ e.best) }
{
    if e.own == o { 0 } else { e.best }
}

// The run word if the edge has the owner o, or 0.
fn if_own(e: Edge, o: u32) -> u32
    ensures { (result ≡ if_own e o) × (result ≤ e.run) }
{
    if e.own == o { e.run } else { 0 }
}

// The words of the edge along d that ends at position p.
pub fn pair_at(work: &[u32], p: usize, d: usize) -> Pair
    requires { (p * 4 + 3 < length work.now) × (d < 2) × (p < 4096) }
    ensures { result ≡ pair_of work.now p d }
{
    let i = p * 4 + d * 2;
    Pair {
        best: work[i],
        run: work[i + 1],
    }
}

// An edge with these words, by its line along and its line across: one AND gives the owner.
pub fn edge_by(x: Pair, along: Line, across: Line) -> Edge
    ensures { result ≡ edge_by x along across }
{
    Edge {
        best: x.best,
        run: x.run,
        own: across.on & along.into,
        len: along.len,
    }
}

// The words of an edge with the owner o and the length len, from the edges along and across that end where it begins. In this order of the values the compiler joins the two
// tests of the owner of the edge along: in another, filling took up to a quarter longer.
fn rule(along: Edge, across: Edge, start: u32, o: u32, len: u32, cross: u32) -> Pair
    requires { (along.best < 2 ^ 31) × (along.run < 2 ^ 31) × (across.best < 2 ^ 31) × (start < 2 ^ 31) × (len < 2 ^ 31) }
    ensures { result ≡ rule_of along across start o len cross }
{
    let all = start.max(across.best).max(along.best);
    if o == 0 {
        return Pair { best: all, run: 0 };
    }
    if o & cross == 0 {
        return Pair {
            best: plus_len(all, len),
            run: 0,
        };
    }
    let new = start.max(unless_own(across, o)).max(unless_own(along, o));
    let run = plus_len(if_own(along, o).max(new), len);
    Pair {
        best: run.max(all),
        run,
    }
}

// 1 at the first position, where the walk starts.
fn start_at(p: usize) -> u32
    ensures { (result ≡ start_of p) × (result ≤ 1) }
{
    if p == 0 { 1 } else { 0 }
}

// The words of an edge that ends on line s along its direction: none where s is 0. It begins where edges along and across with the words x and y end.
fn enter(
    s: usize,
    x: Pair,
    y: Pair,
    start: u32,
    along: Line,
    before: Line,
    across: Line,
    cross: u32,
) -> Pair
    requires { (s ≡ 0 → ⊥) → Light x y start along.len }
    ensures { result ≡ enter_of s x y start along before across cross }
{
    if s == 0 {
        return Pair { best: 0, run: 0 };
    }
    let a = edge_by(x, before, across);
    let c = edge_by(y, across, before);
    rule(a, c, start, across.on & along.into, along.len, cross)
}

// The words of the edge along the column into position p, in row b.
fn from_below(
    work: &[u32],
    w: usize,
    b: usize,
    p: usize,
    row: Line,
    below: Line,
    col: Line,
    cross: u32,
) -> Pair
    requires { Near work.now b w p 1 row.len }
    ensures { result ≡ into_of work.now b w p 1 row below col cross }
{
    if b == 0 {
        return Pair { best: 0, run: 0 };
    }
    let u = p - w;
    let x = pair_at(work, u, 1);
    let y = pair_at(work, u, 0);
    enter(b, x, y, start_at(u), row, below, col, cross)
}

// The words of the edge along the row into position p, in column a. The last cell is handed on, so that it is not read back from the work words.
fn from_left(a: usize, p: usize, last: Cell, col: Line, left: Line, row: Line, cross: u32) -> Pair
    requires { (a ≡ 0 → ⊥) → (1 ≤ p) × Light last.hor last.ver (start_of (p - 1)) col.len }
    ensures { result ≡ enter_of a last.hor last.ver (start_of (p - 1)) col left row cross }
{
    if a == 0 {
        return Pair { best: 0, run: 0 };
    }
    let x = last.hor;
    let y = last.ver;
    enter(a, x, y, start_at(p - 1), col, left, row, cross)
}

// The four words of the vertex at position p.
fn put(work: &mut [u32], p: usize, x: Pair, y: Pair)
    requires { (p * 4 + 3 < length work.old) × (p < 4096) }
    ensures { work.new ≡ four work.old (p * 4) x y }
{
    let k = p * 4;
    work[k] = x.best;
    work[k + 1] = x.run;
    work[k + 2] = y.best;
    work[k + 3] = y.run;
}

// The vertex in column a and row b, at position p: left and below are the lines before its column and its row, last is the cell before it.
fn vertex(
    work: &mut [u32],
    w: usize,
    a: usize,
    b: usize,
    p: usize,
    last: Cell,
    col: Line,
    left: Line,
    row: Line,
    below: Line,
    cross: u32,
) -> Cell
    requires { Near work.old a 1 p 0 col.len × Near work.old b w p 1 row.len × ((a ≡ 0 → ⊥) → last ≡ cell_in work.old (p - 1)) }
    ensures { (work.new ≡ four work.old (p * 4) result.hor result.ver)
        × (result.hor ≡ into_of work.old a 1 p 0 col left row cross) × (result.ver ≡ into_of work.old b w p 1 row below col cross) }
{
    let x = from_left(a, p, last, col, left, row, cross);
    let y = from_below(&*work, w, b, p, row, below, col, cross);
    put(work, p, x, y);
    Cell { hor: x, ver: y }
}

// The same for a vertex that is on neither the first column nor the first row: neither edge into it begins where the walk starts.
fn inner_vertex(
    work: &mut [u32],
    w: usize,
    a: usize,
    b: usize,
    p: usize,
    last: Cell,
    col: Line,
    left: Line,
    row: Line,
    below: Line,
    cross: u32,
) -> Cell
    requires { Near work.old a 1 p 0 col.len × Near work.old b w p 1 row.len × (last ≡ cell_in work.old (p - 1)) × (1 ≤ a) × (1 ≤ b) × (1 ≤ w) × (w < p) }
    ensures { (work.new ≡ four work.old (p * 4) result.hor result.ver)
        × (result.hor ≡ into_of work.old a 1 p 0 col left row cross) × (result.ver ≡ into_of work.old b w p 1 row below col cross) }
{
    let u = p - w;
    let x = enter(a, last.hor, last.ver, 0, col, left, row, cross);
    let along = pair_at(&*work, u, 1);
    let across = pair_at(&*work, u, 0);
    let y = enter(b, along, across, 0, row, below, col, cross);
    put(work, p, x, y);
    Cell { hor: x, ver: y }
}

// The table of the group, in the first 4 * h * w work words: the first row, then of each further row the first vertex and the others.
pub fn fill(work: &mut [u32], g: &Frame)
    requires { Fit (group_of g.now) work.old }
    ensures { Ruled (group_of g.now) work.new × Beyond work.old work.new (g.now.h * g.now.w * 4) }
{
    let w = g.w;
    let h = g.h;
    let cross = g.cross;
    let zero = Pair { best: 0, run: 0 };
    let none = Cell {
        hor: zero,
        ver: zero,
    };
    let first = g.cols[0];
    let base = g.rows[0];
    let mut lead = none;
    for p in 0..w {
        let col = g.cols[p];
        let left = g.cols[p.saturating_sub(1)];
        let cell = vertex(work, w, p, 0, p, lead, col, left, base, base, cross);
        lead = cell;
    }
    let mut p = w;
    for b in 1..h {
        let row = g.rows[b];
        let below = g.rows[b - 1];
        let mut last = vertex(work, w, 0, b, p, none, first, first, row, below, cross);
        p += 1;
        for a in 1..w {
            let col = g.cols[a];
            let left = g.cols[a - 1];
            let cell = inner_vertex(work, w, a, b, p, last, col, left, row, below, cross);
            last = cell;
            p += 1;
        }
    }
}

// What the best walk to the last vertex shares.
pub fn figure_of(work: &[u32], g: &Frame) -> u32
    requires { (1 ≤ g.now.w) × (1 ≤ g.now.h) × (g.now.h * g.now.w * 4 ≤ length work.now) }
    ensures { result ≡ figure_of g.now.w g.now.h work.now }
{
    let p = g.h * g.w - 1;
    let i = p * 4;
    let n = work[i].max(work[i + 2]).max(start_at(p));
    n.saturating_sub(1)
}
