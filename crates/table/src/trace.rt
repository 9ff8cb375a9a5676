// The walk back through the table: the centre's steps, and for each step the leaf with which it is shared.
ghost use Rattle.std.specs.Prelude.{◌≡◌, pred, ◌+◌, ◌-◌, ◌*◌, ◌≤◌, ◌<◌, length};
ghost use Rattle.table.specs.Frame.{group_of};
ghost use Rattle.table.specs.Rule.{Fit};
ghost use Rattle.table.specs.Walk.{taken_by, chosen, begins_with, before_of, arrive_of, up_no, share_no, moves_of, walked};

use crate::fill::{Edge, edge_by, pair_at, unless_own};
use crate::frame::{Frame, Line};

// An edge of the walk: its direction, and if it is taken as part of a stretch with its owner.
#[derive(Clone, Copy)]
pub struct Taken {
    pub ver: bool,
    pub run: bool,
    pub edge: Edge,
}

// An edge with a cross owner is taken as part of a stretch where its run word is its best word.
fn take(ver: bool, e: Edge, cross: u32) -> Taken
    ensures { result ≡ taken_by ver e cross }
{
    Taken {
        ver,
        run: (e.own & cross != 0) & (e.run == e.best),
        edge: e,
    }
}

// The edge along, or the one across.
fn choose(ahead: bool, ver: bool, along: Edge, across: Edge, cross: u32) -> Taken
    ensures { result ≡ chosen ahead ver along across cross }
{
    if ahead {
        return take(ver, along, cross);
    }
    take(!ver, across, cross)
}

// The stretch of the edge e begins with it: its run word comes from an edge of another owner.
fn begins(e: Edge, along: Edge, across: Edge) -> bool
    ensures { result ≡ begins_with e along across }
{
    let o = e.own;
    let f = unless_own(along, o).max(unless_own(across, o));
    (f != 0) & (f as u64 + e.len as u64 == e.run as u64)
}

// The edge before t, from the edges along and across that end where t begins.
fn edge_before(t: Taken, along: Edge, across: Edge, cross: u32) -> Taken
    ensures { result ≡ before_of t along across cross }
{
    let e = t.edge;
    if t.run {
        if begins(e, along, across) {
            let i = unless_own(along, e.own);
            let j = unless_own(across, e.own);
            return choose(j <= i, t.ver, along, across, cross);
        }
        return Taken {
            ver: t.ver,
            run: true,
            edge: along,
        };
    }
    choose(across.best <= along.best, t.ver, along, across, cross)
}

// The edge before t, which begins at position p, in a column and a row.
fn arrive(work: &[u32], p: usize, col: Line, row: Line, t: Taken, cross: u32) -> Taken
    requires { (p * 4 + 3 < length work.now) × (p < 4096) }
    ensures { result ≡ arrive_of work.now p col row t cross }
{
    let h = edge_by(pair_at(work, p, 0), col, row);
    let v = edge_by(pair_at(work, p, 1), row, col);
    if t.ver {
        return edge_before(t, v, h, cross);
    }
    edge_before(t, h, v, cross)
}

// 1 for an edge along the column, 0 for one along the row; on the first column or row there is no choice.
fn up_no(ver: bool, a: usize, b: usize) -> usize
    requires { 0 < a + b }
    ensures { (result ≡ up_no ver a b) × (result ≤ b) × (1 - result ≤ a) × (result ≤ 1) }
{
    if (ver & (0 < b)) | (a == 0) { 1 } else { 0 }
}

// The leaf that the edge is shared with, or 32.
fn share_no(t: Taken, cross: u32) -> u8
    ensures { result ≡ share_no t cross }
{
    let e = t.edge;
    if (e.own & cross != 0) & !t.run {
        return 32;
    }
    (intersection::sets::lowest(e.own) % 256) as u8
}

// A walk of count steps: the centre's steps, from its first point on, 0 along the row and 1 along the column; and for each step the leaf with which it is
// shared, or 32.
#[derive(Clone, Copy)]
pub struct Trace {
    pub steps: [u8; 128],
    pub shares: [u8; 128],
    pub count: usize,
}

impl Trace {
    // No step.
    pub fn new() -> Self
        ensures { (length result.steps ≡ 128) × (length result.shares ≡ 128) }
    {
        Trace {
            steps: [0; 128],
            shares: [0; 128],
            count: 0,
        }
    }

    // The walk that the table holds.
    pub fn put_walk(&mut self, work: &[u32], g: &Frame)
        requires { Fit (group_of g.now) work.now × (length self.old.steps ≡ 128) × (length self.old.shares ≡ 128) }
        ensures { (moves_of self.new ≡ walked (group_of g.now) work.now)
            × (self.new.count ≡ pred g.now.w + pred g.now.h) × (length self.new.steps ≡ 128) × (length self.new.shares ≡ 128) }
    {
        let mut a = g.w - 1;
        let mut b = g.h - 1;
        self.count = a + b;
        let none = Edge {
            best: 0,
            run: 0,
            own: 0,
            len: 0,
        };
        let mut t = Taken {
            ver: false,
            run: false,
            edge: none,
        };
        for i in (0..a + b).rev() {
            let u = arrive(work, b * g.w + a, g.cols[a], g.rows[b], t, g.cross);
            let n = up_no(u.ver, a, b);
            self.shares[i] = share_no(u, g.cross);
            self.steps[i] = (n % 256) as u8;
            a -= 1 - n;
            b -= n;
            t = u;
        }
    }
}
