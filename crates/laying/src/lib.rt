// The routes of all runs of a lease: its groups are laid one after the other, in the same work words.
#![tactic(auto)]

ghost use Rattle.std.specs.Prelude.{◌≡◌, List, [], ◌≤◌, ◌<◌, length, get_or};
ghost use Rattle.network.specs.Plane.{Run};
ghost use Rattle.table.specs.Side.{side_of, side_by};
ghost use Rattle.table.specs.Rule.{Beyond};
ghost use Rattle.table.specs.Walk.{moves_of};
ghost use Rattle.route.specs.Stored.{tracks_of, routes_in};
ghost use Rattle.laying.specs.Lease.{table_words, LeaseSurveyed, Roomy, block_of, GroupLayable, GroupWritten, Serving, LaidOut};

use job::Spans;
use layout::{Points, Stretch};
use table::frame::Frame;
use table::side::Survey;
use table::trace::Trace;

// Puts the moves of the centre c into the trace, by a table over its box alone, and gives what they share.
fn put_moves(
    x: &Survey,
    y: &Survey,
    n: usize,
    centres: &[usize; 32],
    neighbours: &[u32; 32],
    c: usize,
    work: &mut [u32],
    frame: &mut Frame,
    trace: &mut Trace,
) -> u32
    requires { ((runs : List Run) × LeaseSurveyed runs (side_by x.now) (side_by y.now) n centres.now neighbours.now × (table_words runs ≤ length work.old))
        × (c < n) × (get_or centres.now c 0 ≡ c)
        × (length frame.old.cols ≡ 64) × (length frame.old.rows ≡ 64) × (length trace.old.steps ≡ 128) × (length trace.old.shares ≡ 128) }
    ensures { ((runs : List Run) → LeaseSurveyed runs (side_by x.now) (side_by y.now) n centres.now neighbours.now
        → Serving runs (side_by x.now) (side_by y.now) centres.now n c (moves_of trace.new) result
        × Beyond work.old work.new (table_words runs))
        × (length frame.new.cols ≡ 64) × (length frame.new.rows ≡ 64) × (length trace.new.steps ≡ 128) × (length trace.new.shares ≡ 128) }
{
    frame.put_group(x, y, n, c, neighbours[c]);
    table::fill::fill(work, &*frame);
    trace.put_walk(&*work, &*frame);
    table::fill::figure_of(&*work, &*frame)
}

// Writes the steps of the runs that have the centre c, by its moves, once it has found where the moves that are shared with each leaf stand: both in one
// function, since an array of stretches that is handed on is copied. The axes' lines are not asked for, so the sides of the contract have none.
fn lay_group(
    x: &Spans,
    y: &Spans,
    n: usize,
    centres: &[usize; 32],
    c: usize,
    trace: &Trace,
    routes: &mut [u8],
    stride: usize,
)
    requires { GroupLayable (side_of x.now.first x.now.second []) (side_of y.now.first y.now.second []) n centres.now c (moves_of trace.now)
        × Roomy (side_of x.now.first x.now.second []) (side_of y.now.first y.now.second []) n stride routes.old × (length trace.now.steps ≡ 128) }
    ensures { GroupWritten (side_of x.now.first x.now.second []) (side_of y.now.first y.now.second []) n centres.now c
        (moves_of trace.now) (block_of routes.old stride) (block_of routes.new stride)
        × (length routes.new ≡ length routes.old) }
{
    let mut found = [Stretch {
        from: 0,
        size: 0,
        across: 0,
        wide: 0,
    }; 32];
    let mut across: u8 = 0;
    for i in 0..trace.count {
        let step = trace.steps[i];
        let leaf = trace.shares[i] as usize;
        if leaf < 32 {
            found[leaf] = found[leaf].with_move((i % 256) as u8, across, step);
        }
        across += layout::along_row(step);
    }
    let centre = Points::of(x, y, c);
    for k in 0..n {
        let group = centres[k];
        if group == c {
            let run = Points::of(x, y, k);
            let s = found[k];
            let at = k * stride;
            layout::route_of(centre, run, c, k, trace, s, &mut routes[at..at + stride]);
        }
    }
}

// Writes the steps of n runs whose groups are stars with these centres, those of run k from k * stride on, and gives what the routes save together.
pub fn lay(
    x: &Survey,
    y: &Survey,
    n: usize,
    centres: &[usize; 32],
    neighbours: &[u32; 32],
    work: &mut [u32],
    routes: &mut [u8],
    stride: usize,
) -> u64
    requires { ((runs : List Run) × LeaseSurveyed runs (side_by x.now) (side_by y.now) n centres.now neighbours.now × (table_words runs ≤ length work.old))
        × Roomy (side_by x.now) (side_by y.now) n stride routes.old }
    ensures { ((runs : List Run) → LeaseSurveyed runs (side_by x.now) (side_by y.now) n centres.now neighbours.now
        → LaidOut runs (record {
          saved = result;
          routes = routes_in routes.new stride
              (tracks_of x.now.places.first y.now.places.first x.now.places.second y.now.places.second) n;
        })
        × Beyond work.old work.new (table_words runs))
        × (length routes.new ≡ length routes.old) }
{
    let mut frame = Frame::new();
    let mut trace = Trace::new();
    let mut saved: u64 = 0;
    for i in 0..n {
        if centres[i] == i {
            let more = put_moves(
                x, y, n, centres, neighbours, i, work, &mut frame, &mut trace,
            );
            lay_group(&x.places, &y.places, n, centres, i, &trace, routes, stride);
            saved += more as u64;
        }
    }
    saved
}
