// Measures routes on a grid of at most 64 columns and 64 rows: marks at their corners and on their edges, the length of their union, and their pits. A
// mark stands at row * 64 + column: of corners at the vertex itself, of edges at the vertex from which the edge goes to the right, or upwards.
#![tactic(auto)]

ghost use Rattle.std.specs.Prelude.{◌≡◌, ◌≤◌, ◌<◌, length};
ghost use Rattle.network.specs.Grid.{Grid};
ghost use Rattle.measure.specs.Marks.{direction_of, cell, Stretched, Finds, Ruled, Arrived};
ghost use Rattle.measure.specs.Measured.{Short, row_trench, row_pits, trench_in, pits_in};

use grid::Axis;
use route::Vertex;

// The length of a union, and the number of pits.
#[derive(Clone, Copy)]
pub struct Measured {
    pub trench: u64,
    pub pits: usize,
}

// Where the mark of a place of a line stands; the lines of `upright` are the columns.
fn cell(upright: bool, line: usize, place: usize) -> usize
    requires { (line < 64) × (place < 64) }
    ensures { (result ≡ cell (direction_of upright) line place) × (result < 4096) }
{
    if upright {
        place * 64 + line
    } else {
        line * 64 + place
    }
}

// Marks the places of a line from `low` up to the one before `high`.
#[tactic(auto, using(crate::proofs::Marking::stretched_none, crate::proofs::Marking::stretched_all))]
fn mark_stretch(marks: &mut [u8; 4096], upright: bool, line: usize, low: usize, high: usize)
    requires { (line < 64) × (high ≤ 64) × (length marks.old ≡ 4096) }
    ensures { Stretched (direction_of upright) line low high marks.old marks.new }
{
    for k in low..high {
        marks[cell(upright, line, k)] = 1;
    }
}

// The index of the line at v, where there is one.
pub fn find(axis: &Axis, v: u32) -> Option<usize>
    requires { axis.now.count ≤ 64 }
    ensures { Finds axis.now.lines axis.now.count v result }
{
    let k = axis.position(v) as usize;
    if k < axis.count && axis.lines[k] == v {
        Some(k)
    } else {
        None
    }
}

// Marks the edges of the straight piece from a vertex to the point (x, y), and gives the vertex there, if it is one.
pub fn mark_piece(
    columns: &Axis,
    rows: &Axis,
    from: Vertex,
    x: u32,
    y: u32,
    right: &mut [u8; 4096],
    up: &mut [u8; 4096],
) -> Option<Vertex>
    requires { (columns.now.count ≤ 64) × (rows.now.count ≤ 64) × (from.column < columns.now.count) × (from.row < rows.now.count)
        × (length right.old ≡ 4096) × (length up.old ≡ 4096) }
    ensures { (length right.new ≡ 4096) × (length up.new ≡ 4096)
        × ((g : Grid) → Ruled g columns.now.lines columns.now.count rows.now.lines rows.now.count
        → Arrived g from (record { x = x; y = y }) right.old up.old right.new up.new result) }
{
    let Vertex { column, row } = from;
    if columns.lines[column] == x {
        let to = find(rows, y)?;
        mark_stretch(up, true, column, row.min(to), row.max(to));
        return Some(Vertex { column, row: to });
    }
    let to = find(columns, x)?;
    mark_stretch(right, false, row, column.min(to), column.max(to));
    Some(Vertex { column: to, row })
}

// The length of the marked edges that start in a row.
#[tactic(auto, using(crate::proofs::Counts::mark_counts, crate::proofs::Counts::mark_counts_not, crate::proofs::Counts::row_trench_none, crate::proofs::Counts::row_trench_more, crate::proofs::Counts::row_trench_most))]
fn row_trench(
    right: &[u8; 4096],
    up: &[u8; 4096],
    widths: &[u32; 64],
    height: u32,
    row: usize,
    across: usize,
) -> u32
    requires { (row < 64) × (across ≤ 64) × (height ≤ 2000000) × Short widths.now }
    ensures { (result ≡ row_trench right.now up.now widths.now height row across) × (result ≤ 256000000) }
{
    let mut sum = 0;
    for i in 0..across {
        let m = row * 64 + i;
        if right[m] != 0 {
            sum += widths[i];
        }
        if up[m] != 0 {
            sum += height;
        }
    }
    sum
}

// The pits in a row: corners, and vertices with an edge to the right and one upwards.
#[tactic(auto, using(crate::proofs::Counts::row_pits_none, crate::proofs::Counts::row_pits_more, crate::proofs::Counts::row_pits_most), unfolding(crate::specs::Marks::is_marked))]
fn row_pits(
    corners: &[u8; 4096],
    right: &[u8; 4096],
    up: &[u8; 4096],
    row: usize,
    across: usize,
) -> usize
    requires { (row < 64) × (across ≤ 64) }
    ensures { (result ≡ row_pits corners.now right.now up.now row across) × (result ≤ 64) }
{
    let mut n = 0;
    for i in 0..across {
        let m = row * 64 + i;
        if (corners[m] != 0) | ((right[m] != 0) & (up[m] != 0)) {
            n += 1;
        }
    }
    n
}

// What the marks tell, with the lengths of the edges from each column and from each row to the next.
#[tactic(auto, using(crate::proofs::Counts::trench_none, crate::proofs::Counts::trench_more, crate::proofs::Counts::pits_none, crate::proofs::Counts::pits_more))]
pub fn measure(
    corners: &[u8; 4096],
    right: &[u8; 4096],
    up: &[u8; 4096],
    widths: &[u32; 64],
    across: usize,
    heights: &[u32; 64],
    down: usize,
) -> Measured
    requires { (across ≤ 64) × (down ≤ 64) × Short widths.now × Short heights.now }
    ensures { (result.trench ≡ trench_in right.now up.now widths.now across heights.now down)
        × (result.pits ≡ pits_in corners.now right.now up.now across down)
        × (result.trench ≤ 16384000000) }
{
    let mut trench = 0;
    let mut pits = 0;
    for j in 0..down {
        trench += u64::from(row_trench(right, up, widths, heights[j], j, across));
        pits += row_pits(corners, right, up, j, across);
    }
    Measured { trench, pits }
}
