// The routes of a book: whether they are Manhattan paths of the job's runs on the job's grid, and whether the head says what is measured on them. The corners
// are read where they stand, and nothing of the book is copied.
ghost use Rattle.std.specs.Prelude.{◌≡◌, true, List, ◌+◌, ◌*◌, ◌≤◌, ◌<◌, length, get_or};
ghost use Rattle.network.specs.Lists.{sum, every};
ghost use Rattle.network.specs.Plane.{distance};
ghost use Rattle.network.specs.Grid.{Grid};
ghost use Rattle.network.specs.Hanan.{hanan};
ghost use Rattle.network.specs.Route.{Route as Points, pieces};
ghost use Rattle.network.specs.Graph.{origin, run_at, below};
ghost use Rattle.network.specs.Boxes.{Placed};
ghost use Rattle.job.specs.Written.{InRange};
ghost use Rattle.plan.specs.Plan.{Entry};
ghost use Rattle.measure.specs.Marks.{point_of, Told};
ghost use Rattle.planner.specs.Call.{run_of, runs_of};
ghost use Rattle.planner.specs.Held.{runs_in};
ghost use Rattle.judge.specs.True.{drawn_in};
ghost use Rattle.judge.specs.Judged.{is_vertex, is_manhattan, entry_at};
ghost use Rattle.judge.specs.Steps.{ReadAs, Knows, corner_there, Drawn, Shown, ends_right, is_measured, Dotted, Sized, no_marks, Tried};

use crate::Known;
use book::{Corner, Reading};
use grid::Axis;
use job::Run;
use route::Vertex;

// The corners of a route: so many records of a book, one behind the other from a place on.
#[derive(Clone, Copy)]
pub struct Corners<'a> {
    pub book: &'a [u8],
    pub at: usize,
    pub count: usize,
}

// A mark for every vertex of the grid, at row * 64 + column: of corners, of edges to the right, and of edges upwards.
#[derive(Drop)]
pub struct Marks {
    pub corners: [u8; 4096],
    pub right: [u8; 4096],
    pub up: [u8; 4096],
}

impl Corners<'_> {
    // Corner k.
    fn corner(&self, k: usize) -> Corner
        requires { self.now.at + 9 * k + 8 < length self.now.book.now }
        ensures { result ≡ corner_there self.now.book.now (self.now.at + 9 * k) }
    {
        let at = self.at + 9 * k;
        Corner {
            x: job::biased(job::le32(self.book, at + 1)),
            y: job::biased(job::le32(self.book, at + 5)),
        }
    }

    // The length of the route.
    fn length(&self) -> u32
        requires { (route : Points) × Drawn self.now.book.now self.now.at route × (self.now.count ≡ length route) }
        ensures { (route : Points) → Drawn self.now.book.now self.now.at route → self.now.count ≡ length route
            → result ≡ sum distance (pieces route) }
    {
        let mut sum: u32 = 0;
        for k in 1..self.count {
            let p = self.corner(k - 1);
            let q = self.corner(k);
            sum += figures::distance_of(p.x, p.y, q.x, q.y);
        }
        sum
    }

    // Whether the route goes from the run's first point to its second, and is no longer than it must be.
    fn ends_right(&self, run: &Run) -> bool
        requires { InRange run.now
            × ((route : Points) × Drawn self.now.book.now self.now.at route × (self.now.count ≡ length route)) }
        ensures { (route : Points) → Drawn self.now.book.now self.now.at route → self.now.count ≡ length route
            → result ≡ ends_right (run_of run.now) route }
    {
        let p = self.corner(0);
        let q = self.corner(self.count - 1);
        if (p.x != run.x1) | (p.y != run.y1) | (q.x != run.x2) | (q.y != run.y2) {
            return false;
        }
        self.length() == figures::distance_of(run.x1, run.y1, run.x2, run.y2)
    }
}

impl Marks {
    // Marks a vertex.
    fn mark_corner(&mut self, v: Vertex)
        requires { (v.column < 64) × (v.row < 64) × Sized self.old }
        ensures { Dotted v self.old self.new }
    {
        self.corners[v.row * 64 + v.column] = 1;
    }

    // Marks the corners and the edges of a route whose first corner is the vertex `from`, and says whether every corner is a vertex of the grid.
    fn trace(&mut self, route: &Corners, from: Vertex, columns: &Axis, rows: &Axis) -> bool
        requires { Sized self.old × (columns.now.count ≤ 64) × (rows.now.count ≤ 64) × (from.column < columns.now.count) × (from.row < rows.now.count)
            × ((g : Grid) × (points : Points) × Shown g points route.now.book.now route.now.at route.now.count columns.now rows.now
            × (point_of g from ≡ get_or points 0 origin)) }
        ensures { (g : Grid) (points : Points) → Shown g points route.now.book.now route.now.at route.now.count columns.now rows.now
            → point_of g from ≡ get_or points 0 origin → Tried g (every (is_vertex g) points) points self.old self.new result }
    {
        self.mark_corner(from);
        let mut v = from;
        for k in 1..route.count {
            let c = route.corner(k);
            let Some(next) = measure::mark_piece(
                columns,
                rows,
                v,
                c.x,
                c.y,
                &mut self.right,
                &mut self.up,
            ) else {
                return false;
            };
            self.mark_corner(next);
            v = next;
        }
        true
    }

    // Marks a route, and says whether it is a Manhattan path of the run.
    fn mark_route(&mut self, route: &Corners, run: &Run, columns: &Axis, rows: &Axis) -> bool
        requires { Sized self.old × (columns.now.count ≤ 64) × (rows.now.count ≤ 64) × InRange run.now
            × ((g : Grid) × (points : Points) × Shown g points route.now.book.now route.now.at route.now.count columns.now rows.now × Placed g (run_of run.now)) }
        ensures { (g : Grid) (points : Points) → Shown g points route.now.book.now route.now.at route.now.count columns.now rows.now
            → Placed g (run_of run.now) → Tried g (is_manhattan g (run_of run.now) points) points self.old self.new result }
    {
        if !route.ends_right(run) {
            return false;
        }
        let Some(column) = measure::find(columns, run.x1) else {
            return false;
        };
        let Some(row) = measure::find(rows, run.y1) else {
            return false;
        };
        self.trace(route, Vertex { column, row }, columns, rows)
    }

    // Marks the routes of a book of the newer kinds, and says whether they are Manhattan paths of the job's runs, in their order.
    fn mark_routes(&mut self, book: &[u8], reading: &Reading, known: &Known) -> bool
        requires { Knows known.now × (self.old ≡ no_marks) × (reading.now.head.runs ≡ known.now.job.count) × (reading.now.head.grouped ≡ true)
            × ((es : List Entry) × ReadAs book.now reading.now es) }
        ensures { (es : List Entry) → ReadAs book.now reading.now es
            → (result ≡ every (λ i. is_manhattan (hanan (runs_of (runs_in known.now.job))) (run_at (runs_of (runs_in known.now.job)) i) (entry_at es i).corners)
            (below known.now.job.count))
            × (result ≡ true → Told (hanan (runs_of (runs_in known.now.job))) (drawn_in es) self.new.corners self.new.right self.new.up) }
    {
        let job = &known.job;
        for i in 0..job.count {
            let at = reading.places[i] as usize;
            let route = Corners {
                book,
                at: at + 9,
                count: job::le16(book, at + 5) as usize,
            };
            let run = Run {
                number: job.numbers[i],
                x1: job.x.first[i],
                y1: job.y.first[i],
                x2: job.x.second[i],
                y2: job.y.second[i],
            };
            if !self.mark_route(&route, &run, &known.columns, &known.rows) {
                return false;
            }
        }
        true
    }
}

// Whether the routes of a book of the newer kinds are Manhattan paths of the job's runs, and the head says their trench, what they save, and their pits.
pub fn are_measured(book: &[u8], reading: &Reading, known: &Known) -> bool
    requires { Knows known.now × (reading.now.head.runs ≡ known.now.job.count) × (reading.now.head.grouped ≡ true)
        × ((es : List Entry) × ReadAs book.now reading.now es) }
    ensures { (es : List Entry) → ReadAs book.now reading.now es → result ≡ is_measured (runs_of (runs_in known.now.job)) reading.now.head es }
{
    let mut marks = Marks {
        corners: [0; 4096],
        right: [0; 4096],
        up: [0; 4096],
    };
    if !marks.mark_routes(book, reading, known) {
        return false;
    }
    let head = reading.head;
    let columns = &known.columns;
    let rows = &known.rows;
    let widths = columns.edge_lengths();
    let heights = rows.edge_lengths();
    let is = measure::measure(
        &marks.corners,
        &marks.right,
        &marks.up,
        &widths,
        columns.count,
        &heights,
        rows.count,
    );
    (is.trench == head.trench as u64)
        & (is.trench + head.saved as u64 == known.total as u64)
        & (is.pits == head.pits as usize)
}
