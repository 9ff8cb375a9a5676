// Routes on the lines of a grid: the walker along a route, its corners, and the pits of several routes. A line is named by its index
// among the columns or the rows.
#![tactic(auto)]

ghost use Rattle.std.specs.Prelude.{◌≡◌, ◌||◌, map, ℕ, ◌+◌, ◌*◌, ◌/◌, ◌<◌, ◌≤◌, length, get_or, take, drop};
ghost use Rattle.network.specs.Lists.{All};
ghost use Rattle.network.specs.Steps.{hor, ver};
ghost use Rattle.route.specs.Route.{dir_of, route_by, numbered, indexed, OnGrid, corners_of, corner_count};
ghost use Rattle.route.specs.Stored.{track_of, tracks_in, routes_of, AreStored};
ghost use Rattle.route.specs.Walker.{heading_of, following, ahead, standing, stepped, Room, Free};
ghost use Rattle.route.specs.Marked.{digits, Clear, Counted, along, visited, touched};
ghost use Rattle.network.specs.Pits.{pits_of};

use job::Spans;

// Where a column and a row cross.
#[derive(Clone, Copy)]
pub struct Vertex {
    pub column: usize,
    pub row: usize,
}

// A route without its steps, which stand in a slice: the first `count` of them, from `start` on. 0 goes along the row, any other along the
// column. `right` and `up` say whether the indexes of the columns and of the rows rise.
#[derive(Clone, Copy)]
pub struct Track {
    pub count: usize,
    pub start: Vertex,
    pub right: bool,
    pub up: bool,
}

// A place on a route: the index of the next step, the vertex, and the heading of the step that led there.
#[derive(Clone, Copy)]
pub struct Walker {
    pub at: usize,
    pub here: Vertex,
    pub heading: u8,
}

// The walker after a step, and whether the step turned at the vertex that it left.
#[derive(Clone, Copy)]
pub struct Stepped {
    pub walker: Walker,
    pub turned: bool,
}

// How many pits came with a route, and how many corners it has.
#[derive(Clone, Copy)]
pub struct Seen {
    pub pits: usize,
    pub corners: usize,
}

// The track between two points, given by the indexes of their lines.
#[tactic(auto, unfolding(network::specs::Plane::gap))]
pub fn track_of(x1: u32, y1: u32, x2: u32, y2: u32) -> Track
    ensures { result ≡ track_of x1 y1 x2 y2 }
{
    Track {
        count: x1.abs_diff(x2) as usize + y1.abs_diff(y2) as usize,
        start: Vertex {
            column: x1 as usize,
            row: y1 as usize,
        },
        right: x1 <= x2,
        up: y1 <= y2,
    }
}

// The heading of a walker that has not moved. No step has it, so that the first step turns: a route's start is a corner.
const STANDING: u8 = 2;

fn heading_of(step: u8) -> u8
    ensures { result ≡ heading_of (dir_of step) }
{
    if step == 0 { 0 } else { 1 }
}

fn following(line: usize, rises: bool) -> usize
    requires { Room rises line }
    ensures { result ≡ following rises line }
{
    if rises { line + 1 } else { line - 1 }
}

fn ahead(track: Track, step: u8, v: Vertex) -> Vertex
    requires { Free track.right track.up (dir_of step) v }
    ensures { result ≡ ahead track.right track.up (dir_of step) v }
{
    if step == 0 {
        Vertex {
            column: following(v.column, track.right),
            ..v
        }
    } else {
        Vertex {
            row: following(v.row, track.up),
            ..v
        }
    }
}

impl Walker {
    pub fn start(track: Track) -> Self
        ensures { result ≡ standing track.start }
    {
        Walker {
            at: 0,
            here: track.start,
            heading: STANDING,
        }
    }

    pub fn step(self, track: Track, steps: &[u8]) -> Stepped
        requires { (self.at < length steps.now)
            × Free track.right track.up (dir_of (get_or steps.now self.at 0)) self.here }
        ensures { result ≡ stepped (route_by steps.now track) self }
    {
        let step = steps[self.at];
        let heading = heading_of(step);
        let here = ahead(track, step, self.here);
        Stepped {
            walker: Walker {
                at: self.at + 1,
                here,
                heading,
            },
            turned: heading != self.heading,
        }
    }
}

// The digits of a mark: a route passes the vertex along its row, one along its column; at a pit both are set.
const ROW: u8 = 1;

const COLUMN: u8 = 2;

const PIT: u8 = 3;

// The digits of a vertex at which a route turns or ends, or else goes straight on with a heading.
fn digits_of(corner: bool, heading: u8) -> u8
    ensures { result ≡ digits (corner || along hor heading) (corner || along ver heading) }
{
    if corner {
        return PIT;
    }
    match heading {
        0 => ROW,
        1 => COLUMN,
        _ => 0,
    }
}

// Marks a vertex of a route, and gives the pits that came: one if it is a pit only now. A row has `width` marks.
fn mark(marks: &mut [u8], width: usize, v: Vertex, corner: bool, heading: u8) -> usize
    requires { (v.column < width) × (v.row * width + v.column < length marks.old) }
    ensures { ((height : ℕ) → v.row < height
        → Counted width height marks.old marks.new (visited v corner heading) result) × (result ≤ 1) }
{
    let k = v.row * width + v.column;
    let before = marks[k];
    let after = before | digits_of(corner, heading);
    marks[k] = after;
    usize::from((after == PIT) & (before != PIT))
}

// Marks the vertices of a route, and counts the pits that came and the route's corners.
#[tactic(auto, using(crate::proofs::Corners::corners_few))]
fn mark_route(marks: &mut [u8], width: usize, track: Track, steps: &[u8]) -> Seen
    requires { OnGrid numbered (route_by steps.now track)
        × OnGrid (indexed width (length marks.old / width)) (route_by steps.now track) }
    ensures { Counted width (length marks.old / width) marks.old marks.new
        (touched (corners_of (route_by steps.now track))) result.pits
        × (result.pits ≤ 127) × (result.corners ≡ corner_count (route_by steps.now track)) }
{
    let mut w = Walker::start(track);
    let mut pits: usize = 0;
    let mut corners: usize = 1;
    while w.at < track.count {
        let s = w.step(track, steps);
        pits += mark(marks, width, w.here, s.turned, s.walker.heading);
        if s.turned {
            corners += 1;
        }
        w = s.walker;
    }
    pits += mark(marks, width, w.here, true, w.heading);
    Seen { pits, corners }
}

// Routes, the first `count`: the steps of route k stand in `steps` from k * stride on, and it leads from its first point to its second.
#[derive(Clone, Copy)]
pub struct Routes<'a> {
    pub steps: &'a [u8],
    pub stride: usize,
    pub x: &'a Spans,
    pub y: &'a Spans,
    pub count: usize,
}

impl<'a> Routes<'a> {
    pub fn track(&self, k: usize) -> Track
        requires { k < 32 }
        ensures { result ≡ tracks_in self.now k }
    {
        track_of(
            self.x.first[k],
            self.y.first[k],
            self.x.second[k],
            self.y.second[k],
        )
    }

    // The steps of route k, and those behind them.
    pub fn steps_of(&self, k: usize) -> &'a [u8]
        requires { k * self.now.stride ≤ length self.now.steps.now }
        ensures { result.now ≡ drop (k * self.now.stride) self.now.steps.now }
    {
        &self.steps[k * self.stride..]
    }
}

// The pits of the routes, and the corners of each: every vertex of a route is marked, and the pits that come are counted.
pub fn mark_routes(
    routes: &Routes,
    marks: &mut [u8],
    width: usize,
    corners: &mut [usize; 32],
) -> usize
    requires { AreStored routes.now × All (OnGrid (indexed width (length marks.old / width))) (routes_of routes.now)
        × Clear marks.old × (length corners.old ≡ 32) }
    ensures { (result ≡ pits_of (map corners_of (routes_of routes.now)))
        × (result ≤ 4064) × (length corners.new ≡ 32)
        × (take routes.now.count corners.new ≡ map corner_count (routes_of routes.now)) }
{
    let mut pits = 0;
    for k in 0..routes.count {
        let seen = mark_route(marks, width, routes.track(k), routes.steps_of(k));
        corners[k] = seen.corners;
        pits += seen.pits;
    }
    pits
}
