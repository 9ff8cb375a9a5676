// The plan book: each record is written into the rest of the plan buffer behind the record before it. Only the kinds of document 02, C-16, are written.
#![tactic(auto)]

ghost use Rattle.std.specs.Prelude.{◌≡◌, true, map, ◌+◌, ◌*◌, ◌<◌, ◌≤◌, length, get_or};
ghost use mathlib.Core.List.{flat_map};
ghost use Rattle.fields.specs.Bytes.{Wrote};
ghost use Rattle.route.specs.Route.{route_by, OnGrid, numbered, corners_of, corner_count, placed};
ghost use Rattle.route.specs.Stored.{route_of, AreStored};
ghost use Rattle.route.specs.Marked.{indexes_of};
ghost use Rattle.plan.specs.Writers.{entry_in, entries_in, AreCounted, WroteRuns};
ghost use Rattle.plan.specs.Records.{head_record, route_record, corner_record};
ghost use Rattle.plan.specs.Plan.{entry_bytes, book_bytes};

use route::{Routes, Track, Vertex, Walker};

// The figures of a plan's head. A grouped one has the kinds of document 02, C-16, and its last figure is the number of groups; that of an older one is the
// centre's run number. Of runs, pits and the last figure the lower two bytes are written.
#[derive(Clone, Copy, PartialEq)]
pub struct Head {
    pub grouped: bool,
    pub job: u32,
    pub runs: u32,
    pub trench: u32,
    pub saved: u32,
    pub pits: u32,
    pub last: u32,
}

// What the route records say of the runs: each run's number, its meets figure, the number of its group's centre, and how many corners its route has.
#[derive(Clone, Copy)]
pub struct Figures<'a> {
    pub numbers: &'a [u32; 32],
    pub meets: &'a [u32; 32],
    pub centres: &'a [u32; 32],
    pub corners: &'a [usize; 32],
}

// How many bytes were written, and how many corner records are among them.
#[derive(Clone, Copy)]
pub struct Written {
    pub bytes: usize,
    pub corners: usize,
}

fn write_head(out: &mut [u8], head: Head) -> usize
    requires { (head.grouped ≡ true) × (19 ≤ length out.old) }
    ensures { Wrote (head_record head) out.old out.new result }
{
    fields::put1(out, 0x51);
    fields::put4(out, 1, head.job);
    fields::put2(out, 5, head.runs);
    fields::put4(out, 7, head.trench);
    fields::put4(out, 11, head.saved);
    fields::put2(out, 15, head.pits);
    fields::put2(out, 17, head.last);
    19
}

fn write_route(out: &mut [u8], number: u32, meets: u32, corners: u32, centre: u32) -> usize
    requires { 9 ≤ length out.old }
    ensures { Wrote (route_record true number meets corners centre) out.old out.new result }
{
    fields::put1(out, 0x4F);
    fields::put2(out, 1, number);
    fields::put2(out, 3, meets);
    fields::put2(out, 5, corners);
    fields::put2(out, 7, centre);
    9
}

// The corner record of a vertex, whose coordinates are those of its column and its row.
fn write_corner(out: &mut [u8], v: Vertex, columns: &[u32; 64], rows: &[u32; 64]) -> usize
    requires { (v.column < 64) × (v.row < 64) × (9 ≤ length out.old) }
    ensures { Wrote (corner_record (placed columns.now rows.now (indexes_of v)))
        out.old out.new result }
{
    fields::put1(out, 0x43);
    fields::put4(out, 1, fields::word(columns[v.column]));
    fields::put4(out, 5, fields::word(rows[v.row]));
    9
}

// The corner records of a route.
#[tactic(auto, using(crate::proofs::Corners::corner_fits, crate::proofs::Corners::corner_few))]
fn write_corners(
    out: &mut [u8],
    track: Track,
    steps: &[u8],
    columns: &[u32; 64],
    rows: &[u32; 64],
) -> usize
    requires { OnGrid numbered (route_by steps.now track) × (9 * corner_count (route_by steps.now track) ≤ length out.old) }
    ensures { Wrote
        (flat_map corner_record (map (placed columns.now rows.now) (corners_of (route_by steps.now track))))
        out.old out.new result × (result ≤ 1143) }
{
    let mut w = Walker::start(track);
    let mut at: usize = 0;
    while w.at < track.count {
        let s = w.step(track, steps);
        if s.turned {
            at += write_corner(&mut out[at..], w.here, columns, rows);
        }
        w = s.walker;
    }
    at + write_corner(&mut out[at..], w.here, columns, rows)
}

// The route record of run k, and its corners.
fn write_run(
    out: &mut [u8],
    figures: &Figures,
    routes: &Routes,
    k: usize,
    columns: &[u32; 64],
    rows: &[u32; 64],
) -> usize
    requires { (k < 32) × (k * routes.now.stride ≤ length routes.now.steps.now) × OnGrid numbered (route_of routes.now k)
        × (get_or figures.now.corners.now k 0 ≡ corner_count (route_of routes.now k))
        × (9 + 9 * get_or figures.now.corners.now k 0 ≤ length out.old) }
    ensures { Wrote (entry_bytes true (entry_in columns.now rows.now figures.now routes.now k)) out.old out.new result × (result ≤ 1152) }
{
    let corners = figures.corners[k] as u32;
    let at = write_route(
        out,
        figures.numbers[k],
        figures.meets[k],
        corners,
        figures.centres[k],
    );
    at + write_corners(
        &mut out[at..],
        routes.track(k),
        routes.steps_of(k),
        columns,
        rows,
    )
}

// The runs, one behind the other.
fn write_runs(
    out: &mut [u8],
    figures: &Figures,
    routes: &Routes,
    columns: &[u32; 64],
    rows: &[u32; 64],
) -> Written
    requires { AreStored routes.now × AreCounted figures.now routes.now
        × (length (flat_map (entry_bytes true) (entries_in columns.now rows.now figures.now routes.now)) ≤ length out.old) }
    ensures { WroteRuns (entries_in columns.now rows.now figures.now routes.now) out.old out.new result }
{
    let mut at = 0;
    let mut all = 0;
    for k in 0..routes.count {
        at += write_run(&mut out[at..], figures, routes, k, columns, rows);
        all += figures.corners[k];
    }
    Written {
        bytes: at,
        corners: all,
    }
}

// The whole plan, and its length.
#[tactic(auto, using(crate::proofs::Length::book_room))]
pub fn write_plan(
    out: &mut [u8],
    head: Head,
    figures: &Figures,
    routes: &Routes,
    columns: &[u32; 64],
    rows: &[u32; 64],
) -> usize
    requires { (head.grouped ≡ true) × AreStored routes.now × AreCounted figures.now routes.now
        × (length (book_bytes head (entries_in columns.now rows.now figures.now routes.now)) ≤ length out.old) }
    ensures { Wrote (book_bytes head (entries_in columns.now rows.now figures.now routes.now)) out.old out.new result × (result ≤ 36886) }
{
    let start = write_head(out, head);
    let w = write_runs(&mut out[start..], figures, routes, columns, rows);
    let at = start + w.bytes;
    at + fields::write_end(&mut out[at..], w.corners as u32)
}
