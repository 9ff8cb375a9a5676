// Prints plans of a few routes: each route's corners in line indexes, the pits, and the bytes that are written into dirty buffers.
#![tactic(auto)]

ghost use Rattle.std.specs.Prelude.{◌≡◌, true, map, ◌≤◌, length, take};
ghost use Rattle.network.specs.Graph.{below};
ghost use Rattle.network.specs.Steps.{Fits};
ghost use Rattle.route.specs.Route.{route_by, lane, OnGrid, numbered, corner_count};
ghost use Rattle.route.specs.Stored.{routes_of, AreStored};
ghost use Rattle.plan.specs.Writers.{AreCounted};

use console::{Output, Screen};
use job::Spans;
use plan::{Figures, Head};
use route::{Routes, Track, Vertex, Walker};
use std::io;

// How many steps a route has room for.
const STRIDE: usize = 128;

// Routes, with room for 32.
#[derive(Clone, Copy)]
struct Sheet {
    steps: [u8; 4096],
    x: Spans,
    y: Spans,
    count: usize,
}

// A step along the row is an r, any other letter is a step along the column.
fn step_of(letter: u8) -> u8 {
    if letter == b'r' { 0 } else { letter }
}

impl Sheet {
    fn new() -> Self {
        let none = Spans {
            first: [0; 32],
            second: [0; 32],
        };
        Sheet {
            steps: [0; 4096],
            x: none,
            y: none,
            count: 0,
        }
    }

    // One more route, where there is room, from (x1, y1) to (x2, y2).
    fn add(&mut self, letters: &[u8], x1: u32, y1: u32, x2: u32, y2: u32) {
        let k = self.count;
        if k >= 32 || letters.len() > STRIDE {
            return;
        }
        for (i, letter) in letters.iter().enumerate() {
            self.steps[k * STRIDE + i] = step_of(*letter);
        }
        self.x.first[k] = x1;
        self.y.first[k] = y1;
        self.x.second[k] = x2;
        self.y.second[k] = y2;
        self.count = k + 1;
    }

    fn routes(&self) -> Routes<'_> {
        Routes {
            steps: &self.steps,
            stride: STRIDE,
            x: &self.x,
            y: &self.y,
            count: self.count,
        }
    }
}

// Whether there are 64 lines for so many steps from a line.
fn fits(rises: bool, line: usize, steps: usize) -> bool
    ensures { result ≡ true → Fits (below 64) (lane rises line steps) }
{
    if line >= 64 {
        return false;
    }
    if rises {
        return steps < 64 - line;
    }
    steps <= line
}

// Whether a route stays on 64 columns and 64 rows.
fn on_grid(track: Track, steps: &[u8]) -> bool
    ensures { result ≡ true → OnGrid numbered (route_by steps.now track) }
{
    let count = track.count;
    if count > steps.len() {
        return false;
    }
    let mut across: usize = 0;
    for step in &steps[..count] {
        if *step == 0 {
            across += 1;
        }
    }
    fits(track.right, track.start.column, across) & fits(track.up, track.start.row, count - across)
}

// Whether at most 32 routes do, each of at most 128 bytes.
fn all_on_grid(routes: &Routes) -> bool
    ensures { result ≡ true → AreStored routes.now }
{
    if routes.count > 32 || routes.stride > STRIDE {
        return false;
    }
    if routes.count * routes.stride > routes.steps.len() {
        return false;
    }
    for k in 0..routes.count {
        if !on_grid(routes.track(k), routes.steps_of(k)) {
            return false;
        }
    }
    true
}

fn print_corner(screen: &mut Screen, v: Vertex) {
    screen.put_number(v.column as u64);
    screen.put(b",");
    screen.put_decimal(v.row as u64);
}

// The corners of a route, as the walker meets them.
fn print_corners(screen: &mut Screen, track: Track, steps: &[u8], corners: usize)
    requires { OnGrid numbered (route_by steps.now track) }
{
    screen.put(b"corners");
    screen.put_number(corners as u64);
    screen.put(b":");
    let mut w = Walker::start(track);
    while w.at < track.count {
        let s = w.step(track, steps);
        if s.turned {
            print_corner(screen, w.here);
        }
        w = s.walker;
    }
    print_corner(screen, w.here);
    screen.put(b"\n");
}

// The corners of the first three routes.
fn print_routes(screen: &mut Screen, routes: &Routes, corners: &[usize; 32])
    requires { AreStored routes.now }
{
    for k in 0..routes.count.min(3) {
        print_corners(screen, routes.track(k), routes.steps_of(k), corners[k]);
    }
}

// A digest of the bytes: each counts with its place.
fn digest(bytes: &[u8]) -> u64 {
    let mut sum: u64 = 0;
    for b in bytes {
        sum = (sum * 257 + u64::from(*b) + 1) % 4294967291;
    }
    sum
}

// Prints a plan's length, its digest, its bytes if they are few, and the digest of what stands behind it.
fn print_plan(screen: &mut Screen, out: &[u8], n: usize)
    requires { n ≤ length out.now }
{
    let (book, behind) = out.split_at(n);
    screen.put(b"bytes");
    screen.put_number(n as u64);
    screen.put(b" digest");
    screen.put_number(digest(book));
    screen.put(b" behind");
    screen.put_number(behind.len() as u64);
    screen.put(b" digest");
    screen.put_number(digest(behind));
    screen.put(b"\n");
    if n < 400 {
        for b in book {
            screen.put_byte(*b);
        }
        screen.put(b"\n");
    }
}

// The corners and the pits of routes.
fn print_pits(screen: &mut Screen, routes: &Routes, corners: &mut [usize; 32]) -> usize
    requires { AreStored routes.now × (length corners.old ≡ 32) }
    ensures { (result ≤ 4064) × (length corners.new ≡ 32)
        × (take routes.now.count corners.new ≡ map corner_count (routes_of routes.now)) }
{
    let mut marks = [0u8; 4096];
    let pits = route::mark_routes(routes, &mut marks, 64, corners);
    print_routes(screen, routes, &*corners);
    screen.put(b"pits");
    screen.put_number(pits as u64);
    screen.put(b"\n");
    pits
}

// Prints the plan in a buffer of 36,886 bytes and in one of 40,960.
fn print_plans(
    screen: &mut Screen,
    head: Head,
    figures: &Figures,
    routes: &Routes,
    columns: &[u32; 64],
    rows: &[u32; 64],
)
    requires { (head.grouped ≡ true) × AreStored routes.now × AreCounted figures.now routes.now }
{
    let mut small = [0x5Au8; 36886];
    let n = plan::write_plan(&mut small, head, figures, routes, columns, rows);
    print_plan(screen, &small, n);
    let mut large = [0xA5u8; 40960];
    let m = plan::write_plan(&mut large, head, figures, routes, columns, rows);
    print_plan(screen, &large, m);
}

// Prints the corners, the pits and the plan of routes that are on the grid.
fn show(
    screen: &mut Screen,
    head: Head,
    numbers: &[u32; 32],
    meets: &[u32; 32],
    centres: &[u32; 32],
    sheet: &Sheet,
    columns: &[u32; 64],
    rows: &[u32; 64],
)
    requires { head.grouped ≡ true }
{
    let routes = sheet.routes();
    if !all_on_grid(&routes) {
        screen.put(b"off the grid\n");
        return;
    }
    let mut corners = [0usize; 32];
    let pits = print_pits(screen, &routes, &mut corners);
    let figures = Figures {
        numbers,
        meets,
        centres,
        corners: &corners,
    };
    let counted = Head {
        pits: pits as u32,
        ..head
    };
    print_plans(screen, counted, &figures, &routes, columns, rows);
}

// Prints the corners and the pits alone.
fn show_pits(screen: &mut Screen, sheet: &Sheet) {
    let routes = sheet.routes();
    if all_on_grid(&routes) {
        let mut corners = [0usize; 32];
        let _ = print_pits(screen, &routes, &mut corners);
    }
}

// Document 01's job 7.
fn job_seven(screen: &mut Screen) {
    let mut columns = [0u32; 64];
    columns[0] = 1000000;
    columns[1] = 1000020;
    columns[2] = 1000040;
    let mut rows = [0u32; 64];
    rows[0] = 1000000;
    rows[1] = 1000010;
    rows[2] = 1000020;
    rows[3] = 1000030;
    rows[4] = 1000050;
    let mut numbers = [0u32; 32];
    numbers[0] = 1;
    numbers[1] = 2;
    numbers[2] = 3;
    let mut meets = [1u32; 32];
    meets[0] = 2;
    let centres = [1u32; 32];
    let mut sheet = Sheet::new();
    sheet.add(b"crrcc", 0, 0, 2, 3);
    sheet.add(b"rr", 0, 1, 2, 1);
    sheet.add(b"cc", 1, 2, 1, 4);
    let head = Head {
        grouped: true,
        job: 7,
        runs: 3,
        trench: 100,
        saved: 40,
        pits: 0,
        last: 1,
    };
    show(
        screen, head, &numbers, &meets, &centres, &sheet, &columns, &rows,
    );
}

// One run, from end to end of the ranges.
fn one_run(screen: &mut Screen) {
    let mut columns = [0u32; 64];
    columns[1] = 2000000;
    let rows = [2000000u32; 64];
    let numbers = [9999u32; 32];
    let meets = [0u32; 32];
    let mut sheet = Sheet::new();
    sheet.add(b"r", 0, 0, 1, 0);
    let head = Head {
        grouped: true,
        job: 4294967295,
        runs: 1,
        trench: 2000000,
        saved: 0,
        pits: 0,
        last: 1,
    };
    show(
        screen, head, &numbers, &meets, &numbers, &sheet, &columns, &rows,
    );
}

// A job without runs: a head and an end.
fn no_runs(screen: &mut Screen) {
    let columns = [0u32; 64];
    let rows = [0u32; 64];
    let numbers = [0u32; 32];
    let meets = [0u32; 32];
    let sheet = Sheet::new();
    let head = Head {
        grouped: true,
        job: 7,
        runs: 0,
        trench: 0,
        saved: 0,
        pits: 0,
        last: 0,
    };
    show(
        screen, head, &numbers, &meets, &numbers, &sheet, &columns, &rows,
    );
}

// Three runs to the left, downwards and both, with a turn at every vertex and with none, in two groups; the upper two bytes of figures are left out.
fn all_ways(screen: &mut Screen) {
    let mut columns = [0u32; 64];
    columns[0] = 930000;
    columns[1] = 999997;
    columns[2] = 1000005;
    columns[3] = 1066000;
    columns[4] = 2000000;
    let mut rows = [0u32; 64];
    rows[1] = 999999;
    rows[2] = 1000000;
    rows[3] = 1000300;
    let mut numbers = [0u32; 32];
    numbers[0] = 10;
    numbers[1] = 300;
    numbers[2] = 9998;
    let mut meets = [2u32; 32];
    meets[1] = 1;
    let mut centres = [9998u32; 32];
    centres[1] = 65836;
    let mut sheet = Sheet::new();
    sheet.add(b"rcrcrcr", 4, 3, 0, 0);
    sheet.add(b"cccrrrr", 0, 3, 4, 0);
    sheet.add(b"rrccrcr", 4, 0, 0, 3);
    let head = Head {
        grouped: true,
        job: 65536,
        runs: 3,
        trench: 5140907,
        saved: 1069993,
        pits: 0,
        last: 65538,
    };
    show(
        screen, head, &numbers, &meets, &centres, &sheet, &columns, &rows,
    );
}

fn counting(from: u32) -> [u32; 32]
    requires { from ≤ 9968 }
{
    let mut numbers = [0; 32];
    for i in 0..32 {
        numbers[i] = from + i as u32;
    }
    numbers
}

fn evenly(from: u32) -> [u32; 64]
    requires { from ≤ 2 }
{
    let mut lines = [0; 64];
    for i in 0..64 {
        lines[i] = from + 31746 * i as u32;
    }
    lines
}

// The longest plan: 32 runs on 64 columns and 64 rows, with a turn at every vertex.
fn longest(screen: &mut Screen) {
    let columns = evenly(0);
    let rows = evenly(2);
    let numbers = counting(9968);
    let meets = [31u32; 32];
    let centres = [9968u32; 32];
    let mut sheet = Sheet::new();
    for _ in 0..16 {
        sheet.add(
            b"rcrcrcrcrcrcrcrcrcrcrcrcrcrcrcrcrcrcrcrcrcrcrcrcrcrcrcrcrcrcrcrcrcrcrcrcrcrcrcrcrcrcrcrcrcrcrcrcrcrcrcrcrcrcrcrcrcrcrcrcrcrcrc",
            0,
            0,
            63,
            63,
        );
        sheet.add(
            b"crcrcrcrcrcrcrcrcrcrcrcrcrcrcrcrcrcrcrcrcrcrcrcrcrcrcrcrcrcrcrcrcrcrcrcrcrcrcrcrcrcrcrcrcrcrcrcrcrcrcrcrcrcrcrcrcrcrcrcrcrcrcr",
            0,
            0,
            63,
            63,
        );
    }
    let head = Head {
        grouped: true,
        job: 1,
        runs: 32,
        trench: 7999992,
        saved: 119999880,
        pits: 0,
        last: 1,
    };
    show(
        screen, head, &numbers, &meets, &centres, &sheet, &columns, &rows,
    );
}

// The pits of a route along row 2, of one down column 3, and of a third.
fn cross(screen: &mut Screen, letters: &[u8], x1: u32, y1: u32, x2: u32, y2: u32) {
    let mut sheet = Sheet::new();
    sheet.add(b"rrrrrr", 0, 2, 6, 2);
    sheet.add(b"ccccc", 3, 5, 3, 0);
    sheet.add(letters, x1, y1, x2, y2);
    show_pits(screen, &sheet);
}

// Where cables cross. The third keeps away; it passes the crossing along the row, along the column, and back along the row; it ends there, starts
// there, turns there; it passes the crossing between two turns; it crosses both beside it.
fn crossings(screen: &mut Screen) {
    cross(screen, b"cc", 6, 4, 6, 6);
    cross(screen, b"rrr", 2, 2, 5, 2);
    cross(screen, b"cccccc", 3, 1, 3, 7);
    cross(screen, b"rrrr", 5, 2, 1, 2);
    cross(screen, b"rrr", 0, 2, 3, 2);
    cross(screen, b"cc", 3, 2, 3, 0);
    cross(screen, b"crr", 3, 1, 5, 2);
    cross(screen, b"crrrrc", 1, 1, 5, 3);
    cross(screen, b"rrcc", 2, 1, 4, 3);
}

fn main(rt: HostRuntime) -> io::Result<()> {
    let mut screen = Output::new(rt.stdout());
    job_seven(&mut screen);
    one_run(&mut screen);
    no_runs(&mut screen);
    all_ways(&mut screen);
    longest(&mut screen);
    crossings(&mut screen);
    screen.end()
}
