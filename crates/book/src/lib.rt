// Reads a plan book of either set of kinds back (document 02, C-12 and C-16): its figures, its routes and their corners, or the first refusal.
#![tactic(auto)]

mod scan;
mod steps;

ghost use Rattle.std.specs.Prelude.{◌≡◌, ◌<◌, drop, MatchResult, Ok, Err};
ghost use Rattle.records.specs.Records.{record_of};
ghost use Rattle.book.specs.Parse.{start, begun, passed, parse_plan};
ghost use Rattle.book.specs.Shape.{whole, shape_of};
ghost use Rattle.book.specs.Reading.{figures_of, route_of, corner_of, reading_of, route_by, corner_by};

use plan::Head;
use records::Record;
use refusal::Refusal;

// A book that is read: its head, and the places of its routes, with that of the end behind them and 0 after it.
#[derive(Clone, Copy)]
pub struct Reading {
    pub head: Head,
    pub places: [u32; 33],
}

// A route: its run number, how many runs that one meets, how many corners the route has, and the run number of its group's centre, 0 in an older book.
#[derive(Clone, Copy, PartialEq)]
pub struct Route {
    pub number: u32,
    pub meets: u32,
    pub corners: u32,
    pub centre: u32,
}

// A corner, in decimetres.
#[derive(Clone, Copy, PartialEq)]
pub struct Spot {
    pub x: i32,
    pub y: i32,
}

// A corner, each coordinate the decimetres plus 1,000,000: above 2,000,000 where it lies outside its range.
#[derive(Clone, Copy)]
pub struct Corner {
    pub x: u32,
    pub y: u32,
}

// The set of kinds, the routes begun, the corners of the last of them, the last of these corners, and whether the one before it is on its column.
#[derive(Clone, Copy)]
pub struct Walk {
    pub grouped: bool,
    pub routes: usize,
    pub corners: usize,
    pub last: Corner,
    pub upright: bool,
}

impl Walk {
    // Before the first route.
    pub fn start(grouped: bool) -> Walk
        ensures { result ≡ start grouped }
    {
        Walk {
            grouped,
            routes: 0,
            corners: 0,
            last: Corner { x: 0, y: 0 },
            upright: false,
        }
    }

    // One more route.
    pub fn begin(self) -> Walk
        requires { self.routes < 32 }
        ensures { result ≡ begun self }
    {
        Walk {
            routes: self.routes + 1,
            corners: 0,
            upright: false,
            ..self
        }
    }

    // One more corner of the route.
    pub fn pass(self, c: Corner) -> Walk
        requires { self.corners < 127 }
        ensures { result ≡ passed self c }
    {
        Walk {
            corners: self.corners + 1,
            last: c,
            upright: self.last.x == c.x,
            ..self
        }
    }
}

// What a record after the head says.
#[derive(Clone, Copy)]
pub enum Step {
    Route(Route),
    Corner(Corner),
    End(u32),
}

// Corners that are taken one behind the other: the place behind them, what is known there, and the total that the end tells, if the end stands there; if
// not, a route does.
#[derive(Clone, Copy)]
pub struct Run {
    pub at: usize,
    pub walk: Walk,
    pub end: Option<u32>,
}

pub fn wide(x: u32) -> usize
    ensures { (result ≡ x) × (result < 4294967296) }
{
    x as usize
}

// The record at a place of the book.
fn record_at(book: &[u8], at: usize) -> Record
    ensures { result ≡ record_of (drop at book.now) }
{
    let Some(rest) = book.get(at..) else {
        return Record::Other;
    };
    records::first_record(rest)
}

// Compares the counts of a book that is whole, in the book's order. A route record stands at each place, so its corners are looked up there at once.
fn compare(
    book: &[u8],
    head: &Head,
    places: &[u32; 33],
    n: usize,
    total: u32,
) -> Result<(), Refusal>
    requires { whole head.now n total places.now ≡ shape_of book.now }
    ensures { MatchResult result
        (λ _. Ok (record { head = head.now; places = places.now }) ≡ reading_of (parse_plan book.now))
        (λ x. Err x ≡ reading_of (parse_plan book.now)) }
{
    let size = records::route_size(head.grouped);
    if wide(head.runs) != n {
        return Err(Refusal::Miscounted(0));
    }
    for i in 0..n {
        let at = wide(places[i]);
        let end = wide(places[i + 1]);
        let said = wide(job::le16(book, at + 5));
        if (end == at + size) | (end != at + size + 9 * said) {
            return Err(Refusal::Miscounted(at));
        }
    }
    let end = wide(places[n]);
    if end != 19 + size * n + 9 * wide(total) {
        return Err(Refusal::Miscounted(end));
    }
    Ok(())
}

// Reads a plan book, for every list of bytes: the records front to back, then their counts. The places stand where they are gathered until they are given:
// handed on, they would be copied.
pub fn read(book: &[u8]) -> Result<Reading, Refusal>
    ensures { result ≡ reading_of (parse_plan book.now) }
{
    let Record::Head(head) = records::first_record(book) else {
        return Err(Refusal::NotWhole(0));
    };
    let mut places = [0u32; 33];
    let mut at: usize = 19;
    let mut walk = Walk::start(head.grouped);
    loop {
        let run = scan::run_from(book, at, walk)?;
        let n = run.walk.routes;
        places[n] = run.at as u32;
        if let Some(total) = run.end {
            compare(book, &head, &places, n, total)?;
            return Ok(Reading { head, places });
        }
        walk = run.walk.begin();
        at = run.at + records::route_size(walk.grouped);
    }
}

// ---- by places: one look at them, and one record of the book

// Route i of a book, by the places that reading it gave.
pub fn route_in(book: &[u8], places: &[u32], i: usize) -> Option<Route>
    ensures { result ≡ route_by book.now places.now i }
{
    let at = *places.get(i)?;
    let next = *places.get(i + 1)?;
    if at >= next {
        return None;
    }
    let Record::Route {
        number,
        meets,
        corners,
        centre,
        ..
    } = record_at(book, wide(at))
    else {
        return None;
    };
    Some(Route {
        number,
        meets,
        corners,
        centre,
    })
}

// Corner j of route i of a book, by the places that reading it gave.
pub fn corner_in(book: &[u8], places: &[u32], i: usize, j: usize) -> Option<Spot>
    ensures { result ≡ corner_by book.now places.now i j }
{
    let start = *places.get(i)?;
    let next = *places.get(i + 1)?;
    if j >= 127 {
        return None;
    }
    let size = records::route_size(book.first() == Some(&0x51));
    let at = wide(start) + size + 9 * j;
    if at >= wide(next) {
        return None;
    }
    let Record::Corner { x, y } = record_at(book, at) else {
        return None;
    };
    Some(Spot {
        x: job::signed_of(x),
        y: job::signed_of(y),
    })
}

// ---- by reading the book anew

// The figures of a book.
pub fn figures_of(book: &[u8]) -> Option<Head>
    ensures { result ≡ figures_of (parse_plan book.now) }
{
    let Ok(reading) = read(book) else {
        return None;
    };
    Some(reading.head)
}

// Route i of a book.
pub fn route_of(book: &[u8], i: usize) -> Option<Route>
    ensures { result ≡ route_of (parse_plan book.now) i }
{
    let Ok(reading) = read(book) else {
        return None;
    };
    route_in(book, &reading.places, i)
}

// Corner j of route i of a book.
pub fn corner_of(book: &[u8], i: usize, j: usize) -> Option<Spot>
    ensures { result ≡ corner_of (parse_plan book.now) i j }
{
    let Ok(reading) = read(book) else {
        return None;
    };
    corner_in(book, &reading.places, i, j)
}
