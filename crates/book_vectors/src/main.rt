// Prints what reading says of each plan book on standard input. A line there is a label, a space and the book's bytes in hexadecimal. A refusal
// prints its number and place. An accepted book prints 0 0, its figures, and each route: its run number, its meets figure, its group's centre if the book
// is of the newer kinds, its number of corners, and these in decimetres, as far as there are answers; of more than 8 the first two, how many are left
// out, and the last. `differs` follows if reading the book anew tells a route otherwise, or its first or last corner, or if there is an answer past the
// last one.
#![tactic(auto)]

ghost use Rattle.std.specs.Prelude.{◌≡◌, length};

use book::{Reading, Route, Spot};
use console::{Output, Screen};
use plan::Head;
use refusal::Refusal;
use std::io;

// A coordinate in decimetres. Minus the least word is no word, so 1 is added behind the cast.
fn print_coordinate(screen: &mut Screen, c: i32) {
    if c < 0 {
        screen.put(b" -");
        screen.put_decimal((-1 - c) as u64 + 1);
    } else {
        screen.put_number(c as u64);
    }
}

fn print_head(screen: &mut Screen, head: &Head) {
    screen.put(b" 0 0 job");
    screen.put_number(head.job as u64);
    screen.put(b" runs");
    screen.put_number(head.runs as u64);
    screen.put(b" trench");
    screen.put_number(head.trench as u64);
    screen.put(b" saved");
    screen.put_number(head.saved as u64);
    screen.put(b" pits");
    screen.put_number(head.pits as u64);
    if head.grouped {
        screen.put(b" groups");
    } else {
        screen.put(b" centre");
    }
    screen.put_number(head.last as u64);
}

fn print_route(screen: &mut Screen, route: Route, grouped: bool) {
    screen.put(b" |");
    screen.put_number(route.number as u64);
    screen.put_number(route.meets as u64);
    if grouped {
        screen.put_number(route.centre as u64);
    }
    screen.put_number(route.corners as u64);
}

fn print_spot(screen: &mut Screen, spot: Spot) {
    screen.put(b",");
    print_coordinate(screen, spot.x);
    print_coordinate(screen, spot.y);
}

// Whether reading the book anew gives these figures.
fn figures_agree(book: &[u8], head: &Head) -> bool {
    book::figures_of(book) == Some(*head)
}

// ---- by places, and by reading the book anew

fn route_agrees(book: &[u8], places: &[u32], i: usize) -> bool {
    book::route_in(book, places, i) == book::route_of(book, i)
}

fn corner_agrees(book: &[u8], places: &[u32], i: usize, j: usize) -> bool {
    book::corner_in(book, places, i, j) == book::corner_of(book, i, j)
}

fn no_route_at(book: &[u8], places: &[u32], i: usize) -> bool {
    book::route_in(book, places, i).is_none() & book::route_of(book, i).is_none()
}

fn no_corner_at(book: &[u8], places: &[u32], i: usize, j: usize) -> bool {
    book::corner_in(book, places, i, j).is_none() & book::corner_of(book, i, j).is_none()
}

// Whether there is nothing from route n on.
fn ends_at(book: &[u8], places: &[u32], n: usize) -> bool {
    let routes = no_route_at(book, places, n) & no_route_at(book, places, usize::MAX);
    let corners = no_corner_at(book, places, n, 0) & no_corner_at(book, places, usize::MAX, 0);
    routes & corners & no_corner_at(book, places, usize::MAX, usize::MAX)
}

// Whether route i is told alike, and its first and last corner of n, and there is no corner from n on.
fn agrees(book: &[u8], places: &[u32], i: usize, n: usize) -> bool {
    if n == 0 {
        return false;
    }
    let first = route_agrees(book, places, i) & corner_agrees(book, places, i, 0);
    let last = corner_agrees(book, places, i, n - 1) & no_corner_at(book, places, i, n);
    first & last & no_corner_at(book, places, i, usize::MAX)
}

fn print_differs(screen: &mut Screen, same: bool) {
    if !same {
        screen.put(b" differs");
    }
}

// ---- a book

// The number of corners of route i, up to the first that is not there.
fn corners_of(book: &[u8], places: &[u32], i: usize) -> usize {
    for j in 0..book.len() {
        if book::corner_in(book, places, i, j).is_none() {
            return j;
        }
    }
    book.len()
}

fn print_corner_at(screen: &mut Screen, book: &[u8], places: &[u32], i: usize, j: usize) {
    if let Some(spot) = book::corner_in(book, places, i, j) {
        print_spot(screen, spot);
    }
}

fn print_corners(screen: &mut Screen, book: &[u8], places: &[u32], i: usize, n: usize) {
    for j in 0..n {
        print_corner_at(screen, book, places, i, j);
    }
}

// The corners of route i, which has n.
fn print_spots(screen: &mut Screen, book: &[u8], places: &[u32], i: usize, n: usize) {
    if n <= 8 {
        print_corners(screen, book, places, i, n);
    } else {
        print_corners(screen, book, places, i, 2);
        screen.put(b",");
        screen.put_number((n - 3) as u64);
        screen.put(b" more");
        print_corner_at(screen, book, places, i, n - 1);
    }
}

// Prints the routes up to the first that is not there, and tells how many they are.
fn print_routes(screen: &mut Screen, book: &[u8], places: &[u32], grouped: bool) -> usize {
    for i in 0..book.len() {
        let Some(route) = book::route_in(book, places, i) else {
            return i;
        };
        print_route(screen, route, grouped);
        let n = corners_of(book, places, i);
        print_spots(screen, book, places, i, n);
        print_differs(screen, agrees(book, places, i, n));
    }
    book.len()
}

fn print_reading(screen: &mut Screen, book: &[u8], reading: &Reading) {
    print_head(screen, &reading.head);
    let n = print_routes(screen, book, &reading.places, reading.head.grouped);
    print_differs(
        screen,
        figures_agree(book, &reading.head) & ends_at(book, &reading.places, n),
    );
}

// A book that is refused has no places.
fn print_refusal(screen: &mut Screen, book: &[u8], refusal: Refusal) {
    screen.put_number(refusal::number(refusal) as u64);
    screen.put_number(refusal::place(refusal) as u64);
    let same = book::figures_of(book).is_none();
    print_differs(screen, same & ends_at(book, &[0; 33], 0));
}

fn read_book(screen: &mut Screen, book: &[u8]) {
    match book::read(book) {
        Ok(reading) => print_reading(screen, book, &reading),
        Err(refusal) => print_refusal(screen, book, refusal),
    }
    screen.put(b"\n");
}

fn read_line(screen: &mut Screen, line: &[u8]) {
    let space = hexadecimal::place_of(line, b' ', 0);
    let digits = (space + 1).min(line.len());
    screen.put(&line[..space]);
    let mut bytes = [0u8; 65536];
    let n = hexadecimal::unhex(&line[digits..], &mut bytes);
    read_book(screen, &bytes[..n]);
}

fn read_lines(screen: &mut Screen, lines: &[u8]) {
    for line in lines.split_inclusive(|b| *b == b'\n') {
        read_line(screen, line.strip_suffix(b"\n").unwrap_or(line));
    }
}

// Zeros, enough for all books.
fn buffer() -> [u8; 262144]
    ensures { 262144 ≡ length result }
{
    [0; 262144]
}

fn main(rt: HostRuntime) -> io::Result<()> {
    let mut lines = buffer();
    let n = console::read_full(&mut rt.stdin(), &mut lines)?;
    let mut screen = Output::new(rt.stdout());
    read_lines(&mut screen, &lines[..n]);
    screen.end()
}
