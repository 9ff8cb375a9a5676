// Prints the case of every two boxes with corners on a grid of 4 x 4 points: a line for each of the 100 boxes, in it a sign for each of them. The stored signs are
// those of a plain enumeration: all points that lie in both boxes are listed.
#![tactic(auto)]

use console::{Output, Screen};
use intersection::{Box, Case};
use std::io;

// Four digits to the base 4 are the sides of a box, or of none.
fn box_of(digits: u32) -> Box {
    Box {
        left: digits / 64 % 4,
        right: digits / 16 % 4,
        low: digits / 4 % 4,
        high: digits % 4,
    }
}

fn is_box(b: Box) -> bool {
    (b.left <= b.right) & (b.low <= b.high)
}

fn sign_of(case: Case) -> u8 {
    match case {
        Case::Apart => b'.',
        Case::OnePoint => b'o',
        Case::LinePiece => b'-',
        Case::Area => b'#',
    }
}

// Prints the case of a box and the box of the digits, if they are one's.
fn print_pair(screen: &mut Screen, a: Box, digits: u32) {
    let b = box_of(digits);
    if is_box(b) {
        screen.put(&[sign_of(intersection::case_of(a, b))]);
    }
}

fn print_pairs(screen: &mut Screen, a: Box) {
    for digits in 0..256 {
        print_pair(screen, a, digits);
    }
}

// Prints the line of the box of the digits, if they are one's.
fn print_line(screen: &mut Screen, digits: u32) {
    let a = box_of(digits);
    if is_box(a) {
        print_pairs(screen, a);
        screen.put(b"\n");
    }
}

fn main(rt: HostRuntime) -> io::Result<()> {
    let mut screen = Output::new(rt.stdout());
    for digits in 0..256 {
        print_line(&mut screen, digits);
    }
    screen.end()
}
