// Prints the listing of each plan on standard input, then the text of every refusal and of some choices. A line of the input is a label, a space and the plan's bytes
// in hexadecimal. It prints the label and the length of the text, the text, a bar, and then as much of the text as 40 bytes have room for, and a bar.
#![tactic(auto)]

use console::{Output, Screen};
use refusal::Refusal;
use std::io;

fn print_text(screen: &mut Screen, words: &[u8]) {
    screen.put(words);
    screen.put(b"|\n");
}

fn list(screen: &mut Screen, plan: &[u8]) {
    let mut line = text::buffer();
    let n = text::list_plan(plan, &mut line);
    screen.put(b" ");
    screen.put_decimal(n as u64);
    screen.put(b"\n");
    print_text(screen, &line[..n]);
    let mut short = [0u8; 40];
    let m = text::list_plan(plan, &mut short);
    print_text(screen, &short[..m]);
}

fn list_line(screen: &mut Screen, line: &[u8]) {
    let space = hexadecimal::place_of(line, b' ', 0);
    let digits = (space + 1).min(line.len());
    screen.put(&line[..space]);
    let mut bytes = [0u8; 4096];
    let n = hexadecimal::unhex(&line[digits..], &mut bytes);
    list(screen, &bytes[..n]);
}

fn list_lines(screen: &mut Screen, lines: &[u8]) {
    for line in lines.split_inclusive(|b| *b == b'\n') {
        list_line(screen, line.strip_suffix(b"\n").unwrap_or(line));
    }
}

fn list_refusal(screen: &mut Screen, refusal: Refusal) {
    let mut line = text::buffer();
    let n = text::list_refusal(refusal, &mut line);
    screen.put(&line[..n]);
}

// Every refusal, in the order of their numbers, at this place where it has one.
fn list_refusals(screen: &mut Screen, place: usize) {
    let refusals = [
        Refusal::ShortWork,
        Refusal::ShortBuffer,
        Refusal::Cut(place),
        Refusal::UnknownKind(place),
        Refusal::Misplaced(place),
        Refusal::WrongCount(place),
        Refusal::WrongNumber(place),
        Refusal::OutOfRange(place),
        Refusal::TooManyRuns(place),
        Refusal::NoStar,
        Refusal::NotWhole(place),
        Refusal::NoTurn(place),
        Refusal::Miscounted(place),
        Refusal::OtherJob(place),
        Refusal::Untrue(place),
        Refusal::Coincident(place),
    ];
    for refusal in refusals {
        list_refusal(screen, refusal);
    }
}

fn list_choice(screen: &mut Screen, second: bool, trench: u32, other: u32) {
    let mut line = text::buffer();
    let n = text::list_chosen(second, trench, other, &mut line);
    screen.put(&line[..n]);
}

fn main(rt: HostRuntime) -> io::Result<()> {
    let mut lines = [0u8; 65536];
    let n = console::read_full(&mut rt.stdin(), &mut lines)?;
    let mut screen = Output::new(rt.stdout());
    list_lines(&mut screen, &lines[..n]);
    list_refusals(&mut screen, 0);
    list_refusals(&mut screen, 615);
    list_refusals(&mut screen, usize::MAX);
    list_choice(&mut screen, false, 100, 104);
    list_choice(&mut screen, true, 96, 100);
    list_choice(&mut screen, false, 0, 0);
    list_choice(&mut screen, true, 4294967294, 4294967295);
    screen.end()
}
