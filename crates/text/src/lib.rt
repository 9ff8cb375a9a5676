// The text of a plan, of a refusal (document 01, "Listing") and of a choice (document 02, C-17). Each piece is written into the rest of the text buffer behind the piece before
// it. A writer puts as much of its text as there is room for at the front of what it is lent, and answers how many bytes that is.
#![tactic(auto)]

ghost use Rattle.std.specs.Prelude.{◌≡◌, [], ◌∷◌, ◌++◌, length, replicate};
ghost use Rattle.std.specs.Int.{w32};
ghost use Rattle.std.proofs.Common.{to_z};
ghost use Rattle.text.specs.Numerals.{ascii, decimal, signed};
ghost use Rattle.text.specs.Text.{figures_text, last_text, head_text, centre_text, route_text, corner_text, refusal_text, chosen_text};
ghost use Rattle.text.specs.Listing.{record_text, Sized, listing_of};
ghost use Rattle.text.specs.Listed.{Listed, ListedRecord};

use plan::Head;
use records::Record;
use refusal::Refusal;

// How many bytes of a plan were read, and how many of its text were written.
#[derive(Clone, Copy)]
pub struct Step {
    pub read: usize,
    pub written: usize,
}

fn write_words(text: &mut [u8], words: &[u8]) -> usize
    ensures { Listed words.now text.old text.new result }
{
    let n = words.len().min(text.len());
    text[..n].copy_from_slice(&words[..n]);
    n
}

fn write_byte(text: &mut [u8], b: u8) -> usize
    ensures { Listed (b ∷ []) text.old text.new result }
{
    if text.len() == 0 {
        return 0;
    }
    text[0] = b;
    1
}

// A number in decimal: its tenth, then its last digit.
fn write_number(text: &mut [u8], n: u64) -> usize
    ensures { Listed (decimal n) text.old text.new result }
{
    if n < 10 {
        return write_byte(text, b'0' + n as u8);
    }
    let at = write_number(text, n / 10);
    at + write_byte(&mut text[at..], b'0' + (n % 10) as u8)
}

// A number behind its name.
fn write_field(text: &mut [u8], name: &[u8], n: u64) -> usize
    ensures { Listed (name.now ++ decimal n) text.old text.new result }
{
    let at = write_words(text, name);
    at + write_number(&mut text[at..], n)
}

// A coordinate's word, read as two's complement.
fn write_coordinate(text: &mut [u8], word: u32) -> usize
    ensures { Listed (signed (to_z w32 word)) text.old text.new result }
{
    if word < 2147483648 {
        return write_number(text, word as u64);
    }
    let at = write_byte(text, b'-');
    at + write_number(&mut text[at..], 4294967296 - word as u64)
}

fn write_figures(text: &mut [u8], head: Head) -> usize
    ensures { Listed (figures_text head) text.old text.new result }
{
    let mut at = write_field(text, b" trench ", head.trench as u64);
    at += write_field(&mut text[at..], b" saved ", head.saved as u64);
    at + write_field(&mut text[at..], b" pits ", head.pits as u64)
}

// The number of groups, or in an older plan the centre's run number.
fn write_last(text: &mut [u8], grouped: bool, last: u64) -> usize
    ensures { Listed (last_text grouped last) text.old text.new result }
{
    if grouped {
        return write_field(text, b" groups ", last);
    }
    write_field(text, b" centre ", last)
}

fn write_head(text: &mut [u8], head: Head) -> usize
    ensures { Listed (head_text head) text.old text.new result }
{
    let mut at = write_field(text, b"job ", head.job as u64);
    at += write_field(&mut text[at..], b" runs ", head.runs as u64);
    at += write_last(&mut text[at..], head.grouped, head.last as u64);
    at + write_figures(&mut text[at..], head)
}

// A new line, with a run's number and its meets figure.
fn write_run(text: &mut [u8], number: u64, meets: u64) -> usize
    ensures { Listed ((ascii "\nroute " ++ decimal number) ++ (ascii " meets " ++ decimal meets)) text.old text.new result }
{
    let at = write_field(text, b"\nroute ", number);
    at + write_field(&mut text[at..], b" meets ", meets)
}

// The run number of a group's centre, which an older plan does not tell.
fn write_centre(text: &mut [u8], grouped: bool, centre: u64) -> usize
    ensures { Listed (centre_text grouped centre) text.old text.new result }
{
    if grouped {
        return write_field(text, b" centre ", centre);
    }
    0
}

// A new line, and what it says of a route before the corners.
fn write_route(
    text: &mut [u8],
    grouped: bool,
    number: u32,
    meets: u32,
    centre: u32,
    corners: u32,
) -> usize
    ensures { Listed (ascii "\n" ++ route_text grouped number meets centre corners) text.old text.new result }
{
    let mut at = write_run(text, number as u64, meets as u64);
    at += write_centre(&mut text[at..], grouped, centre as u64);
    at += write_field(&mut text[at..], b" corners ", corners as u64);
    at + write_byte(&mut text[at..], b':')
}

fn write_corner(text: &mut [u8], x: u32, y: u32) -> usize
    ensures { Listed (corner_text (to_z w32 x) (to_z w32 y)) text.old text.new result }
{
    let mut at = write_byte(text, b' ');
    at += write_coordinate(&mut text[at..], x);
    at += write_byte(&mut text[at..], b',');
    at + write_coordinate(&mut text[at..], y)
}

// A line of two numbers, each behind its name.
fn write_line(text: &mut [u8], name: &[u8], n: u64, other: &[u8], m: u64) -> usize
    ensures { Listed ((name.now ++ decimal n) ++ (other.now ++ decimal m) ++ ascii "\n") text.old text.new result }
{
    let mut at = write_field(text, name, n);
    at += write_field(&mut text[at..], other, m);
    at + write_byte(&mut text[at..], b'\n')
}

// The text of a refusal, as much of it as there is room for, and how many bytes that is.
pub fn list_refusal(refusal: Refusal, text: &mut [u8]) -> usize
    ensures { Listed (refusal_text refusal) text.old text.new result }
{
    let number = refusal::number(refusal) as u64;
    let place = refusal::place(refusal) as u64;
    write_line(text, b"refused ", number, b" at ", place)
}

// The text of a choice between two plan books of these trench figures, the second of them chosen or the first: as much of it as there is room for, and how many
// bytes that is.
pub fn list_chosen(second: bool, trench: u32, other: u32, text: &mut [u8]) -> usize
    ensures { Listed (chosen_text second trench other) text.old text.new result }
{
    let (chosen, rest): (&[u8], &[u8]) = if second {
        (b"stake from the second book: trench ", b", the first has ")
    } else {
        (b"stake from the first book: trench ", b", the second has ")
    };
    write_line(text, chosen, trench as u64, rest, other as u64)
}

// How many bytes a record takes; what ends a listing takes all that are left.
pub fn record_size(found: Record, left: usize) -> usize
    ensures { Sized found left result }
{
    match found {
        Record::Head(_) => 19,
        Record::Route { grouped, .. } => records::route_size(grouped),
        Record::Corner { .. } => 9,
        Record::End(_) | Record::Other => left,
    }
}

fn write_record(text: &mut [u8], found: Record) -> usize
    ensures { Listed (record_text found) text.old text.new result }
{
    match found {
        Record::Head(head) => write_head(text, head),
        Record::Route {
            grouped,
            number,
            meets,
            corners,
            centre,
        } => write_route(text, grouped, number, meets, centre, corners),
        Record::Corner { x, y } => write_corner(text, x, y),
        Record::End(_) => write_byte(text, b'\n'),
        Record::Other => 0,
    }
}

// Lists the record that the bytes begin with.
fn list_record(plan: &[u8], text: &mut [u8]) -> Step
    ensures { ListedRecord plan.now text.old text.new result }
{
    let found = records::first_record(plan);
    let written = write_record(text, found);
    Step {
        read: record_size(found, plan.len()),
        written,
    }
}

// The text of a plan, as much of it as there is room for, and how many bytes that is. Bytes that are no plan give the text of the whole records
// that they begin with.
pub fn list_plan(plan: &[u8], text: &mut [u8]) -> usize
    ensures { Listed (listing_of plan.now) text.old text.new result }
{
    let mut read: usize = 0;
    let mut written: usize = 0;
    while read < plan.len() {
        let step = list_record(&plan[read..], &mut text[written..]);
        read += step.read;
        written += step.written;
    }
    written
}

// Zeros, enough for every text of a plan with at most 32 runs, of a refusal and of a choice.
pub fn buffer() -> [u8; 74837]
    ensures zeros { result ≡ replicate 74837 0 }
    ensures size { 74837 ≡ length result }
{
    [0; 74837]
}
