// Prints the listing of the plan book on standard input.
#![tactic(auto)]

use console::Output;
use std::io;

// The first 36,887 bytes decide every listing (`book_prefix` of plan_report), and the text buffer has room for all of it (`book_whole`).
// An array that is made behind the reading is cleared a second time, so both are made before it.
fn main(rt: HostRuntime) -> io::Result<()> {
    let mut text = text::buffer();
    let mut book = [0u8; 36887];
    let n = console::read_full(&mut rt.stdin(), &mut book)?;
    let length = plan_report::list_book(&book[..n], &mut text);
    let mut screen = Output::new(rt.stdout());
    screen.put(&text[..length]);
    screen.end()
}
