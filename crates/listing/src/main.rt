// Prints the listing of the job on standard input.
#![tactic(auto)]

use console::Output;
use std::io;

// The first 640 bytes decide every listing (`report_prefix` of report), and the text buffer has room for all of it (`report_whole`).
// An array that is made behind the reading is cleared a second time, so both are made before it.
fn main(rt: HostRuntime) -> io::Result<()> {
    let mut text = text::buffer();
    let mut job = [0u8; 640];
    let n = console::read_full(&mut rt.stdin(), &mut job)?;
    let length = report::list_job(&job[..n], &mut text);
    let mut screen = Output::new(rt.stdout());
    screen.put(&text[..length]);
    screen.end()
}
