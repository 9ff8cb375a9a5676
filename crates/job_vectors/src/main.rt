// Prints what reading says of each job on standard input. A line there is a label, a space and the job's bytes in hexadecimal.
// A refusal prints its number and place; an accepted job prints 0 0, its number, how many runs it has, and each run.
#![tactic(auto)]

ghost use Rattle.std.specs.Prelude.{◌<◌};

use console::{Output, Screen};
use job::Job;
use std::io;

// A biased coordinate, in decimetres.
fn print_coordinate(screen: &mut Screen, c: u32) {
    screen.put(if c < 1000000 { b" -" } else { b" " });
    screen.put_decimal(u64::from(c.abs_diff(1000000)));
}

fn print_run(screen: &mut Screen, job: &Job, k: usize)
    requires { k < 32 }
{
    screen.put(b" |");
    screen.put_number(u64::from(job.numbers[k]));
    print_coordinate(screen, job.x.first[k]);
    print_coordinate(screen, job.y.first[k]);
    print_coordinate(screen, job.x.second[k]);
    print_coordinate(screen, job.y.second[k]);
}

fn print_job(screen: &mut Screen, job: &Job) {
    screen.put(b" 0 0 job");
    screen.put_number(u64::from(job.number));
    screen.put(b" runs");
    screen.put_number(job.count as u64);
    for k in 0..job.count.min(32) {
        print_run(screen, job, k);
    }
}

fn read_line(screen: &mut Screen, line: &[u8]) {
    let space = hexadecimal::place_of(line, b' ', 0);
    let digits = line.len().min(space + 1);
    screen.put(&line[..space]);
    let mut bytes = [0u8; 4096];
    let n = hexadecimal::unhex(&line[digits..], &mut bytes);
    match job::read(&bytes[..n]) {
        Ok(job) => print_job(screen, &job),
        Err(refusal) => {
            screen.put_number(u64::from(refusal::number(refusal)));
            screen.put_number(refusal::place(refusal) as u64);
        }
    }
    screen.put(b"\n");
}

fn main(rt: HostRuntime) -> io::Result<()> {
    let mut text = [0u8; 65536];
    let n = console::read_full(&mut rt.stdin(), &mut text)?;
    let mut screen = Output::new(rt.stdout());
    for line in text[..n].split_inclusive(|b| *b == b'\n') {
        read_line(&mut screen, line.strip_suffix(b"\n").unwrap_or(line));
    }
    screen.end()
}
