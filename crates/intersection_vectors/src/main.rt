// Reads jobs as text, one a line: the number of runs, then for each run its first x, first y, second x and second y. Prints for each job the
// numbers of columns and of rows, each run's meets figure, and the number of groups and the index of the centre of each run's group; or `centres none` where some
// group is no star. The stored figures are those of a plain enumeration: meets by listing all grid edges in each box, groups by joining runs that meet until
// nothing changes, the centre of a group by trying every run of it.
#![tactic(auto)]

ghost use Rattle.std.specs.Prelude.{◌≤◌};

use console::{Output, Screen};
use grid::Axis;
use intersection::finder;
use job::Spans;
use std::io;

// What is left of the text.
#[derive(Drop)]
struct Text<'a> {
    rest: &'a [u8],
}

impl Text<'_> {
    // Goes on to the next digit, or to the text's end, and says whether there is a digit.
    fn find_digit(&mut self) -> bool {
        let at = self.rest.iter().position(|b| b.is_ascii_digit());
        self.rest = &self.rest[at.unwrap_or(self.rest.len())..];
        at.is_some()
    }

    // The next number, or 0 where there is none.
    fn number(&mut self) -> u32 {
        let _found = self.find_digit();
        let behind = self.rest.iter().position(|b| !b.is_ascii_digit());
        let (digits, rest) = self.rest.split_at(behind.unwrap_or(self.rest.len()));
        self.rest = rest;
        digits.iter().fold(0, |value, b| longer(value, *b))
    }

    fn job(&mut self) -> Job
        ensures { result.count ≤ 32 }
    {
        let count = self.number().min(32) as usize;
        let mut x = Spans {
            first: [0; 32],
            second: [0; 32],
        };
        let mut y = x;
        for i in 0..count {
            x.first[i] = self.number();
            y.first[i] = self.number();
            x.second[i] = self.number();
            y.second[i] = self.number();
        }
        Job { count, x, y }
    }
}

#[derive(Clone, Copy)]
struct Job {
    count: usize,
    x: Spans,
    y: Spans,
}

// The number with one more digit; one that is too long stays.
fn longer(value: u32, b: u8) -> u32 {
    if value < 100_000_000 {
        return value * 10 + u32::from(b % 16);
    }
    value
}

fn print_found(screen: &mut Screen, neighbours: &[u32; 32], found: Option<[usize; 32]>, n: usize)
    requires { n ≤ 32 }
{
    screen.put(b" meets");
    for i in 0..n {
        screen.put_number(u64::from(intersection::meets_of(neighbours, i)));
    }
    let Some(centres) = found else {
        screen.put(b" centres none");
        return;
    };
    screen.put(b" groups");
    screen.put_number(finder::count_groups(&centres, n) as u64);
    screen.put(b" centres");
    for centre in &centres[..n] {
        screen.put_number(*centre as u64);
    }
}

fn print_job(screen: &mut Screen, job: &Job)
    requires { job.now.count ≤ 32 }
{
    let columns = Axis::of(&job.x, job.count);
    let rows = Axis::of(&job.y, job.count);
    let neighbours = intersection::neighbours(&job.x, &job.y, job.count);
    screen.put(b"columns");
    screen.put_number(columns.count as u64);
    screen.put(b" rows");
    screen.put_number(rows.count as u64);
    print_found(
        screen,
        &neighbours,
        finder::centres_of(&neighbours, job.count),
        job.count,
    );
    screen.put(b"\n");
}

// Prints one job after the other, as long as there is more text: each is a byte of it or more.
fn print_jobs(screen: &mut Screen, bytes: &[u8]) {
    let mut text = Text { rest: bytes };
    for _ in 0..bytes.len() {
        if !text.find_digit() {
            return;
        }
        let job = text.job();
        print_job(screen, &job);
    }
}

fn main(rt: HostRuntime) -> io::Result<()> {
    let mut bytes = [0u8; 65536];
    let n = console::read_full(&mut rt.stdin(), &mut bytes)?;
    let mut screen = Output::new(rt.stdout());
    print_jobs(&mut screen, &bytes[..n]);
    screen.end()
}
