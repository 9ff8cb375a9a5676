// The columns and rows of a job, and the position of a coordinate in them.
#![tactic(auto)]

ghost use Rattle.std.specs.Prelude.{◌≡◌, [], ◌∷◌, ◌++◌, pred, ◌+◌, ◌<◌, ◌≤◌};
ghost use Rattle.network.specs.Distinct.{insert, distinct};
ghost use Rattle.grid.specs.Tables.{table, padded};
ghost use Rattle.grid.specs.Lines.{values, axis_of, lines_of, Room, RisingTo, index_of, length_at};

use job::Spans;
use std::mem;

// The columns of a job, or its rows: the first count words of lines, rising; the other words are 0.
#[derive(Clone, Copy)]
pub struct Axis {
    pub lines: [u32; 64],
    pub count: usize,
}

// How many of some lines are below each of two values.
#[derive(Clone, Copy)]
pub struct Indices {
    pub first: u32,
    pub second: u32,
}

// Puts v first, and each line one place further, the first of them first, and gives the last one.
fn slip(lines: &mut [u32], v: u32) -> u32
    ensures { lines.new ++ result ∷ [] ≡ v ∷ lines.old }
{
    let mut held = v;
    for line in lines.iter_mut() {
        held = mem::replace(line, held);
    }
    held
}

impl Axis {
    // No lines.
    pub fn new() -> Self
        ensures { result ≡ axis_of [] }
    {
        Axis {
            lines: [0; 64],
            count: 0,
        }
    }

    // The lines of the first n runs on one axis.
    pub fn of(spans: &Spans, n: usize) -> Self
        requires { n ≤ 32 }
        ensures { (result ≡ axis_of (distinct (values spans.now.first spans.now.second n))) × (result.count ≤ 64) }
    {
        let mut axis = Axis::new();
        for i in 0..n {
            axis.add_run(spans, i);
        }
        axis
    }

    // Puts the lines of run i among those of the runs before it.
    pub fn add_run(&mut self, spans: &Spans, i: usize)
        requires { (i < 32) × (self.old ≡ axis_of (distinct (values spans.now.first spans.now.second i))) }
        ensures { self.new ≡ axis_of (distinct (values spans.now.first spans.now.second (i + 1))) }
    {
        self.add_line(spans.first[i]);
        self.add_line(spans.second[i]);
    }

    // Puts a line at v among the lines, unless it is one of them.
    fn add_line(&mut self, v: u32)
        requires { Room self.old }
        ensures { self.new ≡ axis_of (insert v (lines_of self.old)) }
    {
        let at = self.position(v) as usize;
        let count = self.count;
        if at < count && self.lines[at] == v {
            return;
        }
        // One move of memory is quicker where there are many lines, and slower where there are few.
        if count < 16 {
            self.lines[count] = slip(&mut self.lines[at..count], v);
        } else {
            self.lines.copy_within(at..count, at + 1);
            self.lines[at] = v;
        }
        self.count = count + 1;
    }

    // How many of the lines are below v: the index of the line at v, where there is one.
    // The counter is as wide as the lines, so that the loop takes as many lines at a time as a vector has.
    pub fn position(&self, v: u32) -> u32
        requires { self.now.count ≤ 64 }
        ensures { (result ≡ index_of self.now.lines self.now.count v) × (result ≤ self.now.count) }
    {
        let mut k: u32 = 0;
        for line in &self.lines[..self.count] {
            k += u32::from(*line < v);
        }
        k
    }

    // The positions of two values in one pass.
    pub fn positions(&self, v: u32, w: u32) -> Indices
        requires { self.now.count ≤ 64 }
        ensures { result ≡ record { first = index_of self.now.lines self.now.count v; second = index_of self.now.lines self.now.count w } }
    {
        let mut first: u32 = 0;
        let mut second: u32 = 0;
        for line in &self.lines[..self.count] {
            first += u32::from(*line < v);
            second += u32::from(*line < w);
        }
        Indices { first, second }
    }

    // The lengths of the edges from each line to the next.
    pub fn edge_lengths(&self) -> [u32; 64]
        requires { (self.now.count ≤ 64) × RisingTo self.now.lines self.now.count }
        ensures { result ≡ padded 64 (table (length_at self.now.lines) (pred self.now.count)) }
    {
        let mut t = [0u32; 64];
        for i in 1..self.count {
            t[i - 1] = self.lines[i] - self.lines[i - 1];
        }
        t
    }
}
