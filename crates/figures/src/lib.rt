// Figures of a whole job: the sum of its runs' distances, and of each run the meets figure and the number of its group's centre.
#![tactic(auto)]

ghost use Rattle.std.specs.Prelude.{◌≡◌, ℕ, ◌≤◌, ◌<◌, get_or, replicate};
ghost use Rattle.network.specs.Lists.{sum};
ghost use Rattle.network.specs.Plane.{distance, ◌to◌};
ghost use Rattle.network.specs.Graph.{below, degree};
ghost use Rattle.grid.specs.Tables.{table, padded};
ghost use Rattle.grid.specs.Runs.{runs_held};
ghost use Rattle.intersection.specs.Centres.{joined_in};
ghost use Rattle.figures.specs.Coordinates.{RunsInRange};

use job::Spans;

// The Manhattan distance from (x1, y1) to (x2, y2).
pub fn distance_of(x1: u32, y1: u32, x2: u32, y2: u32) -> u32
    requires { (x1 ≤ 2000000) × (y1 ≤ 2000000) × (x2 ≤ 2000000) × (y2 ≤ 2000000) }
    ensures { (result ≡ distance (record { x = x1; y = y1 } to record { x = x2; y = y2 })) × (result ≤ 4000000) }
{
    x1.abs_diff(x2) + y1.abs_diff(y2)
}

// The sum of the first n runs' distances.
pub fn total_distance(x: &Spans, y: &Spans, n: usize) -> u32
    requires { RunsInRange x.now.first y.now.first x.now.second y.now.second n }
    ensures { (result ≡ sum distance (runs_held x.now.first y.now.first x.now.second y.now.second n)) × (result ≤ 128000000) }
{
    let mut total = 0;
    for i in 0..n {
        total += distance_of(x.first[i], y.first[i], x.second[i], y.second[i]);
    }
    total
}

// Puts the meets figures of the first n runs among zeros.
pub fn tell_meets(neighbours: &[u32; 32], n: usize, told: &mut [u32; 32])
    requires { (n ≤ 32) × (told.old ≡ replicate 32 0) }
    ensures { told.new ≡ padded 32 (table (λ i. degree (joined_in neighbours.now) (below 32) i) n) }
{
    for i in 0..n {
        told[i] = intersection::meets_of(neighbours, i);
    }
}

// Puts the run numbers of the centres of the first n runs among zeros.
pub fn tell_centres(numbers: &[u32; 32], centres: &[usize; 32], n: usize, told: &mut [u32; 32])
    requires { (n ≤ 32) × ((i : ℕ) → i < n → get_or centres.now i 0 < 32) × (told.old ≡ replicate 32 0) }
    ensures { told.new ≡ padded 32 (table (λ i. get_or numbers.now (get_or centres.now i 0) 0) n) }
{
    for i in 0..n {
        let centre = centres[i];
        told[i] = numbers[centre];
    }
}
