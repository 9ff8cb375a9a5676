// The centre of each run's group. Every group is a star exactly if no run that meets two or more meets another such one, and then a run that meets one run alone
// has that one for its centre, or is the lower of a pair; any other is its own centre.
ghost use Rattle.std.specs.Prelude.{◌≡◌, ◌≤◌, ◌<◌, length, get_or};
ghost use Rattle.network.specs.Lists.{every};
ghost use Rattle.network.specs.Graph.{below};
ghost use Rattle.groups.specs.Groups.{heads};
ghost use Rattle.groups.specs.Graph.{Graph};
ghost use Rattle.groups.specs.Near.{is_lone, is_local, near_centre};
ghost use Rattle.intersection.specs.Sets.{pack};
ghost use Rattle.intersection.specs.Centres.{joined_in, centres_in};

use crate::sets;

// The first n runs that meet one run at most.
fn lone_runs(neighbours: &[u32; 32], n: usize) -> u32
    requires { n ≤ 32 }
    ensures { result ≡ pack (is_lone (joined_in neighbours.now) 32) n }
{
    let mut found = 0;
    for i in 0..n {
        if crate::meets_of(neighbours, i) < 2 {
            found = sets::add(found, i);
        }
    }
    found
}

// Run i is such a run, or meets only such runs.
fn is_local(neighbours: &[u32; 32], n: usize, lone: u32, i: usize) -> bool
    requires { (n ≤ 32) × Graph (joined_in neighbours.now) n × (i < n) × (lone ≡ pack (is_lone (joined_in neighbours.now) 32) n) }
    ensures { result ≡ is_local (joined_in neighbours.now) 32 i }
{
    sets::member(lone, i) | sets::subset(neighbours[i], lone)
}

// So is each of the first n runs: every group is a star.
fn are_local(neighbours: &[u32; 32], n: usize) -> bool
    requires { (n ≤ 32) × Graph (joined_in neighbours.now) n }
    ensures { result ≡ every (is_local (joined_in neighbours.now) 32) (below n) }
{
    let lone = lone_runs(neighbours, n);
    for i in 0..n {
        if !is_local(neighbours, n, lone, i) {
            return false;
        }
    }
    true
}

// The centre of run i, where every group is a star.
fn centre_at(neighbours: &[u32; 32], i: usize) -> usize
    requires { i < 32 }
    ensures { result ≡ near_centre (joined_in neighbours.now) 32 i }
{
    if crate::meets_of(neighbours, i) != 1 {
        return i;
    }
    let j = sets::lowest(neighbours[i]) as usize;
    if (crate::meets_of(neighbours, j) == 1) & (i < j) {
        return i;
    }
    j
}

// The centres of the groups of the first n runs among zeros, if every group is a star.
pub fn centres_of(neighbours: &[u32; 32], n: usize) -> Option<[usize; 32]>
    requires { (n ≤ 32) × Graph (joined_in neighbours.now) n }
    ensures { result ≡ centres_in (joined_in neighbours.now) n }
{
    if !are_local(neighbours, n) {
        return None;
    }
    let mut centres = [0; 32];
    for i in 0..n {
        centres[i] = centre_at(neighbours, i);
    }
    Some(centres)
}

// How many of the first n runs are their own centres: the number of groups.
pub fn count_groups(centres: &[usize; 32], n: usize) -> usize
    requires { n ≤ 32 }
    ensures { (result ≡ length (heads (λ i. get_or centres.now i 0) n)) × (result ≤ n) }
{
    let mut groups = 0;
    for i in 0..n {
        groups += usize::from(centres[i] == i);
    }
    groups
}
