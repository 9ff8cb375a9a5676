// Sets of numbers below 32, each a word whose digit i is 1 where i is a member.
ghost use Rattle.std.specs.Prelude.{◌≡◌, ◌||◌, ℕ, ◌<◌, eqb, get_or};
ghost use Rattle.network.specs.Lists.{every, count};
ghost use Rattle.network.specs.Graph.{below};
ghost use Rattle.intersection.specs.Sets.{has, members};

pub fn member(s: u32, i: usize) -> bool
    requires { i < 32 }
    ensures { result ≡ has s i }
{
    (s & (1 << i)) != 0
}

// s with i
pub fn add(s: u32, i: usize) -> u32
    requires { i < 32 }
    ensures { (j : ℕ) → has result j ≡ (eqb j i || has s j) }
{
    s | (1 << i)
}

// Every member of a is a member of b.
pub fn subset(a: u32, b: u32) -> bool
    ensures { result ≡ every (has b) (members a) }
{
    (a & b) == a
}

// How many members s has.
pub fn size(s: u32) -> u32
    ensures { result ≡ count (has s) (below 32) }
{
    s.count_ones()
}

// The lowest member of s, or 32 where it has none.
pub fn lowest(s: u32) -> u32
    ensures { result ≡ get_or (members s) 0 32 }
{
    s.trailing_zeros()
}
