// Squared lengths of edges, and their ranking.
#![tactic(auto)]

ghost use Rattle.std.specs.Prelude.{◌≡◌};
ghost use Rattle.grid.specs.Places.{point_of};
ghost use Rattle.grid_lengths.specs.Lengths.{squared_length, ranks_before};
ghost use Rattle.grid_lengths.specs.LengthLaws.{SquaredDifference};

use grid::Place;

// An edge as it is ranked: its squared length, and its ends' vertex numbers.
#[derive(Clone, Copy)]
pub struct Ranked {
    pub length: u64,
    pub lower: u32,
    pub higher: u32,
}

// Whether edge a ranks before edge b.
pub fn ranks_before(a: Ranked, b: Ranked) -> bool
    ensures { result ≡ ranks_before a b }
{
    (b.length, a.lower, a.higher) < (a.length, b.lower, b.higher)
}

// The difference of places is that of coordinates.
fn squared_difference(p: u16, q: u16) -> u64
    ensures { SquaredDifference p q result }
{
    let d = p.abs_diff(q) as u64;
    d * d
}

// The squared length of the edge between a and b.
pub fn squared_length(a: Place, b: Place) -> u64
    ensures { result ≡ squared_length (point_of a) (point_of b) }
{
    squared_difference(a.x, b.x) + squared_difference(a.y, b.y) + squared_difference(a.z, b.z)
}
