// Vertices and the grid: places, and standing halfway.
#![tactic(auto)]

ghost use Rattle.std.specs.Prelude.{◌≡◌, ◌+◌, ◌/◌, eqb};
ghost use Rattle.grid.specs.Places.{coordinate, point_of, coordinate_on_grid, on_grid, is_halfway, halfway_of};

// How much more a place is than its coordinate: as much as makes every i16 a u16.
pub const SHIFT: u32 = 32768;

// A vertex's place: each coordinate and `SHIFT` more.
#[derive(Clone, Copy, PartialEq, Eq)]
pub struct Place {
    pub x: u16,
    pub y: u16,
    pub z: u16,
}

// The least and the greatest place on the grid.
const LEAST: u16 = 32;

const GREATEST: u16 = 65504;

// `SHIFT` is a multiple of 32, so a coordinate is on the grid exactly if its place is a multiple of 32 from `LEAST` to `GREATEST`.
fn coordinate_on_grid(p: u16) -> bool
    ensures { result ≡ coordinate_on_grid (coordinate p) }
{
    p % 32 == 0 && LEAST <= p && p <= GREATEST
}

// Whether a base vertex may stand here.
pub fn on_grid(p: Place) -> bool
    ensures { result ≡ on_grid (point_of p) }
{
    coordinate_on_grid(p.x) && coordinate_on_grid(p.y) && coordinate_on_grid(p.z)
}

// A u32 holds the sum of two places.
fn half_sum(p: u16, q: u16) -> u16
    ensures { result ≡ (p + q) / 2 }
{
    ((p as u32 + q as u32) / 2) as u16
}

// Where a made vertex of these parents stands; an odd sum is rounded down.
pub fn halfway(a: Place, b: Place) -> Place
    ensures { result ≡ halfway_of a b }
{
    Place {
        x: half_sum(a.x, b.x),
        y: half_sum(a.y, b.y),
        z: half_sum(a.z, b.z),
    }
}

// Twice w against the sum, so that nothing is rounded.
fn is_half_sum(w: u16, p: u16, q: u16) -> bool
    ensures { result ≡ eqb (w + w) (p + q) }
{
    w as u32 + w as u32 == p as u32 + q as u32
}

// Whether w stands exactly halfway between a and b.
pub fn is_halfway(w: Place, a: Place, b: Place) -> bool
    ensures { result ≡ is_halfway w a b }
{
    is_half_sum(w.x, a.x, b.x) && is_half_sum(w.y, a.y, b.y) && is_half_sum(w.z, a.z, b.z)
}
