// The signed determinant of a piece, six times its volume with the sign of its handedness, from the places of its corners.
#![tactic(auto)]

ghost use Rattle.std.specs.Prelude.{◌≡◌, ◌*◌, ◌^◌, ◌≤◌, nat_abs, ◌+ℤ◌, ◌-ℤ◌, ◌*ℤ◌};
ghost use Rattle.grid.specs.Places.{greatest_place, point_of};
ghost use Rattle.grid_volume.specs.Volume.{determinant_of, signed_of, is_flat, is_negative, corners_of};
ghost use Rattle.grid_volume.specs.VolumeLaws.{Within, Difference};

use grid::Place;

// A row: p less q, coordinate by coordinate.
fn difference(p: Place, q: Place) -> [i64; 3]
    ensures { Difference p q result }
{
    [
        p.x as i64 - q.x as i64,
        p.y as i64 - q.y as i64,
        p.z as i64 - q.z as i64,
    ]
}

// What two rows have in two columns, a b above c d.
fn minor(a: i64, b: i64, c: i64, d: i64) -> i64
    requires { (nat_abs a ≤ greatest_place) × (nat_abs b ≤ greatest_place) × (nat_abs c ≤ greatest_place) × (nat_abs d ≤ greatest_place) }
    ensures { result ≡ a *ℤ d -ℤ b *ℤ c }
{
    a * d - b * c
}

// The first row a b c with its minors x y z.
fn row_sum(a: i64, b: i64, c: i64, x: i64, y: i64, z: i64) -> i64
    requires a_bound { (nat_abs a ≤ greatest_place) × (nat_abs b ≤ greatest_place) × (nat_abs c ≤ greatest_place) }
    requires x_bound { (nat_abs x ≤ 2 * greatest_place ^ 2) × (nat_abs y ≤ 2 * greatest_place ^ 2) × (nat_abs z ≤ 2 * greatest_place ^ 2) }
    ensures { result ≡ a *ℤ x -ℤ b *ℤ y +ℤ c *ℤ z }
{
    a * x - b * y + c * z
}

// Along the first row; the bound on the entries keeps every step within i64.
fn determinant(m: [[i64; 3]; 3]) -> i64
    requires { Within greatest_place m }
    ensures { result ≡ determinant_of m }
{
    let p = m[0];
    let q = m[1];
    let r = m[2];
    let x = minor(q[1], q[2], r[1], r[2]);
    let y = minor(q[0], q[2], r[0], r[2]);
    let z = minor(q[0], q[1], r[0], r[1]);
    row_sum(p[0], p[1], p[2], x, y, z)
}

// The signed determinant of the piece with these corners in slots 0 to 3.
pub fn signed(a: Place, b: Place, c: Place, d: Place) -> i64
    ensures { result ≡ signed_of (corners_of (point_of a) (point_of b) (point_of c) (point_of d)) }
{
    determinant([difference(b, a), difference(c, a), difference(d, a)])
}

// A piece with this signed determinant is flat.
pub fn is_flat(signed: i64) -> bool
    ensures { result ≡ is_flat signed }
{
    signed == 0
}

// A piece with this signed determinant is left-handed.
pub fn is_negative(signed: i64) -> bool
    ensures { result ≡ is_negative signed }
{
    signed < 0
}
