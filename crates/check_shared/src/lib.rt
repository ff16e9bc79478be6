// Two pieces compared by a face that they share: a face is a set of corner numbers, and so is a piece. A sum is made of a face's corners, so that the
// face is found by it.
#![tactic(auto)]

ghost use Rattle.std.specs.Prelude.{◌≡◌, cond, max};
ghost use Rattle.check_shared.specs.Faces.{face_of, holds, inside, same_set};
ghost use Rattle.check_shared.specs.Sums.{under, most_under, corner_sum};
ghost use Rattle.check_shared.specs.Rest.{has, same_rest};
ghost use Rattle.check_shared.specs.Marks.{same_two, same_edge};

// The corners of a face.
#[derive(Clone, Copy)]
pub struct Face {
    pub a: u32,
    pub b: u32,
    pub c: u32,
}

// Face i of a piece with these corners: the one without slot i.
pub fn face_of(p: [u32; 4], i: u8) -> Face
    ensures { result ≡ face_of p i }
{
    Face {
        a: if i == 0 { p[1] } else { p[0] },
        b: if i <= 1 { p[2] } else { p[1] },
        c: if i <= 2 { p[3] } else { p[2] },
    }
}

fn face_holds(f: Face, x: u32) -> bool
    ensures { result ≡ holds f x }
{
    f.a == x || f.b == x || f.c == x
}

fn face_inside(f: Face, g: Face) -> bool
    ensures { result ≡ inside f g }
{
    face_holds(g, f.a) && face_holds(g, f.b) && face_holds(g, f.c)
}

pub fn same_face(f: Face, g: Face) -> bool
    ensures { result ≡ same_set f g }
{
    face_inside(f, g) && face_inside(g, f)
}

fn only_under(top: u32, x: u32) -> u32
    ensures { result ≡ under top x }
{
    if x < top { x } else { 0 }
}

// The greatest corner that is below top.
fn most_under(top: u32, f: Face) -> u32
    ensures { result ≡ most_under top f }
{
    only_under(top, f.a)
        .max(only_under(top, f.b))
        .max(only_under(top, f.c))
}

// The sum of a face's corners in falling order, each with its factor. The factors move apart faces whose corners add up to the same, and are odd, so that
// modulo a power of two every corner counts in full.
pub fn corner_sum(f: Face) -> usize
    ensures { result ≡ corner_sum f }
{
    let first = f.a.max(f.b).max(f.c);
    let second = most_under(first, f);
    let third = most_under(second, f);
    first as usize + 37 * (second as usize) + 1029 * (third as usize)
}

fn has_corner(p: [u32; 4], x: u32) -> bool
    ensures { result ≡ has p x }
{
    p.contains(&x)
}

// Of pieces whose faces i and j are the same: whether the corners that these are without are corners of both pieces too.
pub fn same_rest(p: [u32; 4], i: u8, q: [u32; 4], j: u8) -> bool
    ensures { result ≡ same_rest p i q j }
{
    has_corner(q, piece::corner_at(p, i)) && has_corner(p, piece::corner_at(q, j))
}

// Two pairs, in either order.
fn same_two(a: u32, b: u32, c: u32, d: u32) -> bool
    ensures { result ≡ same_two a b c d }
{
    if a == c { b == d } else { a == d && b == c }
}

// Whether edge e of the one piece is edge f of the other, by their vertex numbers.
pub fn same_edge(p: [u32; 4], e: u8, q: [u32; 4], f: u8) -> bool
    ensures { result ≡ same_edge p e q f }
{
    let a = piece::corner_at(p, piece_edges::low_slot(e));
    let b = piece::corner_at(p, piece_edges::high_slot(e));
    let c = piece::corner_at(q, piece_edges::low_slot(f));
    let d = piece::corner_at(q, piece_edges::high_slot(f));
    same_two(a, b, c, d)
}
