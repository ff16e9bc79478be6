// The marked piece of document 01 by value: its corners, marks and the ends of its edges.
#![tactic(auto)]

ghost use Rattle.std.specs.Prelude.{◌≡◌, get_or};
ghost use Rattle.piece.specs.Shape.{shape_of, mark, mark_fits};
ghost use Rattle.piece.specs.Ends.{lower_end, higher_end, between, ends_at, ends_of};

// "Generations go up to 15."
pub const LAST_GENERATION: u8 = 15;

#[derive(Clone, Copy, PartialEq, Eq)]
pub struct Piece {
    // Vertex numbers in slots 0 to 3.
    pub corners: [u32; 4],
    // The refinement edge's code.
    // Kept numbers, as the flag below: a record's bytes, of which any may be stored, and which the demands' definitions read.
    pub edge: u8,
    // The codes of the marked edges of faces 0 to 3.
    pub marks: [u8; 4],
    pub flag: u8,
    pub generation: u8,
    // What the casing is made of there. Document 02: "a material from 0 to 255".
    pub material: u8,
}

// The two vertex numbers of an edge.
#[derive(Clone, Copy, PartialEq, Eq)]
pub struct Ends {
    pub lower: u32,
    pub higher: u32,
}

// Whether m may be the mark of face i of a piece with this refinement edge.
pub fn mark_fits(edge: u8, m: u8, i: u8) -> bool
    ensures { result ≡ mark_fits edge m i }
{
    piece_edges::on_face(m, i) && (!piece_edges::on_face(edge, i) || m == edge)
}

// The marked edge of face i.
pub fn mark_of(p: Piece, i: u8) -> u8
    ensures { result ≡ mark (shape_of p) i }
{
    match i {
        0 => p.marks[0],
        1 => p.marks[1],
        2 => p.marks[2],
        3 => p.marks[3],
        _ => 0,
    }
}

// Of four corners, the vertex number in slot k.
pub fn corner_at(corners: [u32; 4], k: u8) -> u32
    ensures { result ≡ get_or corners k 0 }
{
    if k < 4 { corners[k as usize] } else { 0 }
}

// Of edge e, the slot of the end of lower vertex number. Kept beside `higher_end`: the documents name both, and a test for which is no plainer.
pub fn lower_end(p: Piece, e: u8) -> u8
    ensures { result ≡ lower_end p e }
{
    let low = piece_edges::low_slot(e);
    let high = piece_edges::high_slot(e);
    if corner_at(p.corners, low) < corner_at(p.corners, high) {
        low
    } else {
        high
    }
}

// Of edge e, the slot of the end of higher vertex number.
pub fn higher_end(p: Piece, e: u8) -> u8
    ensures { result ≡ higher_end p e }
{
    let low = piece_edges::low_slot(e);
    let high = piece_edges::high_slot(e);
    if corner_at(p.corners, low) < corner_at(p.corners, high) {
        high
    } else {
        low
    }
}

// Two vertex numbers as the ends of an edge, the lower first.
pub fn ends_between(u: u32, v: u32) -> Ends
    ensures { result ≡ between u v }
{
    Ends {
        lower: u.min(v),
        higher: u.max(v),
    }
}

// Of a piece with these corners, the ends of edge e.
pub fn ends_at(corners: [u32; 4], e: u8) -> Ends
    ensures { result ≡ ends_at corners e }
{
    let low = corner_at(corners, piece_edges::low_slot(e));
    let high = corner_at(corners, piece_edges::high_slot(e));
    ends_between(low, high)
}

// The lower and the higher vertex number of edge e.
pub fn ends_of(p: Piece, e: u8) -> Ends
    ensures { result ≡ ends_of p e }
{
    ends_at(p.corners, e)
}
