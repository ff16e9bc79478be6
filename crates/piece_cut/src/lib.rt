// Document 002's BisectTet, to be read beside it: its five steps from top to bottom, then the two children that they make.
//
// w is the new vertex, the midpoint of the refinement edge. A child has w in the slot of one end of the refinement edge, which is k below;
// all else stays in its slot. "Each child has one inherited face, two cut faces, and one new face, which is common to both children":
// - the inherited face is the one without w, face k: it is a face of the parent;
// - the new face is the one without the end of the refinement edge that stays: w and the two corners not on the refinement edge;
// - the two cut faces are the others: each is half of a face of the parent.
#![tactic(auto)]

ghost use Rattle.std.specs.Prelude.{◌≡◌};
ghost use Rattle.piece.specs.Shape.{shape_of, set_p};
ghost use Rattle.piece_cut.specs.Cut.{child_corners, inherited_mark, refinement_edge, cut_mark, new_mark, child_flag, child_mark, child_of, cut_of};

use piece::Piece;

// The two children, "first" and "second" as document 01 orders them.
#[derive(Clone, Copy)]
pub struct Children {
    pub first: Piece,
    pub second: Piece,
}

// Step 1. "Bisect τ by joining the midpoint of its refinement edge to each of the two vertices not lying on the refinement edge. This
// defines V(τ_i)": a child's corners.
fn child_corners(p: Piece, w: u32, k: u8) -> [u32; 4]
    ensures { result ≡ child_corners p.corners w k }
{
    let mut corners = p.corners;
    if k < 4 {
        corners[k as usize] = w;
    }
    corners
}

// Step 2. "The inherited face inherits its marked edge from the parent,
fn inherited_mark(p: Piece, k: u8) -> u8
    ensures { result ≡ inherited_mark (shape_of p) k }
{
    piece::mark_of(p, k)
}

// and this marked edge is the refinement edge of the child."
fn refinement_edge(p: Piece, k: u8) -> u8
    ensures { result ≡ refinement_edge (shape_of p) k }
{
    inherited_mark(p, k)
}

// Step 3. "On the cut faces of the children mark the edge opposite the new vertex with respect to the face."
fn cut_mark(k: u8, i: u8) -> u8
    ensures { result ≡ cut_mark k i }
{
    piece_edges::opposite_on(i, k)
}

// Step 4. "The new face is marked the same way for both children. If the parent is type P_f, the marked edge is the edge connecting the new
// vertex to the new refinement edge. Otherwise it is the edge opposite the new vertex." The children's refinement edges are the marks of
// the parent's faces acd and bcd, and in type P these two share a corner that is on the new face.
fn new_mark(p: Piece, set: bool, k: u8) -> u8
    requires { set ≡ set_p (shape_of p) }
    ensures { result ≡ new_mark (shape_of p) k }
{
    if set {
        let acd = piece::mark_of(p, piece_edges::high_slot(p.edge));
        let bcd = piece::mark_of(p, piece_edges::low_slot(p.edge));
        return piece_edges::edge_between(k, piece_edges::shared_slot(acd, bcd));
    }
    piece_edges::opposite_on(piece_edges::other_end(p.edge, k), k)
}

// Step 5. "The flag is set in the children if and only if the parent is type P_u."
fn child_flag(p: Piece) -> u8
    ensures { result ≡ child_flag (shape_of p) }
{
    u8::from(piece_types::is_unset_p(p))
}

// "Mark the faces of the children as follows": which step marks face i. The new face's mark is given.
fn child_mark(p: Piece, k: u8, new: u8, i: u8) -> u8
    requires { new ≡ new_mark (shape_of p) k }
    ensures { result ≡ child_mark (shape_of p) k i }
{
    if i == k {
        return inherited_mark(p, k);
    }
    if i == piece_edges::other_end(p.edge, k) {
        return new;
    }
    cut_mark(k, i)
}

// One child, with the new vertex w in slot k: the steps put together. Its generation is the parent's and one more; document 02: "a child has
// its parent's" material. What both children have of the parent is given: whether it is of type P_f, and their flag.
fn child(p: Piece, set: bool, flag: u8, w: u32, k: u8) -> Piece
    requires { (set ≡ set_p (shape_of p)) × (flag ≡ child_flag (shape_of p)) }
    ensures { result ≡ child_of p w k }
{
    let new = new_mark(p, set, k);
    let marks = [
        child_mark(p, k, new, 0),
        child_mark(p, k, new, 1),
        child_mark(p, k, new, 2),
        child_mark(p, k, new, 3),
    ];
    Piece {
        corners: child_corners(p, w, k),
        edge: refinement_edge(p, k),
        marks,
        flag,
        generation: p.generation.wrapping_add(1),
        material: p.material,
    }
}

// The cut: both children. The first has w in the slot of the refinement edge's end of higher vertex number.
pub fn cut(p: Piece, w: u32) -> Children
    ensures { result ≡ cut_of p w }
{
    let u = piece::lower_end(p, p.edge);
    let v = piece::higher_end(p, p.edge);
    let set = piece_types::is_set_p(p);
    let flag = child_flag(p);
    Children {
        first: child(p, set, flag, w, v),
        second: child(p, set, flag, w, u),
    }
}
