// Document 002's types P_u and P_f of a marked piece: type P with the flag unset, and with the flag set.
#![tactic(auto)]

ghost use Rattle.std.specs.Prelude.{◌≡◌};
ghost use Rattle.piece.specs.Shape.{shape_of, other_marks_are, type_p, set_p, unset_p};

use piece::Piece;

// Whether faces acd and bcd, the two without the refinement edge, are marked x and y.
fn other_marks_are(p: Piece, x: u8, y: u8) -> bool
    ensures { result ≡ other_marks_are (shape_of p) x y }
{
    piece::mark_of(p, piece_edges::high_slot(p.edge)) == x
        && piece::mark_of(p, piece_edges::low_slot(p.edge)) == y
}

// "P, (ac, bc) or (ad, bd)".
fn is_type_p(p: Piece) -> bool
    ensures { result ≡ type_p (shape_of p) }
{
    let a = piece_edges::low_slot(p.edge);
    let b = piece_edges::high_slot(p.edge);
    let cd = piece_edges::opposite_on(a, b);
    let c = piece_edges::low_slot(cd);
    let d = piece_edges::high_slot(cd);
    other_marks_are(
        p,
        piece_edges::edge_between(a, c),
        piece_edges::edge_between(b, c),
    ) || other_marks_are(
        p,
        piece_edges::edge_between(a, d),
        piece_edges::edge_between(b, d),
    )
}

// Whether the piece is of type P_f. Kept beside `is_unset_p`: they are document 002's two types, and share `is_type_p`.
pub fn is_set_p(p: Piece) -> bool
    ensures { result ≡ set_p (shape_of p) }
{
    p.flag != 0 && is_type_p(p)
}

// Whether the piece is of type P_u.
pub fn is_unset_p(p: Piece) -> bool
    ensures { result ≡ unset_p (shape_of p) }
{
    p.flag == 0 && is_type_p(p)
}
