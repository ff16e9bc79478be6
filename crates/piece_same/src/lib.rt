// Two pieces compared: corners in their slots, edge, marks, flag, generation and material.
#![tactic(auto)]

ghost use Rattle.std.specs.Prelude.{◌≡◌};
ghost use Rattle.piece.specs.Same.{same_piece};

use piece::Piece;

pub fn same_piece(p: Piece, q: Piece) -> bool
    ensures { result ≡ same_piece p q }
{
    p == q
}
