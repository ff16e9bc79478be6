// How a plain piece is made right-handed and marked: its edges are ranked, and the first-ranked of the piece and of each face are marked.
#![tactic(auto)]

ghost use Rattle.std.specs.Prelude.{◌≡◌, get_or, pos};
ghost use Rattle.grid.specs.Places.{point_of};
ghost use Rattle.grid_volume.specs.Volume.{signed_of};
ghost use Rattle.build_marks.specs.Marking.{place_for, plain_place, plain_vertex, plain_piece, last_exchanged, righted_piece, marked_piece, plain_record};
ghost use Rattle.build_marks.specs.Choosing.{edge_for, edge_at, first_of, marked_by};

use grid::Place;
use grid_lengths::Ranked;
use piece::Piece;
use stored::{Record, Vertex};

const SHIFT: i32 = grid::SHIFT as i32;

// A coordinate's place: an i32 holds the sum.
fn place_for(x: i16) -> u16
    ensures { result ≡ place_for x }
{
    (x as i32 + SHIFT) as u16
}

// The place of the coordinate at an index; past the end a coordinate is 0.
fn place_at(coordinates: &[i16], at: usize) -> u16
    ensures { result ≡ place_for (get_or coordinates.now at (pos 0)) }
{
    place_for(coordinates.get(at).copied().unwrap_or(0))
}

fn corner_at(corners: &[u16], at: usize) -> u32
    ensures { result ≡ get_or corners.now at 0 }
{
    corners.get(at).map_or(0, |corner| u32::from(*corner))
}

#[tactic(auto, unfolding(crate::specs::Marking::last_exchanged))]
fn last_exchanged(p: Piece) -> Piece
    ensures { result ≡ last_exchanged p }
{
    let [s, t, u, v] = p.corners;
    Piece {
        corners: [s, t, v, u],
        ..p
    }
}

// An edge: its code, and how it is ranked.
#[derive(Clone, Copy)]
struct Edge {
    code: u8,
    rank: Ranked,
}

// The edge between vertices u and v, which stand at a and b.
#[tactic(auto, unfolding(crate::specs::Choosing::edge_for))]
fn edge_between(code: u8, u: u32, v: u32, a: Place, b: Place) -> Edge
    ensures { result ≡ edge_for code u v a b }
{
    let ends = piece::ends_between(u, v);
    Edge {
        code,
        rank: Ranked {
            length: grid_lengths::squared_length(a, b),
            lower: ends.lower,
            higher: ends.higher,
        },
    }
}

// Of two edges the one that ranks first, and the former where neither ranks before the other.
#[tactic(auto, unfolding(crate::specs::Choosing::first_of))]
fn first_of(a: Edge, b: Edge) -> Edge
    ensures { result ≡ first_of a b }
{
    if grid_lengths::ranks_before(b.rank, a.rank) {
        b
    } else {
        a
    }
}

fn first_of_face(a: Edge, b: Edge, c: Edge) -> u8
    ensures { result ≡ (first_of (first_of a b) c).code }
{
    first_of(first_of(a, b), c).code
}

fn first_of_piece(edges: [Edge; 6]) -> u8
    ensures { result ≡ (first_of (first_of (first_of (first_of (first_of (edge_at edges 0) (edge_at edges 1)) (edge_at edges 2)) (edge_at edges 3)) (edge_at edges 4)) (edge_at edges 5)).code }
{
    let [a, b, c, d, e, f] = edges;
    first_of(first_of(first_of(first_of(first_of(a, b), c), d), e), f).code
}

// The piece, marked, with these edges: a face has the three edges without its slot.
#[tactic(auto, unfolding(crate::specs::Choosing::marked_by))]
fn marked_by(p: Piece, edges: [Edge; 6]) -> Piece
    ensures { result ≡ marked_by p.corners p.material (edge_at edges 0) (edge_at edges 1) (edge_at edges 2) (edge_at edges 3) (edge_at edges 4) (edge_at edges 5) }
{
    let [a, b, c, d, e, f] = edges;
    Piece {
        edge: first_of_piece(edges),
        marks: [
            first_of_face(d, e, f),
            first_of_face(b, c, f),
            first_of_face(a, c, e),
            first_of_face(a, b, d),
        ],
        flag: 0,
        generation: 0,
        ..p
    }
}

// A mesh that is not marked yet: three coordinates a vertex, and four corners a piece.
#[derive(Clone, Copy)]
pub struct PlainMesh<'a> {
    pub coordinates: &'a [i16],
    pub corners: &'a [u16],
}

impl<'a> PlainMesh<'a> {
    #[tactic(auto, unfolding(crate::specs::Marking::plain_place))]
    fn place(&self, v: u32) -> Place
        ensures { result ≡ plain_place self.now.coordinates.now v }
    {
        let at = 3 * (v as usize);
        Place {
            x: place_at(self.coordinates, at),
            y: place_at(self.coordinates, at + 1),
            z: place_at(self.coordinates, at + 2),
        }
    }

    #[tactic(auto, unfolding(crate::specs::Marking::plain_vertex))]
    pub fn vertex(&self, v: u32) -> Vertex
        ensures { result ≡ plain_vertex self.now.coordinates.now v }
    {
        Vertex {
            place: self.place(v),
            p: stored::NONE,
            q: stored::NONE,
        }
    }

    #[tactic(auto, unfolding(crate::specs::Marking::plain_piece))]
    pub fn piece(&self, n: u32) -> Piece
        ensures { result ≡ plain_piece self.now.corners.now n }
    {
        let at = 4 * (n as usize);
        Piece {
            corners: [
                corner_at(self.corners, at),
                corner_at(self.corners, at + 1),
                corner_at(self.corners, at + 2),
                corner_at(self.corners, at + 3),
            ],
            edge: 0,
            marks: [0; 4],
            flag: 0,
            generation: 0,
            material: 0,
        }
    }

    // The signed determinant of a piece with these corners.
    // Kept: `mesh_tables::signed_between` is alike but for where it reads the places, in a stored mesh; what the two share is `grid_volume::signed`.
    #[tactic(auto, unfolding(grid_volume::specs::Volume::differences_of))]
    pub fn signed_of(&self, corners: [u32; 4]) -> i64
        ensures { result ≡ signed_of (λ k. point_of (plain_place self.now.coordinates.now (get_or corners k 0))) }
    {
        let a = self.place(corners[0]);
        let b = self.place(corners[1]);
        let c = self.place(corners[2]);
        let d = self.place(corners[3]);
        grid_volume::signed(a, b, c, d)
    }

    #[tactic(auto, unfolding(crate::specs::Marking::righted_piece, grid_volume::specs::Volume::left_handed))]
    fn righted_piece(&self, p: Piece) -> Piece
        ensures { result ≡ righted_piece self.now.coordinates.now p }
    {
        if grid_volume::is_negative(self.signed_of(p.corners)) {
            last_exchanged(p)
        } else {
            p
        }
    }

    // Each corner's place is read once, and each edge's length taken once.
    fn marked_piece(&self, p: Piece) -> Piece
        ensures { result ≡ marked_piece self.now.coordinates.now p }
    {
        let [s, t, u, v] = p.corners;
        let a = self.place(s);
        let b = self.place(t);
        let c = self.place(u);
        let d = self.place(v);
        marked_by(
            p,
            [
                edge_between(0, s, t, a, b),
                edge_between(1, s, u, a, c),
                edge_between(2, s, v, a, d),
                edge_between(3, t, u, b, c),
                edge_between(4, t, v, b, d),
                edge_between(5, u, v, c, d),
            ],
        )
    }

    #[tactic(auto, unfolding(crate::specs::Marking::plain_record))]
    pub fn record(&self, n: u32) -> Record
        ensures { result ≡ plain_record self.now.coordinates.now self.now.corners.now n }
    {
        let piece = self.righted_piece(self.piece(n));
        Record {
            piece: self.marked_piece(piece),
            first_child: stored::NONE,
        }
    }
}
