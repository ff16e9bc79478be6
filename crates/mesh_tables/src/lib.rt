// What everything asks of a mesh's tables: leaves, refinement edges, corners, volumes.
//
// A mesh is handed on as a layout and two slices, with its header only where a count is read.
#![tactic(auto)]

ghost use Rattle.std.specs.Prelude.{◌≡◌, get_or};
ghost use Rattle.grid.specs.Places.{point_of};
ghost use Rattle.grid_volume.specs.Volume.{signed_of};
ghost use Rattle.mesh_tables.specs.Tables.{uncut, refinement_ends};
ghost use Rattle.stored_entries.specs.Mesh.{vertex_read, record_read};

use piece::{Ends, Piece};
use stored_entries::Mesh;

// Whether record n is not cut.
pub fn is_leaf(mesh: &Mesh, n: usize) -> bool
    ensures { result ≡ uncut (record_read mesh.now n) }
{
    mesh.first_child(n) == stored::NONE
}

// The ends of record n's refinement edge.
pub fn refinement_ends(mesh: &Mesh, n: usize) -> Ends
    ensures { result ≡ refinement_ends (record_read mesh.now n).piece }
{
    let e = mesh.edge(n);
    let low = mesh.corner(n, piece_edges::low_slot(e));
    let high = mesh.corner(n, piece_edges::high_slot(e));
    piece::ends_between(low, high)
}

// The signed determinant of a piece with these corners.
pub fn signed_between(mesh: &Mesh, corners: [u32; 4]) -> i64
    ensures { result ≡ signed_of (λ k. point_of (vertex_read mesh.now (get_or corners k 0)).place) }
{
    let a = mesh.place(corners[0] as usize);
    let b = mesh.place(corners[1] as usize);
    let c = mesh.place(corners[2] as usize);
    let d = mesh.place(corners[3] as usize);
    grid_volume::signed(a, b, c, d)
}
