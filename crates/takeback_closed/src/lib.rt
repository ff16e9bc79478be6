// The mesh that is left, written entry by entry: what remains, in its order, with the new numbers of what it refers to.
#![tactic(auto)]

ghost use Rattle.std.specs.Prelude.{◌≡◌};
ghost use Rattle.laws.specs.Counts.{counts_below};
ghost use Rattle.mesh_tables.specs.Tables.{tables_read, tables};
ghost use Rattle.takeback_remains.specs.Remains.{vertex_again, piece_again, record_again};
ghost use Rattle.takeback_remains.specs.Numbers.{new_in};
ghost use Rattle.takeback_closed.specs.Closed.{vertex_put, record_put, closed_put};
ghost use Rattle.stored_entries.specs.Mesh.{vertex_read, record_read};

use piece::Piece;
use stored::{Header, Record, Vertex};
use stored_entries::Mesh;
use takeback_remains::NewNumbers;

// Vertex v with its parents' new numbers.
#[tactic(auto, unfolding(takeback_remains::specs::Remains::vertex_again))]
fn vertex_again(mesh: &Mesh, numbers: &NewNumbers, v: usize) -> Vertex
    ensures { result ≡ vertex_again (new_in numbers.now.vertices.now) (vertex_read mesh.now v) }
{
    let vertex = mesh.vertex(v);
    Vertex {
        p: numbers.vertex(vertex.p as usize),
        q: numbers.vertex(vertex.q as usize),
        ..vertex
    }
}

// A piece with its corners' new numbers.
#[tactic(auto, unfolding(takeback_remains::specs::Remains::piece_again))]
fn piece_again(numbers: &NewNumbers, p: Piece) -> Piece
    ensures { result ≡ piece_again (new_in numbers.now.vertices.now) p }
{
    Piece {
        corners: [
            numbers.vertex(p.corners[0] as usize),
            numbers.vertex(p.corners[1] as usize),
            numbers.vertex(p.corners[2] as usize),
            numbers.vertex(p.corners[3] as usize),
        ],
        ..p
    }
}

// Record n with the new numbers of its corners and of its first child.
#[tactic(auto, unfolding(takeback_remains::specs::Remains::record_again))]
fn record_again(mesh: &Mesh, numbers: &NewNumbers, n: usize) -> Record
    ensures { result ≡ record_again (new_in numbers.now.vertices.now) (new_in numbers.now.records.now) (record_read mesh.now n) }
{
    let record = mesh.record(n);
    Record {
        piece: piece_again(numbers, record.piece),
        first_child: numbers.record(record.first_child as usize),
    }
}

// Vertex v in its new place, if it has one.
#[tactic(auto, unfolding(crate::specs::Closed::entry_put))]
fn put_vertex(out: &mut [u8], mesh: &Mesh, numbers: &NewNumbers, v: usize)
    ensures { out.new ≡ vertex_put mesh.now.layout.format (vertex_read mesh.now) numbers.now.vertices.now out.old v }
{
    let k = numbers.vertex(v);
    if k == stored::NONE {
        return;
    }
    let vertex = vertex_again(mesh, numbers, v);
    stored_written::append_vertex(mesh.layout.format, out, k, vertex);
}

fn put_vertices(out: &mut [u8], mesh: &Mesh, numbers: &NewNumbers, count: usize)
    ensures { out.new ≡ counts_below (vertex_put mesh.now.layout.format (vertex_read mesh.now) numbers.now.vertices.now) out.old count }
{
    for v in 0..count {
        put_vertex(out, mesh, numbers, v);
    }
}

// Record n in its new place, if it has one: behind so many vertices.
#[tactic(auto, unfolding(crate::specs::Closed::entry_put))]
fn put_record(out: &mut [u8], behind: u32, mesh: &Mesh, numbers: &NewNumbers, n: usize)
    ensures { out.new ≡ record_put mesh.now.layout.format (record_read mesh.now) behind numbers.now.vertices.now numbers.now.records.now out.old n }
{
    let k = numbers.record(n);
    if k == stored::NONE {
        return;
    }
    let record = record_again(mesh, numbers, n);
    stored_written::append_record(mesh.layout.format, out, behind, k, record);
}

fn put_records(out: &mut [u8], behind: u32, mesh: &Mesh, numbers: &NewNumbers, count: usize)
    ensures { out.new ≡ counts_below (record_put mesh.now.layout.format (record_read mesh.now) behind numbers.now.vertices.now numbers.now.records.now) out.old count }
{
    for n in 0..count {
        put_record(out, behind, mesh, numbers, n);
    }
}

// The whole mesh with this header, of what has new numbers in the tables.
#[tactic(auto, unfolding(crate::specs::Closed::closed_put))]
pub fn put_closed(out: &mut [u8], with: Header, mesh: &Mesh, numbers: &NewNumbers)
    ensures { out.new ≡ closed_put mesh.now.layout.format (tables_read mesh.now) numbers.now.vertices.now numbers.now.records.now with out.old }
{
    stored_written::put_header(mesh.layout.format, out, with);
    put_vertices(out, mesh, numbers, mesh.header.vertices as usize);
    put_records(
        out,
        with.vertices,
        mesh,
        numbers,
        mesh.header.records as usize,
    );
}
