// A cut in the tables: "A cut uses the vertex with that parent pair if there is one, else appends it; then appends its two children and
// enters the first one's number in the cut record."
#![tactic(auto)]

ghost use Rattle.std.specs.Prelude.{◌≡◌, ◌+◌, ◌<◌};
ghost use Rattle.stored.specs.Layout.{record_in};
ghost use Rattle.mesh_tables.specs.Tables.{tables, vertex_with, refinement_ends};
ghost use Rattle.refine_cut.specs.Cut.{midpoint_of, cut_at};
ghost use Rattle.refine_cut.specs.Slices.{slices, midpoint_put, children_put, cut_with};
ghost use Rattle.refine_cut.specs.Law.{Ready};
ghost use Rattle.stored_entries.specs.Mesh.{vertex_read};

use piece::Ends;
use stored::{Header, Layout, Record, Vertex};
use stored_entries::Mesh;

// The vertex that a cut makes on the edge with these ends.
fn midpoint(mesh: &Mesh, ends: Ends) -> Vertex
    ensures { result ≡ midpoint_of (vertex_read mesh.now) ends }
{
    let one = mesh.vertex(ends.lower as usize);
    let other = mesh.vertex(ends.higher as usize);
    Vertex {
        place: grid::halfway(one.place, other.place),
        p: ends.lower,
        q: ends.higher,
    }
}

// Kept two slices: a struct that holds both for writing would have each function promise as well that it keeps the same two and the layout.
fn put_midpoint(
    h: Header,
    l: Layout,
    base: &mut [u8],
    grown: &mut [u8],
    ends: Ends,
    w: u32,
) -> Header
    requires { h.vertices + 1 < 4294967296 }
    ensures { slices result base.new grown.new ≡ midpoint_put l (slices h base.old grown.old) ends w }
{
    if w != h.vertices {
        return h;
    }
    let mesh = Mesh {
        header: h,
        layout: l,
        base: &*base,
        grown: &*grown,
    };
    let v = midpoint(&mesh, ends);
    stored_written::put_vertex(l, base, grown, h.vertices as usize, v);
    Header {
        vertices: h.vertices + 1,
        ..h
    }
}

fn put_children(
    h: Header,
    l: Layout,
    base: &mut [u8],
    grown: &mut [u8],
    n: usize,
    r: Record,
    w: u32,
) -> Header
    requires { h.records + 2 < 4294967296 }
    ensures { slices result base.new grown.new ≡ children_put l (slices h base.old grown.old) n r w }
{
    let two = piece_cut::cut(r.piece, w);
    let first = h.records;
    stored_written::put_record(
        l,
        base,
        grown,
        n,
        Record {
            first_child: first,
            ..r
        },
    );
    stored_written::put_record(
        l,
        base,
        grown,
        first as usize,
        Record {
            piece: two.first,
            first_child: stored::NONE,
        },
    );
    stored_written::put_record(
        l,
        base,
        grown,
        first as usize + 1,
        Record {
            piece: two.second,
            first_child: stored::NONE,
        },
    );
    Header {
        records: first + 2,
        ..h
    }
}

// Cuts record n at vertex w, where one vertex and two records more have room; w is appended where it is the count of vertices.
pub fn cut_at(h: Header, l: Layout, base: &mut [u8], grown: &mut [u8], n: usize, w: u32) -> Header
    ensures bytes { slices result base.new grown.new ≡ cut_with l (slices h base.old grown.old) n w }
    ensures cuts { Ready l (slices h base.old grown.old) n → w ≡ vertex_with (tables h l base.old grown.old) (refinement_ends (record_in l base.old grown.old n).piece) → tables result l base.new grown.new ≡ cut_at (tables h l base.old grown.old) n }
{
    if l.vertices.end <= h.vertices {
        return h;
    }
    if l.records.end as usize <= h.records as usize + 1 {
        return h;
    }
    let mesh = Mesh {
        header: h,
        layout: l,
        base: &*base,
        grown: &*grown,
    };
    let r = mesh.record(n);
    let ends = piece::ends_of(r.piece, r.piece.edge);
    let with = put_midpoint(h, l, base, grown, ends, w);
    put_children(with, l, base, grown, n, r, w)
}
