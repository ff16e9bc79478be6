// Refusal 9: children that are not what cutting gives, records without their one parent, vertices that halve no cut record's refinement
// edge, generations beyond the last.
//
// The vertex halfway on an edge is found along the links by parent pair, which are filled once. Two tables of counts, filled from the cut
// records: `children` has for each record of how many it is a child, `midpoints` for each vertex on how many refinement edges it is halfway.
#![tactic(auto)]

ghost use Rattle.std.specs.Prelude.{◌≡◌, false, ◌||◌, ◌≤◌, length};
ghost use Rattle.laws.specs.Below.{any_below};
ghost use Rattle.chains.specs.Held.{SameSlices, AsLong};
ghost use Rattle.piece.specs.Same.{same_piece};
ghost use Rattle.mesh_tables.specs.Tables.{tables_read, tables, vertex_with, refinement_ends};
ghost use Rattle.check_refusals.specs.Refusals.{bad_children, too_deep, bad_cut, bad_record, bad_cuts};
ghost use Rattle.laws.specs.Counts.{counts_below};
ghost use Rattle.check_children.specs.Children.{children_counted, not_child_of_one_by, bad_record_by};
ghost use Rattle.check_children.specs.Lent.{cramped};
ghost use Rattle.check_children.specs.Midpoints.{midpoint_counted, no_midpoint_by};
ghost use Rattle.stored_entries.specs.Mesh.{record_read};

use chains::Links;
use mesh_parents::LinkedMesh;
use piece::Piece;
use stored::{Header, Record};
use stored_entries::Mesh;

// ---- records

// Whether record c holds this piece.
fn holds(mesh: &Mesh, c: usize, p: Piece) -> bool
    ensures { result ≡ same_piece (record_read mesh.now c).piece p }
{
    piece_same::same_piece(mesh.record(c).piece, p)
}

// w is the vertex halfway on record n's refinement edge; r is record n.
#[tactic(auto, unfolding(check_refusals::specs::Refusals::bad_children))]
fn bad_children(mesh: &Mesh, n: usize, r: Record, w: usize) -> bool
    requires { w ≡ vertex_with (tables_read mesh.now) (refinement_ends r.piece) }
    ensures { result ≡ bad_children (tables_read mesh.now) n r }
{
    let first = r.first_child as usize;
    if mesh.header.vertices as usize <= w
        || first <= n
        || mesh.header.records as usize <= first + 1
    {
        return true;
    }
    let given = piece_cut::cut(r.piece, w as u32);
    !holds(mesh, first, given.first) || !holds(mesh, first + 1, given.second)
}

// A cut record counts one more at the vertex halfway on its refinement edge: tested and counted at once, since to find that vertex is what takes time.
fn bad_cut(midpoints: &mut [u16], linked: &LinkedMesh, n: usize) -> bool
    ensures value { result ≡ bad_cut (tables_read linked.now.mesh.now) n }
    ensures midpoints_after { midpoints.new ≡ midpoint_counted (tables_read linked.now.mesh.now) midpoints.old n }
{
    if mesh_tables::is_leaf(linked.mesh, n) {
        return false;
    }
    let record = linked.mesh.record(n);
    let ends = piece::ends_of(record.piece, record.piece.edge);
    let w = linked.vertex_with(ends);
    chains::count(midpoints, w);
    bad_children(linked.mesh, n, record, w)
}

// Whether record c is beyond the base, and the table does not have it as the child of exactly one.
#[tactic(auto, unfolding(crate::specs::Children::not_child_of_one_by))]
fn not_child_of_one(h: Header, children: &[u16], c: usize) -> bool
    ensures { result ≡ not_child_of_one_by h.base_records children.now c }
{
    h.base_records as usize <= c && chains::at(children, c) != 1
}

#[tactic(auto, unfolding(check_refusals::specs::Refusals::too_deep))]
fn too_deep(mesh: &Mesh, n: usize) -> bool
    ensures { result ≡ too_deep (record_read mesh.now n).piece }
{
    piece::LAST_GENERATION < mesh.generation(n)
}

#[tactic(auto, unfolding(crate::specs::Children::bad_record_by))]
fn bad_record(midpoints: &mut [u16], linked: &LinkedMesh, children: &[u16], n: usize) -> bool
    ensures value { result ≡ bad_record_by (tables_read linked.now.mesh.now) children.now n }
    ensures midpoints_after { midpoints.new ≡ midpoint_counted (tables_read linked.now.mesh.now) midpoints.old n }
{
    bad_cut(midpoints, linked, n)
        || not_child_of_one(linked.mesh.header, children, n)
        || too_deep(linked.mesh, n)
}

// Where no record is refused, all have counted.
fn any_bad_record(midpoints: &mut [u16], linked: &LinkedMesh, children: &[u16]) -> bool
    ensures value { result ≡ any_below linked.now.mesh.now.header.records (bad_record_by (tables_read linked.now.mesh.now) children.now) }
    ensures midpoints_after { result ≡ false → midpoints.new ≡ counts_below (midpoint_counted (tables_read linked.now.mesh.now)) midpoints.old linked.now.mesh.now.header.records }
{
    let count = linked.mesh.header.records as usize;
    for n in 0..count {
        if bad_record(midpoints, linked, children, n) {
            return true;
        }
    }
    false
}

// One more at both children of record n, if it is cut.
#[tactic(auto, unfolding(crate::specs::Children::children_counted))]
fn count_children(children: &mut [u16], mesh: &Mesh, n: usize)
    ensures { children.new ≡ children_counted children.old (record_read mesh.now n) }
{
    let child = mesh.first_child(n);
    if child == stored::NONE {
        return;
    }
    let first = child as usize;
    chains::count(children, first);
    chains::count(children, first + 1);
}

fn count_all_children(children: &mut [u16], mesh: &Mesh, count: usize)
    ensures { children.new ≡ counts_below (λ t n. children_counted t (record_read mesh.now n)) children.old count }
{
    for n in 0..count {
        count_children(children, mesh, n);
    }
}

fn bad_records(midpoints: &mut [u16], linked: &LinkedMesh, children: &mut [u16]) -> bool
    requires { linked.now.mesh.now.header.records ≤ length children.old }
    ensures value { result ≡ any_below linked.now.mesh.now.header.records (bad_record (tables_read linked.now.mesh.now)) }
    ensures midpoints_after { result ≡ false → midpoints.new ≡ counts_below (midpoint_counted (tables_read linked.now.mesh.now)) midpoints.old linked.now.mesh.now.header.records }
{
    children.fill(0);
    count_all_children(children, linked.mesh, linked.mesh.header.records as usize);
    any_bad_record(midpoints, linked, children)
}

// ---- made vertices

// Whether vertex v is made, and the table does not have the first vertex with its parents.
#[tactic(auto, unfolding(crate::specs::Midpoints::no_midpoint_by))]
fn no_midpoint(linked: &LinkedMesh, midpoints: &[u16], v: usize) -> bool
    ensures { result ≡ no_midpoint_by (tables_read linked.now.mesh.now) midpoints.now v }
{
    if v < linked.mesh.header.base_vertices as usize {
        return false;
    }
    let ends = linked.mesh.parents(v);
    let w = linked.vertex_with(ends);
    chains::at(midpoints, w) == 0
}

fn no_midpoints(linked: &LinkedMesh, midpoints: &[u16]) -> bool
    ensures { result ≡ any_below linked.now.mesh.now.header.vertices (no_midpoint_by (tables_read linked.now.mesh.now) midpoints.now) }
{
    let count = linked.mesh.header.vertices as usize;
    (0..count).any(|v| no_midpoint(linked, midpoints, v))
}

// Whether what is lent has no room for the links of all vertices, or no place for some record or vertex.
#[tactic(auto, unfolding(crate::specs::Lent::cramped))]
fn is_cramped(h: Header, links: &Links, children: &[u16], midpoints: &[u16]) -> bool
    ensures { result ≡ cramped h links.now.heads.now links.now.nexts.now children.now midpoints.now }
{
    links.is_short(h.vertices as usize)
        || children.len() < h.records as usize
        || midpoints.len() < h.vertices as usize
}

// What `bad_cuts` asks, in two lists: who lends them keeps both, each as long as it was.
fn bad_in_lists(
    mesh: &Mesh,
    heads: &mut [u16],
    nexts: &mut [u16],
    children: &mut [u16],
    midpoints: &mut [u16],
) -> bool
    ensures { result ≡ (cramped mesh.now.header heads.old nexts.old children.old midpoints.old || bad_cuts (tables_read mesh.now)) }
{
    let links = &mut Links { heads, nexts };
    if is_cramped(mesh.header, links, children, midpoints) {
        return true;
    }
    mesh_parents::link_pairs(mesh, links);
    let linked = LinkedMesh {
        mesh,
        links: links.read(),
    };
    midpoints.fill(0);
    bad_records(midpoints, &linked, children) || no_midpoints(&linked, midpoints)
}

// Links and tables are lent; what has no room for the mesh refuses.
pub fn bad_cuts(mesh: &Mesh, links: &mut Links, children: &mut [u16], midpoints: &mut [u16]) -> bool
    ensures value { result ≡ (cramped mesh.now.header links.old.heads.now links.old.nexts.now children.old midpoints.old || bad_cuts (tables_read mesh.now)) }
    ensures same { SameSlices links.old links.new }
    ensures as_long { AsLong links.old links.new }
{
    bad_in_lists(mesh, links.heads, links.nexts, children, midpoints)
}
