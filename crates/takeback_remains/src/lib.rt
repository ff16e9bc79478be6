// What is taken away, what remains, and its new numbers.
//
// A cut record that is not freed holds the vertex that it is cut at: a table, `held`, counts at each vertex the records that hold it, and a made vertex
// that none holds is taken away. Then the same table, `kept`, counts at each record the cut records that keep it as a child. New numbers stand in tables of
// their own, and none for what is gone.
#![tactic(auto)]

ghost use Rattle.std.specs.Prelude.{◌≡◌, ◌≤◌, length};
ghost use Rattle.laws.specs.Below.{count_below};
ghost use Rattle.laws.specs.Counts.{counts_below, marked};
ghost use Rattle.chains.specs.Held.{SameSlices, AsLong};
ghost use Rattle.mesh_tables.specs.Tables.{tables_read, tables};
ghost use Rattle.takeback_remains.specs.Remains.{cut_vertex, leaf_children, freed, vertex_remains, header_again};
ghost use Rattle.takeback_remains.specs.Numbers.{numbers_of, new_in};
ghost use Rattle.takeback_remains.specs.Held.{remains_by, held_counted, stays_by, kept_counted, kept_in};
ghost use Rattle.takeback_remains.specs.Left.{left_of, cramped, left_within};
ghost use Rattle.stored_entries.specs.Mesh.{record_read};

use chains::Links;
use mesh_parents::LinkedMesh;
use stored::Header;
use stored_entries::Mesh;

// Whether both children of record n are leaves.
#[tactic(auto, unfolding(crate::specs::Remains::leaf_children))]
fn leaf_children(mesh: &Mesh, n: usize) -> bool
    ensures { result ≡ leaf_children (record_read mesh.now) n }
{
    let first = mesh.first_child(n) as usize;
    mesh_tables::is_leaf(mesh, first) && mesh_tables::is_leaf(mesh, first + 1)
}

// Whether record n is named and has two leaves as children.
#[tactic(auto, unfolding(crate::specs::Remains::freed))]
fn freed(mesh: &Mesh, named: &[u16], n: usize) -> bool
    ensures { result ≡ freed (record_read mesh.now) (marked named.now) n }
{
    chains::at(named, n) != 0 && leaf_children(mesh, n)
}

// The vertex that record n is cut at.
fn cut_vertex(linked: &LinkedMesh, n: usize) -> usize
    ensures { result ≡ cut_vertex (tables_read linked.now.mesh.now) n }
{
    let ends = mesh_tables::refinement_ends(linked.mesh, n);
    linked.vertex_with(ends)
}

// One more at the vertex that record n is cut at, if it holds it.
#[tactic(auto, unfolding(crate::specs::Held::held_counted))]
fn hold(held: &mut [u16], linked: &LinkedMesh, named: &[u16], n: usize)
    ensures { held.new ≡ held_counted (tables_read linked.now.mesh.now) (marked named.now) held.old n }
{
    if !mesh_tables::is_leaf(linked.mesh, n) && !freed(linked.mesh, named, n) {
        chains::count(held, cut_vertex(linked, n));
    }
}

// Kept beside `keep_all`: each counts by a test of its own, and a closure that counts would have to be told of every count before.
fn hold_all(held: &mut [u16], linked: &LinkedMesh, named: &[u16])
    ensures { held.new ≡ counts_below (held_counted (tables_read linked.now.mesh.now) (marked named.now)) held.old linked.now.mesh.now.header.records }
{
    let count = linked.mesh.header.records as usize;
    for n in 0..count {
        hold(held, linked, named, n);
    }
}

// The new number that a table has for x; none past its end.
pub fn new_number(numbers: &[u32], x: usize) -> u32
    ensures { result ≡ new_in numbers.now x }
{
    numbers.get(x).copied().unwrap_or(stored::NONE)
}

// The new numbers of all vertices and of all records.
#[derive(Clone, Copy)]
pub struct NewNumbers<'a> {
    pub vertices: &'a [u32],
    pub records: &'a [u32],
}

impl<'a> NewNumbers<'a> {
    pub fn vertex(&self, v: usize) -> u32
        ensures { result ≡ new_in self.now.vertices.now v }
    {
        new_number(self.vertices, v)
    }

    pub fn record(&self, n: usize) -> u32
        ensures { result ≡ new_in self.now.records.now n }
    {
        new_number(self.records, n)
    }
}

// Whether record n is cut, and the vertex that it is cut at has a new number.
#[tactic(auto, unfolding(crate::specs::Held::stays_by))]
fn stays_cut(linked: &LinkedMesh, vertices: &[u32], n: usize) -> bool
    ensures { result ≡ stays_by (tables_read linked.now.mesh.now) vertices.now n }
{
    !mesh_tables::is_leaf(linked.mesh, n)
        && new_number(vertices, cut_vertex(linked, n)) != stored::NONE
}

// One more at both children of record n, if it stays cut.
#[tactic(auto, unfolding(crate::specs::Held::kept_counted))]
fn keep(kept: &mut [u16], linked: &LinkedMesh, vertices: &[u32], n: usize)
    ensures { kept.new ≡ kept_counted (tables_read linked.now.mesh.now) vertices.now kept.old n }
{
    if stays_cut(linked, vertices, n) {
        let first = linked.mesh.first_child(n) as usize;
        chains::count(kept, first);
        chains::count(kept, first + 1);
    }
}

fn keep_all(kept: &mut [u16], linked: &LinkedMesh, vertices: &[u32])
    ensures { kept.new ≡ counts_below (kept_counted (tables_read linked.now.mesh.now) vertices.now) kept.old linked.now.mesh.now.header.records }
{
    let count = linked.mesh.header.records as usize;
    for n in 0..count {
        keep(kept, linked, vertices, n);
    }
}

// Whether x is below the count, and is of the base or counted in the table.
#[tactic(auto, unfolding(crate::specs::Held::remains_by))]
fn remains(count: u32, base: u32, counted: &[u16], x: usize) -> bool
    ensures { result ≡ remains_by count base counted.now x }
{
    x < count as usize && (x < base as usize || chains::at(counted, x) != 0)
}

// "Records and vertices that remain close up in their order": each gets how many before it remain. How many there are is handed back.
fn number(numbers: &mut [u32], count: u32, base: u32, counted: &[u16]) -> u32
    ensures numbers_after { numbers.new ≡ numbers_of (remains_by count base counted.now) (length numbers.old) }
    ensures value { result ≡ count_below (length numbers.old) (remains_by count base counted.now) }
{
    let mut next: u32 = 0;
    for x in 0..numbers.len() {
        if !remains(count, base, counted, x) {
            numbers[x] = stored::NONE;
            continue;
        }
        numbers[x] = next;
        next += 1;
    }
    next
}

fn number_vertices(
    numbers: &mut [u32],
    counts: &mut [u16],
    linked: &LinkedMesh,
    named: &[u16],
) -> u32
    requires vertices_in_bounds { linked.now.mesh.now.header.vertices ≤ length counts.old }
    requires vertices_in_bounds_2 { linked.now.mesh.now.header.vertices ≤ length numbers.old }
    ensures numbers_after { numbers.new ≡ numbers_of (vertex_remains (tables_read linked.now.mesh.now) (marked named.now)) (length numbers.old) }
    ensures value { result ≡ count_below linked.now.mesh.now.header.vertices (vertex_remains (tables_read linked.now.mesh.now) (marked named.now)) }
{
    counts.fill(0);
    hold_all(counts, linked, named);
    number(
        numbers,
        linked.mesh.header.vertices,
        linked.mesh.header.base_vertices,
        counts,
    )
}

fn number_records(
    numbers: &mut [u32],
    counts: &mut [u16],
    linked: &LinkedMesh,
    vertices: &[u32],
) -> u32
    requires { linked.now.mesh.now.header.records ≤ length numbers.old }
    ensures numbers_after { numbers.new ≡ numbers_of (remains_by linked.now.mesh.now.header.records linked.now.mesh.now.header.base_records (kept_in (tables_read linked.now.mesh.now) vertices.now (length counts.old))) (length numbers.old) }
    ensures value { result ≡ count_below linked.now.mesh.now.header.records (remains_by linked.now.mesh.now.header.records linked.now.mesh.now.header.base_records (kept_in (tables_read linked.now.mesh.now) vertices.now (length counts.old))) }
{
    counts.fill(0);
    keep_all(counts, linked, vertices);
    number(
        numbers,
        linked.mesh.header.records,
        linked.mesh.header.base_records,
        counts,
    )
}

fn header_again(h: Header, vertices: u32, records: u32) -> Header
    ensures { result ≡ header_again h vertices records }
{
    Header {
        vertices,
        records,
        ..h
    }
}

// Whether what is lent has no room for the links of all vertices, or no place for some vertex or record.
#[tactic(auto, unfolding(crate::specs::Left::cramped))]
fn is_cramped(h: Header, links: &Links, counts: &[u16], numbers: &NewNumbers) -> bool
    ensures { result ≡ cramped h links.now.heads.now links.now.nexts.now counts.now numbers.now.vertices.now numbers.now.records.now }
{
    links.is_short(h.vertices as usize)
        || counts.len() < h.vertices as usize
        || counts.len() < h.records as usize
        || numbers.vertices.len() < h.vertices as usize
        || numbers.records.len() < h.records as usize
}

// What `remaining` gives, in two lists: who lends them keeps both, each as long as it was.
fn remaining_in_lists(
    mesh: &Mesh,
    named: &[u16],
    heads: &mut [u16],
    nexts: &mut [u16],
    counts: &mut [u16],
    vertices: &mut [u32],
    records: &mut [u32],
) -> Header
    ensures { left_of result vertices.new records.new ≡ left_within (cramped mesh.now.header heads.old nexts.old counts.old vertices.old records.old) (tables_read mesh.now) (marked named.now) (left_of mesh.now.header vertices.old records.old) }
{
    let links = &mut Links { heads, nexts };
    if is_cramped(
        mesh.header,
        links,
        counts,
        &NewNumbers { vertices, records },
    ) {
        return mesh.header;
    }
    mesh_parents::link_pairs(mesh, links);
    let linked = LinkedMesh {
        mesh,
        links: links.read(),
    };
    let of_vertices = number_vertices(vertices, counts, &linked, named);
    let of_records = number_records(records, counts, &linked, vertices);
    header_again(linked.mesh.header, of_vertices, of_records)
}

// The new numbers of all vertices and records, and the header with as many as remain. Links and counts are lent; where what is lent has no room, nothing is
// done.
pub fn remaining(
    mesh: &Mesh,
    named: &[u16],
    links: &mut Links,
    counts: &mut [u16],
    vertices: &mut [u32],
    records: &mut [u32],
) -> Header
    ensures value { left_of result vertices.new records.new ≡ left_within (cramped mesh.now.header links.old.heads.now links.old.nexts.now counts.old vertices.old records.old) (tables_read mesh.now) (marked named.now) (left_of mesh.now.header vertices.old records.old) }
    ensures same { SameSlices links.old links.new }
    ensures as_long { AsLong links.old links.new }
{
    remaining_in_lists(
        mesh,
        named,
        links.heads,
        links.nexts,
        counts,
        vertices,
        records,
    )
}
