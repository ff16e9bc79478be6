// The vertex with a given parent pair: what rules 4, 9 and 10 and every cut share. It is found along links, which are filled once and then
// grow with the table.
#![tactic(auto)]

ghost use Rattle.std.specs.Prelude.{◌≡◌, cond, ◌&&◌, ltb, length, get_or};
ghost use Rattle.laws.specs.Links.{links_of, pushed, any_along, first_along};
ghost use Rattle.chains.specs.Held.{links_in, SameSlices};
ghost use Rattle.mesh_tables.specs.Tables.{tables_read, has_parents, vertex_with};
ghost use Rattle.mesh_parents.specs.Pairs.{pair_sum, pair_key, key_of, pair_links, cleared, Linked, Linked_prop};

use chains::{Links, ReadLinks};
use piece::Ends;
use stored_entries::Mesh;

// Whether vertex v is made and has these parents.
pub fn has_parents(mesh: &Mesh, ends: Ends, v: usize) -> bool
    ensures { result ≡ has_parents (tables_read mesh.now) ends v }
{
    if v < mesh.header.base_vertices as usize {
        return false;
    }
    let parents = mesh.parents(v);
    if parents.lower != ends.lower {
        return false;
    }
    parents.higher == ends.higher
}

// The number whose key a pair has. The factor moves pairs of one sum apart, and is odd, so that modulo a power of two the lower end counts in full.
fn pair_sum(ends: Ends) -> usize
    ensures { result ≡ pair_sum ends }
{
    ends.lower as usize * 31 + ends.higher as usize
}

// The key of a pair, one of so many.
pub fn pair_key(keys: usize, ends: Ends) -> usize
    ensures { result ≡ pair_key keys ends }
{
    chains::key(pair_sum(ends), keys)
}

// The key of vertex v: past the heads if it is a base vertex. Kept a number and no Option, as its definition `key_of` is.
fn vertex_key(mesh: &Mesh, keys: usize, v: usize) -> usize
    ensures { result ≡ key_of keys (tables_read mesh.now) v }
{
    if v < mesh.header.base_vertices as usize {
        return keys;
    }
    pair_key(keys, mesh.parents(v))
}

// Vertex v is put before the others with its key.
pub fn link_vertex(mesh: &Mesh, links: &mut Links, v: usize)
    ensures linked { links_in links.new ≡ pushed (links_in links.old) (key_of (length links.old.heads.now) (tables_read mesh.now) v) v }
    ensures same { SameSlices links.old links.new }
{
    let key = vertex_key(mesh, links.keys(), v);
    links.push(key, v);
}

// All vertices, one after the other.
fn link_all(mesh: &Mesh, links: &mut Links)
    ensures linked { links_in links.new ≡ pair_links (tables_read mesh.now) (links_in links.old) mesh.now.header.vertices }
    ensures same { SameSlices links.old links.new }
{
    let count = mesh.header.vertices as usize;
    for v in 0..count {
        link_vertex(mesh, links, v);
    }
}

// All vertices, in links that are empty at first, whatever stood in the lists.
pub fn link_pairs(mesh: &Mesh, links: &mut Links)
    ensures linked { links_in links.new ≡ pair_links (tables_read mesh.now) (cleared links.old.heads.now links.old.nexts.now) mesh.now.header.vertices }
    ensures same { SameSlices links.old links.new }
{
    links.clear();
    link_all(mesh, links);
}

// Whether vertex u is below count and has these parents.
fn has_parents_below(mesh: &Mesh, count: usize, ends: Ends, u: usize) -> bool
    ensures { result ≡ (ltb u count && has_parents (tables_read mesh.now) ends u) }
{
    if count <= u {
        return false;
    }
    has_parents(mesh, ends, u)
}

// Whether a vertex below count has these parents, along the links from one on.
pub fn any_from(mesh: &Mesh, links: &ReadLinks, count: usize, ends: Ends, from: usize) -> bool
    ensures { result ≡ any_along links.now.nexts.now (λ u. ltb u count && has_parents (tables_read mesh.now) ends u) from }
{
    links.any(from, |u| has_parents_below(mesh, count, ends, u))
}

// Where the links of a pair's key begin.
pub fn head_of(links: &ReadLinks, ends: Ends) -> usize
    ensures { result ≡ get_or links.now.heads.now (pair_key (length links.now.heads.now) ends) 0 }
{
    links.first(pair_sum(ends))
}

// The lowest vertex along the links with these parents; the count of vertices where there is none: kept a number and no Option, as the definition
// `vertex_with` is, since a vertex that a cut appends gets this number.
pub fn first_with(mesh: &Mesh, links: &ReadLinks, ends: Ends) -> usize
    ensures { result ≡ first_along links.now.nexts.now (has_parents (tables_read mesh.now) ends) (get_or links.now.heads.now (pair_key (length links.now.heads.now) ends) 0) mesh.now.header.vertices }
{
    links.lowest(
        head_of(links, ends),
        mesh.header.vertices as usize,
        |u| has_parents(mesh, ends, u),
    )
}

// A mesh with its made vertices linked by their parents.
#[derive(Clone, Copy)]
pub struct LinkedMesh<'m, 'b, 'l> {
    pub mesh: &'m Mesh<'b>,
    pub links: ReadLinks<'l>,
    pub ghost linked: { Linked (tables_read mesh.now) links.heads.now links.nexts.now } by { Linked_prop (tables_read mesh.now) links.heads.now links.nexts.now },
}

impl LinkedMesh<'_, '_, '_> {
    // The vertex with these parents; the count of vertices where there is none.
    pub fn vertex_with(&self, ends: Ends) -> usize
        ensures { result ≡ vertex_with (tables_read self.now.mesh.now) ends }
    {
        first_with(self.mesh, &self.links, ends)
    }
}
