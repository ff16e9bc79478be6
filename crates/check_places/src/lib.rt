// Refusal 4: vertices off the grid, out of place or with a parent pair used twice. Base vertices are linked by their places and made ones by their
// parents, in one chain, each after it was judged, so that of those before it only the ones with its key are looked at.
#![tactic(auto)]

ghost use Rattle.std.specs.Prelude.{◌≡◌, ◌||◌, length};
ghost use Rattle.laws.specs.Links.{pushed, short, Roomy, Empty};
ghost use Rattle.chains.specs.Held.{links_in, SameSlices, AsLong};
ghost use Rattle.grid.specs.Places.{same_place};
ghost use Rattle.mesh_tables.specs.Tables.{tables_read};
ghost use Rattle.check_refusals.specs.Refusals.{bad_base_vertex, bad_made_vertex, pair_twice, bad_vertex, bad_vertices};
ghost use Rattle.check_places.specs.Kept.{place_key, vertex_key, VerticesKept, place_along};
ghost use Rattle.stored_entries.specs.Mesh.{vertex_read};

use chains::{Links, ReadLinks};
use grid::Place;
use stored::Vertex;
use stored_entries::Mesh;

// Places' keys are taken modulo a prime, so that places that are far apart on the grid have keys of their own too.
const PRIME: usize = 8191;

fn bad_base_vertex(v: Vertex) -> bool
    ensures { result ≡ bad_base_vertex v }
{
    !grid::on_grid(v.place) || v.p != stored::NONE || v.q != stored::NONE
}

fn stands_at(mesh: &Mesh, u: usize, place: Place) -> bool
    ensures { result ≡ same_place (vertex_read mesh.now u).place place }
{
    mesh.place(u) == place
}

// The key of a place, in steps of the grid, one of so many. The factors differ, so that a step along each axis leads to another key.
fn place_key(keys: usize, place: Place) -> usize
    ensures { result ≡ place_key keys place }
{
    let x = place.x as usize;
    let y = place.y as usize;
    let z = place.z as usize;
    chains::key((x / 32 * 37 + y / 32 * 101 + z / 32 * 3) % PRIME, keys)
}

// Whether a vertex along the links stands at this place.
fn place_along(mesh: &Mesh, links: &ReadLinks, place: Place) -> bool
    ensures { result ≡ place_along (vertex_read mesh.now) links.now.heads.now links.now.nexts.now place }
{
    links.any(
        links.head(place_key(links.keys(), place)),
        |u| stands_at(mesh, u, place),
    )
}

fn bad_made_vertex(mesh: &Mesh, v: usize) -> bool
    ensures { result ≡ bad_made_vertex (vertex_read mesh.now) v }
{
    let vertex = mesh.vertex(v);
    let p = vertex.p as usize;
    let q = vertex.q as usize;
    q <= p || v <= q || !grid::is_halfway(vertex.place, mesh.place(p), mesh.place(q))
}

// Whether a vertex before v has v's parents.
fn pair_twice(mesh: &Mesh, links: &ReadLinks, v: usize) -> bool
    ensures { VerticesKept (tables_read mesh.now) v links.now.heads.now links.now.nexts.now → result ≡ pair_twice (tables_read mesh.now) v }
{
    let ends = mesh.parents(v);
    let head = mesh_parents::head_of(links, ends);
    mesh_parents::any_from(mesh, links, v, ends, head)
}

// Vertex v, where those before it are linked.
fn bad_vertex(mesh: &Mesh, links: &ReadLinks, v: usize) -> bool
    ensures { VerticesKept (tables_read mesh.now) v links.now.heads.now links.now.nexts.now → result ≡ bad_vertex (tables_read mesh.now) v }
{
    if v < mesh.header.base_vertices as usize {
        let vertex = mesh.vertex(v);
        bad_base_vertex(vertex) || place_along(mesh, links, vertex.place)
    } else {
        bad_made_vertex(mesh, v) || pair_twice(mesh, links, v)
    }
}

// The key of vertex v: that of its place, and of its parents if it is made.
fn vertex_key(mesh: &Mesh, keys: usize, v: usize) -> usize
    ensures { result ≡ vertex_key keys (tables_read mesh.now) v }
{
    if v < mesh.header.base_vertices as usize {
        place_key(keys, mesh.place(v))
    } else {
        mesh_parents::pair_key(keys, mesh.parents(v))
    }
}

// Vertex v is put before the others with its key.
fn link_vertex(mesh: &Mesh, links: &mut Links, v: usize)
    ensures linked { links_in links.new ≡ pushed (links_in links.old) (vertex_key (length links.old.heads.now) (tables_read mesh.now) v) v }
    ensures same { SameSlices links.old links.new }
{
    let key = vertex_key(mesh, links.keys(), v);
    links.push(key, v);
}

// Each vertex is judged by those before it, and then linked.
fn any_bad(mesh: &Mesh, links: &mut Links) -> bool
    requires { Roomy links.old.heads.now links.old.nexts.now mesh.now.header.vertices }
    ensures { Empty links.old.heads.now → result ≡ bad_vertices (tables_read mesh.now) }
{
    let count = mesh.header.vertices as usize;
    for v in 0..count {
        if bad_vertex(mesh, &links.read(), v) {
            return true;
        }
        link_vertex(mesh, links, v);
    }
    false
}

// What `bad_vertices` asks, in two lists: who lends them keeps both, each as long as it was.
fn bad_in_lists(mesh: &Mesh, heads: &mut [u16], nexts: &mut [u16]) -> bool
    ensures { Empty heads.old → result ≡ (short heads.old nexts.old mesh.now.header.vertices || bad_vertices (tables_read mesh.now)) }
{
    let links = &mut Links { heads, nexts };
    links.is_short(mesh.header.vertices as usize) || any_bad(mesh, links)
}

// The links are lent, and the heads are to be lent as they were made; lists that are too short for them refuse.
pub fn bad_vertices(mesh: &Mesh, links: &mut Links) -> bool
    ensures value { Empty links.old.heads.now → result ≡ (short links.old.heads.now links.old.nexts.now mesh.now.header.vertices || bad_vertices (tables_read mesh.now)) }
    ensures same { SameSlices links.old links.new }
    ensures as_long { AsLong links.old links.new }
{
    bad_in_lists(mesh, links.heads, links.nexts)
}
