// Whether a leaf hangs, where the made vertices are linked by their parents.
#![tactic(auto)]

ghost use Rattle.std.specs.Prelude.{◌≡◌};
ghost use Rattle.mesh_tables.specs.Tables.{tables_read};
ghost use Rattle.mesh_hanging.specs.Hanging.{is_linked, any_linked, corners_hang, leaf_hangs_along};

use chains::ReadLinks;
use piece::Ends;
use stored_entries::Mesh;

// Whether there are links with the key of these ends.
fn is_linked(links: &ReadLinks, ends: Ends) -> bool
    ensures { result ≡ is_linked links.now.heads.now ends }
{
    mesh_parents::head_of(links, ends) != 0
}

// Whether there are with the key of an edge's ends, one edge after the other. Of most leaves there are none, and then no edge hangs.
// The six are written out, since each leaf is asked: a loop would look up the slots of each edge code.
pub fn any_linked(links: &ReadLinks, corners: [u32; 4]) -> bool
    ensures { result ≡ any_linked links.now.heads.now corners }
{
    let [a, b, c, d] = corners;
    is_linked(links, piece::ends_between(a, b))
        || is_linked(links, piece::ends_between(a, c))
        || is_linked(links, piece::ends_between(a, d))
        || is_linked(links, piece::ends_between(b, c))
        || is_linked(links, piece::ends_between(b, d))
        || is_linked(links, piece::ends_between(c, d))
}

// Whether an edge of a piece with these corners hangs.
fn corners_hang(mesh: &Mesh, links: &ReadLinks, corners: [u32; 4]) -> bool
    ensures { result ≡ corners_hang (tables_read mesh.now) links.now.heads.now links.now.nexts.now corners }
{
    let count = mesh.header.vertices as usize;
    for e in 0..6u8 {
        let ends = piece::ends_at(corners, e);
        let head = mesh_parents::head_of(links, ends);
        if mesh_parents::any_from(mesh, links, count, ends, head) {
            return true;
        }
    }
    false
}

// Whether record n is a leaf that has a hanging edge, where the made vertices are linked already; they may be more than the header counts.
pub fn leaf_hangs(mesh: &Mesh, links: &ReadLinks, n: usize) -> bool
    ensures { result ≡ leaf_hangs_along (tables_read mesh.now) links.now.heads.now links.now.nexts.now n }
{
    if !mesh_tables::is_leaf(mesh, n) {
        return false;
    }
    let corners = mesh.corners(n);
    any_linked(links, corners) && corners_hang(mesh, links, corners)
}
