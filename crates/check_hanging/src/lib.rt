// Refusal 10: the first leaf edge found hanging, by record and then edge code.
#![tactic(auto)]

ghost use Rattle.std.specs.Prelude.{◌≡◌};
ghost use Rattle.chains.specs.Held.{SameSlices, AsLong};
ghost use Rattle.mesh_tables.specs.Tables.{tables_read};
ghost use Rattle.check_hanging.specs.Hanging.{found_of, found_along};

use chains::Links;
use mesh_parents::LinkedMesh;
use piece::Ends;
use stored_entries::Mesh;

// An edge of a record: the record's number and an edge code.
#[derive(Clone, Copy, PartialEq, Eq)]
pub struct HangingEdge {
    pub record: usize,
    pub edge: u8,
}

// The search over records, six edge codes and made vertices, of these only the ones with the key of the edge's ends, left with the place
// found.
fn search(linked: &LinkedMesh) -> Option<HangingEdge>
    ensures { result ≡ found_of (tables_read linked.now.mesh.now) }
{
    let all_records = linked.mesh.header.records as usize;
    let mut found = None;
    'search: for n in 0..all_records {
        if !mesh_tables::is_leaf(linked.mesh, n) {
            continue 'search;
        }
        let corners = linked.mesh.corners(n);
        if !mesh_hanging::any_linked(&linked.links, corners) {
            continue 'search;
        }
        for e in 0..6u8 {
            let ends = piece::ends_at(corners, e);
            let head = mesh_parents::head_of(&linked.links, ends);
            if linked
                .links
                .any(head, |v| mesh_parents::has_parents(linked.mesh, ends, v))
            {
                found = Some(HangingEdge { record: n, edge: e });
                break 'search;
            }
        }
    }
    found
}

// What `first_hanging` finds, in two lists: who lends them keeps both, each as long as it was.
fn first_in_lists(mesh: &Mesh, heads: &mut [u16], nexts: &mut [u16]) -> Option<HangingEdge>
    ensures { result ≡ found_along heads.old nexts.old (tables_read mesh.now) }
{
    let links = &mut Links { heads, nexts };
    if links.is_short(mesh.header.vertices as usize) {
        return None;
    }
    if mesh.header.vertices <= mesh.header.base_vertices {
        return None;
    }
    mesh_parents::link_pairs(mesh, links);
    let linked = LinkedMesh {
        mesh,
        links: links.read(),
    };
    search(&linked)
}

// The first edge found hanging. The made vertices are linked by their parents first, in lists that are lent; where there is none, none hangs, and where the
// lists are too short for the links, nothing is looked for.
pub fn first_hanging(mesh: &Mesh, links: &mut Links) -> Option<HangingEdge>
    ensures value { result ≡ found_along links.old.heads.now links.old.nexts.now (tables_read mesh.now) }
    ensures same { SameSlices links.old links.new }
    ensures as_long { AsLong links.old links.new }
{
    first_in_lists(mesh, links.heads, links.nexts)
}
