// Refusal 7: a face in three base records, two base records with the same four corners, a shared face with two marks.
//
// Every face of the records has a number, f for face f % 4 of record f / 4. The faces of the records so far are linked by their keys, and a face of the next
// record is looked for along the links of its key alone.
#![tactic(auto)]

ghost use Rattle.std.specs.Prelude.{◌≡◌, ◌||◌, ◌+◌, ◌*◌, ◌≤◌, ◌<◌, length};
ghost use Rattle.laws.specs.Below.{any_below};
ghost use Rattle.laws.specs.Links.{greatest, pushed, short, Roomy, Empty};
ghost use Rattle.chains.specs.Held.{links_in, SameSlices, AsLong};
ghost use Rattle.mesh_tables.specs.Tables.{tables_read};
ghost use Rattle.check_refusals.specs.Refusals.{bad_faces, bad_base_faces};
ghost use Rattle.check_shared.specs.Faces.{face_of};
ghost use Rattle.check_faces.specs.Faces.{is_face, is_before, bad_face};
ghost use Rattle.check_faces.specs.Linked.{face_key, keys_of, KeysWithin, before_along, before_from, bad_along, bad_linked, pushed_faces};
ghost use Rattle.stored_entries.specs.Mesh.{record_read};

use chains::{Links, ReadLinks};
use check_shared::Face;
use piece::Piece;
use stored_entries::Mesh;

// How many faces the base records may have.
pub const FACES: usize = 4 * stored::RECORDS;

// The key of face i of a piece with these corners, one of so many.
fn face_key(keys: usize, p: [u32; 4], i: u8) -> usize
    ensures { result ≡ face_key keys (face_of p i) }
{
    chains::key(check_shared::corner_sum(check_shared::face_of(p, i)), keys)
}

// The keys of its four faces.
fn keys_of(keys: usize, p: [u32; 4]) -> [usize; 4]
    ensures { result ≡ keys_of keys p }
{
    [
        face_key(keys, p, 0),
        face_key(keys, p, 1),
        face_key(keys, p, 2),
        face_key(keys, p, 3),
    ]
}

// Whether face f is this one.
fn is_face(mesh: &Mesh, face: Face, f: usize) -> bool
    ensures { result ≡ is_face (record_read mesh.now) face f }
{
    let found = check_shared::face_of(mesh.corners(f / 4), (f % 4) as u8);
    check_shared::same_face(found, face)
}

// Whether it is, and its record comes before r.
fn is_before(mesh: &Mesh, face: Face, r: usize, f: usize) -> bool
    ensures { result ≡ is_before (record_read mesh.now) face r f }
{
    f / 4 < r && is_face(mesh, face, f)
}

// Whether a record before r has this face, along the links from m on.
fn before_along(mesh: &Mesh, links: &ReadLinks, m: usize, face: Face, r: usize) -> bool
    ensures { result ≡ before_along (record_read mesh.now) links.now.nexts.now m face r }
{
    links.any(m, |f| is_before(mesh, face, r, f))
}

// Whether face f is this one, which is face i of q, and the two records are bad together. Links lead down: a face of a record before stands further along.
fn bad_face(mesh: &Mesh, links: &ReadLinks, q: Piece, i: u8, face: Face, f: usize) -> bool
    ensures { result ≡ bad_face (record_read mesh.now) (before_from (record_read mesh.now) links.now.nexts.now face) q i face f }
{
    let r = f / 4;
    let j = (f % 4) as u8;
    let p = mesh.corners(r);
    if !check_shared::same_face(check_shared::face_of(p, j), face) {
        return false;
    }
    !check_shared::same_edge(p, mesh.mark(r, j), q.corners, piece::mark_of(q, i))
        || check_shared::same_rest(p, j, q.corners, i)
        || before_along(mesh, links, links.link(f), face, r)
}

// Whether face i of q is bad with a face along the links from m on.
fn bad_along(mesh: &Mesh, links: &ReadLinks, m: usize, q: Piece, i: u8) -> bool
    ensures { result ≡ bad_along (record_read mesh.now) links.now.nexts.now m q i }
{
    let face = check_shared::face_of(q.corners, i);
    links.any(m, |f| bad_face(mesh, links, q, i, face, f))
}

// Whether one of q's faces is, each along the links of its own key. They are asked in one loop, so that the whole walk is compiled once and in one piece.
fn bad_linked(mesh: &Mesh, links: &ReadLinks, q: Piece, own: [usize; 4]) -> bool
    ensures { result ≡ bad_linked (record_read mesh.now) links.now.heads.now links.now.nexts.now q own }
{
    for i in 0..4u8 {
        if bad_along(mesh, links, links.head(own[i as usize]), q, i) {
            return true;
        }
    }
    false
}

// The number f is put before the others with key k: `Links::push` where it is known that there is room, so that nothing is tested for each face.
fn put(links: &mut Links, k: usize, f: usize)
    requires k_in_bounds { k < length links.old.heads.now }
    requires f_in_bounds { f < length links.old.nexts.now }
    requires f_lt_greatest { f < greatest }
    ensures { links_in links.new ≡ pushed (links_in links.old) k f }
{
    links.nexts[f] = links.heads[k];
    links.heads[k] = (f + 1) as u16;
}

// The faces of record n are put before the others with their keys; there is room for them.
fn push_faces(links: &mut Links, own: [usize; 4], n: usize)
    requires keys_within { KeysWithin own (length links.old.heads.now) }
    requires n_in_bounds { 4 * (n + 1) ≤ length links.old.nexts.now }
    requires n_bound { 4 * (n + 1) ≤ greatest }
    ensures { links_in links.new ≡ pushed_faces (links_in links.old) own n }
{
    let f = 4 * n;
    put(links, own[0], f);
    put(links, own[1], f + 1);
    put(links, own[2], f + 2);
    put(links, own[3], f + 3);
}

// Whether record n is bad with one before it; then its faces are linked too.
fn bad_record(mesh: &Mesh, links: &mut Links, n: usize) -> bool
    requires { Roomy links.old.heads.now links.old.nexts.now (4 * (n + 1)) }
    ensures value { result ≡ bad_linked (record_read mesh.now) links.old.heads.now links.old.nexts.now (record_read mesh.now n).piece (keys_of (length links.old.heads.now) (record_read mesh.now n).piece.corners) }
    ensures nexts_after { links_in links.new ≡ pushed_faces (links_in links.old) (keys_of (length links.old.heads.now) (record_read mesh.now n).piece.corners) n }
{
    let q = mesh.record(n).piece;
    let own = keys_of(links.keys(), q.corners);
    let bad = bad_linked(mesh, &links.read(), q, own);
    push_faces(links, own, n);
    bad
}

// The records one after the other, each against the faces of those before it.
fn bad_below(mesh: &Mesh, links: &mut Links, count: usize) -> bool
    requires { Roomy links.old.heads.now links.old.nexts.now (4 * count) }
    ensures { Empty links.old.heads.now → result ≡ any_below count (bad_faces (record_read mesh.now)) }
{
    for n in 0..count {
        if bad_record(mesh, links, n) {
            return true;
        }
    }
    false
}

// What `bad_base_faces` asks, in two lists: who lends them keeps both, each as long as it was.
fn bad_in_lists(mesh: &Mesh, heads: &mut [u16], nexts: &mut [u16]) -> bool
    ensures { Empty heads.old → result ≡ (short heads.old nexts.old (4 * mesh.now.header.base_records) || bad_base_faces (tables_read mesh.now)) }
{
    // In a struct of its own: where the two lists stand is then known after each write to them, and not read again.
    let links = &mut Links { heads, nexts };
    let count = mesh.header.base_records as usize;
    links.is_short(4 * count) || bad_below(mesh, links, count)
}

// Lists that are too short for the faces are answered at once. The heads are to be lent as they were made: to clear as many once more takes a quarter of all rules'
// time on a small mesh.
pub fn bad_base_faces(mesh: &Mesh, links: &mut Links) -> bool
    ensures value { Empty links.old.heads.now → result ≡ (short links.old.heads.now links.old.nexts.now (4 * mesh.now.header.base_records) || bad_base_faces (tables_read mesh.now)) }
    ensures same { SameSlices links.old links.new }
    ensures as_long { AsLong links.old links.new }
{
    bad_in_lists(mesh, links.heads, links.nexts)
}
