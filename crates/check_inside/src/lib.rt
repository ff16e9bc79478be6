// Refusal 23: a base vertex that hangs on a base piece. Base vertices are linked by cells of one width, and a piece asks those in the cells that its box meets.
#![tactic(auto)]

ghost use Rattle.std.specs.Prelude.{◌≡◌, ◌||◌, ◌<◌, ◌≤◌, min, max, length};
ghost use Rattle.laws.specs.Below.{any_below};
ghost use Rattle.laws.specs.Links.{linked_below, short, Chain};
ghost use Rattle.chains.specs.Held.{links_in, SameSlices, AsLong};
ghost use Rattle.grid.specs.Places.{point_of};
ghost use Rattle.grid_volume.specs.Volume.{corners_of, left_handed};
ghost use Rattle.grid_inside.specs.Inside.{lies_in};
ghost use Rattle.mesh_tables.specs.Tables.{tables_read};
ghost use Rattle.check_refusals.specs.Refusals.{hangs_on, hanging_vertices};
ghost use Rattle.check_inside.specs.Cells.{slab_of, slabs_of, cell_number, place_key, lower_of, upper_of, low_of, high_of, asking_of, standing, is_corner, is_within, hangs_among, hangs_below, in_cell, in_row, in_layer, in_block};
ghost use Rattle.stored_entries.specs.Mesh.{vertex_read, record_read};

use chains::{Links, ReadLinks};
use grid::Place;
use stored_entries::Mesh;

// The numbers of a cell along the three axes.
#[derive(Clone, Copy)]
struct Slabs {
    x: u32,
    y: u32,
    z: u32,
}

// A corner: its vertex number, and where it stands.
#[derive(Clone, Copy)]
struct Corner {
    number: u32,
    place: Place,
}

// A piece that asks, by its corners in slots 0 to 3.
#[derive(Clone, Copy)]
struct Asking {
    a: Corner,
    b: Corner,
    c: Corner,
    d: Corner,
}

// The box of a piece, by its least and its greatest coordinates.
#[derive(Clone, Copy)]
struct PieceBox {
    low: Place,
    high: Place,
}

// The cells from one to another along each axis.
#[derive(Clone, Copy)]
struct Block {
    from: Slabs,
    to: Slabs,
}

// So many pieces, or one more, are looked at for the cells' width.
const SAMPLES: u32 = 32;

fn lower(p: Place, q: Place) -> Place
    ensures { result ≡ lower_of p q }
{
    Place {
        x: p.x.min(q.x),
        y: p.y.min(q.y),
        z: p.z.min(q.z),
    }
}

fn upper(p: Place, q: Place) -> Place
    ensures { result ≡ upper_of p q }
{
    Place {
        x: p.x.max(q.x),
        y: p.y.max(q.y),
        z: p.z.max(q.z),
    }
}

// The number of a cell along one axis.
fn slab(width: u16, x: u16) -> u32
    ensures { result ≡ slab_of width x }
{
    x as u32 / (width as u32 + 1)
}

fn slabs_of(width: u16, p: Place) -> Slabs
    ensures { result ≡ slabs_of width p }
{
    Slabs {
        x: slab(width, p.x),
        y: slab(width, p.y),
        z: slab(width, p.z),
    }
}

fn cell_number(x: u32, y: u32, z: u32) -> usize
    ensures { result ≡ cell_number x y z }
{
    x as usize + 31 * (y as usize) + 961 * (z as usize)
}

fn place_key(keys: usize, width: u16, p: Place) -> usize
    ensures { result ≡ place_key keys width p }
{
    let s = slabs_of(width, p);
    chains::key(cell_number(s.x, s.y, s.z), keys)
}

// The first so many vertices, one after the other.
fn link_all(mesh: &Mesh, count: usize, width: u16, links: &mut Links)
    ensures { links_in links.new ≡ linked_below (λ v. place_key (length links.old.heads.now) width (vertex_read mesh.now v).place) (links_in links.old) count }
{
    for v in 0..count {
        let key = place_key(links.keys(), width, mesh.place(v));
        links.push(key, v);
    }
}

fn corner_of(mesh: &Mesh, number: u32) -> Corner
    ensures { result ≡ record { number = number; place = (vertex_read mesh.now number).place } }
{
    Corner {
        number,
        place: mesh.place(number as usize),
    }
}

fn asking_of(mesh: &Mesh, n: usize) -> Asking
    ensures { result ≡ asking_of (vertex_read mesh.now) (record_read mesh.now n).piece }
{
    let corners = mesh.corners(n);
    Asking {
        a: corner_of(mesh, corners[0]),
        b: corner_of(mesh, corners[1]),
        c: corner_of(mesh, corners[2]),
        d: corner_of(mesh, corners[3]),
    }
}

// The box of its corners.
fn box_of(q: Asking) -> PieceBox
    ensures { result ≡ record { low = low_of q; high = high_of q } }
{
    PieceBox {
        low: lower(lower(q.a.place, q.b.place), lower(q.c.place, q.d.place)),
        high: upper(upper(q.a.place, q.b.place), upper(q.c.place, q.d.place)),
    }
}

fn is_corner(q: Asking, v: u32) -> bool
    ensures { result ≡ is_corner q v }
{
    q.a.number == v || q.b.number == v || q.c.number == v || q.d.number == v
}

// Whether four places, in this order, are left-handed.
fn left_handed(a: Place, b: Place, c: Place, d: Place) -> bool
    ensures { result ≡ left_handed (corners_of (point_of a) (point_of b) (point_of c) (point_of d)) }
{
    grid_volume::is_negative(grid_volume::signed(a, b, c, d))
}

// Whether what stands here lies in the closed piece: each corner in turn is replaced by it. In line along a cell's links, what depends on the piece alone is
// computed once.
#[inline(always)]
fn lies_in(q: Asking, place: Place) -> bool
    ensures { result ≡ lies_in (standing q) (point_of place) }
{
    let a = q.a.place;
    let b = q.b.place;
    let c = q.c.place;
    let d = q.d.place;
    !left_handed(place, b, c, d)
        && !left_handed(a, place, c, d)
        && !left_handed(a, b, place, d)
        && !left_handed(a, b, c, place)
}

fn is_within(space: PieceBox, p: Place) -> bool
    ensures { result ≡ is_within space.low space.high p }
{
    space.low.x <= p.x
        && p.x <= space.high.x
        && space.low.y <= p.y
        && p.y <= space.high.y
        && space.low.z <= p.z
        && p.z <= space.high.z
}

// Whether vertex u hangs on the piece, wherever it stands.
fn hangs(mesh: &Mesh, q: Asking, u: u32) -> bool
    ensures { result ≡ hangs_among q u (vertex_read mesh.now u).place }
{
    !is_corner(q, u) && lies_in(q, mesh.place(u as usize))
}

// Whether vertex u is one of the first so many, stands in the box and hangs on the piece.
fn hangs_below(mesh: &Mesh, count: u32, q: Asking, space: PieceBox, u: usize) -> bool
    ensures { result ≡ hangs_below (vertex_read mesh.now) count q space.low space.high u }
{
    if count as usize <= u {
        return false;
    }
    if is_corner(q, u as u32) {
        return false;
    }
    let place = mesh.place(u);
    is_within(space, place) && lies_in(q, place)
}

// Of the first so many vertices, all are asked.
fn any_vertex(mesh: &Mesh, count: u32, q: Asking) -> bool
    ensures { result ≡ any_below count (λ u. hangs_among q u (vertex_read mesh.now u).place) }
{
    for u in 0..count {
        if hangs(mesh, q, u) {
            return true;
        }
    }
    false
}

// Those in one cell.
fn any_in_cell(
    mesh: &Mesh,
    links: &ReadLinks,
    count: u32,
    q: Asking,
    space: PieceBox,
    x: u32,
    y: u32,
    z: u32,
) -> bool
    ensures { result ≡ in_cell links.now.heads.now links.now.nexts.now (hangs_below (vertex_read mesh.now) count q space.low space.high) x y z }
{
    links.any(
        links.first(cell_number(x, y, z)),
        |u| hangs_below(mesh, count, q, space, u),
    )
}

// Those in a row of cells, in a layer and in a block. Kept three: each goes along an axis of its own and asks the one before it.
fn any_in_row(
    mesh: &Mesh,
    links: &ReadLinks,
    count: u32,
    q: Asking,
    space: PieceBox,
    block: Block,
    y: u32,
    z: u32,
) -> bool
    ensures { result ≡ in_row links.now.heads.now links.now.nexts.now (hangs_below (vertex_read mesh.now) count q space.low space.high) block.from block.to y z }
{
    for x in block.from.x..=block.to.x {
        if any_in_cell(mesh, links, count, q, space, x, y, z) {
            return true;
        }
    }
    false
}

fn any_in_layer(
    mesh: &Mesh,
    links: &ReadLinks,
    count: u32,
    q: Asking,
    space: PieceBox,
    block: Block,
    z: u32,
) -> bool
    ensures { result ≡ in_layer links.now.heads.now links.now.nexts.now (hangs_below (vertex_read mesh.now) count q space.low space.high) block.from block.to z }
{
    for y in block.from.y..=block.to.y {
        if any_in_row(mesh, links, count, q, space, block, y, z) {
            return true;
        }
    }
    false
}

fn any_in_block(
    mesh: &Mesh,
    links: &ReadLinks,
    count: u32,
    q: Asking,
    space: PieceBox,
    block: Block,
) -> bool
    ensures { result ≡ in_block links.now.heads.now links.now.nexts.now (hangs_below (vertex_read mesh.now) count q space.low space.high) block.from block.to }
{
    for z in block.from.z..=block.to.z {
        if any_in_layer(mesh, links, count, q, space, block, z) {
            return true;
        }
    }
    false
}

// How many cells there are along an axis, from one to another.
fn side(from: u32, to: u32) -> u64
    ensures { result ≤ 4294967296 }
{
    (u64::from(to) + 1).saturating_sub(u64::from(from))
}

// Whether a block has more cells than so many.
fn too_many(count: u32, block: Block) -> bool {
    let most = u64::from(count);
    let row = side(block.from.x, block.to.x);
    if most < row {
        return true;
    }
    let layer = row * side(block.from.y, block.to.y);
    most < layer || most < layer * side(block.from.z, block.to.z)
}

// Record n: where it is right-handed, what lies in it lies in its box, and the cells that the box meets are asked, unless there are more of them than vertices.
fn record_hangs(mesh: &Mesh, links: &ReadLinks, count: u32, width: u16, n: usize) -> bool
    ensures { 0 < length links.now.heads.now → Chain (λ v. place_key (length links.now.heads.now) width (vertex_read mesh.now v).place) count links.now.heads.now links.now.nexts.now → result ≡ any_below count (hangs_on (vertex_read mesh.now) (record_read mesh.now n).piece) }
{
    let q = asking_of(mesh, n);
    let signed = grid_volume::signed(q.a.place, q.b.place, q.c.place, q.d.place);
    if grid_volume::is_flat(signed) || grid_volume::is_negative(signed) {
        return any_vertex(mesh, count, q);
    }
    let space = box_of(q);
    let block = Block {
        from: slabs_of(width, space.low),
        to: slabs_of(width, space.high),
    };
    if too_many(count, block) {
        return any_vertex(mesh, count, q);
    }
    any_in_block(mesh, links, count, q, space, block)
}

// How far record n reaches along the axis on which it reaches farthest.
fn reach(mesh: &Mesh, n: usize) -> u16 {
    let space = box_of(asking_of(mesh, n));
    let x = space.high.x.saturating_sub(space.low.x);
    let y = space.high.y.saturating_sub(space.low.y);
    let z = space.high.z.saturating_sub(space.low.z);
    x.max(y).max(z)
}

// Cells as wide as the pieces reach: the mean of some of them, taken at equal steps. A piece that stands far from the others does not change it.
fn width_for(mesh: &Mesh, records: u32) -> u16 {
    let step = (records / SAMPLES) as usize + 1;
    let mut seen: u64 = 0;
    let mut sum: u64 = 0;
    for n in (0..records as usize).step_by(step) {
        sum += u64::from(reach(mesh, n));
        seen += 1;
    }
    if seen == 0 {
        return 0;
    }
    (sum / seen) as u16
}

fn any_record(mesh: &Mesh, links: &ReadLinks, vertices: u32, records: usize, width: u16) -> bool
    ensures { 0 < length links.now.heads.now → Chain (λ v. place_key (length links.now.heads.now) width (vertex_read mesh.now v).place) vertices links.now.heads.now links.now.nexts.now → result ≡ any_below records (λ n. any_below vertices (hangs_on (vertex_read mesh.now) (record_read mesh.now n).piece)) }
{
    for n in 0..records {
        if record_hangs(mesh, links, vertices, width, n) {
            return true;
        }
    }
    false
}

// What `hanging_vertices` asks, in two lists: who lends them keeps both, each as long as it was.
fn hanging_in_lists(mesh: &Mesh, heads: &mut [u16], nexts: &mut [u16]) -> bool
    ensures { result ≡ (short heads.old nexts.old mesh.now.header.base_vertices || hanging_vertices (tables_read mesh.now)) }
{
    // In a struct of its own: where the two lists stand is then known after each write to them, and not read again.
    let links = &mut Links { heads, nexts };
    let count = mesh.header.base_vertices as usize;
    if links.is_short(count) {
        return true;
    }
    links.clear();
    let width = width_for(mesh, mesh.header.base_records);
    link_all(mesh, count, width, links);
    any_record(
        mesh,
        &links.read(),
        mesh.header.base_vertices,
        mesh.header.base_records as usize,
        width,
    )
}

// Refusal 23. Lists that are too short for the vertices are answered at once.
pub fn hanging_vertices(mesh: &Mesh, links: &mut Links) -> bool
    ensures value { result ≡ (short links.old.heads.now links.old.nexts.now mesh.now.header.base_vertices || hanging_vertices (tables_read mesh.now)) }
    ensures same { SameSlices links.old links.new }
    ensures as_long { AsLong links.old links.new }
{
    hanging_in_lists(mesh, links.heads, links.nexts)
}
