// Build: marks a plain mesh and stores it.
#![tactic(auto)]

ghost use Rattle.std.specs.Prelude.{◌≡◌, false, length, replicate};
ghost use Rattle.laws.specs.Below.{any_below};
ghost use Rattle.laws.specs.Links.{Empty};
ghost use Rattle.stored.specs.Layout.{version1, limits, assembled};
ghost use Rattle.mesh_tables.specs.Tables.{tables_read, tables};
ghost use Rattle.check_refusals.specs.Refusals.{wrong_counts, bad_piece};
ghost use Rattle.check_refusals.specs.Outcomes.{outcome_number};
ghost use Rattle.check_refusals.specs.Bounded.{Bounded};
ghost use Rattle.check_refusals.specs.Lent.{LentToBase};
ghost use Rattle.build_marks.specs.Marking.{plain_vertex, plain_piece};
ghost use Rattle.build_service.specs.Build.{not_whole, plain_header, plain_bytes, bad_given_pieces, BuildOutcomeIs};
ghost use Rattle.build_service.specs.Storing.{vertices_put, records_put, Ready, judged_number, later_number, later_bytes};

use build_marks::PlainMesh;
use chains::Links;
use check_refusals::Refusal;
use stored::{Header, Limits};
use stored_entries::Mesh;

// Refusal 21.
#[tactic(auto, unfolding(crate::specs::Build::not_whole))]
fn not_whole(plain: &PlainMesh) -> bool
    ensures { result ≡ not_whole plain.now.coordinates.now plain.now.corners.now }
{
    plain.coordinates.len() % 3 != 0 || plain.corners.len() % 4 != 0
}

// Refusal 3, on counts that may be too great for the header.
#[tactic(auto, unfolding(check_refusals::specs::Refusals::wrong_counts, crate::specs::Build::plain_header))]
fn wrong_counts(most: Limits, plain: &PlainMesh) -> bool
    ensures { result ≡ wrong_counts most (plain_header 0 plain.now.coordinates.now plain.now.corners.now) }
{
    let vertices = plain.coordinates.len() / 3;
    let records = plain.corners.len() / 4;
    (most.vertices as usize) < vertices
        || (most.records as usize) < records
        || (most.base_records as usize) < records
        || vertices < 4
        || records < 1
}

// The counts fit, since they are not wrong.
#[tactic(auto, unfolding(crate::specs::Build::plain_header))]
fn plain_header(job: u32, plain: &PlainMesh) -> Header
    requires { wrong_counts limits (plain_header job plain.now.coordinates.now plain.now.corners.now) ≡ false }
    ensures { result ≡ plain_header job plain.now.coordinates.now plain.now.corners.now }
{
    let vertices = (plain.coordinates.len() / 3) as u32;
    let records = (plain.corners.len() / 4) as u32;
    Header {
        job,
        round: 0,
        base_vertices: vertices,
        vertices,
        base_records: records,
        records,
    }
}

// Kept two slices: a struct that holds both for writing would have each function promise as well that it keeps the same two and the layout.
fn put_vertices(base: &mut [u8], grown: &mut [u8], vertices: u32, records: u32, plain: &PlainMesh)
    ensures base_after { base.new ≡ vertices_put base.old plain.now.coordinates.now vertices }
    ensures grown_unchanged { grown.new ≡ grown.old }
{
    let l = stored::working_layout(stored::version_1(), vertices, records);
    for i in 0..vertices {
        stored_written::put_vertex(l, base, grown, i as usize, plain.vertex(i));
    }
}

fn put_records(base: &mut [u8], grown: &mut [u8], vertices: u32, records: u32, plain: &PlainMesh)
    ensures base_unchanged { base.new ≡ base.old }
    ensures grown_after { grown.new ≡ records_put grown.old plain.now.coordinates.now plain.now.corners.now records }
{
    let l = stored::working_layout(stored::version_1(), vertices, records);
    for i in 0..records {
        stored_written::put_record(l, base, grown, i as usize, plain.record(i));
    }
}

#[tactic(auto, unfolding(check_refusals::specs::Refusals::bad_piece, build_marks::specs::Marking::plain_piece, build_marks::specs::Marking::plain_vertex, mesh_tables::specs::Tables::sixfold_at, grid_volume::specs::Volume::sixfold_of))]
fn bad_given(plain: &PlainMesh, count: u32, n: u32) -> bool
    ensures { result ≡ bad_piece count (plain_vertex plain.now.coordinates.now) (plain_piece plain.now.corners.now n) }
{
    let p = plain.piece(n);
    check_pieces::bad_corners(count, p.corners) || grid_volume::is_flat(plain.signed_of(p.corners))
}

// Refusal 5, of so many pieces as they are given.
fn bad_given_pieces(plain: &PlainMesh, vertices: u32, records: u32) -> bool
    ensures { result ≡ any_below records (λ n. bad_piece vertices (plain_vertex plain.now.coordinates.now) (plain_piece plain.now.corners.now n)) }
{
    for n in 0..records {
        if bad_given(plain, vertices, n) {
            return true;
        }
    }
    false
}

// Check's own rules 4, 7, 8 and 23, and between them, in its place, whether 5 was found broken.
// Kept beside check's `judged_base`, which asks 5, 22 and 6 of the tables as well: a common one would have to be told which rules to ask.
// Kept slices: two tables of heads use one list of links in turn, so neither pair is a value of its own here.
fn judged_with(
    bad_given: bool,
    mesh: &Mesh,
    heads: &mut [u16],
    face_heads: &mut [u16],
    links: &mut [u16],
    uses: &mut [u16],
) -> Result<(), Refusal>
    requires lent_to_base { LentToBase mesh.now.header (length heads.old) (length face_heads.old) (length links.old) (length uses.old) }
    requires heads_empty { Empty heads.old }
    requires face_heads_empty { Empty face_heads.old }
    ensures { outcome_number result ≡ judged_number bad_given (tables_read mesh.now) }
{
    if check_places::bad_vertices(
        mesh,
        &mut Links {
            heads,
            nexts: links,
        },
    ) {
        return Err(Refusal::BadVertices);
    }
    if bad_given {
        return Err(Refusal::BadBaseRecords);
    }
    if check_faces::bad_base_faces(
        mesh,
        &mut Links {
            heads: face_heads,
            nexts: links,
        },
    ) {
        return Err(Refusal::BadBaseFaces);
    }
    if check_uses::unused_vertices(mesh, uses) {
        return Err(Refusal::UnusedVertices);
    }
    if check_inside::hanging_vertices(
        mesh,
        &mut Links {
            heads,
            nexts: links,
        },
    ) {
        return Err(Refusal::HangingVertices);
    }
    Ok(())
}

// The working memory of these rules is made here, and lent to them.
fn judged(bad_given: bool, mesh: &Mesh) -> Result<(), Refusal>
    requires { Bounded limits mesh.now.header }
    ensures { outcome_number result ≡ judged_number bad_given (tables_read mesh.now) }
{
    let mut heads = [0u16; chains::KEYS];
    let mut face_heads = [0u16; chains::FACE_KEYS];
    let mut links = [0u16; check_faces::FACES];
    // "one count for each of the 1,024 possible vertices"
    let mut uses = [0u16; stored::VERTICES];
    judged_with(
        bad_given,
        mesh,
        &mut heads,
        &mut face_heads,
        &mut links,
        &mut uses,
    )
}

// Judges the tables, and stores the mesh where it is accepted and there is room.
fn finish(
    bad_given: bool,
    h: Header,
    vertices: &[u8],
    records: &[u8],
    out: &mut [u8],
) -> Result<(), Refusal>
    requires { Ready h vertices.now records.now out.old }
    ensures number { outcome_number result ≡ later_number bad_given (assembled version1 h vertices.now records.now) (length out.old) }
    ensures out_after { out.new ≡ later_bytes bad_given (assembled version1 h vertices.now records.now) (length out.old) }
{
    let format = stored::version_1();
    let mesh = Mesh {
        header: h,
        layout: stored::working_layout(format, h.vertices, h.records),
        base: vertices,
        grown: records,
    };
    judged(bad_given, &mesh)?;
    if out.len() < stored_headers::mesh_length(format, h.vertices, h.records) {
        return Err(Refusal::TooShort);
    }
    stored_written::put_mesh(format, out, h, vertices, records);
    Ok(())
}

// 5 judges the pieces as they are given. The tables are made aside, since there may be no room for them.
fn store(job: u32, plain: &PlainMesh, out: &mut [u8]) -> Result<(), Refusal>
    requires counts_fit { wrong_counts limits (plain_header job plain.now.coordinates.now plain.now.corners.now) ≡ false }
    requires out_cleared { out.old ≡ replicate (length out.old) 0 }
    ensures number { outcome_number result ≡ later_number (bad_given_pieces plain.now.coordinates.now plain.now.corners.now) (plain_bytes job plain.now.coordinates.now plain.now.corners.now) (length out.old) }
    ensures out_after { out.new ≡ later_bytes (bad_given_pieces plain.now.coordinates.now plain.now.corners.now) (plain_bytes job plain.now.coordinates.now plain.now.corners.now) (length out.old) }
{
    let h = plain_header(job, plain);
    let bad_given = bad_given_pieces(plain, h.vertices, h.records);
    let mut vertices = [0u8; stored::VERTEX_BYTES];
    let mut records = [0u8; stored::RECORD_BYTES];
    put_vertices(&mut vertices, &mut records, h.vertices, h.records, plain);
    put_records(&mut vertices, &mut records, h.vertices, h.records, plain);
    finish(bad_given, h, &vertices, &records, out)
}

pub fn build(job: u32, coordinates: &[i16], corners: &[u16], out: &mut [u8]) -> Result<(), Refusal>
    ensures { BuildOutcomeIs job coordinates.now corners.now (length out.old) (outcome_number result) out.new }
{
    out.fill(0);
    let plain = PlainMesh {
        coordinates,
        corners,
    };
    if not_whole(&plain) {
        return Err(Refusal::NotWhole);
    }
    if wrong_counts(stored::limits_of_version_1(), &plain) {
        return Err(Refusal::WrongCounts);
    }
    store(job, &plain, out)
}
