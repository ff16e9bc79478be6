// Refine: cuts the selected pieces, and what hangs then, until nothing does.
#![tactic(auto)]

ghost use Rattle.std.specs.Prelude.{◌≡◌, false, length};
ghost use Rattle.stored.specs.Layout.{kind1, stored1, selection_in, selection1, named_in};
ghost use Rattle.mesh_tables.specs.Tables.{tables_read};
ghost use Rattle.check_refusals.specs.Outcomes.{outcome_number};
ghost use Rattle.check_service.specs.Verdict.{NamesTheEdge};
ghost use Rattle.refine_selection.specs.Selected.{is_named};
ghost use Rattle.refine_cut.specs.Slices.{slices};
ghost use Rattle.refine_pass.specs.Puts.{refined_within};
ghost use Rattle.refine_service.specs.Refine.{RefineOutcomeIs};
ghost use Rattle.refine_service.specs.Order.{selection_number, named_number};
ghost use Rattle.refine_service.specs.Storing.{Assembled, Copied, stored_number, stored_bytes, later_number, later_bytes};

use chains::Links;
use check_refusals::Refusal;
use stored::{Header, Kind};
use stored_entries::Mesh;

// Refusals 16 to 18, tried in their order.
fn named(mesh: &Mesh, selection: &[u8], count: usize) -> Result<(), Refusal>
    ensures { outcome_number result ≡ named_number (tables_read mesh.now) count (named_in (selection_in mesh.now.layout.format selection.now)) }
{
    if refine_selection::names_cut(mesh, selection, count) {
        return Err(Refusal::NamesCut);
    }
    if refine_selection::names_last(mesh, selection, count) {
        return Err(Refusal::NamesLast);
    }
    if mesh.header.round == stored::LAST_ROUND {
        return Err(Refusal::LastRound);
    }
    Ok(())
}

// Refusals 11 to 18.
fn selected(mesh: &Mesh, selection: &[u8]) -> Result<(), Refusal>
    ensures { outcome_number result ≡ selection_number (tables_read mesh.now) (selection_in mesh.now.layout.format selection.now) }
{
    let format = mesh.layout.format;
    refine_selection::judged_selection(format, mesh.header, selection)?;
    let s = stored_selections::selection_of(format, selection);
    named(mesh, selection, s.count as usize)
}

// Refusals 19 and 20, or the mesh.
fn finish(
    k: Kind,
    h: Header,
    vertices: &[u8],
    records: &[u8],
    out: &mut [u8],
) -> Result<(), Refusal>
    requires { Assembled k h vertices.now records.now out.old }
    ensures value { outcome_number result ≡ stored_number k h (length out.old) }
    ensures out_after { out.new ≡ stored_bytes k h vertices.now records.now (length out.old) }
{
    let format = k.format;
    if refine_pass::exceeds(k.limits, h) {
        return Err(Refusal::Exceeds);
    }
    if out.len() < stored_headers::mesh_length(format, h.vertices, h.records) {
        return Err(Refusal::TooShort);
    }
    stored_written::put_mesh(
        format,
        out,
        stored_headers::next_round(h),
        vertices,
        records,
    );
    Ok(())
}

// The passes' working memory is made here, and lent to them.
fn refined(
    h: Header,
    vertices: &mut [u8],
    records: &mut [u8],
    selection: &[u8],
    count: usize,
) -> Header
    ensures { slices result vertices.new records.new ≡ refined_within kind1 false (is_named count (named_in (selection1 selection.now))) (slices h vertices.old records.old) }
{
    let mut heads = [0u16; chains::KEYS];
    let mut nexts = [0u16; stored::WORKING_VERTICES];
    let mut chosen = [0u16; stored::RECORDS];
    refine_pass::refined(
        stored::kind_1(),
        h,
        vertices,
        records,
        &mut Links {
            heads: &mut heads,
            nexts: &mut nexts,
        },
        &mut chosen,
        selection,
        count,
    )
}

// The passes are made aside, since there may be no room for what they leave.
fn store(mesh: &[u8], h: Header, selection: &[u8], out: &mut [u8]) -> Result<(), Refusal>
    requires { Copied h (stored1 mesh.now) out.old }
    ensures value { outcome_number result ≡ later_number (stored1 mesh.now) (selection1 selection.now) (length out.old) }
    ensures out_after { out.new ≡ later_bytes (stored1 mesh.now) (selection1 selection.now) (length out.old) }
{
    let mut vertices = [0u8; stored::WORKING_VERTEX_BYTES];
    let mut records = [0u8; stored::WORKING_RECORD_BYTES];
    let k = stored::kind_1();
    let format = k.format;
    stored_written::copy_tables(format, mesh, h, &mut vertices, &mut records);
    let s = stored_selections::selection_of(format, selection);
    let with = refined(h, &mut vertices, &mut records, selection, s.count as usize);
    finish(k, with, &vertices, &records, out)
}

pub fn refine(mesh: &[u8], selection: &[u8], out: &mut [u8]) -> Result<(), Refusal>
    ensures outcome { RefineOutcomeIs (stored1 mesh.now) (selection1 selection.now) (length out.old) (outcome_number result) out.new }
    ensures edge { NamesTheEdge (stored1 mesh.now) result }
{
    out.fill(0);
    check_service::verdict(mesh)?;
    let k = stored::kind_1();
    let h = stored_headers::header_from(k.format, mesh);
    let read = Mesh {
        header: h,
        layout: stored::layout_of(k, h),
        base: mesh,
        grown: &mesh[..0],
    };
    selected(&read, selection)?;
    store(mesh, h, selection, out)
}
