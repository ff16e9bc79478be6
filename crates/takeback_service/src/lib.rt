// Taking cuts back: what a request names is uncut again, as far as it can be.
#![tactic(auto)]

ghost use Rattle.std.specs.Prelude.{◌≡◌, length};
ghost use Rattle.stored.specs.Layout.{kind1, stored1, selection_in, selection1, named_in};
ghost use Rattle.mesh_tables.specs.Tables.{tables_read, uncut};
ghost use Rattle.check_refusals.specs.Outcomes.{outcome_number};
ghost use Rattle.check_service.specs.Verdict.{NamesTheEdge};
ghost use Rattle.takeback_service.specs.TakeBack.{left, names_uncut, TakeBackOutcomeIs};
ghost use Rattle.takeback_service.specs.Order.{request_number, named_number, room_number, later_bytes};
ghost use Rattle.takeback_service.specs.Storing.{Ready};
ghost use Rattle.stored_entries.specs.Mesh.{record_read};

use chains::Links;
use check_refusals::Refusal;
use stored::Header;
use stored_entries::Mesh;
use takeback_remains::NewNumbers;

fn is_uncut(mesh: &Mesh, request: &[u8], i: usize) -> bool
    ensures { result ≡ uncut (record_read mesh.now (named_in (selection_in mesh.now.layout.format request.now) i)) }
{
    let n = stored_selections::named_in(mesh.layout.format, request, i) as usize;
    mesh_tables::is_leaf(mesh, n)
}

// Refusal 30.
fn names_uncut(mesh: &Mesh, request: &[u8], count: usize) -> bool
    ensures { result ≡ names_uncut (record_read mesh.now) count (named_in (selection_in mesh.now.layout.format request.now)) }
{
    (0..count).any(|i| is_uncut(mesh, request, i))
}

// Refusals 30 and 18, tried in this order.
fn named(mesh: &Mesh, request: &[u8], count: usize) -> Result<(), Refusal>
    ensures { outcome_number result ≡ named_number (tables_read mesh.now) count (named_in (selection_in mesh.now.layout.format request.now)) }
{
    if names_uncut(mesh, request, count) {
        return Err(Refusal::NamesUncut);
    }
    if mesh.header.round == stored::LAST_ROUND {
        return Err(Refusal::LastRound);
    }
    Ok(())
}

// Refusals 11 to 15, 30 and 18.
fn requested(mesh: &Mesh, request: &[u8]) -> Result<(), Refusal>
    ensures { outcome_number result ≡ request_number (tables_read mesh.now) (selection_in mesh.now.layout.format request.now) }
{
    let format = mesh.layout.format;
    refine_selection::judged_selection(format, mesh.header, request)?;
    let s = stored_selections::selection_of(format, request);
    named(mesh, request, s.count as usize)
}

// Refusal 20, or the mesh that is left, which is put together in the output buffer. Working memory is made here, and lent.
fn store(mesh: &[u8], h: Header, request: &[u8], out: &mut [u8]) -> Result<(), Refusal>
    requires { Ready h (stored1 mesh.now) out.old }
    ensures value { outcome_number result ≡ room_number kind1 (left (stored1 mesh.now) (selection1 request.now)).header (length out.old) }
    ensures out_after { out.new ≡ later_bytes (stored1 mesh.now) (selection1 request.now) (length out.old) }
{
    let mut named = [0u16; stored::RECORDS];
    let mut heads = [0u16; chains::KEYS];
    let mut nexts = [0u16; stored::VERTICES];
    let mut counts = [0u16; stored::RECORDS];
    let mut vertices = [0u32; stored::VERTICES];
    let mut records = [0u32; stored::RECORDS];
    let k = stored::kind_1();
    let format = k.format;
    let s = stored_selections::selection_of(format, request);
    refine_pass::choose_named(format, &mut named, request, s.count as usize);
    let read = Mesh {
        header: h,
        layout: stored::layout_of(k, h),
        base: mesh,
        grown: &mesh[..0],
    };
    let with = takeback_remains::remaining(
        &read,
        &named,
        &mut Links {
            heads: &mut heads,
            nexts: &mut nexts,
        },
        &mut counts,
        &mut vertices,
        &mut records,
    );
    if out.len() < stored_headers::mesh_length(format, with.vertices, with.records) {
        return Err(Refusal::TooShort);
    }
    let next = stored_headers::next_round(with);
    let numbers = NewNumbers {
        vertices: &vertices,
        records: &records,
    };
    takeback_closed::put_closed(out, next, &read, &numbers);
    Ok(())
}

pub fn take_back(mesh: &[u8], request: &[u8], out: &mut [u8]) -> Result<(), Refusal>
    ensures outcome { TakeBackOutcomeIs (stored1 mesh.now) (selection1 request.now) (length out.old) (outcome_number result) out.new }
    ensures edge { NamesTheEdge (stored1 mesh.now) result }
{
    out.fill(0);
    check_service::verdict(mesh)?;
    let k = stored::kind_1();
    let h = stored_headers::header_from(k.format, mesh);
    let read = Mesh {
        header: h,
        layout: stored::layout_of(k, h),
        base: mesh,
        grown: &mesh[..0],
    };
    requested(&read, request)?;
    store(mesh, h, request, out)
}
