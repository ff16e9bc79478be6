// Check: judges a stored mesh.
#![tactic(auto)]

ghost use Rattle.std.specs.Prelude.{◌≡◌, ◌^◌, ◌<◌, length};
ghost use Rattle.laws.specs.Links.{Empty};
ghost use Rattle.stored.specs.Layout.{limits, stored1};
ghost use Rattle.mesh_tables.specs.Tables.{tables_read};
ghost use Rattle.check_refusals.specs.Refusals.{wrong_counts};
ghost use Rattle.check_refusals.specs.Check.{sixfold, accepted, CheckOutcomeIs};
ghost use Rattle.check_refusals.specs.Outcomes.{outcome_number, outcome_report};
ghost use Rattle.check_refusals.specs.Bounded.{Bounded};
ghost use Rattle.check_refusals.specs.Lent.{LinksFit, LentToBase, LentToCuts};
ghost use Rattle.check_hanging.specs.Hanging.{found_of, reported};
ghost use Rattle.check_service.specs.Verdict.{VerdictIs};
ghost use Rattle.check_service.specs.Order.{base_number, cuts_report, judged_report};

use chains::Links;
use check_refusals::{Refusal, Report};
use stored::{Header, Limits};
use stored_entries::Mesh;

// Refusal 3.
fn wrong_counts(most: Limits, h: Header) -> bool
    ensures { result ≡ wrong_counts most h }
{
    most.vertices < h.vertices
        || most.records < h.records
        || most.base_records < h.base_records
        || h.base_vertices < 4
        || h.base_records < 1
        || h.vertices < h.base_vertices
        || h.records < h.base_records
}

// Refusal 10.
fn closed(mesh: &Mesh, heads: &mut [u16], links: &mut [u16]) -> Result<(), Refusal>
    requires { LinksFit (length heads.old) (length links.old) mesh.now.header.vertices }
    ensures { outcome_report result ≡ reported (found_of (tables_read mesh.now)) }
{
    match check_hanging::first_hanging(
        mesh,
        &mut Links {
            heads,
            nexts: links,
        },
    ) {
        Some(hanging) => Err(Refusal::HangingEdge(hanging.record, hanging.edge)),
        None => Ok(()),
    }
}

// Refusals 4, 5, 22, 6, 7, 8 and 23, of the vertices and the base, tried in this order.
// Kept slices: two tables of heads use one list of links in turn, so neither pair is a value of its own here.
fn judged_base(
    mesh: &Mesh,
    heads: &mut [u16],
    face_heads: &mut [u16],
    links: &mut [u16],
    uses: &mut [u16],
) -> Result<(), Refusal>
    requires lent_to_base { LentToBase mesh.now.header (length heads.old) (length face_heads.old) (length links.old) (length uses.old) }
    requires heads_empty { Empty heads.old }
    requires face_heads_empty { Empty face_heads.old }
    ensures { outcome_number result ≡ base_number (tables_read mesh.now) }
{
    if check_places::bad_vertices(
        mesh,
        &mut Links {
            heads,
            nexts: links,
        },
    ) {
        return Err(Refusal::BadVertices);
    }
    check_pieces::judged_pieces(mesh)?;
    if check_marks::bad_base_marks(mesh) {
        return Err(Refusal::BadBaseMarks);
    }
    if check_faces::bad_base_faces(
        mesh,
        &mut Links {
            heads: face_heads,
            nexts: links,
        },
    ) {
        return Err(Refusal::BadBaseFaces);
    }
    if check_uses::unused_vertices(mesh, uses) {
        return Err(Refusal::UnusedVertices);
    }
    if check_inside::hanging_vertices(
        mesh,
        &mut Links {
            heads,
            nexts: links,
        },
    ) {
        return Err(Refusal::HangingVertices);
    }
    Ok(())
}

// Refusals 9 and 10, of the cuts, tried in their order.
fn judged_cuts(
    mesh: &Mesh,
    heads: &mut [u16],
    links: &mut [u16],
    children: &mut [u16],
    midpoints: &mut [u16],
) -> Result<(), Refusal>
    requires { LentToCuts mesh.now.header (length heads.old) (length links.old) (length children.old) (length midpoints.old) }
    ensures { outcome_report result ≡ cuts_report (tables_read mesh.now) }
{
    if check_children::bad_cuts(
        mesh,
        &mut Links {
            heads,
            nexts: links,
        },
        children,
        midpoints,
    ) {
        return Err(Refusal::BadCuts);
    }
    closed(mesh, heads, links)
}

// Refusals 4 to 10, 22 and 23. Each vertex has one count, of its uses and then of the edges that it halves.
fn judged_with(
    mesh: &Mesh,
    heads: &mut [u16],
    face_heads: &mut [u16],
    links: &mut [u16],
    uses: &mut [u16],
    children: &mut [u16],
) -> Result<(), Refusal>
    requires lent_to_base { LentToBase mesh.now.header (length heads.old) (length face_heads.old) (length links.old) (length uses.old) }
    requires heads_empty { Empty heads.old }
    requires face_heads_empty { Empty face_heads.old }
    requires lent_to_cuts { LentToCuts mesh.now.header (length heads.old) (length links.old) (length children.old) (length uses.old) }
    ensures { outcome_report result ≡ judged_report (tables_read mesh.now) }
{
    judged_base(mesh, heads, face_heads, links, uses)?;
    judged_cuts(mesh, heads, links, children, uses)
}

// The working memory of all rules is made here, and lent to them.
fn judged(mesh: &Mesh) -> Result<(), Refusal>
    requires { Bounded limits mesh.now.header }
    ensures { outcome_report result ≡ judged_report (tables_read mesh.now) }
{
    let mut heads = [0u16; chains::KEYS];
    let mut face_heads = [0u16; chains::FACE_KEYS];
    let mut links = [0u16; check_faces::FACES];
    // "one count for each of the 1,024 possible vertices"
    let mut uses = [0u16; stored::VERTICES];
    let mut children = [0u16; stored::RECORDS];
    judged_with(
        mesh,
        &mut heads,
        &mut face_heads,
        &mut links,
        &mut uses,
        &mut children,
    )
}

// Check's answer without the figures.
pub fn verdict(mesh: &[u8]) -> Result<(), Refusal>
    ensures { VerdictIs (stored1 mesh.now) (outcome_report result) }
{
    let kind = stored::kind_1();
    let nothing = &mesh[..0];
    if !stored_headers::right_length(kind, mesh, nothing) {
        return Err(Refusal::WrongLength);
    }
    if !stored_headers::right_mark(kind.format, mesh) {
        return Err(Refusal::WrongMark);
    }
    let header = stored_headers::header_from(kind.format, mesh);
    if wrong_counts(kind.limits, header) {
        return Err(Refusal::WrongCounts);
    }
    judged(&Mesh {
        header,
        layout: stored::layout_of(kind, header),
        base: mesh,
        grown: nothing,
    })
}

// What the tables are accepted with: a u64 holds the sum of their leaves' volumes, which is their base's.
fn accepted_with(mesh: &Mesh) -> Report
    requires { sixfold (tables_read mesh.now) < 2 ^ 64 }
    ensures { result ≡ accepted (tables_read mesh.now) }
{
    Report {
        number: 0,
        leaves: check_figures::leaves_of(mesh),
        deepest: check_figures::deepest_of(mesh),
        sixfold: check_figures::sixfold_of(mesh),
        record: 0,
        edge: 0,
    }
}

pub fn check(mesh: &[u8]) -> Report
    ensures { CheckOutcomeIs (stored1 mesh.now) result }
{
    if let Err(refusal) = verdict(mesh) {
        return check_refusals::outcome_report(Err(refusal));
    }
    let kind = stored::kind_1();
    let header = stored_headers::header_from(kind.format, mesh);
    accepted_with(&Mesh {
        header,
        layout: stored::layout_of(kind, header),
        base: mesh,
        grown: &mesh[..0],
    })
}
