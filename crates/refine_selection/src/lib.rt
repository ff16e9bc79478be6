// Refusals 11 to 17: what the selection is, whose it is, and what it names.
#![tactic(auto)]

ghost use Rattle.std.specs.Prelude.{◌≡◌, not, eqb};
ghost use Rattle.laws.specs.Order.{first_broken};
ghost use Rattle.piece.specs.Shape.{last_generation};
ghost use Rattle.stored.specs.Layout.{selection_in, named_in};
ghost use Rattle.mesh_tables.specs.Tables.{uncut};
ghost use Rattle.check_refusals.specs.Outcomes.{outcome_number};
ghost use Rattle.refine_selection.specs.Selected.{bad_number, bad_numbers, selection_rows, names_cut, names_last};
ghost use Rattle.stored_entries.specs.Mesh.{record_read};

use check_refusals::Refusal;
use stored::{Format, Header};
use stored_entries::Mesh;

#[tactic(auto, unfolding(crate::specs::Selected::bad_number))]
fn bad_number(format: Format, selection: &[u8], records: u32, count: usize, i: usize) -> bool
    ensures { result ≡ bad_number records count (named_in (selection_in format selection.now)) i }
{
    let named = stored_selections::named_in(format, selection, i);
    records <= named
        || (i < count
            && 1 < count - i
            && stored_selections::named_in(format, selection, i + 1) <= named)
}

// Refusal 15.
fn bad_numbers(format: Format, selection: &[u8], records: u32, count: usize) -> bool
    ensures { result ≡ bad_numbers records count (named_in (selection_in format selection.now)) }
{
    (0..count).any(|i| bad_number(format, selection, records, count, i))
}

// Refusals 11 to 15, tried in their order.
pub fn judged_selection(format: Format, h: Header, selection: &[u8]) -> Result<(), Refusal>
    ensures { outcome_number result ≡ first_broken (selection_rows h (selection_in format selection.now)) }
{
    if !stored_selections::right_selection_length(format, selection) {
        return Err(Refusal::WrongSelectionLength);
    }
    if !stored_selections::right_selection_mark(format, selection) {
        return Err(Refusal::WrongSelectionMark);
    }
    let s = stored_selections::selection_of(format, selection);
    if s.job != h.job {
        return Err(Refusal::AnotherJob);
    }
    if s.round != h.round {
        return Err(Refusal::AnotherRound);
    }
    if bad_numbers(format, selection, h.records, s.count as usize) {
        return Err(Refusal::BadNumbers);
    }
    Ok(())
}

fn is_cut(mesh: &Mesh, selection: &[u8], i: usize) -> bool
    ensures { result ≡ not (uncut (record_read mesh.now (named_in (selection_in mesh.now.layout.format selection.now) i))) }
{
    let n = stored_selections::named_in(mesh.layout.format, selection, i) as usize;
    !mesh_tables::is_leaf(mesh, n)
}

// Refusal 16.
pub fn names_cut(mesh: &Mesh, selection: &[u8], count: usize) -> bool
    ensures { result ≡ names_cut (record_read mesh.now) count (named_in (selection_in mesh.now.layout.format selection.now)) }
{
    (0..count).any(|i| is_cut(mesh, selection, i))
}

fn is_last(mesh: &Mesh, selection: &[u8], i: usize) -> bool
    ensures { result ≡ eqb (record_read mesh.now (named_in (selection_in mesh.now.layout.format selection.now) i)).piece.generation last_generation }
{
    let n = stored_selections::named_in(mesh.layout.format, selection, i) as usize;
    mesh.generation(n) == piece::LAST_GENERATION
}

// Refusal 17.
pub fn names_last(mesh: &Mesh, selection: &[u8], count: usize) -> bool
    ensures { result ≡ names_last (record_read mesh.now) count (named_in (selection_in mesh.now.layout.format selection.now)) }
{
    (0..count).any(|i| is_last(mesh, selection, i))
}
