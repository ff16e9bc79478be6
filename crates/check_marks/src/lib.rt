// Refusal 6: marks that do not fit.
#![tactic(auto)]

ghost use Rattle.std.specs.Prelude.{◌≡◌, not, get_or};
ghost use Rattle.laws.specs.Below.{any_below};
ghost use Rattle.piece.specs.Shape.{mark_fits};
ghost use Rattle.mesh_tables.specs.Tables.{tables_read};
ghost use Rattle.check_refusals.specs.Refusals.{bad_marks, bad_base_marks};
ghost use Rattle.stored_entries.specs.Mesh.{record_read};

use stored_entries::Mesh;

fn bad_mark_in(edge: u8, marks: [u8; 4]) -> bool
    ensures { result ≡ any_below 4 (λ i. not (mark_fits edge (get_or marks i 0) i)) }
{
    for i in 0..4u8 {
        if !piece::mark_fits(edge, marks[i as usize], i) {
            return true;
        }
    }
    false
}

fn badly_marked(mesh: &Mesh, n: usize) -> bool
    ensures { result ≡ bad_marks (record_read mesh.now n).piece }
{
    let edge = mesh.edge(n);
    5 < edge || bad_mark_in(edge, mesh.marks(n))
}

// Refusal 6.
pub fn bad_base_marks(mesh: &Mesh) -> bool
    ensures { result ≡ bad_base_marks (tables_read mesh.now) }
{
    let count = mesh.header.base_records as usize;
    for n in 0..count {
        if badly_marked(mesh, n) {
            return true;
        }
    }
    false
}
