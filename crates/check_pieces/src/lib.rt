// Refusal 5: base records that are no pieces; refusal 22: those that are left-handed.
#![tactic(auto)]

ghost use Rattle.std.specs.Prelude.{◌≡◌};
ghost use Rattle.mesh_tables.specs.Tables.{tables_read};
ghost use Rattle.check_refusals.specs.Refusals.{equal_corners, corner_not_in_base, bad_corners};
ghost use Rattle.check_refusals.specs.Outcomes.{outcome_number};
ghost use Rattle.check_pieces.specs.Pieces.{record_number, pieces_number};

use check_refusals::Refusal;
use stored_entries::Mesh;

// The ends of the six edges, one edge after the other.
fn equal_corners(corners: [u32; 4]) -> bool
    ensures { result ≡ equal_corners corners }
{
    let a = corners[0];
    let b = corners[1];
    let c = corners[2];
    let d = corners[3];
    if a == b {
        return true;
    }
    if a == c {
        return true;
    }
    if a == d {
        return true;
    }
    if b == c {
        return true;
    }
    if b == d {
        return true;
    }
    c == d
}

fn corner_not_in_base(count: u32, corners: [u32; 4]) -> bool
    ensures { result ≡ corner_not_in_base count corners }
{
    for k in 0..4usize {
        if count <= corners[k] {
            return true;
        }
    }
    false
}

// Of a base with so many vertices.
pub fn bad_corners(count: u32, corners: [u32; 4]) -> bool
    ensures { result ≡ bad_corners count corners }
{
    if equal_corners(corners) {
        return true;
    }
    corner_not_in_base(count, corners)
}

// Refusals 5 and 22 of record n, tried in this order: both look at the signed determinant.
fn judged_record(mesh: &Mesh, n: usize) -> Result<(), Refusal>
    ensures { outcome_number result ≡ record_number (tables_read mesh.now) n }
{
    let corners = mesh.corners(n);
    if bad_corners(mesh.header.base_vertices, corners) {
        return Err(Refusal::BadBaseRecords);
    }
    let signed = mesh_tables::signed_between(mesh, corners);
    if grid_volume::is_flat(signed) {
        return Err(Refusal::BadBaseRecords);
    }
    if mesh.generation(n) != 0 {
        return Err(Refusal::BadBaseRecords);
    }
    if mesh.flag(n) != 0 {
        return Err(Refusal::BadBaseRecords);
    }
    if grid_volume::is_negative(signed) {
        return Err(Refusal::LeftHandedRecords);
    }
    Ok(())
}

// Refusals 5 and 22, tried in this order: a bad record anywhere is 5.
pub fn judged_pieces(mesh: &Mesh) -> Result<(), Refusal>
    ensures { outcome_number result ≡ pieces_number (tables_read mesh.now) }
{
    let mut found = Ok(());
    for n in 0..mesh.header.base_records as usize {
        match judged_record(mesh, n) {
            Ok(()) => {}
            Err(refusal) => match refusal {
                Refusal::BadBaseRecords => return Err(refusal),
                _ => found = Err(refusal),
            },
        }
    }
    found
}
