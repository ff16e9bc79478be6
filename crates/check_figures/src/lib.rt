// Leaves, greatest leaf generation and summed sixfold volume of the leaves.
#![tactic(auto)]

ghost use Rattle.std.specs.Prelude.{◌≡◌, ◌%◌, ◌^◌};
ghost use Rattle.mesh_tables.specs.Tables.{tables_read, sixfold_at};
ghost use Rattle.check_refusals.specs.Check.{leaves, leaf_generation, deepest, leaf_sixfold, sixfold};
ghost use Rattle.stored_entries.specs.Mesh.{vertex_read, record_read};

use stored_entries::Mesh;

pub fn leaves_of(mesh: &Mesh) -> u64
    ensures { result ≡ leaves (tables_read mesh.now) }
{
    let count = mesh.header.records as usize;
    let mut total: u64 = 0;
    for n in 0..count {
        total += u64::from(mesh_tables::is_leaf(mesh, n));
    }
    total
}

fn leaf_generation(mesh: &Mesh, n: usize) -> u64
    ensures { result ≡ leaf_generation (record_read mesh.now n) }
{
    if mesh_tables::is_leaf(mesh, n) {
        mesh.generation(n) as u64
    } else {
        0
    }
}

pub fn deepest_of(mesh: &Mesh) -> u64
    ensures { result ≡ deepest (tables_read mesh.now) }
{
    let count = mesh.header.records as usize;
    let mut found: u64 = 0;
    for n in 0..count {
        found = found.max(leaf_generation(mesh, n));
    }
    found
}

// The sixfold volume of record n's piece. "every place that sums volumes takes the absolute value itself"
pub fn sixfold_at(mesh: &Mesh, n: usize) -> u64
    ensures { result ≡ sixfold_at (vertex_read mesh.now) (record_read mesh.now n).piece }
{
    mesh_tables::signed_between(mesh, mesh.corners(n)).unsigned_abs()
}

fn leaf_sixfold(mesh: &Mesh, n: usize) -> u64
    ensures { result ≡ leaf_sixfold (vertex_read mesh.now) (record_read mesh.now n) }
{
    if mesh_tables::is_leaf(mesh, n) {
        sixfold_at(mesh, n)
    } else {
        0
    }
}

// Modulo 2^64: no number of records is too great for it. Of a mesh that is accepted it is the sum itself, since that is its base's.
pub fn sixfold_of(mesh: &Mesh) -> u64
    ensures { result ≡ sixfold (tables_read mesh.now) % 2 ^ 64 }
{
    let count = mesh.header.records as usize;
    let mut total: u64 = 0;
    for n in 0..count {
        total = total.wrapping_add(leaf_sixfold(mesh, n));
    }
    total
}
