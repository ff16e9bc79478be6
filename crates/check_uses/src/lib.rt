// Refusal 8: a table with one count for each possible vertex, filled from the base records and then read.
#![tactic(auto)]

ghost use Rattle.std.specs.Prelude.{◌≡◌, ◌||◌, eqb, ltb, length, get_or};
ghost use Rattle.laws.specs.Below.{any_below};
ghost use Rattle.laws.specs.Counts.{counts_below};
ghost use Rattle.mesh_tables.specs.Tables.{tables_read};
ghost use Rattle.check_refusals.specs.Refusals.{unused_vertices};
ghost use Rattle.check_uses.specs.Uses.{used_by};
ghost use Rattle.stored_entries.specs.Mesh.{record_read};

use stored_entries::Mesh;

// One use more of each of a piece's four corners, if the table has it.
fn count_corners(uses: &mut [u16], corners: [u32; 4])
    ensures { uses.new ≡ used_by uses.old corners }
{
    chains::count(uses, corners[0] as usize);
    chains::count(uses, corners[1] as usize);
    chains::count(uses, corners[2] as usize);
    chains::count(uses, corners[3] as usize);
}

fn count_record(uses: &mut [u16], mesh: &Mesh, n: usize)
    ensures { uses.new ≡ used_by uses.old (record_read mesh.now n).piece.corners }
{
    count_corners(uses, mesh.corners(n));
}

fn count_records(uses: &mut [u16], mesh: &Mesh, count: usize)
    ensures { uses.new ≡ counts_below (λ t n. used_by t (record_read mesh.now n).piece.corners) uses.old count }
{
    for n in 0..count {
        count_record(uses, mesh, n);
    }
}

// Whether the table has a vertex below count that was never counted.
fn any_unused(uses: &[u16], count: usize) -> bool
    ensures { result ≡ any_below count (λ v. eqb (get_or uses.now v 0) 0) }
{
    for v in 0..count {
        if chains::at(uses, v) == 0 {
            return true;
        }
    }
    false
}

// "one count for each of the 1,024 possible vertices": the table is lent by the service, as [0; 1024]. One with no place for some vertex refuses.
pub fn unused_vertices(mesh: &Mesh, uses: &mut [u16]) -> bool
    ensures { result ≡ (ltb (length uses.old) mesh.now.header.base_vertices || unused_vertices (tables_read mesh.now)) }
{
    if uses.len() < mesh.header.base_vertices as usize {
        return true;
    }
    uses.fill(0);
    count_records(uses, mesh, mesh.header.base_records as usize);
    any_unused(uses, mesh.header.base_vertices as usize)
}
