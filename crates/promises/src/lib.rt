// What the user asked, as contracts: for each C function of `station` one function that calls it and ensures the demands of its answer, for every input
// and with no hypothesis left. Nothing here is linked.
#![tactic(auto)]

ghost use Rattle.std.specs.Prelude.{length};
ghost use Rattle.stored.specs.Layout.{stored1, selection1};
ghost use Rattle.promises.specs.Promises.{EachI16, CheckPromise, BuildPromise, RefinePromise, ListPromise};
ghost use Rattle.promises.specs.TakeBack.{TakeBackPromise};

use check_refusals::Report;
use list_service::Listed;

pub fn check(mesh: &[u8]) -> Report
    ensures { CheckPromise (stored1 mesh.now) result }
{
    station::tmb_check(mesh)
}

// That a slice of i16 holds such numbers is learnt where each is read.
fn are_i16(coordinates: &[i16])
    ensures { EachI16 coordinates.now }
{
    for i in 0..coordinates.len() {
        let read = coordinates[i];
    }
}

pub fn build(job: u32, coordinates: &[i16], corners: &[u16], out: &mut [u8]) -> u32
    ensures { BuildPromise job coordinates.now corners.now (length out.old) result out.new }
{
    are_i16(coordinates);
    station::tmb_build(job, coordinates, corners, out)
}

pub fn refine<'a>(mesh: &'a [u8], selection: &'a [u8], out: &mut [u8]) -> u32
    ensures { RefinePromise (stored1 mesh.now) (selection1 selection.now) (length out.old) result out.new }
{
    station::tmb_refine(mesh, selection, out)
}

pub fn take_back<'a>(mesh: &'a [u8], request: &'a [u8], out: &mut [u8]) -> u32
    ensures { TakeBackPromise (stored1 mesh.now) (selection1 request.now) (length out.old) result out.new }
{
    station::tmb_take_back(mesh, request, out)
}

pub fn list(mesh: &[u8], out: &mut [u8]) -> Listed
    ensures { ListPromise mesh.now (length out.old) result out.new }
{
    station::tmb_list(mesh, out)
}
