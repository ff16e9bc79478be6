// The C functions of libstation.a, as docs/tmb.h declares them: each is one call of the function of that name in `station`, with its clauses.
// Kept beside `station`: C's archive is a crate of its own, and exports what it defines.
#![tactic(auto)]

ghost use Rattle.std.specs.Prelude.{length};
ghost use Rattle.stored.specs.Layout.{stored1, selection1};
ghost use Rattle.check_refusals.specs.Check.{CheckOutcomeIs};
ghost use Rattle.build_service.specs.Build.{BuildOutcomeIs};
ghost use Rattle.refine_service.specs.Refine.{RefineOutcomeIs};
ghost use Rattle.takeback_service.specs.TakeBack.{TakeBackOutcomeIs};
ghost use Rattle.list_service.specs.Listing.{ListOutcomeIs};

use check_refusals::Report;
use list_service::Listed;

#[unsafe(no_mangle)]
pub extern "C" fn tmb_check(mesh: &[u8]) -> Report
    ensures { CheckOutcomeIs (stored1 mesh.now) result }
{
    station::tmb_check(mesh)
}

#[unsafe(no_mangle)]
pub extern "C" fn tmb_build(job: u32, coordinates: &[i16], corners: &[u16], out: &mut [u8]) -> u32
    ensures { BuildOutcomeIs job coordinates.now corners.now (length out.old) result out.new }
{
    station::tmb_build(job, coordinates, corners, out)
}

#[unsafe(no_mangle)]
pub extern "C" fn tmb_refine<'a>(mesh: &'a [u8], selection: &'a [u8], out: &mut [u8]) -> u32
    ensures { RefineOutcomeIs (stored1 mesh.now) (selection1 selection.now) (length out.old) result out.new }
{
    station::tmb_refine(mesh, selection, out)
}

#[unsafe(no_mangle)]
pub extern "C" fn tmb_take_back<'a>(mesh: &'a [u8], request: &'a [u8], out: &mut [u8]) -> u32
    ensures { TakeBackOutcomeIs (stored1 mesh.now) (selection1 request.now) (length out.old) result out.new }
{
    station::tmb_take_back(mesh, request, out)
}

#[unsafe(no_mangle)]
pub extern "C" fn tmb_list(mesh: &[u8], out: &mut [u8]) -> Listed
    ensures { ListOutcomeIs mesh.now (length out.old) result out.new }
{
    station::tmb_list(mesh, out)
}
