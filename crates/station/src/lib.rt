// The services under the names that C has for them: each is one call of a service, and nothing is decided here. `station_c` exports them.
#![tactic(auto)]

ghost use Rattle.std.specs.Prelude.{length};
ghost use Rattle.stored.specs.Layout.{stored1, selection1};
ghost use Rattle.check_refusals.specs.Check.{CheckOutcomeIs};
ghost use Rattle.build_service.specs.Build.{BuildOutcomeIs};
ghost use Rattle.refine_service.specs.Refine.{RefineOutcomeIs};
ghost use Rattle.takeback_service.specs.TakeBack.{TakeBackOutcomeIs};
ghost use Rattle.list_service.specs.Listing.{ListOutcomeIs};

use check_refusals::Report;
use list_service::Listed;

#[unsafe(no_mangle)]
pub extern "C" fn tmb_check(mesh: &[u8]) -> Report
    ensures { CheckOutcomeIs (stored1 mesh.now) result }
{
    check_service::check(mesh)
}

#[unsafe(no_mangle)]
pub extern "C" fn tmb_build(job: u32, coordinates: &[i16], corners: &[u16], out: &mut [u8]) -> u32
    ensures { BuildOutcomeIs job coordinates.now corners.now (length out.old) result out.new }
{
    check_refusals::outcome_number(build_service::build(job, coordinates, corners, out))
}

#[unsafe(no_mangle)]
pub extern "C" fn tmb_refine<'a>(mesh: &'a [u8], selection: &'a [u8], out: &mut [u8]) -> u32
    ensures { RefineOutcomeIs (stored1 mesh.now) (selection1 selection.now) (length out.old) result out.new }
{
    check_refusals::outcome_number(refine_service::refine(mesh, selection, out))
}

#[unsafe(no_mangle)]
pub extern "C" fn tmb_take_back<'a>(mesh: &'a [u8], request: &'a [u8], out: &mut [u8]) -> u32
    ensures { TakeBackOutcomeIs (stored1 mesh.now) (selection1 request.now) (length out.old) result out.new }
{
    check_refusals::outcome_number(takeback_service::take_back(mesh, request, out))
}

#[unsafe(no_mangle)]
pub extern "C" fn tmb_list(mesh: &[u8], out: &mut [u8]) -> Listed
    ensures { ListOutcomeIs mesh.now (length out.old) result out.new }
{
    list_service::list(mesh, out)
}
