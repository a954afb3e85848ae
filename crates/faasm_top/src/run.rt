//! Calls of modules.

ghost use Rattle.std.specs.Prelude.{◌≡◌, ◌≢◌, ◌≤◌, ◌++◌, None, IfOk, drop, length};
ghost use Rattle.faaslet_meaning.specs.Channels.{told_nothing};
ghost use Rattle.faaslet_meaning.specs.Decoding.{first_passed};
ghost use Rattle.faaslet_meaning.specs.Runnable.{HostImports, Runnable};
ghost use Rattle.faaslet_meaning.specs.Runs.{Runs};
ghost use Rattle.faaslet_meaning.specs.Words.{call_function};
ghost use Rattle.faasm_top.specs.FreshCall.{CanRun};

use crate::finish::{Ran, finish};
use faaslet_meaning::{Items, Outcome};
use faaslet_run::{Faaslet, Job};
use proto_faaslet::{BuildFault, Proto, room_of};
use std::alloc::{AllocError, Global};
use wasm_validate::ValidModule;

/// The pages of its own that a call may have.
const QUOTA: u32 = 64;

/// How many bytes a call may put out.
const ROOM: u32 = 65_536;

// Bytes in place of the first of others.
fn lay_front(to: &mut [u8], from: &[u8])
    requires { length from.now ≤ length to.old }
    ensures { to.new ≡ from.now ++ drop (length from.now) to.old }
{
    to[..from.len()].copy_from_slice(from);
}

/// A Faaslet with room for a call of the module, and with this input.
fn faaslet_for<'s>(
    alloc: Global,
    module: &ValidModule,
    input: &[u8],
) -> Result<Faaslet<'s>, AllocError>
    requires imports { HostImports «module».now }
    requires limits { first_passed «module».now ≡ None }
    requires few { length input.now ≤ 65536 }
    ensures { IfOk result (λ f. CanRun f «module».now input.now) }
{
    let mut faaslet = Faaslet::open(alloc, room_of(module), QUOTA)?;
    lay_front(faaslet.input_mut(), input);
    Ok(faaslet)
}

/// The one call, with an input of so many bytes.
fn job(len: u32, fuel: u64) -> Job
    ensures len { result.len ≡ len }
    ensures fuel { result.fuel ≡ fuel }
    ensures room { result.room ≡ 65536 }
{
    Job {
        call: 0,
        function: 0,
        len,
        fuel,
        room: ROOM,
    }
}

/// A call of a module with this input, from its instantiation to its end.
pub fn run(alloc: Global, module: &ValidModule, input: &[u8], fuel: u64) -> Result<Ran, AllocError>
    requires limits { first_passed «module».now ≡ None }
    requires runnable { Runnable «module».now }
    requires few { length input.now ≤ 65536 }
    ensures runs { IfOk result (λ r.
        Runs (call_function «module».now fuel) input.now told_nothing r.outcome r.output.items r.used) }
    ensures no_want { IfOk result (λ r. r.outcome ≢ Outcome.Want) }
{
    let proto = match Proto::build(alloc, module, QUOTA, fuel) {
        Ok(proto) => proto,
        Err(BuildFault::Broken(kind)) => {
            return Ok(Ran {
                outcome: Outcome::Broken(kind),
                used: 0,
                output: Vec::new(alloc),
            });
        }
        Err(BuildFault::Want) => return Err(AllocError),
    };
    let grants = Items::of(Vec::new(alloc));
    let mut faaslet = faaslet_for(alloc, module, input)?;
    faaslet.start(&proto, &grants, &[], job(input.len() as u32, fuel));
    finish(alloc, &mut faaslet)
}
