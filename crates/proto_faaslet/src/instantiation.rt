//! Instantiation. W3C WebAssembly Core Specification 1.0, section 4.5.4.

ghost use Rattle.std.specs.Prelude.{◌≡◌, IfOk, IfErr, None, replicate};
ghost use Rattle.faaslet_meaning.specs.Fresh.{Function, instantiated, makes};
ghost use Rattle.faaslet_meaning.specs.Program.{table_size, memory_limits, first_memory};
ghost use Rattle.faaslet_meaning.specs.Runnable.{HostImports};
ghost use Rattle.proto_faaslet.specs.Entries.{IsKept};
ghost use Rattle.proto_faaslet.specs.Instances.{
  no_pages,
  globals_of,
  store_of,
  IsFilled,
  CannotFill,
  IsOf,
  IsFault,
};

use crate::constants::global_values;
use crate::fault::BuildFault;
use crate::segments::{put_segments, segments_fit};
use crate::table::{elements_fit, put_elements};
use faaslet_meaning::{Broken, Counts, Full, Items, Limits, Linear, Module};
use std::alloc::{AllocError, Global};
use wasm_validate::ValidModule;

/// The bytes of a page.
const PAGE: u64 = 65_536;

/// The most pages of any memory.
const PAGES: u32 = 65_536;

/// What instantiation makes beside the memory.
#[derive(Debug, Drop)]
pub struct Instance {
    pub globals: Counts,
    pub table: Items<Option<u32>>,
}

/// The limits of the memory; without one it has no page.
pub fn limits_of(module: &Module) -> Limits
    ensures { result ≡ memory_limits «module».now }
{
    match module.memories.as_slice() {
        [limits, ..] => *limits,
        [] => Limits {
            min: 0,
            max: Some(0),
        },
    }
}

/// How many elements the table has; without one it has none.
pub fn elements_of(module: &Module) -> u32
    ensures { result ≡ table_size «module».now }
{
    match module.tables.as_slice() {
        [limits, ..] => limits.min,
        [] => 0,
    }
}

fn empty_table(alloc: Global, size: usize) -> Result<Vec<Option<u32>>, AllocError>
    ensures { IfOk result (λ v. v.items ≡ replicate size None) }
{
    Ok(vec![in alloc; None; size]?)
}

/// Writes the elements and the segments, where all fit.
fn fill<M: Linear>(
    alloc: Global,
    module: &Module,
    globals: Vec<u64>,
    memory: &mut M,
) -> Result<Instance, BuildFault>
    requires globals { globals.items ≡ globals_of «module».now.globals }
    requires first { M.memory memory.old ≡ first_memory «module».now (M.memory memory.old).quota }
    ensures filled { IfOk result (λ i. IsFilled «module».now (M.memory memory.old).quota i (M.memory memory.new)) }
    ensures cannot { IfErr result (CannotFill «module».now) }
{
    let elements = module.elements.as_slice();
    let segments = module.segments.as_slice();
    let mut table = empty_table(alloc, elements_of(module) as usize)?;
    let size = u64::from(memory.pages()) * PAGE;
    if !elements_fit(&globals, elements, table.len()) || !segments_fit(&globals, segments, size) {
        return Err(BuildFault::Broken(Broken::Segment));
    }
    put_elements(&mut table, &globals, elements);
    put_segments(memory, &globals, segments);
    Ok(Instance {
        globals: Items::of(globals),
        table: Items::of(table),
    })
}

/// Instantiates the module in a memory without a page, by its quota, or says how the function is broken.
pub fn instantiate<M: Linear>(
    alloc: Global,
    module: &ValidModule,
    memory: &mut M,
) -> Result<Instance, BuildFault>
    requires imports { HostImports «module».now }
    requires empty { M.memory memory.old ≡ no_pages (M.memory memory.old).quota }
    ensures made { IfOk result (λ i. (f : Function) → IsOf f «module».now (M.memory memory.old).quota
        → instantiated f ≡ makes (store_of i (M.memory memory.new))) }
    ensures kept { IfOk result (λ i. IsKept «module».now (M.memory memory.old).quota (store_of i (M.memory memory.new))) }
    ensures broken { IfErr result (λ e. (f : Function) → IsOf f «module».now (M.memory memory.old).quota
        → IsFault e (instantiated f)) }
{
    let module = module.module();
    let pages = limits_of(module).min;
    match memory.grow(pages, PAGES) {
        Ok(_) => {
            let globals = global_values(alloc, module.globals.as_slice())?;
            fill(alloc, module, globals, memory)
        }
        Err(Full) => Err(BuildFault::Broken(Broken::Quota)),
    }
}
