//! A session's objects are opened, with all passes.
ghost use Rattle.std.specs.Prelude.{◌≡◌, ◌+◌, ◌<◌, ◌≤◌, ◌++◌, ◌∷◌, [], IfOk, length};
ghost use Rattle.std.specs.Vec.{vec_capacity};
ghost use Rattle.call_table.specs.Session.{empty_session};
ghost use Rattle.region_tier.specs.Tiers.{AreFreshRows, IsRoomOf, cells_of};
ghost use Rattle.turn_cell.specs.Cell.{AreFresh, numbers_of, start_of};
ghost use Rattle.turn_cell.specs.History.{Each};
ghost use Rattle.session_objects.specs.Parts.{IsGlobal, IsOpened, IsWhole};
ghost use Rattle.session_objects.specs.Rests.{IsFreshPass};
ghost use Rattle.session_objects.specs.Shape.{benches, callables_in, makers, values, workers};

use crate::columns::{BenchPasses, Columns};
use crate::hosts::{HostRest, deal_hosts, end_hosts, open_hosts};
use crate::lists::{callables, key_sizes, key_values};
use crate::numbers::{bench_count, bench_each, worker_count};
use crate::objects::{Closing, Objects, Opened, SessionPasses};
use crate::shift::shift;
use call_table::CallTable;
use grant_registry::Registry;
use region_tier::{Passes, Tier, TierRoom};
use shared_region::Region;
use std::alloc::{AllocError, Global};
use turn_cell::{Pass, Seen, Turns};

// Memory for what is dealt out and for what comes back.
#[derive(Drop)]
pub(crate) struct Memory {
    benches: Vec<BenchPasses>,
    locals: Vec<Passes>,
    workers: Vec<Pass<CallTable>>,
    ends: Vec<Vec<(Region, Seen<Region>)>>,
}

// All that is opened, before the passes are dealt out.
pub(crate) struct Whole {
    pub objects: Objects,
    pub rests: Vec<HostRest>,
    pub globals: TierRoom,
    pub rows: Vec<Passes>,
    pub column: Vec<Pass<CallTable>>,
}

/// Opens the replicas of each host and the global values, one for each key of the registry, and the call table without
/// records, with the passes of all benches, of all workers and of the session. `Err` is for want of memory alone, and
/// leaves nothing behind.
pub fn open(alloc: Global, registry: &Registry) -> Result<Opened, AllocError>
    ensures { IfOk result (IsOpened registry.now) }
{
    let memory = set_aside(alloc, registry)?;
    let whole = open_all(alloc, registry)?;
    Ok(deal(registry, whole, memory))
}

fn set_aside(alloc: Global, registry: &Registry) -> Result<Memory, AllocError>
    ensures benches { IfOk result (λ m. (m.benches.items ≡ []) × (benches registry.now ≤ vec_capacity m.benches)) }
    ensures locals { IfOk result (λ m. (m.locals.items ≡ []) × (benches registry.now ≤ vec_capacity m.locals)) }
    ensures workers { IfOk result (λ m. (m.workers.items ≡ []) × (workers registry.now ≤ vec_capacity m.workers)) }
    ensures ends { IfOk result (λ m. (m.ends.items ≡ []) × (registry.now.hosts ≤ vec_capacity m.ends)) }
{
    let benches = bench_count(registry) as usize;
    Ok(Memory {
        benches: Vec::with_capacity(alloc, benches)?,
        locals: Vec::with_capacity(alloc, benches)?,
        workers: Vec::with_capacity(alloc, worker_count(registry) as usize)?,
        ends: Vec::with_capacity(alloc, registry.hosts() as usize)?,
    })
}

fn open_globals(
    alloc: Global,
    registry: &Registry,
) -> Result<(Tier, TierRoom, Vec<Passes>), AllocError>
    ensures tier { IfOk result (λ r. IsGlobal (values registry.now) (benches registry.now) r.0) }
    ensures room { IfOk result (λ r. IsRoomOf r.1 r.0) }
    ensures passes { IfOk result (λ r. AreFreshRows (cells_of r.0) (benches registry.now) r.2.items) }
    ensures rows_room { IfOk result (λ r. benches registry.now ≤ vec_capacity r.2) }
{
    let values = key_values(alloc, registry)?;
    Tier::global(alloc, &values, bench_count(registry))
}

fn open_table(
    alloc: Global,
    registry: &Registry,
) -> Result<(Turns<CallTable>, Vec<Pass<CallTable>>), AllocError>
    ensures table { IfOk result (λ r. start_of r.0 ≡ empty_session registry.now.hosts (callables_in registry.now) registry.now.workers (length registry.now.requests)) }
    ensures numbered { IfOk result (λ r. numbers_of r.0 ≡ makers registry.now) }
    ensures passes { IfOk result (λ r. (length r.1.items ≡ makers registry.now) × AreFresh r.1.items r.0) }
    ensures column_room { IfOk result (λ r. makers registry.now ≤ vec_capacity r.1) }
{
    let hosts = registry.hosts();
    let functions = callables(alloc, registry)?;
    let workers = registry.workers();
    let table = CallTable::new(alloc, &functions, hosts, workers, registry.requests())?;
    let makers = bench_count(registry) + worker_count(registry) + 1;
    match Turns::open(alloc, table, makers) {
        Ok(opened) => Ok(opened),
        Err(_) => Err(AllocError),
    }
}

fn open_all(alloc: Global, registry: &Registry) -> Result<Whole, AllocError>
    ensures { IfOk result (IsWhole registry.now) }
{
    let sizes = key_sizes(alloc, registry)?;
    let (locals, rests) = open_hosts(alloc, &sizes, registry.hosts(), bench_count(registry))?;
    open_shared(alloc, registry, locals, rests)
}

fn open_shared(
    alloc: Global,
    registry: &Registry,
    locals: Vec<Tier>,
    rests: Vec<HostRest>,
) -> Result<Whole, AllocError>
    requires count { length locals.items ≡ registry.now.hosts }
    requires locals { Each locals.items (λ h tier. IsLocal (sizes registry.now) (benches registry.now) tier) }
    requires rests { AreWhole locals.items rests.items }
    ensures { IfOk result (IsWhole registry.now) }
{
    let Ok((globals, room, rows)) = open_globals(alloc, registry) else {
        end_hosts(locals, rests);
        return Err(AllocError);
    };
    let Ok((table, column)) = open_table(alloc, registry) else {
        globals.close(room, rows);
        end_hosts(locals, rests);
        return Err(AllocError);
    };
    let objects = Objects {
        locals,
        globals,
        table,
    };
    Ok(Whole {
        objects,
        rests,
        globals: room,
        rows,
        column,
    })
}

ghost use Rattle.session_objects.specs.Rests.{AreWhole, IsLocal};
ghost use Rattle.session_objects.specs.Shape.{sizes};

// The passes of the session and of the workers come off the end; those of the benches stay.
fn deal_table(
    column: &mut Vec<Pass<CallTable>>,
    mut workers: Vec<Pass<CallTable>>,
    benches: usize,
) -> (Vec<Pass<CallTable>>, Pass<CallTable>)
    requires some { benches < length column.old.items }
    requires room { (workers.items ≡ []) × (length column.old.items ≤ vec_capacity workers + benches + 1) }
    ensures whole { column.old.items ≡ column.new.items ++ result.0.items ++ result.1 ∷ [] }
    ensures count { length column.new.items ≡ benches }
    ensures same { vec_capacity column.new ≡ vec_capacity column.old }
{
    let Some(session) = column.pop() else {
        unreachable!()
    };
    shift(column, &mut workers, benches);
    workers.reverse();
    (workers, session)
}

fn deal(registry: &Registry, whole: Whole, memory: Memory) -> Opened
    requires whole { IsWhole registry.now whole }
    requires benches { (memory.benches.items ≡ []) × (benches registry.now ≤ vec_capacity memory.benches) }
    requires locals { (memory.locals.items ≡ []) × (benches registry.now ≤ vec_capacity memory.locals) }
    requires workers { (memory.workers.items ≡ []) × (workers registry.now ≤ vec_capacity memory.workers) }
    requires ends { (memory.ends.items ≡ []) × (registry.now.hosts ≤ vec_capacity memory.ends) }
    ensures { IsOpened registry.now result }
{
    let Whole {
        objects,
        mut rests,
        globals,
        rows,
        mut column,
    } = whole;
    let Memory {
        benches,
        locals,
        workers,
        ends,
    } = memory;
    let count = bench_count(registry);
    let each = bench_each(registry) as usize;
    let (workers, session) = deal_table(&mut column, workers, count as usize);
    let locals = deal_hosts(&objects.locals, &mut rests, locals, each, count);
    let mut columns = Columns {
        locals,
        globals: rows,
        table: column,
    };
    let benches = columns.zip(benches);
    Opened {
        objects,
        passes: SessionPasses {
            benches,
            workers,
            session,
        },
        closing: Closing {
            rests,
            globals,
            columns,
            ends,
        },
    }
}
