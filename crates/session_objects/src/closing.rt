//! A session's objects are closed, each with its whole list.
ghost use Rattle.std.specs.Prelude.{◌≡◌, ◌+◌, ◌*◌, ◌++◌, ◌≤◌, ◌∷◌, [], length, map, reverse};
ghost use Rattle.std.specs.Vec.{vec_capacity};
ghost use Rattle.region_tier.specs.Tiers.{AreClosed, AreRows, cells_of, numbers_in};
ghost use Rattle.turn_cell.specs.History.{Each};
ghost use Rattle.session_objects.specs.Ended.{AreEnded};
ghost use Rattle.session_objects.specs.Lists.{globals_of, locals_of, tables_of};
ghost use Rattle.session_objects.specs.Parts.{AreBack, AreFor, Closes};
ghost use Rattle.session_objects.specs.Rests.{AreDealt, EndsOf, Keeps};

use crate::columns::Columns;
use crate::hosts::HostRest;
use crate::numbers::bench_each;
use crate::objects::{Closed, Closing, Objects, SessionPasses};
use crate::shift::shift;
use call_table::CallTable;
use grant_registry::Registry;
use region_tier::{Passes, Tier};
use shared_region::Region;
use turn_cell::{Pass, Seen};

type Ends = Vec<(Region, Seen<Region>)>;

/// Takes all passes back, in the order in which they came, and gives the regions and the table, each with its whole
/// list. Takes no memory but what the session was opened with.
pub fn close(
    registry: &Registry,
    objects: Objects,
    closing: Closing,
    passes: SessionPasses,
) -> Closed
    requires objects { AreFor registry.now objects }
    requires closing { Closes registry.now objects closing }
    requires passes { AreBack registry.now objects passes }
    ensures { AreEnded registry.now objects passes result }
{
    let Closing {
        rests,
        globals: room,
        mut columns,
        ends,
    } = closing;
    take_back(&mut columns, passes);
    let Columns {
        locals,
        globals,
        table,
    } = columns;
    let Objects {
        locals: tiers,
        globals: shared,
        table: turns,
    } = objects;
    let each = bench_each(registry) as usize;
    Closed {
        locals: close_hosts(tiers, rests, locals, ends, each),
        globals: shared.close(room, globals),
        table: turns.close(table),
    }
}

// The passes of each bench, worker and of the session, in the order of their numbers.
fn take_back(columns: &mut Columns, passes: SessionPasses)
    requires emptied { (columns.old.locals.items ≡ []) × (columns.old.globals.items ≡ []) × (columns.old.table.items ≡ []) }
    requires locals { length passes.benches.items ≤ vec_capacity columns.old.locals }
    requires globals { length passes.benches.items ≤ vec_capacity columns.old.globals }
    requires table { length passes.benches.items + length passes.workers.items + 1 ≤ vec_capacity columns.old.table }
    ensures locals { columns.new.locals.items ≡ locals_of passes.benches.items }
    ensures globals { columns.new.globals.items ≡ globals_of passes.benches.items }
    ensures table { columns.new.table.items ≡ tables_of passes.benches.items ++ passes.workers.items ++ passes.session ∷ [] }
{
    let SessionPasses {
        benches,
        mut workers,
        session,
    } = passes;
    columns.table.push_reserved(session);
    shift(&mut workers, &mut columns.table, 0);
    columns.unzip(benches);
    columns.turn();
}

// The passes of a host's own benches go between those of the others, and its tier closes.
fn close_host(tier: Tier, rest: HostRest, locals: &mut Vec<Passes>, from: usize) -> Ends
    requires order { from ≤ length locals.old.items }
    requires rest { Keeps tier from (length locals.old.items) rest }
    requires rows { Each locals.old.items (λ b row. from ≤ b → IsRowOf tier b row) }
    ensures locals { (own : _) × (locals.old.items ≡ locals.new.items ++ own) × (length locals.new.items ≡ from) × EndsOf tier from own result.items }
{
    let HostRest {
        room,
        mut front,
        mut behind,
    } = rest;
    shift(locals, &mut behind, from);
    shift(&mut behind, &mut front, 0);
    tier.close(room, front)
}

ghost use Rattle.session_objects.specs.Rests.{EndHosts, IsRowOf};

fn close_hosts(
    mut tiers: Vec<Tier>,
    mut rests: Vec<HostRest>,
    mut locals: Vec<Passes>,
    mut ends: Vec<Ends>,
    many: usize,
) -> Vec<Ends>
    requires rests { AreDealt tiers.items many 0 rests.items }
    requires count { length locals.items ≡ length tiers.items * many }
    requires rows { Each tiers.items (λ h tier. Each locals.items (λ b row. h * many ≤ b → b + 1 ≤ h * many + many → IsRowOf tier b row)) }
    requires room { (ends.items ≡ []) × (length tiers.items ≤ vec_capacity ends) }
    ensures { EndHosts tiers.items many locals.items (map (λ v. v.items) result.items) }
{
    while let Some(tier) = tiers.pop() {
        let Some(rest) = rests.pop() else {
            unreachable!()
        };
        let from = tiers.len() * many;
        ends.push_reserved(close_host(tier, rest, &mut locals, from));
    }
    tiers.destroy_empty();
    rests.destroy_empty();
    ends.reverse();
    ends
}
