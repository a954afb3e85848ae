//! An operation in a turn of one cell, until nobody blocks it.
ghost use Rattle.std.specs.Prelude.{◌≡◌, ◌<◌, IfSome, IfNone, Some, length};
ghost use Rattle.faaslet_meaning.specs.Asks.{reply_of};
ghost use Rattle.faaslet_meaning.specs.Channels.{Reply};
ghost use Rattle.faaslet_meaning.specs.Spelling.{spelled};
ghost use Rattle.shared_region.specs.Operations.{operation_of, laid};
ghost use Rattle.turn_cell.specs.Cell.{IsPassOf, pass_list, pass_number, start_of, numbers_of};
ghost use Rattle.turn_cell.specs.History.{Extends, MakersBelow};
ghost use Rattle.region_tier.specs.Holding.{has_lock, LocksInTurn};
ghost use Rattle.region_tier.specs.Opened.{IsOpened, InRange};
ghost use Rattle.region_tier.specs.Answered.{Answered, Told};

use faaslet_meaning::{RegionOp, Reply};
use shared_region::Region;
use std::marker::Brand;
use std::sync::Wait;
use turn_cell::{Named, Pass, Turns};

// One turn: the operation with its entry, or nothing where somebody blocks it.
fn attempt<E: Named, R: Wait>(
    rt: &R,
    cell: &Turns<Region>,
    pass: Pass<Region>,
    op: &RegionOp,
    scratch: &mut [u8],
) -> (Pass<Region>, Option<Reply>)
    requires entry { E.entry ≡ spelled (operation_of op.now) }
    requires cell { IsPassOf pass cell.now }
    requires number { pass_number pass < numbers_of cell.now }
    requires opened { IsOpened cell.now }
    requires range { InRange (start_of cell.now) op.now (length scratch.old) }
    requires locks { LocksInTurn (operation_of op.now) (has_lock (pass_number pass) (pass_list pass)) }
    ensures cell { IsPassOf result.0 cell.now × (pass_number result.0 ≡ pass_number pass) }
    ensures makers { MakersBelow (numbers_of cell.now) (pass_list result.0) }
    ensures blocked { IfNone result.1 (Extends (pass_number pass) (pass_list pass) (pass_list result.0) × (scratch.new ≡ scratch.old)) }
    ensures answered { IfSome result.1 (λ r. Told (start_of cell.now) (pass_number pass) (operation_of op.now) (pass_list pass) (pass_list result.0) r scratch.old scratch.new) }
{
    let maker = pass.number();
    let mut held = cell.take(rt, pass);
    match held.value_mut().apply(maker, op, scratch) {
        Ok(reply) => (cell.give::<E>(held), Some(reply)),
        Err(_) => (cell.give_back(held), None),
    }
}

fn access_named<E: Named, R: Wait>(
    rt: &R,
    cell: &Turns<Region>,
    pass: Pass<Region>,
    op: &RegionOp,
    scratch: &mut [u8],
) -> (Pass<Region>, Reply)
    requires entry { E.entry ≡ spelled (operation_of op.now) }
    requires cell { IsPassOf pass cell.now }
    requires number { pass_number pass < numbers_of cell.now }
    requires opened { IsOpened cell.now }
    requires range { InRange (start_of cell.now) op.now (length scratch.old) }
    requires locks { LocksInTurn (operation_of op.now) (has_lock (pass_number pass) (pass_list pass)) }
    ensures cell { IsPassOf result.0 cell.now × (pass_number result.0 ≡ pass_number pass) }
    ensures makers { MakersBelow (numbers_of cell.now) (pass_list result.0) }
    ensures answered { Told (start_of cell.now) (pass_number pass) (operation_of op.now) (pass_list pass) (pass_list result.0) result.1 scratch.old scratch.new }
{
    let mut pass = pass;
    for _ in rt.forever() {
        let (next, reply) = attempt::<E, R>(rt, cell, pass, op, scratch);
        pass = next;
        if let Some(reply) = reply {
            return (pass, reply);
        }
    }
    unreachable!()
}

// Takes turns until nobody blocks the operation, and makes it with its entry. A turn in which it is blocked leaves no
// entry. It does not return while another maker keeps a lock that blocks it.
pub(crate) fn access_cell<R: Wait>(
    rt: &R,
    cell: &Turns<Region>,
    pass: Pass<Region>,
    op: &RegionOp,
    scratch: &mut [u8],
) -> (Pass<Region>, Reply)
    requires cell { IsPassOf pass cell.now }
    requires number { pass_number pass < numbers_of cell.now }
    requires opened { IsOpened cell.now }
    requires range { InRange (start_of cell.now) op.now (length scratch.old) }
    requires locks { LocksInTurn (operation_of op.now) (has_lock (pass_number pass) (pass_list pass)) }
    ensures cell { IsPassOf result.0 cell.now × (pass_number result.0 ≡ pass_number pass) }
    ensures makers { MakersBelow (numbers_of cell.now) (pass_list result.0) }
    ensures answered { Told (start_of cell.now) (pass_number pass) (operation_of op.now) (pass_list pass) (pass_list result.0) result.1 scratch.old scratch.new }
{
    access_named::<Brand, R>(rt, cell, pass, op, scratch)
}
