//! What a call asks of shared state.
ghost use Rattle.faaslet_meaning.specs.declared.ask.Ask.TheVariants as an_ask;
ghost use Rattle.region_tier.specs.Tiers.{cells_of, slots_of};
ghost use Rattle.state_service.specs.Asked.{moved_size};
ghost use Rattle.state_service.specs.May.{MayServe};
ghost use Rattle.state_service.specs.Served.{Served};

use crate::asking::ask_region;
use crate::moving::move_key;
use faaslet_meaning::{Ask, AskOp, Channel, Reply};
use region_tier::{Passes, Tier};
use std::sync::Wait;

/// The passes of one maker to the replicas of its host and to the global values.
#[derive(Drop)]
pub struct StatePasses {
    pub local: Passes,
    pub global: Passes,
}

/// Makes one operation on the replica or the global value of a key, or one transfer between the two, each in a turn. The
/// bytes of a Write or an Append are the first of the scratch, and so are those that are read. A transfer takes the turn
/// of the replica first and then that of the global value. Where the lock of another maker blocks it, it gives its turns
/// back and tries again, and does not return while that lock is kept. Takes no memory.
pub fn serve_state<R: Wait>(
    rt: &R,
    ask: &Ask,
    locals: &Tier,
    globals: &Tier,
    passes: &mut StatePasses,
    scratch: &mut [u8],
) -> Reply
    requires { MayServe ask.now (cells_of locals.now) (cells_of globals.now) (slots_of passes.old.local) (slots_of passes.old.global) scratch.old }
    ensures { Served ask.now (moved_size (cells_of locals.now) ask.now) (cells_of locals.now) (cells_of globals.now)
        (slots_of passes.old.local) (slots_of passes.new.local) (slots_of passes.old.global) (slots_of passes.new.global) result scratch.old scratch.new }
{
    match *ask {
        Ask::Region { channel, op } => {
            ask_channel(rt, channel, op, locals, globals, passes, scratch)
        }
        Ask::Move { key, kind } => {
            move_key(rt, locals, globals, passes, key, kind);
            Reply::Done
        }
        Ask::Submit { .. } | Ask::Look { .. } => unreachable!(),
    }
}

// One operation, on the replica or on the global value.
fn ask_channel<R: Wait>(
    rt: &R,
    channel: Channel,
    op: AskOp,
    locals: &Tier,
    globals: &Tier,
    passes: &mut StatePasses,
    scratch: &mut [u8],
) -> Reply
    requires { MayServe (an_ask.Region channel op) (cells_of locals.now) (cells_of globals.now) (slots_of passes.old.local) (slots_of passes.old.global) scratch.old }
    ensures { Served (an_ask.Region channel op) 0 (cells_of locals.now) (cells_of globals.now)
        (slots_of passes.old.local) (slots_of passes.new.local) (slots_of passes.old.global) (slots_of passes.new.global) result scratch.old scratch.new }
{
    match channel {
        Channel::Local(key) => ask_region(rt, locals, &mut passes.local, key, op, scratch),
        Channel::Global(key) => ask_region(rt, globals, &mut passes.global, key, op, scratch),
        Channel::Table => unreachable!(),
    }
}
