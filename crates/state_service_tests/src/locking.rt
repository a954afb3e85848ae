//! Locks that are taken and left.
ghost use Rattle.std.specs.Prelude.{◌∷◌, []};
ghost use Rattle.faaslet_meaning.specs.Region.{global_value, replica};
ghost use Rattle.region_tier.specs.Tiers.{cells_of, slots_of};
ghost use Rattle.state_service_tests.specs.Makers.{IsLock, IsOfKey, IsOneKey, Keeps, SeesNothing};

use crate::pair::{Pair, close, open};
use faaslet_meaning::{Ask, AskOp, Channel, Reply};
use region_tier::Tier;
use state_service::{StatePasses, serve_state};
use std::alloc::Global;
use std::sync::Wait;

/// One maker takes a lock on the one key of a replica or of a global value, and leaves it. Both answers, or `None` for
/// want of memory.
pub fn lock_once<R: Wait>(
    rt: &R,
    alloc: Global,
    channel: Channel,
    op: AskOp,
) -> Option<(Reply, Reply)>
    requires channel { IsOfKey channel }
    requires lock { IsLock op }
{
    let Some(
        Pair {
            locals,
            globals,
            local_room,
            global_room,
            local_home,
            global_home,
            mut first,
            second,
        },
    ) = open(alloc)
    else {
        return None;
    };
    let replies = lock_one(rt, &locals, &globals, &mut first, channel, op);
    close(locals, local_room, local_home, first.local, second.local);
    close(
        globals,
        global_room,
        global_home,
        first.global,
        second.global,
    );
    Some(replies)
}

// The lock, and at once the Unlock.
fn lock_one<R: Wait>(
    rt: &R,
    locals: &Tier,
    globals: &Tier,
    passes: &mut StatePasses,
    channel: Channel,
    op: AskOp,
) -> (Reply, Reply)
    requires locals { IsOneKey (cells_of locals.now) (replica 2) }
    requires globals { IsOneKey (cells_of globals.now) (global_value 2 (1 ∷ 2 ∷ [])) }
    requires local { Keeps (cells_of locals.now) (slots_of passes.old.local) 0 }
    requires global { Keeps (cells_of globals.now) (slots_of passes.old.global) 0 }
    requires lock { IsLock op }
    requires fresh { SeesNothing channel (cells_of locals.now) (cells_of globals.now) (slots_of passes.old.local) (slots_of passes.old.global) }
    ensures local { Keeps (cells_of locals.now) (slots_of passes.new.local) 0 }
    ensures global { Keeps (cells_of globals.now) (slots_of passes.new.global) 0 }
{
    let lock = Ask::Region { channel, op };
    let locked = serve_state(rt, &lock, locals, globals, passes, &mut []);
    let unlock = Ask::Region {
        channel,
        op: AskOp::Unlock,
    };
    let left = serve_state(rt, &unlock, locals, globals, passes, &mut []);
    (locked, left)
}
