//! Asks that lock nothing, one after the other.
ghost use Rattle.std.specs.Prelude.{◌≡◌, ◌+◌, ◌<◌, ◌≤◌, ◌∷◌, [], true, vec_capacity, vec_len};
ghost use Rattle.faaslet_meaning.specs.Region.{global_value, replica};
ghost use Rattle.shared_region.specs.Moves.{MoveFits};
ghost use Rattle.region_tier.specs.Tiers.{cells_of, slots_of};
ghost use Rattle.state_service_tests.specs.Makers.{IsOneKey, IsPlain, IsPlainOp, Keeps};

use crate::pair::{Pair, close, open};
use faaslet_meaning::{Ask, AskOp, Channel, Move, Reply};
use region_tier::Tier;
use state_service::{StatePasses, serve_state};
use std::alloc::Global;
use std::sync::Wait;

/// What an ask was answered, and the scratch then.
#[derive(Clone, Copy, Debug, PartialEq, Eq)]
pub struct Told {
    pub reply: Reply,
    pub scratch: [u8; 2],
}

/// One maker of a key of two bytes asks each of these in order; the scratch of each ask is 5, 6. Those that lock, name
/// another key, or don't fit in two bytes are passed over. `None` is for want of memory.
pub fn serve_each<R: Wait>(rt: &R, alloc: Global, asks: &[Ask]) -> Option<Vec<Told>> {
    let Ok(mut told) = Vec::with_capacity(alloc, asks.len()) else {
        return None;
    };
    let Some(
        Pair {
            locals,
            globals,
            local_room,
            global_room,
            local_home,
            global_home,
            mut first,
            second,
        },
    ) = open(alloc)
    else {
        return None;
    };
    for asked in asks {
        serve_plain(rt, &locals, &globals, &mut first, asked, &mut told);
    }
    close(locals, local_room, local_home, first.local, second.local);
    close(
        globals,
        global_room,
        global_home,
        first.global,
        second.global,
    );
    Some(told)
}

// The ask is served, if it is a plain one.
fn serve_plain<R: Wait>(
    rt: &R,
    locals: &Tier,
    globals: &Tier,
    passes: &mut StatePasses,
    asked: &Ask,
    told: &mut Vec<Told>,
)
    requires locals { IsOneKey (cells_of locals.now) (replica 2) }
    requires globals { IsOneKey (cells_of globals.now) (global_value 2 (1 ∷ 2 ∷ [])) }
    requires local { Keeps (cells_of locals.now) (slots_of passes.old.local) 0 }
    requires global { Keeps (cells_of globals.now) (slots_of passes.old.global) 0 }
    requires room { vec_len told.old < vec_capacity told.old }
    ensures local { Keeps (cells_of locals.now) (slots_of passes.new.local) 0 }
    ensures global { Keeps (cells_of globals.now) (slots_of passes.new.global) 0 }
    ensures told { (vec_len told.new ≤ vec_len told.old + 1) × (vec_capacity told.new ≡ vec_capacity told.old) }
{
    if !is_plain(asked) {
        return;
    }
    told.push_reserved(serve_one(rt, locals, globals, passes, asked));
}

fn serve_one<R: Wait>(
    rt: &R,
    locals: &Tier,
    globals: &Tier,
    passes: &mut StatePasses,
    asked: &Ask,
) -> Told
    requires locals { IsOneKey (cells_of locals.now) (replica 2) }
    requires globals { IsOneKey (cells_of globals.now) (global_value 2 (1 ∷ 2 ∷ [])) }
    requires local { Keeps (cells_of locals.now) (slots_of passes.old.local) 0 }
    requires global { Keeps (cells_of globals.now) (slots_of passes.old.global) 0 }
    requires plain { IsPlain asked.now }
    ensures local { Keeps (cells_of locals.now) (slots_of passes.new.local) 0 }
    ensures global { Keeps (cells_of globals.now) (slots_of passes.new.global) 0 }
{
    let mut scratch = [5, 6];
    let reply = serve_state(rt, asked, locals, globals, passes, &mut scratch);
    Told { reply, scratch }
}

// It locks nothing, is of key 0, and fits in two bytes.
fn is_plain(asked: &Ask) -> bool
    ensures { result ≡ true → IsPlain asked.now }
{
    match *asked {
        Ask::Region {
            channel: Channel::Local(0) | Channel::Global(0),
            op,
        } => is_plain_op(op),
        Ask::Move { key: 0, kind } => fits(kind),
        _ => false,
    }
}

fn is_plain_op(op: AskOp) -> bool
    ensures { result ≡ true → IsPlainOp op }
{
    match op {
        AskOp::Read { off, len } | AskOp::Write { off, len } => off <= 2 && len <= 2 - off,
        AskOp::Append { len } => len <= 2,
        AskOp::Probe | AskOp::Size => true,
        AskOp::LockRead | AskOp::LockWrite | AskOp::Unlock => false,
    }
}

fn fits(kind: Move) -> bool
    ensures { result ≡ true → MoveFits kind 2 }
{
    match kind {
        Move::Fill => true,
        Move::Pull { off, len } | Move::Push { off, len } => off <= 2 && len <= 2 - off,
    }
}
