//! One maker fills a replica, another writes to it, and the first pushes what is there then.
ghost use Rattle.std.specs.Prelude.{◌≡◌, ◌∷◌, [], ℕ, List, IfSome};
ghost use mathlib.Core.List.{IsPrefix};
ghost use mathlib.Core.Option.{some};
ghost use lib.ListN.{get_elem?};
ghost use Rattle.std.specs.Prelude as std;
ghost use Rattle.faaslet_meaning.specs.declared.ask.Ask.TheVariants as an_ask;
ghost use Rattle.faaslet_meaning.specs.declared.ask.AskOp.TheVariants as an_op;
ghost use Rattle.faaslet_meaning.specs.declared.ask.Reply as coded;
ghost use Rattle.faaslet_meaning.specs.declared.grant.Channel.TheVariants as a_channel;
ghost use Rattle.faaslet_meaning.specs.Region.{global_value, replica};
ghost use Rattle.turn_cell.specs.Cell.{pass_list, pass_number, whole_list};
ghost use Rattle.turn_cell.specs.History.{Extends};
ghost use Rattle.region_tier.specs.Tiers.{Goes, HasPass, RegionPass, cells_of, slots_of};
ghost use Rattle.state_service.specs.Asked.{moved_size};
ghost use Rattle.state_service.specs.May.{MayMove, MayServe};
ghost use Rattle.state_service.specs.Served.{Served};
ghost use Rattle.state_service_tests.specs.Makers.{InOrder, IsOneKey, Keeps, Sees, global_list, replica_list};

use crate::pair::{Pair, close, open};
use faaslet_meaning::{Ask, AskOp, Channel, Move};
use region_tier::{Passes, Tier};
use shared_region::Region;
use state_service::{StatePasses, serve_state};
use std::alloc::Global;
use std::sync::Wait;
use turn_cell::Seen;

/// The replica and the global value at the end, each with its whole list.
pub struct Ends {
    pub replica: (Region, Seen<Region>),
    pub global: (Region, Seen<Region>),
}

/// A key of two bytes, with 1, 2 as its global value. The first of two makers fills the replica, the second writes a 9
/// there, and the first pushes both bytes. Between these each is told what the other has seen: so the one list of the
/// replica is Fill, Write, Send, and that of the global value Send, Put of 9, 2. `None` is for want of memory.
pub fn fill_write_push<R: Wait>(rt: &R, alloc: Global) -> Option<Ends>
    ensures replica { IfSome result (λ e. whole_list e.replica.1 ≡ replica_list) }
    ensures global { IfSome result (λ e. whole_list e.global.1 ≡ global_list) }
{
    let Some(
        Pair {
            locals,
            globals,
            local_room,
            global_room,
            local_home,
            global_home,
            mut first,
            mut second,
        },
    ) = open(alloc)
    else {
        return None;
    };
    take_turns(rt, &locals, &globals, &mut first, &mut second);
    let replica = close(locals, local_room, local_home, first.local, second.local);
    let global = close(
        globals,
        global_room,
        global_home,
        first.global,
        second.global,
    );
    Some(Ends { replica, global })
}

fn take_turns<R: Wait>(
    rt: &R,
    locals: &Tier,
    globals: &Tier,
    first: &mut StatePasses,
    second: &mut StatePasses,
)
    requires locals { IsOneKey (cells_of locals.now) (replica 2) }
    requires globals { IsOneKey (cells_of globals.now) (global_value 2 (1 ∷ 2 ∷ [])) }
    requires first { Sees (cells_of locals.now) (slots_of first.old.local) 0 [] × Sees (cells_of globals.now) (slots_of first.old.global) 0 [] }
    requires second { Sees (cells_of locals.now) (slots_of second.old.local) 1 [] × Sees (cells_of globals.now) (slots_of second.old.global) 1 [] }
    ensures first { Keeps (cells_of locals.now) (slots_of first.new.local) 0 × Keeps (cells_of globals.now) (slots_of first.new.global) 0 }
    ensures second { Keeps (cells_of locals.now) (slots_of second.new.local) 1 × Keeps (cells_of globals.now) (slots_of second.new.global) 1 }
    ensures in_order { InOrder (cells_of locals.now) (cells_of globals.now) (slots_of first.new.local) (slots_of second.new.local)
        (slots_of first.new.global) (slots_of second.new.global) }
{
    move_two(rt, locals, globals, first, Move::Fill);
    tell(locals, &mut first.local, &mut second.local);
    write_nine(rt, locals, globals, second);
    tell(locals, &mut second.local, &mut first.local);
    move_two(rt, locals, globals, first, Move::Push { off: 0, len: 2 });
}

// One move of the key.
fn move_two<R: Wait>(rt: &R, locals: &Tier, globals: &Tier, passes: &mut StatePasses, kind: Move)
    requires { MayMove (cells_of locals.now) (cells_of globals.now) (slots_of passes.old.local) (slots_of passes.old.global) 0 kind }
    ensures { (code : coded.Reply) × (told : List ℕ) × Served (an_ask.Move 0 kind) (moved_size (cells_of locals.now) (an_ask.Move 0 kind))
        (cells_of locals.now) (cells_of globals.now) (slots_of passes.old.local) (slots_of passes.new.local)
        (slots_of passes.old.global) (slots_of passes.new.global) code [] told }
{
    let asked = Ask::Move { key: 0, kind };
    serve_state(rt, &asked, locals, globals, passes, &mut []);
}

// A 9 at the front of the replica.
fn write_nine<R: Wait>(rt: &R, locals: &Tier, globals: &Tier, passes: &mut StatePasses)
    requires { MayServe (an_ask.Region (a_channel.Local 0) (an_op.Write 0 1)) (cells_of locals.now) (cells_of globals.now)
        (slots_of passes.old.local) (slots_of passes.old.global) (9 ∷ []) }
    ensures { (code : coded.Reply) × (told : List ℕ) × Served (an_ask.Region (a_channel.Local 0) (an_op.Write 0 1)) 0
        (cells_of locals.now) (cells_of globals.now) (slots_of passes.old.local) (slots_of passes.new.local)
        (slots_of passes.old.global) (slots_of passes.new.global) code (9 ∷ []) told }
{
    let asked = Ask::Region {
        channel: Channel::Local(0),
        op: AskOp::Write { off: 0, len: 1 },
    };
    let mut scratch = [9];
    serve_state(rt, &asked, locals, globals, passes, &mut scratch);
}

// The one maker is told what the other has seen of the replica.
fn tell(locals: &Tier, from: &mut Passes, to: &mut Passes)
    requires from { HasPass (cells_of locals.now) (slots_of from.old) 0 (λ t p. Unit {0}) }
    requires to { HasPass (cells_of locals.now) (slots_of to.old) 0 (λ t p. Unit {0}) }
    ensures from { Goes (cells_of locals.now) (slots_of from.old) (slots_of from.new) 0 (λ t p q. pass_list q ≡ pass_list p) }
    ensures to { Goes (cells_of locals.now) (slots_of to.old) (slots_of to.new) 0 (λ t p q. Extends (pass_number p) (pass_list p) (pass_list q)
        × ((r : RegionPass) → get_elem? (slots_of from.old) 0 ≡ some (std.Some r) → IsPrefix (pass_list r) (pass_list q))) }
{
    let note = locals.split(from, 0);
    locals.join(to, 0, note);
}
