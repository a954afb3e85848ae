//! A transfer between the replica and the global value of a key.
ghost use Rattle.std.specs.Prelude.{◌≡◌, true, false, Some, None, ◌∷◌, []};
ghost use mathlib.Core.Option.{some};
ghost use lib.ListN.{get_elem?};
ghost use Rattle.faaslet_meaning.specs.Spelling.{spelled};
ghost use Rattle.shared_region.specs.Entries.{MakesShared};
ghost use Rattle.shared_region.specs.Moves.{global_part, local_part, moved};
ghost use Rattle.turn_cell.specs.Cell.{maker_of, taken_of, value_of};
ghost use Rattle.turn_cell.specs.History.{entry};
ghost use Rattle.region_tier.specs.Tiers.{Gave, HasPass, IsIn, IsOut, Took, cells_of, slots_of};
ghost use Rattle.state_service.specs.May.{MayMove};
ghost use Rattle.state_service.specs.Moving.{Moved, Waited};

use crate::service::StatePasses;
use faaslet_meaning::Move;
use region_tier::{Passes, Tier};
use shared_region::Region;
use std::marker::Brand;
use std::sync::Wait;
use turn_cell::{Held, Named};

// The turns of both regions of a key.
struct Both {
    local: Held<Region>,
    global: Held<Region>,
}

/// The move is made, with one entry on each region. Where another maker's lock blocks it, both turns are given back without
/// an entry, and it is tried again.
pub(crate) fn move_key<R: Wait>(
    rt: &R,
    locals: &Tier,
    globals: &Tier,
    passes: &mut StatePasses,
    key: u32,
    kind: Move,
)
    requires { MayMove (cells_of locals.now) (cells_of globals.now) (slots_of passes.old.local) (slots_of passes.old.global) key kind }
    ensures { Moved (cells_of locals.now) (cells_of globals.now) (slots_of passes.old.local) (slots_of passes.new.local)
        (slots_of passes.old.global) (slots_of passes.new.global) key kind }
{
    for _ in rt.forever() {
        if try_move(rt, locals, globals, passes, key, kind) {
            return;
        }
    }
    unreachable!()
}

// One turn of each region: both operations, or neither where somebody blocks one.
fn try_move<R: Wait>(
    rt: &R,
    locals: &Tier,
    globals: &Tier,
    passes: &mut StatePasses,
    key: u32,
    kind: Move,
) -> bool
    requires { MayMove (cells_of locals.now) (cells_of globals.now) (slots_of passes.old.local) (slots_of passes.old.global) key kind }
    ensures made { result ≡ true → Moved (cells_of locals.now) (cells_of globals.now) (slots_of passes.old.local) (slots_of passes.new.local)
        (slots_of passes.old.global) (slots_of passes.new.global) key kind }
    ensures blocked_local { result ≡ false → Waited (cells_of locals.now) (slots_of passes.old.local) (slots_of passes.new.local) key }
    ensures blocked_global { result ≡ false → Waited (cells_of globals.now) (slots_of passes.old.global) (slots_of passes.new.global) key }
{
    let maker = passes.local.number(key);
    let Both {
        mut local,
        mut global,
    } = take_both(rt, locals, globals, passes, key);
    match Region::move_between(local.value_mut(), global.value_mut(), maker, kind) {
        Ok(()) => {
            give_both(locals, globals, passes, key, kind, Both { local, global });
            true
        }
        Err(_) => {
            give_back_both(locals, globals, passes, key, Both { local, global });
            false
        }
    }
}

// The turn of the replica is taken before that of the global value: so nobody who has the one waits for the other the other
// way round. The conditions of the two calls allow no other order.
fn take_both<R: Wait>(
    rt: &R,
    locals: &Tier,
    globals: &Tier,
    passes: &mut StatePasses,
    key: u32,
) -> Both
    requires local { HasPass (cells_of locals.now) (slots_of passes.old.local) key (λ t p. Unit {0}) }
    requires global { HasPass (cells_of globals.now) (slots_of passes.old.global) key (λ t p. Unit {0}) }
    ensures local { Took (cells_of locals.now) (slots_of passes.old.local) (slots_of passes.new.local) key result.local }
    ensures global { Took (cells_of globals.now) (slots_of passes.old.global) (slots_of passes.new.global) key result.global }
{
    let local = take_local(rt, locals, &mut passes.local, &passes.global, key);
    let global = take_global(rt, globals, &mut passes.global, &passes.local, key);
    Both { local, global }
}

// The maker hasn't the turn of the global value yet.
fn take_local<R: Wait>(
    rt: &R,
    locals: &Tier,
    local: &mut Passes,
    global: &Passes,
    key: u32,
) -> Held<Region>
    requires local { HasPass (cells_of locals.now) (slots_of local.old) key (λ t p. Unit {0}) }
    requires before_global { IsIn (slots_of global.now) key }
    ensures took { Took (cells_of locals.now) (slots_of local.old) (slots_of local.new) key result }
    ensures out { get_elem? (slots_of local.new) key ≡ some None }
{
    locals.take(rt, local, key)
}

// The maker has the turn of the replica.
fn take_global<R: Wait>(
    rt: &R,
    globals: &Tier,
    global: &mut Passes,
    local: &Passes,
    key: u32,
) -> Held<Region>
    requires global { HasPass (cells_of globals.now) (slots_of global.old) key (λ t p. Unit {0}) }
    requires after_local { get_elem? (slots_of local.now) key ≡ some None }
    ensures { Took (cells_of globals.now) (slots_of global.old) (slots_of global.new) key result }
{
    globals.take(rt, global, key)
}

// Both turns end, each with its entry, which says which bytes were moved.
fn give_both(
    locals: &Tier,
    globals: &Tier,
    passes: &mut StatePasses,
    key: u32,
    kind: Move,
    turns: Both,
)
    requires local { IsOut (cells_of locals.now) (slots_of passes.old.local) key turns.local }
    requires global { IsOut (cells_of globals.now) (slots_of passes.old.global) key turns.global }
    requires local_makes { MakesShared (maker_of turns.local)
        (spelled (local_part kind (moved (taken_of turns.local).region (taken_of turns.global).region kind)))
        (taken_of turns.local) (value_of turns.local) }
    requires global_makes { MakesShared (maker_of turns.global)
        (spelled (global_part kind (taken_of turns.global).region.size (moved (taken_of turns.local).region (taken_of turns.global).region kind)))
        (taken_of turns.global) (value_of turns.global) }
    ensures local { Gave (cells_of locals.now) (slots_of passes.old.local) (slots_of passes.new.local) key turns.local (entry (maker_of turns.local)
        (spelled (local_part kind (moved (taken_of turns.local).region (taken_of turns.global).region kind))) ∷ []) }
    ensures global { Gave (cells_of globals.now) (slots_of passes.old.global) (slots_of passes.new.global) key turns.global (entry (maker_of turns.global)
        (spelled (global_part kind (taken_of turns.global).region.size (moved (taken_of turns.local).region (taken_of turns.global).region kind))) ∷ []) }
{
    give_named::<Brand, Brand>(locals, globals, passes, key, kind, turns);
}

fn give_named<E: Named, F: Named>(
    locals: &Tier,
    globals: &Tier,
    passes: &mut StatePasses,
    key: u32,
    kind: Move,
    turns: Both,
)
    requires entries { (E.entry ≡ spelled (local_part kind (moved (taken_of turns.local).region (taken_of turns.global).region kind)))
        × (F.entry ≡ spelled (global_part kind (taken_of turns.global).region.size (moved (taken_of turns.local).region (taken_of turns.global).region kind))) }
    requires local { IsOut (cells_of locals.now) (slots_of passes.old.local) key turns.local }
    requires global { IsOut (cells_of globals.now) (slots_of passes.old.global) key turns.global }
    requires local_makes { MakesShared (maker_of turns.local) E.entry (taken_of turns.local) (value_of turns.local) }
    requires global_makes { MakesShared (maker_of turns.global) F.entry (taken_of turns.global) (value_of turns.global) }
    ensures local { Gave (cells_of locals.now) (slots_of passes.old.local) (slots_of passes.new.local) key turns.local (entry (maker_of turns.local) E.entry ∷ []) }
    ensures global { Gave (cells_of globals.now) (slots_of passes.old.global) (slots_of passes.new.global) key turns.global (entry (maker_of turns.global) F.entry ∷ []) }
{
    let Both { local, global } = turns;
    globals.give::<F>(&mut passes.global, key, global);
    locals.give::<E>(&mut passes.local, key, local);
}

// Both turns end without an entry.
fn give_back_both(locals: &Tier, globals: &Tier, passes: &mut StatePasses, key: u32, turns: Both)
    requires local { IsOut (cells_of locals.now) (slots_of passes.old.local) key turns.local }
    requires global { IsOut (cells_of globals.now) (slots_of passes.old.global) key turns.global }
    requires same { (value_of turns.local ≡ taken_of turns.local) × (value_of turns.global ≡ taken_of turns.global) }
    ensures local { Gave (cells_of locals.now) (slots_of passes.old.local) (slots_of passes.new.local) key turns.local [] }
    ensures global { Gave (cells_of globals.now) (slots_of passes.old.global) (slots_of passes.new.global) key turns.global [] }
{
    let Both { local, global } = turns;
    globals.give_back(&mut passes.global, key, global);
    locals.give_back(&mut passes.local, key, local);
}
