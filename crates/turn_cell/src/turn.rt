//! A turn: a pass takes the value, and gives it back with an entry or without.
ghost use Rattle.std.specs.Prelude.{◌≡◌, [], ◌∷◌, ◌++◌, Some, None};
ghost use Rattle.turn_cell.specs.History.{Stands, Extends, MakersBelow, entry};
ghost use Rattle.turn_cell.specs.Views.{view_of};
ghost use Rattle.turn_cell.specs.Steps.{MayPassOn};
ghost use Rattle.turn_cell.specs.Cell.{Sits, IsPassOf, IsTurnOf, pass_list, pass_number, turn_list, maker_of, taken_of, value_of, start_of, numbers_of};

use crate::cell::{Held, Pass, Turn, Turns};
use crate::kept::{Kept, Named};
use crate::plays::{Count, Draw, ENTRIES, Look, PassOn, SERVING, TICKETS, TurnSeat};
use std::hint;
use std::snapshot::Snapshot;
use std::sync::Wait;

/// How often a thread looks before it sleeps.
const LOOKS: u32 = 100;

/// What the kernel compares of a word.
const LOW_HALF: u64 = 0xffff_ffff;

impl<S: Kept> Turns<S> {
    /// Waits for its turn, and takes the value. Turns come in the order in which `take` was called, as far as the calls
    /// have one. It does not return while another thread keeps its turn.
    pub fn take<R: Wait>(&self, rt: &R, pass: Pass<S>) -> Held<S>
        requires cell { IsPassOf pass self.now }
        ensures cell { IsTurnOf result self.now × (maker_of result ≡ pass_number pass) }
        ensures taken { taken_of result ≡ value_of result }
        ensures stands { Stands S.makes (start_of self.now) (turn_list result) (value_of result) }
        ensures list { Extends (pass_number pass) (pass_list pass) (turn_list result) }
        ensures makers { MakersBelow (numbers_of self.now) (turn_list result) }
    {
        let Pass { mut seat, number } = pass;
        let table = &self.table.shared;
        let ticket = table.fetch_add::<Draw>(&mut seat, TICKETS, 1);
        let mut looks = 0;
        for _ in rt.forever() {
            let serving = table.load::<Look>(&mut seat, SERVING);
            if serving == ticket {
                let value = table.exchange(&mut seat, 0, None).unwrap();
                return Held {
                    turn: Turn {
                        seat,
                        number,
                        taken: Snapshot::of(&value),
                    },
                    value,
                };
            }
            looks = self.rest(rt, serving, looks);
        }
        unreachable!()
    }

    // Spins for the first looks, and then sleeps while word 2 is `serving`. The kernel compares before it lets the
    // thread sleep, so a turn that is passed on in between is not missed: fewer than 2^32 come before this one, and so
    // the low half tells them apart.
    fn rest<R: Wait>(&self, rt: &R, serving: u64, looks: u32) -> u32 {
        if looks < LOOKS {
            hint::spin_loop();
            return looks + 1;
        }
        self.table
            .shared
            .park(rt, SERVING, (serving & LOW_HALF) as u32);
        looks
    }

    /// Ends the turn with an entry, that of `E`: the caller passes `Brand`, and names the entry in its proof.
    pub fn give<E: Named>(&self, held: Held<S>) -> Pass<S>
        requires cell { IsTurnOf held self.now }
        requires makes { S.makes (maker_of held) E.entry (taken_of held) (value_of held) }
        ensures cell { IsPassOf result self.now × (pass_number result ≡ maker_of held) }
        ensures list { pass_list result ≡ turn_list held ++ entry (maker_of held) E.entry ∷ [] }
        ensures makers { MakersBelow (numbers_of self.now) (pass_list result) }
    {
        let Held { turn, value } = held;
        let Turn {
            mut seat,
            number,
            taken: _,
        } = turn;
        let table = &self.table.shared;
        table.fetch_add::<Count<E>>(&mut seat, ENTRIES, 1);
        self.pass_on(seat, number, value)
    }

    /// Ends the turn with no entry.
    pub fn give_back(&self, held: Held<S>) -> Pass<S>
        requires cell { IsTurnOf held self.now }
        requires same { value_of held ≡ taken_of held }
        ensures cell { IsPassOf result self.now × (pass_number result ≡ maker_of held) }
        ensures list { pass_list result ≡ turn_list held }
        ensures makers { MakersBelow (numbers_of self.now) (pass_list result) }
    {
        let Held {
            turn,
            value: unchanged,
        } = held;
        let Turn {
            seat,
            number,
            taken: _,
        } = turn;
        self.pass_on(seat, number, unchanged)
    }

    // Puts the value back, and passes the turn on.
    fn pass_on(&self, mut seat: TurnSeat<S>, number: u32, value: S) -> Pass<S>
        requires cell { Sits seat self.now.table.shared.table_id self.now.table.shared.key }
        requires seat { seat.me ≡ (view_of seat.me.0.key seat.me.0.seen seat.me.0.role, (0, None) ∷ []) }
        requires due { MayPassOn S.makes (start_of self.now) seat.me.0.seen number value seat.me.0.role }
        ensures cell { IsPassOf result self.now × (pass_number result ≡ number) }
        ensures list { pass_list result ≡ seat.me.0.seen }
        ensures makers { MakersBelow (numbers_of self.now) (pass_list result) }
    {
        let table = &self.table.shared;
        let empty = table.exchange(&mut seat, 0, Some(value));
        let None = empty else { unreachable!() };
        let served = table.fetch_add::<PassOn>(&mut seat, SERVING, 1);
        self.wake(served);
        Pass { seat, number }
    }

    // Wakes those who wait, after word 2 rose from `served`. Who draws a ticket after this look at word 1 finds word 2
    // raised, so where nobody is seen here nobody sleeps on the old number.
    fn wake(&self, served: u64) {
        let table = &self.table.shared;
        if table.peek(TICKETS) != served.wrapping_add(1) {
            table.wake_all(SERVING);
        }
    }
}
