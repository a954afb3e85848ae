//! A cell is made, with its passes.
ghost use Rattle.std.specs.Prelude.{◌≡◌, ◌<◌, [], length, Some, IfOk, IfErr, IfSome};
ghost use Rattle.std.specs.Vec.{vec_capacity};
ghost use Rattle.turn_cell.specs.declared.view.Role.TheVariants.{Begins};
ghost use Rattle.turn_cell.specs.History.{Each};
ghost use Rattle.turn_cell.specs.Views.{view_of, limit_of};
ghost use Rattle.turn_cell.specs.Cell.{IsPassOf, AreFresh, pass_list, pass_number, start_of, numbers_of, IsSeatOf};

use crate::cell::{Pass, Turns};
use crate::kept::Kept;
use crate::plays::{Begin, Blanks, LIMIT, NUMBERS, SERVING, SetLimit, TakeNumber, TurnSeat};
use crate::view::Opening;
use atomic_table::{Refused, Table};
use std::alloc::{AllocError, Global};
use std::snapshot::Snapshot;

impl<S: Kept> Turns<S> {
    /// Makes a cell with that many passes, numbered 0, 1, .. in the order in which they come. Without memory the state
    /// comes back. No other call on a cell takes memory.
    pub fn open(
        alloc: Global,
        state: S,
        numbers: u32,
    ) -> Result<(Turns<S>, Vec<Pass<S>>), (AllocError, S)>
        requires { 0 < numbers }
        ensures cell { IfOk result (λ r. (start_of r.0 ≡ state) × (numbers_of r.0 ≡ numbers)) }
        ensures passes { IfOk result (λ r. (length r.1.items ≡ numbers) × AreFresh r.1.items r.0) }
        ensures capacity { IfOk result (λ r. vec_capacity r.1 ≡ numbers) }
        ensures err { IfErr result (λ e. e.1 ≡ state) }
    {
        let Ok(passes) = Vec::with_capacity(alloc, numbers as usize) else {
            return Err((AllocError, state));
        };
        let Ok(mut slots) = Vec::with_capacity(alloc, 1) else {
            passes.destroy_empty();
            return Err((AllocError, state));
        };
        let about = Opening {
            start: Snapshot::of(&state),
            numbers,
        };
        slots.push_reserved(Some(state));
        // The first seat has ticket 0 and so the first turn.
        let made = Table::new(alloc, &[0, 1, 0, 0, 0], slots, &about);
        let Opening {
            start: _,
            numbers: _,
        } = about;
        match made {
            Ok((table, seat)) => {
                let turns = Turns { table };
                turns.number_all(seat, passes, numbers)
            }
            Err(Refused { mut slots }) => {
                passes.destroy_empty();
                let Some(Some(state)) = slots.pop() else {
                    unreachable!()
                };
                slots.destroy_empty();
                Err((AllocError, state))
            }
        }
    }

    // The first seat's turn ends once all numbers are made. A number that is found where none can be has no answer of
    // its own: the state comes back, as without memory.
    fn number_all(
        self,
        mut seat: TurnSeat<S>,
        mut passes: Vec<Pass<S>>,
        numbers: u32,
    ) -> Result<(Turns<S>, Vec<Pass<S>>), (AllocError, S)>
        requires seat { IsSeatOf seat (view_of (Some self.table.shared.key) [] (Begins 0)) self }
        requires room { (passes.items ≡ []) × (vec_capacity passes ≡ numbers) × (numbers_of self ≡ numbers) }
        ensures cell { IfOk result (λ r. r.0.table.shared.key ≡ self.table.shared.key) }
        ensures passes { IfOk result (λ r. (length r.1.items ≡ numbers) × AreFresh r.1.items r.0) }
        ensures capacity { IfOk result (λ r. vec_capacity r.1 ≡ numbers) }
        ensures err { IfErr result (λ e. e.1 ≡ start_of self) }
    {
        let limit = u64::from(numbers);
        let table = &self.table.shared;
        if table.compare_exchange::<SetLimit>(&mut seat, LIMIT, 0, limit) != 0 {
            return Err((AllocError, self.give_up(seat)));
        }
        let mut number = 0;
        while number < numbers {
            let Some(next) = self.next(&mut seat, number) else {
                return Err((AllocError, self.give_up(seat)));
            };
            passes.push_reserved(next);
            number += 1;
        }
        self.table.shared.fetch_add::<Begin>(&mut seat, SERVING, 1);
        Ok((self, passes))
    }

    fn next(&self, seat: &mut TurnSeat<S>, number: u32) -> Option<Pass<S>>
        requires seat { IsSeatOf seat.old (view_of (Some self.now.table.shared.key) [] (Begins (numbers_of self.now))) self.now }
        requires low { number < numbers_of self.now }
        ensures seat { (seat.new.table_id ≡ seat.old.table_id) × (seat.new.me ≡ seat.old.me) }
        ensures pass { IfSome result (λ p. (pass_number p ≡ number) × IsPassOf p self.now × (pass_list p ≡ [])) }
    {
        let table = &self.table.shared;
        let mut next = table.split_seat::<Blanks>(seat);
        let from = u64::from(number);
        if table.compare_exchange::<TakeNumber>(&mut next, NUMBERS, from, from + 1) != from {
            return None;
        }
        Some(Pass { seat: next, number })
    }

    fn give_up(self, seat: TurnSeat<S>) -> S
        requires { (seat.table_id ≡ self.table.shared.table_id) × (seat.me.0.role ≡ Begins (limit_of seat.me.0.role)) }
        ensures { result ≡ start_of self }
    {
        let Turns { table } = self;
        let mut closed = table.close_with(seat);
        let value = closed.take(0).unwrap();
        closed.free();
        value
    }
}
