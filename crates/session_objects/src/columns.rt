//! The passes of the benches, bench by bench and as three lists.
ghost use Rattle.std.specs.Prelude.{◌≡◌, ◌+◌, ◌++◌, ◌≤◌, [], length, reverse};
ghost use Rattle.std.specs.Vec.{vec_capacity};
ghost use Rattle.session_objects.specs.Lists.{globals_of, locals_of, tables_of};

use call_table::CallTable;
use region_tier::Passes;
use turn_cell::Pass;

/// The passes of one bench: to the replicas of its host, to the global values, and to the call table.
#[derive(Drop)]
pub struct BenchPasses {
    pub local: Passes,
    pub global: Passes,
    pub table: Pass<CallTable>,
}

/// Passes to replicas, to the global values and to the call table, each in a list of their own.
#[derive(Drop)]
pub struct Columns {
    pub(crate) locals: Vec<Passes>,
    pub(crate) globals: Vec<Passes>,
    pub(crate) table: Vec<Pass<CallTable>>,
}

impl Columns {
    // The passes at one place become those of one bench. The lists are empty then.
    pub(crate) fn zip(&mut self, mut benches: Vec<BenchPasses>) -> Vec<BenchPasses>
        requires globals { length self.old.globals.items ≡ length self.old.locals.items }
        requires table { length self.old.table.items ≡ length self.old.locals.items }
        requires room { (benches.items ≡ []) × (length self.old.locals.items ≤ vec_capacity benches) }
        ensures locals { locals_of result.items ≡ self.old.locals.items }
        ensures globals { globals_of result.items ≡ self.old.globals.items }
        ensures table { tables_of result.items ≡ self.old.table.items }
        ensures emptied { (self.new.locals.items ≡ []) × (self.new.globals.items ≡ []) × (self.new.table.items ≡ []) }
        ensures rooms { (vec_capacity self.new.locals ≡ vec_capacity self.old.locals) × (vec_capacity self.new.globals ≡ vec_capacity self.old.globals)
            × (vec_capacity self.new.table ≡ vec_capacity self.old.table) }
    {
        while let Some(local) = self.locals.pop() {
            let Some(global) = self.globals.pop() else {
                unreachable!()
            };
            let Some(table) = self.table.pop() else {
                unreachable!()
            };
            benches.push_reserved(BenchPasses {
                local,
                global,
                table,
            });
        }
        benches.reverse();
        benches
    }

    // The passes of the benches go behind those of the lists, the last first.
    pub(crate) fn unzip(&mut self, mut benches: Vec<BenchPasses>)
        requires locals { length self.old.locals.items + length benches.items ≤ vec_capacity self.old.locals }
        requires globals { length self.old.globals.items + length benches.items ≤ vec_capacity self.old.globals }
        requires table { length self.old.table.items + length benches.items ≤ vec_capacity self.old.table }
        ensures locals { self.new.locals.items ≡ self.old.locals.items ++ reverse (locals_of benches.items) }
        ensures globals { self.new.globals.items ≡ self.old.globals.items ++ reverse (globals_of benches.items) }
        ensures table { self.new.table.items ≡ self.old.table.items ++ reverse (tables_of benches.items) }
    {
        while let Some(bench) = benches.pop() {
            let BenchPasses {
                local,
                global,
                table,
            } = bench;
            self.locals.push_reserved(local);
            self.globals.push_reserved(global);
            self.table.push_reserved(table);
        }
    }

    // Each list the other way round.
    pub(crate) fn turn(&mut self)
        ensures locals { self.new.locals.items ≡ reverse self.old.locals.items }
        ensures globals { self.new.globals.items ≡ reverse self.old.globals.items }
        ensures table { self.new.table.items ≡ reverse self.old.table.items }
    {
        self.locals.reverse();
        self.globals.reverse();
        self.table.reverse();
    }
}
