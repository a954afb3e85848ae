//! What the other crates speak of: the types of modules and of outcomes, the definitions that
//! contracts cite, in `specs/`, and the laws that hold of those alone.
#![tactic(auto)]

mod ask;
mod call;
mod call_laws;
mod grammar_laws;
mod grant;
mod history_laws;
mod instr;
mod items;
mod laws;
mod linear;
mod module;
mod outcome;
mod run_laws;
mod shape_laws;
mod texts;
mod typing_laws;

pub use ask::{Ask, AskOp, Move, RegionOp, Reply};
pub use call::{CallRecord, CallRecords, CallState, Callable, Callables};
pub use call_laws::{
    asks_are_carried, fresh_is_formed, locks_have_own_channels, one_way, one_way_by_channels,
    one_way_on, question_is_known, reached_by_ways, runs_are_ways, stays_formed, told_joins,
    unlocks_what_it_holds, ways_join,
};
pub use grammar_laws::{one_answer, one_expression, one_module, one_number};
pub use grant::{Channel, Grant, Grants, Mode};
pub use history_laws::{
    entries_are_halves, legal_has_sections, one_spelling, others_leave_what_was_told,
    prefix_has_its_replies, prefix_is_legal,
};
pub use instr::{Instr, ValType};
pub use items::{Bytes, Counts, Items, Labels, Pairs};
pub use laws::one_command;
pub use linear::{Full, Home, Linear, MapFull, Outside, Piece};
pub use module::{
    Bodies, Body, Code, Element, Elements, Export, ExportKind, Exports, FuncType, FuncTypes,
    GlobalDef, GlobalDefs, GlobalType, Import, ImportKind, Imports, Limits, LimitsList, LocalGroup,
    LocalGroups, Module, Segment, Segments, Types,
};
pub use outcome::{Broken, Outcome, Trap};
pub use run_laws::{
    each_reply_asks_less, each_step_leaves_less, few_questions, few_steps, no_reply_leaves_more,
    no_step_asks_more, one_outcome, steps_at_first,
};
pub use shape_laws::{one_tree, pieces_tile};
pub use texts::Texts;
pub use typing_laws::{
    entry_is_typed, finished_is_typed, never_lost, never_stuck, resumed_is_typed, step_is_typed,
    valid_is_made, valid_program_is_typed,
};
