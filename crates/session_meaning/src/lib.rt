//! What is said of sessions: plans, worlds, schedules, reports, cuts, and which entries are a call's own. The
//! definitions stand in `specs/`, and the laws that hold of those alone here.
#![tactic(auto)]

mod cut_laws;
mod event;
mod fault;
mod history_laws;
mod mark;
mod plan_laws;
mod ran_laws;
mod report_laws;
mod session_laws;
mod table_cut_laws;
mod world_laws;

pub use cut_laws::{
    calls_keep_names, cut_is_world, distinct_calls, distinct_paths, kin_are_of_part,
    makers_are_of_part, numbers_stand, one_cut, one_cut_by_name, one_event, one_reason,
    reasons_name_the_part,
};
pub use event::{Event, Events, Why};
pub use fault::{Kind, RegFault, SessionFault, SessionList};
pub use history_laws::{entries_are_a_history, one_session};
pub use mark::{Mark, Marks};
pub use plan_laws::{
    file_gives_well_formed, file_has_an_answer, file_has_one_answer, finished_draft_is_well_formed,
    limits_refuse_nothing_else, load_plan_is_well_formed, module_keeps_well_formed,
    well_formed_fits,
};
pub use ran_laws::{ran_has_own_sections, ran_two_worlds};
pub use report_laws::{cut_report, report_is_lines};
pub use session_laws::{
    calls_rest, has_schedule, histories_lead, locks_keep_back, one_schedule, schedule_stands,
    taken_calls_are_open,
};
pub use table_cut_laws::cut_of_history;
pub use world_laws::{calls_ran, have_own_sections, have_sections};
