//! The core: a session over events on one thread, which events a trace offers, and the numbers of a seed by which it picks one.
#![tactic(auto)]

mod asking;
mod ending;
mod floor;
mod generator;
mod laws;
mod obstacles;
mod player;
mod reports;
mod rooms;
mod running;
mod seating;
mod starting;
mod stepping;
mod taking;
mod tracing;
mod world;

pub use floor::{FLOOR_LIMIT, Floor, Seat, Stand, Waiting};
pub use generator::Generator;
pub use laws::floors_offer;
pub use running::StepFault;
pub use tracing::{Traced, trace_session};
pub use world::World;
