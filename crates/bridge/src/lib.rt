// The bridge: the five events of document 01, each in the crate of its heading, where its promise stands; and a change, made by value.
#![tactic(auto)]

pub use control::{ControlOutcome, control, serve};
pub use outcomes::{Outcome, bus_reset, changed};
pub use packets::packet;
pub use reports::report;
pub use statuses::status;
