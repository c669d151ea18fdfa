//! A whole cluster in one program: its calls, and every schedule of what its nodes are asked, of the
//! messages that they send, and of which of those arrive, how often and in which order.
#![tactic(auto)]

mod event;
mod fault;
pub mod laws;
mod run;
mod world;

pub use event::Event;
pub use fault::WorldFault;
pub use run::RunReport;
pub use world::World;
