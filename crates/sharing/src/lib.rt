//! Which of its rights a node shifts to others of its own accord, round by round: from who has some
//! to spare, to who passed lately and has none. And by which shifts it deals all of them out at once.
#![tactic(auto)]

mod dealing;
pub mod laws;
mod line;
mod memory;
mod point;
mod remembered;
mod room;
mod shift;
mod spare;

pub use dealing::spread;
pub use memory::Memory;
pub use shift::Shift;
