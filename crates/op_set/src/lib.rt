//! The plain replica: of each name it keeps the operations that no other has overtaken. It is the
//! slow one that every other replica is compared with, and no program stands on it.
#![tactic(auto)]

mod budget;
mod point;
mod point_map;
mod set;

pub use point::Point;
pub use set::OpSet;
