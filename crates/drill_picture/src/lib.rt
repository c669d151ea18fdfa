//! A drill as a picture: an SVG of the nodes' calls, in columns that the messages between them allow,
//! with the messages as arrows. It has no script, and every text of the drill in it is escaped.
//!
//! ```rust
//! let text = picture(alloc, &drill.traces, "audit yes", None, &budgets)?;
//! ```
#![tactic(auto)]

mod arrow;
mod bars;
mod budget;
mod calls;
mod charts;
mod column;
mod counted;
mod drawing;
mod entries;
mod escaping;
mod heading;
mod known;
pub mod laws;
mod lines;
mod made;
mod marks;
mod parcel;
mod place;
mod placing;
mod row;
mod scale;
mod shapes;
mod sign;
mod story;
mod units;

pub use arrow::{Arrow, arrows};
pub use budget::Budget;
pub use counted::{Counted, counted_terms};
pub use drawing::picture;
pub use lines::picture_lines;
pub use place::Place;
pub use placing::{Placed, place_calls};
pub use scale::Scale;
pub use sign::Sign;
