//! The items and events of a report, and their exact bytes as text, CSV and JSON.
#![tactic(auto)]

mod event;
mod item;
mod line;
mod names;
mod numbers;
mod object;
mod query;
mod row;
#[cfg(test)]
mod tests;

pub use event::{Event, append_event, render_object, report_heading};
pub use item::{Cause, Item};
pub use line::{heading, render_line};
pub use query::{append_cq, append_leaf, render_cq};
