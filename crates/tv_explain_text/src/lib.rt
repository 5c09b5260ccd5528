//! Texts that explain: the structures of a listing and those of a trail, each in one line, and the control
//! edges of a program.
#![tactic(auto)]

mod edges;
mod shown;
mod trails;

pub use edges::{edges_text, messages_at};
pub use shown::{append_node_line, shown_text};
pub use trails::{Told, append_alarm, append_link, append_opening, trail_text};
