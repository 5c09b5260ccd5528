//! The files, the streams and the arguments of the system, as a program is given them.
#![tactic(auto)]

mod command_line;
mod real_files;
mod real_sink;

pub use command_line::{Streams, arguments, behind_the_name, standard, without_memory};
pub use real_files::RealFiles;
pub use real_sink::RealSink;
