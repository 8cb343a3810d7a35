// Plan files, read and written.
#![tactic(auto)]

mod read;
mod write;

pub use read::read_plan;
pub use write::write_plan;
