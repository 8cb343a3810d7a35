// The search for the lowest end: the tree of partial orders, walked depth first.
#![tactic(auto)]

mod call;
mod setting;
mod table;
mod tally;
mod walk;

pub use call::search;

// How a search came out: finished with the lowest end, nothing fits, or stopped for want of steps, with the best end met or with none.
#[derive(Clone, Copy)]
pub enum Outcome {
    Finished(u16),
    NothingFits,
    Unfinished(u16),
    UnfinishedEmpty,
}

// What a search answers: how it came out, the bound, the steps taken, the orders reached and the orders ruled out.
#[derive(Clone, Copy)]
pub struct Answer {
    pub outcome: Outcome,
    pub bound: u32,
    pub steps: u32,
    pub reached: u64,
    pub ruled: u64,
}
