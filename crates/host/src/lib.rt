// The library's calls for programs in C: files and plans as bytes, answers as structs of numbers. An answer has the refusal 0 and
// the place 0. A refusal has its number, 1 to 21, 24 or 30, and its place; every other field is then 0, but for what was refused, and
// every lent buffer as it was.
#![tactic(auto)]

ghost use Rattle.std.specs.Prelude.{◌≡◌};
ghost use Rattle.host.specs.Host.{version};

mod certifying;
mod checking;
mod frequency;
mod grouping;
mod requests;
mod searching;

pub use certifying::lightplan_certify;
pub use checking::{lightplan_check, lightplan_check_starts};
pub use frequency::lightplan_frequency;
pub use grouping::lightplan_groups;
pub use requests::{lightplan_read, lightplan_read_routes};
pub use searching::lightplan_search;

// What a search answers. Outcome 1: finished, no plan ends lower; 2: nothing fits; 3: unfinished, with the best plan met; 4:
// unfinished, no plan met. A refusal has the outcome 0. Without a plan the end is 0.
#[repr(C)]
#[derive(Default, Drop)]
pub struct LightplanAnswer {
    pub refusal: u8,
    pub place: usize,
    pub outcome: u8,
    pub end: u16,
    pub bound: u32,
    pub steps: u32,
    pub reached: u64,
    pub ruled: u64,
}

// What groups answer. Outcome 1: a plan, the best of all orders of the groups; 2: none of them gives a plan. A refusal has the outcome 0.
// The order has as many entries as there are groups; all behind them are 0. Without a plan the end is 0, and the order has no entry.
#[repr(C)]
#[derive(Default, Drop)]
pub struct LightplanGrouped {
    pub refusal: u8,
    pub place: usize,
    pub outcome: u8,
    pub end: u16,
    pub bound: u32,
    pub groups: usize,
    pub order: [u16; 8],
}

// What the check of a plan answers: the plan's end, and the bound that no plan ends below. Which 0: accepted; 1: the request file is
// refused; 2: the plan; 3: the buffer for its starts.
#[repr(C)]
#[derive(Default, Drop)]
pub struct LightplanVerdict {
    pub refusal: u8,
    pub place: usize,
    pub which: u8,
    pub end: u16,
    pub bound: u32,
}

// What a plan and a certificate tell. Outcome 1: the plan is the best there is; 2: no plan ends below the certificate's end, and this one
// ends above that. Then `end` is the plan's end and `low` the certificate's, and which is 0. A refusal has the outcome 0, and which 1: the
// request file is refused; 2: the plan; 4: the certificate.
#[repr(C)]
#[derive(Default, Drop)]
pub struct LightplanCertified {
    pub refusal: u8,
    pub place: usize,
    pub which: u8,
    pub outcome: u8,
    pub end: u16,
    pub low: u32,
}

// Where a block stands on the grid: its central number, its width number and its central frequency.
#[repr(C)]
#[derive(Default, Drop)]
pub struct LightplanFrequency {
    pub refusal: u8,
    pub place: usize,
    pub n: i32,
    pub m: u16,
    pub mhz: i64,
}

// Which calls these are and how their answers are laid out.
const VERSION: u32 = 6;

// The version, which a header must have too to fit this library.
#[unsafe(no_mangle)]
pub extern "C" fn lightplan_version() -> u32
    ensures { result ≡ version }
{
    VERSION
}
