// The frequency grid: a band with its limits, and the way from a block of slots to its frequency and back.
#![tactic(auto)]

ghost use Rattle.std.specs.Prelude.{◌≡◌, true, Ok, Err};
ghost use Rattle.refusal.specs.declared.Refusal.TheVariants.{BandOutside};
ghost use Rattle.grid.specs.Grid.{unless, allowed_edge, allowed_slots, allowed_band, band_reply, allowed_width, end_within, central_number, central_mhz, frequency_reply, gap_of, even_natural, half_of, block_at, block_reply};

use refusal::Refusal;

// A slotted part of the spectrum.
#[derive(Clone, Copy)]
pub struct Band {
    // The lower edge, in steps of 6.25 GHz from 193.1 THz.
    pub n0: i16,
    // How many slots of 12.5 GHz it has.
    pub slots: u16,
    // How many slots stay free between two neighbours on a link.
    pub guard: u8,
}

impl Band {
    pub const LOWEST_EDGE: i16 = -400;

    pub const HIGHEST_EDGE: i16 = 400;

    pub const LEAST_SLOTS: u16 = 1;

    pub const MOST_SLOTS: u16 = 384;

    pub const MOST_GUARD: u8 = 8;

    // The band of these numbers, or refusal 4 at place 0.
    pub fn new(n0: i16, slots: u16, guard: u8) -> Result<Band, Refusal>
        ensures { result ≡ band_reply n0 slots guard }
    {
        let band = Band { n0, slots, guard };
        band.check()?;
        Ok(band)
    }

    // Refusal 4 at place 0 where a number is outside its limits.
    fn check(self) -> Result<(), Refusal>
        ensures { result ≡ unless (allowed_band self) (Err (BandOutside 0)) (Ok tt) }
    {
        if self.allowed() {
            Ok(())
        } else {
            Err(Refusal::BandOutside(0))
        }
    }

    // Whether each number is within its limits. The fields are public, so every call that takes a band asks this first.
    pub fn allowed(self) -> bool
        ensures { result ≡ allowed_band self }
    {
        edge_allowed(self.n0) && slots_allowed(self.slots) && self.guard <= Band::MOST_GUARD
    }
}

fn edge_allowed(n0: i16) -> bool
    ensures { result ≡ allowed_edge n0 }
{
    (Band::LOWEST_EDGE..=Band::HIGHEST_EDGE).contains(&n0)
}

fn slots_allowed(slots: u16) -> bool
    ensures { result ≡ allowed_slots slots }
{
    (Band::LEAST_SLOTS..=Band::MOST_SLOTS).contains(&slots)
}

// Where a block stands on the grid.
#[derive(Drop)]
pub struct Frequency {
    // The central number, in steps of 6.25 GHz from 193.1 THz.
    pub n: i32,
    // The width number, in slots of 12.5 GHz.
    pub m: u16,
    // The central frequency.
    pub mhz: i64,
}

// A run of slots: `width` of them from slot `start` on.
#[derive(Drop)]
pub struct Block {
    pub start: u16,
    pub width: u16,
}

// The frequency of the block of this start and width; or refusal 4, 9 or 17, in that order, at place 0.
#[tactic(auto, unfolding(crate::specs::Grid::frequency_reply))]
pub fn to_frequency(band: Band, start: u16, width: u16) -> Result<Frequency, Refusal>
    ensures { result ≡ frequency_reply band start width }
{
    band.check()?;
    if !width_allowed(band.slots, width) {
        return Err(Refusal::BadWidth(0));
    }
    if !end_within(band.slots, u64::from(start), width) {
        return Err(Refusal::EndAbove(0));
    }
    let n = central_number(band.n0, start, width);
    Ok(Frequency {
        n,
        m: width,
        mhz: central_mhz(n),
    })
}

// The block whose central and width numbers these are; or refusal 4 or 19, in that order, at place 0.
#[tactic(auto, unfolding(crate::specs::Grid::block_reply))]
pub fn from_frequency(band: Band, n: i32, m: u16) -> Result<Block, Refusal>
    ensures { result ≡ block_reply band n m }
{
    band.check()?;
    if !width_allowed(band.slots, m) {
        return Err(Refusal::NoBlock(0));
    }
    block_at(band.slots, gap(band.n0, n, m), m)
}

// The block that starts at half of `twice`. Sign and oddness are tested before it is halved.
#[tactic(auto, unfolding(crate::specs::Grid::block_at))]
fn block_at(slots: u16, twice: i64, m: u16) -> Result<Block, Refusal>
    ensures { result ≡ block_at slots twice m }
{
    if !even_natural(twice) {
        return Err(Refusal::NoBlock(0));
    }
    let start = half(twice);
    if !end_within(slots, start, m) {
        return Err(Refusal::NoBlock(0));
    }
    Ok(Block {
        start: start as u16,
        width: m,
    })
}

// A width is 1 to the slot count.
pub fn width_allowed(slots: u16, width: u16) -> bool
    ensures { result ≡ allowed_width slots width }
{
    (1..=slots).contains(&width)
}

// An end is at most the slot count. A start and a width may add up to more than the type holds; what the width leaves of the slots never does.
pub fn end_within(slots: u16, start: u64, width: u16) -> bool
    ensures { result ≡ end_within slots start width }
{
    width <= slots && start <= u64::from(slots - width)
}

fn central_number(n0: i16, start: u16, width: u16) -> i32
    ensures { result ≡ central_number n0 start width }
{
    let steps = 2 * u32::from(start) + u32::from(width);
    i32::from(n0) + steps as i32
}

fn central_mhz(n: i32) -> i64
    ensures { result ≡ central_mhz n }
{
    193_100_000 + 6_250 * i64::from(n)
}

// Twice the start of the block, if there is one. 64 bits hold it whatever `n` is.
fn gap(n0: i16, n: i32, m: u16) -> i64
    ensures { result ≡ gap_of n0 n m }
{
    i64::from(n) - i64::from(n0) - i64::from(m)
}

fn even_natural(twice: i64) -> bool
    ensures { result ≡ even_natural twice }
{
    0 <= twice && twice % 2 == 0
}

// Halving is asked only of even numbers from 0 up: -1 and 1 would both give 0.
fn half(twice: i64) -> u64
    requires { even_natural twice ≡ true }
    ensures { result ≡ half_of twice }
{
    (twice / 2) as u64
}
