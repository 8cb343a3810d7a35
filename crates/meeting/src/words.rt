// A request made small, for what is asked of it often: a request itself is some 10,000 bytes, and each function that takes one copies it.
ghost use Rattle.std.specs.Prelude.{◌≡◌};
ghost use Rattle.request.specs.View.{view};
ghost use Rattle.meeting.specs.Compact.{compact_of, share_bit, word_row};

use crate::Compact;
use crate::route::route_word;
use crate::row::asked_of;
use request::{Request, width_of};

// A request made small, in one go over its demands.
pub fn compacted(request: Request) -> Compact
    ensures { result ≡ compact_of (view request) }
{
    let band = request.band;
    let count = request.demand_count;
    let mut widths = [0; 200];
    let mut words = [0; 200];
    for (j, demand) in asked_of(&request.demands, count).iter().enumerate() {
        widths[j] = width_of(*demand);
        words[j] = route_word(demand.route());
    }
    Compact {
        slots: band.slots,
        guard: band.guard,
        count,
        widths,
        words,
    }
}

// Whether two words have a bit in common.
#[tactic(auto, unfolding(crate::specs::Compact::share_bit))]
pub fn share_bit(word: u64, other: u64) -> bool
    ensures { result ≡ share_bit word other }
{
    word & other != 0
}

// Whose words have a bit in common with the word at a place: nobody's where there is no such place.
pub fn word_row(words: [u64; 200], i: usize) -> [bool; 200]
    ensures { result ≡ word_row words i }
{
    let mut row = [false; 200];
    if words.len() <= i {
        return row;
    }
    let word = words[i];
    // Kept as it is: by index the compiler looks at several words at once; with `map` the words are copied and looked at one after the
    // other, and first fit took up to twice as long.
    for j in 0..200 {
        row[j] = share_bit(words[j], word);
    }
    row
}
