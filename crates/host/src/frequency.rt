// A block's frequency, for programs in C.
ghost use Rattle.std.specs.Prelude.{◌≡◌};
ghost use Rattle.host.specs.Host.{frequency_told, frequency_entry};

use crate::LightplanFrequency;
use grid::{Band, Frequency, to_frequency};
use refusal::Refusal;

// Where the block of this start and width stands, in the band of these three numbers: 4, 9, 17, each at place 0.
#[unsafe(no_mangle)]
pub extern "C" fn lightplan_frequency(
    n0: i16,
    slots: u16,
    guard: u8,
    start: u16,
    width: u16,
) -> LightplanFrequency
    ensures { result ≡ frequency_entry n0 slots guard start width }
{
    match Band::new(n0, slots, guard) {
        Ok(band) => frequency_told(to_frequency(band, start, width)),
        Err(why) => frequency_told(Err(why)),
    }
}

// The numbers of a frequency, or the refusal.
fn frequency_told(reply: Result<Frequency, Refusal>) -> LightplanFrequency
    ensures { result ≡ frequency_told reply }
{
    match reply {
        Ok(centre) => LightplanFrequency {
            refusal: 0,
            place: 0,
            n: centre.n,
            m: centre.m,
            mhz: centre.mhz,
        },
        // Kept as it is: a refusal becomes a frequency in this one place, and a `From` for it alone would be longer.
        Err(why) => LightplanFrequency {
            refusal: why.number(),
            place: why.place(),
            ..LightplanFrequency::default()
        },
    }
}
