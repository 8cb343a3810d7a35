// The demands of a request file in groups, for programs in C.
ghost use Rattle.std.specs.Prelude.{◌≡◌, [], ◌∷◌, length};
ghost use Rattle.reading.specs.Reading.{read_file};
ghost use Rattle.host.specs.Host.{grouped_refused, grouped_told, grouped_entry, starts_grouped, blockers_grouped};

use crate::LightplanGrouped;
use groups::{Grouped, groups};
use meeting::bound;
use reading::read_request;
use refusal::Refusal;

// Cuts the demands of the request in a file into so many groups, and takes the best that first fit makes of an order of these. With a
// plan `starts` gets its start of each demand by listing position, and `blockers` who keeps each demand from starting lower, 65535 for
// nobody. The reader's refusals at their offsets come first, then 10 for each buffer, and 24.
#[unsafe(no_mangle)]
pub extern "C" fn lightplan_groups(
    file: &[u8],
    m: usize,
    starts: &mut [u16],
    blockers: &mut [u16],
) -> LightplanGrouped
    ensures answer { result ≡ grouped_entry (read_file file.now) m (length starts.old ∷ length blockers.old ∷ []) }
    ensures starts { starts.new ≡
        starts_grouped (read_file file.now) m (length starts.old ∷ length blockers.old ∷ []) starts.old }
    ensures blockers { blockers.new ≡
        blockers_grouped (read_file file.now) m (length starts.old ∷ length blockers.old ∷ []) blockers.old }
{
    // Kept as it is: an exported function answers a struct of numbers and no Result, so there is no `?` in it.
    let request = match read_request(file) {
        Ok(request) => request,
        Err(why) => return LightplanGrouped::from(why),
    };
    let need = bound(request);
    let reply = groups(request, m, starts, blockers);
    grouped_told(need, m, reply)
}

// A refusal is told by its number and its place.
impl From<Refusal> for LightplanGrouped {
    ghost from_gives = { λ why told. told ≡ grouped_refused why };

    fn from(why: Refusal) -> LightplanGrouped {
        LightplanGrouped {
            refusal: why.number(),
            place: why.place(),
            order: [0; 8],
            ..LightplanGrouped::default()
        }
    }
}

// The numbers of a reply beside the bound, or the refusal. Of the order as many entries are told as there are groups; without a plan
// there are none.
// Kept as it is: a bare outcome, 1 or 2, since a C program reads it and an exported function answers no enum.
fn grouped_told(
    need: Result<u32, Refusal>,
    m: usize,
    reply: Result<Option<Grouped>, Refusal>,
) -> LightplanGrouped
    ensures { result ≡ grouped_told need m reply }
{
    match need {
        Ok(least) => match reply {
            Ok(Some(plan)) => {
                let order = plan.order;
                LightplanGrouped {
                    refusal: 0,
                    place: 0,
                    outcome: 1,
                    end: plan.end,
                    bound: least,
                    groups: m,
                    order,
                }
            }
            Ok(None) => LightplanGrouped {
                refusal: 0,
                place: 0,
                outcome: 2,
                end: 0,
                bound: least,
                groups: 0,
                order: [0; 8],
            },
            Err(why) => LightplanGrouped::from(why),
        },
        Err(why) => LightplanGrouped::from(why),
    }
}
