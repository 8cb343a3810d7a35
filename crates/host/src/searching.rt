// The search of a request file, for programs in C.
ghost use Rattle.std.specs.Prelude.{◌≡◌};
ghost use Rattle.reading.specs.Reading.{read_file};
ghost use Rattle.search.specs.Reply.{outcome_number, outcome_end, buffers_of, rooms_of};
ghost use Rattle.host.specs.Host.{answer_refused, search_told, answer_entry, buffers_searched};

use crate::LightplanAnswer;
use reading::read_request;
use refusal::Refusal;
use search::{Answer, Outcome, search};

// Searches the request in a file with at most `limit` steps. With a plan `starts` gets its start of each demand by listing
// position, `order` the order that gave it, and `blockers` by listing position who keeps each demand from starting lower, 65535 for
// nobody. The reader's refusals at their offsets come first, then 11, and 10 for each buffer.
#[unsafe(no_mangle)]
pub extern "C" fn lightplan_search(
    file: &[u8],
    limit: u32,
    starts: &mut [u16],
    order: &mut [u16],
    blockers: &mut [u16],
) -> LightplanAnswer
    ensures answer { result ≡ answer_entry (read_file file.now) limit (rooms_of (buffers_of starts.old order.old blockers.old)) }
    ensures starts { starts.new ≡ (buffers_searched (read_file file.now) limit (buffers_of starts.old order.old blockers.old)).starts }
    ensures order { order.new ≡ (buffers_searched (read_file file.now) limit (buffers_of starts.old order.old blockers.old)).order }
    ensures blockers { blockers.new ≡ (buffers_searched (read_file file.now) limit (buffers_of starts.old order.old blockers.old)).blockers }
{
    // Kept as it is: an exported function answers a struct of numbers and no Result, so there is no `?` in it.
    let request = match read_request(file) {
        Ok(request) => request,
        Err(why) => return LightplanAnswer::from(why),
    };
    let reply = search(request, limit, starts, order, blockers);
    search_told(reply)
}

// A refusal is told by its number and its place.
impl From<Refusal> for LightplanAnswer {
    ghost from_gives = { λ why told. told ≡ answer_refused why };

    fn from(why: Refusal) -> LightplanAnswer {
        LightplanAnswer {
            refusal: why.number(),
            place: why.place(),
            ..LightplanAnswer::default()
        }
    }
}

// The numbers of an answer, or the refusal.
fn search_told(reply: Result<Answer, Refusal>) -> LightplanAnswer
    ensures { result ≡ search_told reply }
{
    match reply {
        Ok(answer) => LightplanAnswer {
            refusal: 0,
            place: 0,
            outcome: outcome_number(answer.outcome),
            end: outcome_end(answer.outcome),
            bound: answer.bound,
            steps: answer.steps,
            reached: answer.reached,
            ruled: answer.ruled,
        },
        Err(why) => LightplanAnswer::from(why),
    }
}

// Which of the four outcomes it is: 1 to 4.
// Kept as it is: a bare number, since a C program reads it and an exported function answers no enum.
#[tactic(auto, unfolding(search::specs::Reply::outcome_number))]
fn outcome_number(outcome: Outcome) -> u8
    ensures { result ≡ outcome_number outcome }
{
    match outcome {
        Outcome::Finished(_) => 1,
        Outcome::NothingFits => 2,
        Outcome::Unfinished(_) => 3,
        Outcome::UnfinishedEmpty => 4,
    }
}

// The end of the plan, 0 without one.
#[tactic(auto, unfolding(search::specs::Reply::outcome_end))]
fn outcome_end(outcome: Outcome) -> u16
    ensures { result ≡ outcome_end outcome }
{
    match outcome {
        Outcome::Finished(end) | Outcome::Unfinished(end) => end,
        Outcome::NothingFits | Outcome::UnfinishedEmpty => 0,
    }
}
