// Plans checked against a request file, for programs in C.
ghost use Rattle.std.specs.Prelude.{◌≡◌, length};
ghost use Rattle.reading.specs.Reading.{read_file};
ghost use Rattle.host.specs.Host.{verdict_refused, check_told, verdict_entry, starts_read, starts_entry};

use crate::LightplanVerdict;
use meeting::bound;
use plan::check_starts;
use planfile::read_plan;
use reading::read_request;
use refusal::Refusal;

// Checks the plan in a plan file against the request in a request file. `starts` gets the start of each demand by listing position.
// The request reader's refusals at their offsets come first, then the plan reader's at theirs.
#[unsafe(no_mangle)]
pub extern "C" fn lightplan_check(file: &[u8], plan: &[u8], starts: &mut [u16]) -> LightplanVerdict
    ensures answer { result ≡ verdict_entry (read_file file.now) plan.now (length starts.old) }
    ensures starts { starts.new ≡ starts_read (read_file file.now) plan.now starts.old }
{
    // Kept as it is: an exported function answers a struct of numbers and no Result, so there is no `?` in it.
    let request = match read_request(file) {
        Ok(request) => request,
        Err(why) => return verdict_refused(1, why),
    };
    let need = bound(request);
    let reply = read_plan(request, plan, starts);
    check_told(need, reply)
}

// Checks starts by listing position against the request in a request file: the reader's refusals at their offsets come first, then
// 16, 17, 18. Starts behind the last demand's are not read.
#[unsafe(no_mangle)]
pub extern "C" fn lightplan_check_starts(file: &[u8], starts: &[u16]) -> LightplanVerdict
    ensures { result ≡ starts_entry (read_file file.now) starts.now }
{
    let request = match read_request(file) {
        Ok(request) => request,
        Err(why) => return verdict_refused(1, why),
    };
    let need = bound(request);
    let reply = check_starts(request, starts);
    check_told(need, reply)
}

// The end of an accepted plan beside its request's bound; or the refusal, and of what: of the request, which then has no bound, of the
// plan, or of the buffer for its starts.
// Kept as it is: a bare number for what is refused, since a C program reads it and an exported function answers no enum.
fn check_told(need: Result<u32, Refusal>, reply: Result<u16, Refusal>) -> LightplanVerdict
    ensures { result ≡ check_told need reply }
{
    let bound = match need {
        Ok(bound) => bound,
        Err(why) => return verdict_refused(1, why),
    };
    match reply {
        Ok(end) => LightplanVerdict {
            refusal: 0,
            place: 0,
            which: 0,
            end,
            bound,
        },
        // Kept as it is: `which_of`, of which the promise speaks, tells the two apart by the number, as a C program does.
        Err(why) if why.number() == 10 => verdict_refused(3, why),
        Err(why) => verdict_refused(2, why),
    }
}

// A refusal is told by its number and its place, and by what is refused.
// Kept as it is: `From` takes a refusal alone, and this one is told what is refused besides.
fn verdict_refused(which: u8, why: Refusal) -> LightplanVerdict
    ensures { result ≡ verdict_refused which why }
{
    LightplanVerdict {
        refusal: why.number(),
        place: why.place(),
        which,
        ..LightplanVerdict::default()
    }
}
