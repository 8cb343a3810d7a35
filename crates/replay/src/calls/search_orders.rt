// 06: limit (4), room, room, room, raw. Searches for the lowest end.
use crate::body::{Body, Malformed};
use crate::say;
use crate::say::{List, Refused};
use search::{Answer, Outcome};
use std::io::Stdout;

pub(crate) fn answer(stdout: Stdout, mut body: Body<'_>) -> Result<(), Malformed> {
    let limit = body.four()?;
    let starts_room = body.room()?;
    let order_room = body.room()?;
    let blockers_room = body.room()?;
    let request = body.request()?;
    body.end()?;
    let mut starts = [0xAAAA; 8192];
    let starts = &mut starts[..starts_room];
    let mut order = [0xAAAA; 8192];
    let order = &mut order[..order_room];
    let mut blockers = [0xAAAA; 8192];
    let blockers = &mut blockers[..blockers_room];
    match search::search(request, limit, starts, order, blockers) {
        Ok(answer) => show(stdout, answer),
        Err(why) => say::part(stdout, Refused(why)),
    }
    say::line(
        stdout,
        format_args!(" {} {} {}", List(starts), List(order), List(blockers)),
    );
    Ok(())
}

fn show(stdout: Stdout, answer: Answer) {
    let (word, end) = match answer.outcome {
        Outcome::Finished(end) => ("finished", end),
        Outcome::NothingFits => ("nofit", 0),
        Outcome::Unfinished(end) => ("unfinished", end),
        Outcome::UnfinishedEmpty => ("unfinished-empty", 0),
    };
    let Answer {
        bound,
        steps,
        reached,
        ruled,
        ..
    } = answer;
    say::part(
        stdout,
        format_args!(
            "{word} end {end} bound {bound} steps {steps} reached {reached} ruled {ruled}"
        ),
    );
}
