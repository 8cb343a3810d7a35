// 02: raw. Whether a request is sound.
use crate::body::{Body, Malformed};
use crate::say;
use crate::say::Refused;
use std::io::Stdout;

pub(crate) fn answer(stdout: Stdout, mut body: Body<'_>) -> Result<(), Malformed> {
    let request = body.request()?;
    body.end()?;
    match request::check_request(request) {
        Ok(()) => say::line(stdout, "sound"),
        Err(why) => say::line(stdout, Refused(why)),
    }
    Ok(())
}
