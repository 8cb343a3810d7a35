// 04: raw. The bound of a request.
use crate::body::{Body, Malformed};
use crate::say;
use crate::say::Refused;
use std::io::Stdout;

pub(crate) fn answer(stdout: Stdout, mut body: Body<'_>) -> Result<(), Malformed> {
    let request = body.request()?;
    body.end()?;
    match meeting::bound(request) {
        Ok(bound) => say::line(stdout, format_args!("bound {bound}")),
        Err(why) => say::line(stdout, Refused(why)),
    }
    Ok(())
}
