// A plan and a certificate held against a request file, for programs in C.
ghost use Rattle.std.specs.Prelude.{◌≡◌};
ghost use Rattle.reading.specs.Reading.{read_file};
ghost use Rattle.host.specs.Certified.{certified_refused, certify_told, certified_entry};

use crate::LightplanCertified;
use certify::{Certified, certify};
use reading::read_request;
use refusal::Refusal;

// Holds starts and weights, both by listing position, against the request in a file: whether they prove the plan to be the best there is.
// The reader's refusals at their offsets come first, then 16, 17, 18 of the plan, and 30 of the certificate.
#[unsafe(no_mangle)]
pub extern "C" fn lightplan_certify(
    file: &[u8],
    starts: &[u16],
    weights: &[u8],
    a: u8,
) -> LightplanCertified
    ensures { result ≡ certified_entry (read_file file.now) starts.now weights.now a }
{
    // Kept as it is: an exported function answers a struct of numbers and no Result, so there is no `?` in it.
    let request = match read_request(file) {
        Ok(request) => request,
        Err(why) => return certified_refused(1, why),
    };
    let reply = certify(request, starts, weights, a);
    certified_told(reply)
}

// The two ends, and whether they are one; or the refusal, and of what: of the plan, or of the certificate, which alone is refused by 30.
// Kept as it is: bare numbers for what is refused and for the outcome, since a C program reads them and an exported function answers no enum.
fn certified_told(reply: Result<Certified, Refusal>) -> LightplanCertified
    ensures { result ≡ certify_told reply }
{
    match reply {
        Ok(Certified::Best(end)) => LightplanCertified {
            refusal: 0,
            place: 0,
            which: 0,
            outcome: 1,
            end,
            low: end as u32,
        },
        Ok(Certified::AtLeast(low, end)) => LightplanCertified {
            refusal: 0,
            place: 0,
            which: 0,
            outcome: 2,
            end,
            low,
        },
        Err(why) => {
            // Kept as it is: `plan_or_certificate`, of which the promise speaks, tells the two apart by the number, as a C program does.
            if why.number() == 30 {
                return certified_refused(4, why);
            }
            certified_refused(2, why)
        }
    }
}

// A refusal is told by its number and its place, and by what is refused.
// Kept as it is: `From` takes a refusal alone, and this one is told what is refused besides.
fn certified_refused(which: u8, why: Refusal) -> LightplanCertified
    ensures { result ≡ certified_refused which why }
{
    LightplanCertified {
        refusal: why.number(),
        place: why.place(),
        which,
        ..LightplanCertified::default()
    }
}
