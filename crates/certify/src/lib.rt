// Certificates: a plan, and weights which prove that no plan ends below a certain end. Who found them, and how, does not matter.
#![tactic(auto)]

ghost use Rattle.std.specs.Prelude.{◌≡◌, ◌≤◌, ◌<◌, length};
ghost use Rattle.theory.specs.Orders.{listing};
ghost use Rattle.theory.specs.Certificate.{weighed, certified_end};
ghost use Rattle.request.specs.View.{view};
ghost use Rattle.meeting.specs.inner.Small.{problem_in, Small};
ghost use Rattle.certify.specs.Reply.{certify_reply, weight_of};
ghost use Rattle.certify.specs.inner.Sets.{told_in};

use certificate::check_certificate;
use meeting::{Compact, compacted};
use plan::check_starts;
use refusal::Refusal;
use request::Request;

mod certificate;

// What a plan and a certificate tell: this end is the best there is; or no plan ends below the first number, and this one ends at the
// second.
#[derive(Drop)]
pub enum Certified {
    Best(u16),
    AtLeast(u32, u16),
}

// Tests a plan as its check does, then the certificate: a weight for each demand, by listing position, such that demands of which no
// two share a link weigh at most `a` together, 1 or 2.
pub fn certify(
    request: Request,
    starts: &[u16],
    weights: &[u8],
    a: u8,
) -> Result<Certified, Refusal>
    ensures { result ≡ certify_reply (view request) starts.now weights.now a }
{
    let end = check_starts(request, starts)?;
    told_by(&compacted(request), end, weights, a)
}

// What a certificate tells of an accepted plan that ends here.
fn told_by(compact: &Compact, end: u16, weights: &[u8], a: u8) -> Result<Certified, Refusal>
    requires { Small compact.now }
    ensures { result ≡ told_in (problem_in compact.now) compact.now.guard compact.now.count weights.now a end }
{
    check_certificate(&compact.words, compact.count, weights, a)?;
    let sum = weighed_sum(compact, weights);
    let low = shared_out(sum, u32::from(a), u32::from(compact.guard));
    if low == u32::from(end) {
        Ok(Certified::Best(end))
    } else {
        Ok(Certified::AtLeast(low, end))
    }
}

// The widths, each with its guard, as often as its demand weighs.
fn weighed_sum(compact: &Compact, weights: &[u8]) -> u32
    requires small { Small compact.now }
    requires weights_len { length weights.now ≡ compact.now.count }
    ensures { (result ≡ weighed (problem_in compact.now) compact.now.guard (weight_of weights.now) (listing compact.now.count)) × (result < 100000000) }
{
    let guard = u32::from(compact.guard);
    let mut sum = 0;
    for (i, &weight) in weights.iter().enumerate() {
        let width = compact.widths[i];
        sum += u32::from(weight) * (u32::from(width) + guard);
    }
    sum
}

// A sum shared out over `a`, rounded up, without the last guard.
fn shared_out(sum: u32, a: u32, guard: u32) -> u32
    requires { (1 ≤ a) × (a ≤ 2) × (sum < 100000000) }
    ensures { result ≡ certified_end guard a sum }
{
    sum.div_ceil(a).saturating_sub(guard)
}
