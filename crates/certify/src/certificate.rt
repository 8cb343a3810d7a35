// The test of a certificate: pairs and threes of demands that share no link, told by the words of their routes.
ghost use Rattle.std.specs.Prelude.{◌≡◌, not, ◌&&◌, ◌+◌, ◌≤◌, ◌<◌, ltb, get_or, length};
ghost use Rattle.certify.specs.Reply.{check_weights, check_sets, heavy_three, heavy_with};
ghost use Rattle.certify.specs.inner.Sets.{sharing_in, checked_in, pair_heavy};

use meeting::share_bit;
use refusal::Refusal;

// 30 where the weights are no certificate for so many demands: a weight for each, none above `a`, 1 or 2, and no pair and no three that
// share no link weigh more.
pub(crate) fn check_certificate(
    words: &[u64; 200],
    count: usize,
    weights: &[u8],
    a: u8,
) -> Result<(), Refusal>
    requires { count ≤ 200 }
    ensures { result ≡ checked_in (sharing_in words.now) count weights.now a }
{
    if weights.len() != count || !(1..=2).contains(&a) {
        return Err(Refusal::NoCertificate(count));
    }
    check_weights(weights, a)?;
    let weighed = Weighed { words, weights, a };
    weighed.check_sets()
}

// 30 at the first weight above `a`.
fn check_weights(weights: &[u8], a: u8) -> Result<(), Refusal>
    ensures { result ≡ check_weights a 0 weights.now }
{
    for (i, &weight) in weights.iter().enumerate() {
        if a < weight {
            return Err(Refusal::NoCertificate(i));
        }
    }
    Ok(())
}

// Demands by listing position, each with its weight; the words of their routes tell which share a link. Of those of which no two do, none
// are to weigh more than `a` together.
// Kept as it is: the weights are lent beside the words, as `certify`, which is public, takes them so, and there is no heap to put the two
// together in.
#[derive(Drop)]
struct Weighed<'a> {
    words: &'a [u64; 200],
    weights: &'a [u8],
    a: u8,
    ghost few: { length weights.now ≤ 200 },
}

impl<'a> Weighed<'a> {
    // 30 at the first demand that is the first of a pair, or of three, that share no link and weigh more than `a` together.
    fn check_sets(&self) -> Result<(), Refusal>
        ensures { result ≡ check_sets (sharing_in self.now.words.now) self.now.weights.now self.now.a (length self.now.weights.now) 0 (length self.now.weights.now) }
    {
        // Kept as it is: a `find` of the first such place, and then an error made of it, is no plainer than the loop.
        for i in 0..self.weights.len() {
            if self.heavy_with(i) {
                return Err(Refusal::NoCertificate(i));
            }
        }
        Ok(())
    }

    // Whether demand i is the first of such a pair or three.
    fn heavy_with(&self, i: usize) -> bool
        requires { i < length self.now.weights.now }
        ensures { result ≡ heavy_with (sharing_in self.now.words.now) self.now.weights.now self.now.a (length self.now.weights.now) i }
    {
        if self.weights[i] == 0 {
            return false;
        }
        (i + 1..self.weights.len()).any(|j| self.heavy_pair(i, j))
    }

    // Whether demands i and j share no link and weigh more than `a` together, or do so with a third.
    fn heavy_pair(&self, i: usize, j: usize) -> bool
        requires { (i < j) × (j < length self.now.weights.now) }
        ensures { result ≡ pair_heavy (sharing_in self.now.words.now) self.now.weights.now self.now.a (length self.now.weights.now) i j }
    {
        let weight = self.weights[j];
        if share_bit(self.words[i], self.words[j]) || weight == 0 {
            return false;
        }
        let pair = u16::from(self.weights[i]) + u16::from(weight);
        u16::from(self.a) < pair || self.heavy_third(i, j, pair)
    }

    // Whether a demand behind these two weighs too much with them: it shares no link with either, and they weigh `pair`.
    fn heavy_third(&self, i: usize, j: usize, pair: u16) -> bool
        requires behind { (i < j) × (j < length self.now.weights.now) }
        requires pair_value { (pair ≡ get_or self.now.weights.now i 0 + get_or self.now.weights.now j 0) × (pair ≤ 510) }
        ensures { result ≡ heavy_three (sharing_in self.now.words.now) self.now.weights.now self.now.a (length self.now.weights.now) i j }
    {
        let word = self.words[i];
        let other = self.words[j];
        // Kept as it is: a turn takes three steps, and an `any` over a closure of a whole block is no plainer than the loop.
        for k in j + 1..self.weights.len() {
            let third = self.words[k];
            let shares = share_bit(word, third) | share_bit(other, third);
            if too_heavy(shares, self.weights[k], pair, self.a) {
                return true;
            }
        }
        false
    }
}

// Whether a demand that shares no link with a pair weighs something, and with it more than `a`.
fn too_heavy(shares: bool, weight: u8, pair: u16, a: u8) -> bool
    requires { pair ≤ 510 }
    ensures { result ≡ (not shares && (ltb 0 weight && ltb a (pair + weight))) }
{
    !shares && weight != 0 && u16::from(a) < pair + u16::from(weight)
}
