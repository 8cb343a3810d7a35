// What stands, made ready for the scan.
ghost use Rattle.std.specs.Prelude.{◌≡◌, ◌+◌, ◌-◌, ◌≤◌, ◌<◌, min, length, take};
ghost use Rattle.board.specs.inner.Near.{Blocks, PastEnds};

// What stands, as the scan sees it: blocks of slots, by number, and how far the demand to place beside them reaches.
#[derive(Drop)]
pub(crate) struct Near<'a> {
    // Where each block ends, the guard included; 0 for one that is not in the way.
    // Kept as it is: the starts stand in an array of their own beside it, since `place_one` is lent them so and they are not copied.
    pub(crate) past: [u32; 200],
    pub(crate) starts: &'a [u16],
    // The demand's width and the guard above it.
    pub(crate) span: u32,
    ghost blocks: { Blocks past starts.now (length starts.now) },
    ghost narrow: { span < 131072 },
}

impl<'a> Near<'a> {
    // What stands beside a demand: the first `count` numbers, of 200 at most.
    // Kept as it is: six parameters, since they are what the public `place_one` is given; a struct would be filled from them here alone.
    pub(crate) fn beside(
        meets: &[bool; 200],
        starts: &'a [u16; 200],
        ends: &[u16; 200],
        count: usize,
        width: u16,
        guard: u16,
    ) -> Near<'a>
        ensures past { PastEnds meets.now starts.now ends.now guard (min count 200) result.past }
        ensures starts { result.starts.now ≡ take (min count 200) starts.now }
        ensures span { result.span ≡ width + guard }
    {
        let numbers = count.min(200);
        Near {
            past: past_ends(meets, starts, ends, numbers, guard),
            starts: &starts[..numbers],
            span: u32::from(width) + u32::from(guard),
        }
    }
}

// The first start at which a demand ends above the slots: 0 for one that is wider.
pub(crate) fn first_above(width: u16, slots: u16) -> u32
    ensures { result ≡ (slots + 1) - width }
{
    (u32::from(slots) + 1).saturating_sub(u32::from(width))
}

// Where the numbers that are in the way of a demand end, the guard included; 0 for one that it does not meet, or that holds nothing.
fn past_ends(
    meets: &[bool; 200],
    starts: &[u16; 200],
    ends: &[u16; 200],
    numbers: usize,
    guard: u16,
) -> [u32; 200]
    requires { numbers ≤ 200 }
    ensures { PastEnds meets.now starts.now ends.now guard numbers result }
{
    let mut past = [0; 200];
    for j in 0..numbers {
        // Kept as it is: without a branch the compiler makes several ends at once; with `if` it made one after the other, and groups of
        // 150 demands took up to a third longer.
        let stands = meets[j] & (starts[j] < ends[j]);
        let past_end = u32::from(ends[j]) + u32::from(guard);
        past[j] = stands.then_some(past_end).unwrap_or(0);
    }
    past
}
