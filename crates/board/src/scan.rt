// The scan for the lowest start.
ghost use Rattle.std.specs.Prelude.{◌≡◌, ◌≤◌, min};
ghost use Rattle.theory.specs.Problem.{lowest};
ghost use Rattle.board.specs.inner.Beside.{problem_near, rows_near};

use crate::standing::Near;

impl<'a> Near<'a> {
    // The lowest start below a limit, or the limit. At each start all numbers are looked at; where some clash, the next start is the largest
    // end of those, guard included. A number that ends by the start cannot raise it, so only its other side is tested. Each start that
    // clashes passes a number for good, so there are no more starts than numbers that share a link, and one.
    pub(crate) fn lowest_below(&self, above: u32) -> u32
        requires { above ≤ 65536 }
        ensures { result ≡ min (lowest (problem_near self.now) (rows_near self.now) 200) above }
    {
        let mut start = 0;
        // Kept as it is: a labelled loop that yields the start is a form of the project (docs/DECISIONS.md, Forms).
        'scan: loop {
            if above <= start {
                break 'scan above;
            }
            let reach = start + self.span;
            let mut next = start;
            // Kept as it is: by index the compiler looks at several numbers at once; over a zip of the two it does not, and a look at 90 to
            // 200 numbers took 2 to 3.5 times as long.
            for j in 0..self.starts.len() {
                if (self.starts[j] as u32) < reach {
                    next = next.max(self.past[j]);
                }
            }
            if next == start {
                break 'scan start;
            }
            start = next;
        }
    }
}
