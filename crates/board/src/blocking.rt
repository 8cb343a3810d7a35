// Who is in the way.
ghost use Rattle.std.specs.Prelude.{◌≡◌, ◌≤◌};
ghost use Rattle.theory.specs.Blocker.{blocker_at, blocker_below};
ghost use Rattle.board.specs.Board.{blocker_told};
ghost use Rattle.board.specs.inner.Beside.{problem_near, rows_near};

use crate::standing::Near;

impl<'a> Near<'a> {
    // The lowest number that clashes at a start.
    fn blocker_at(&self, start: u32) -> Option<u16>
        requires { start ≤ 65536 }
        ensures { result ≡ blocker_told (blocker_at (problem_near self.now) (rows_near self.now) 200 start) }
    {
        let reach = start + self.span;
        let number = self
            .past
            .iter()
            .zip(self.starts)
            .position(|(&end, &begin)| start < end && u32::from(begin) < reach)?;
        Some(number as u16)
    }

    // Who keeps a demand from starting lower: the lowest number that clashes at the start one lower, and nobody at 0.
    pub(crate) fn blocker_below(&self, start: u32) -> Option<u16>
        requires { start ≤ 65536 }
        ensures { result ≡ blocker_told (blocker_below (problem_near self.now) (rows_near self.now) 200 start) }
    {
        let below = start.checked_sub(1)?;
        self.blocker_at(below)
    }
}
