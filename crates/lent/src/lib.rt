// Lent result buffers: whether they have room, and how their front is written.
#![tactic(auto)]

ghost use Rattle.std.specs.Prelude.{◌≡◌, length, take};
ghost use Rattle.lent.specs.Lent.{over, check_room, check_rooms};

use refusal::Refusal;

// 10 where a buffer has less room than is needed; the place is the need.
#[tactic(auto, unfolding(crate::specs::Lent::check_room, request::specs::Check::must))]
pub fn check_room(need: usize, room: usize) -> Result<(), Refusal>
    ensures { result ≡ check_room need room }
{
    if room < need {
        Err(Refusal::BufferShort(need))
    } else {
        Ok(())
    }
}

// 10 where one of several buffers has less room than each of them needs; they are tested in this sequence.
pub fn check_rooms(need: usize, rooms: &[usize]) -> Result<(), Refusal>
    ensures { result ≡ check_rooms need rooms.now }
{
    if rooms.iter().any(|room| *room < need) {
        return Err(Refusal::BufferShort(need));
    }
    Ok(())
}

// Writes entries to the front of a buffer, as many as it has room for. What stands behind them stays.
pub fn write_front(entries: &[u16], out: &mut [u16])
    ensures { out.new ≡ over (take (length out.old) entries.now) out.old }
{
    // Kept as it is: with `copy_from_slice` a program that leaves out each second entry is a loop of another shape, and would be refused
    // for that alone.
    for k in 0..entries.len().min(out.len()) {
        out[k] = entries[k];
    }
}
