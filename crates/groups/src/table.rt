// What the walk asks of a request, worked out once: who meets whom, and where the groups begin.
ghost use Rattle.std.specs.Prelude.{◌≡◌, ℕ, ◌≤◌, false, replicate, get_or};
ghost use Rattle.theory.specs.Groups.{group_size};
ghost use Rattle.groups.specs.inner.Table.{MeetingTable, GroupStarts};

use meeting::word_row;

// Writes who shares a link with whom, by the words of the routes, a row for each demand, into a table in which nobody does. The table is lent:
// one that is returned stands on the stack twice.
#[inline(never)]
pub(crate) fn fill_table(table: &mut [[bool; 200]; 200], words: [u64; 200], count: usize)
    requires empty { table.old ≡ replicate 200 (replicate 200 false) }
    requires count_bound { count ≤ 200 }
    requires by_index { (i : ℕ) → count ≤ i → get_or words i 0 ≡ 0 }
    ensures { MeetingTable words table.new }
{
    for i in 0..count {
        table[i] = word_row(words, i);
    }
}

// How many demands group g has: the first ones have one more, where the demands do not come out even.
fn group_size(count: usize, m: usize, g: usize) -> usize
    requires { 1 ≤ m }
    ensures { result ≡ group_size count m g }
{
    let size = count / m;
    if g < count % m { size + 1 } else { size }
}

// Where the groups begin, and behind the last of them where that ends.
pub(crate) fn group_starts(count: usize, m: usize) -> [usize; 9]
    requires { (1 ≤ m) × (m ≤ 8) × (count ≤ 200) }
    ensures { GroupStarts count m result }
{
    let mut first = [0usize; 9];
    for g in 0..m {
        first[g + 1] = first[g] + group_size(count, m, g);
    }
    first
}
