// What a walk does not change.
ghost use Rattle.search.specs.inner.Kept.{Sized};

// Who meets whom, the widths, the guard between any two, how many demands there are, the bound, at which a plan ends the walk, and how many
// steps it may take. The sizes are those that a walk takes, and the table reads alike both ways.
// Kept as it is: arrays of a fixed length with a count beside them, here and in a level. A level is copied as the walk goes down, each copy
// changes on its own, and there is no heap for entries that a slice would lend; the widths stand here as `compacted` hands them out.
#[derive(Drop)]
pub(crate) struct Setting {
    pub table: [[bool; 20]; 20],
    pub widths: [u16; 200],
    pub guard: u16,
    pub count: usize,
    pub bound: u16,
    pub limit: u32,
    ghost sized: { Sized table widths guard count },
}
