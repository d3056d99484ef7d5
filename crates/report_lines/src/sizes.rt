// The sizes of tables.
ghost use Rattle.std.specs.Prelude.{◌<◌};

// How many states and rows a table has, in five digits at most.
#[derive(Clone, Copy)]
pub struct Sizes {
    pub states: usize,
    pub rows: usize,
    ghost small: { (states < 100000) × (rows < 100000) },
}

// The sizes of a table, and of what archive and intake shrink it to.
#[derive(Clone, Copy)]
pub struct AllSizes {
    pub table: Sizes,
    pub archive: Sizes,
    pub intake: Sizes,
}
