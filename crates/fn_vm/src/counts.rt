ghost use Rattle.std.specs.Prelude.{◌≤◌};

/// The limits of a run: cost, rows and size read, ranges, write operations, size written, size of the
/// reply.
#[derive(Clone, Copy)]
pub struct Limits {
    pub cost: u32,
    pub rows: u32,
    pub size: u32,
    pub ranges: u32,
    pub writes: u16,
    pub written: u32,
    pub reply: u32,
}

/// What a run has used up so far. Each insert is a write.
#[derive(Clone, Copy)]
pub struct Counts {
    pub cost: u32,
    pub rows: u32,
    pub size: u32,
    pub ranges: u32,
    pub writes: u16,
    pub written: u32,
    pub inserts: u16,
    ghost inserts_within: { inserts ≤ writes },
}
