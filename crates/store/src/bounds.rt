// Where a match lies in memory.
ghost use Rattle.std.specs.Prelude.{◌≡◌, ◌-◌, ◌≤◌, drop, length, take};

// Where a match lies: its includes, then its excludes, then what is after it.
#[derive(Clone, Copy)]
pub struct Bounds {
    pub includes: usize,
    pub excludes: usize,
    pub end: usize,
    ghost in_order: { (includes ≤ excludes) × (excludes ≤ end) },
}

impl Bounds {
    // The includes in memory.
    pub fn includes<'a>(self, mem: &'a [u32]) -> &'a [u32]
        requires { self.end ≤ length mem.now }
        ensures { result.now ≡ take (self.excludes - self.includes) (drop self.includes mem.now) }
    {
        &mem[self.includes..self.excludes]
    }

    // The excludes in memory.
    pub fn excludes<'a>(self, mem: &'a [u32]) -> &'a [u32]
        requires { self.end ≤ length mem.now }
        ensures { result.now ≡ take (self.end - self.excludes) (drop self.excludes mem.now) }
    {
        &mem[self.excludes..self.end]
    }
}
