// The places of a section of the right length, by position.
ghost use Rattle.std.specs.Prelude.{◌≡◌, ◌+◌, ◌*◌, ◌≤◌, length};
ghost use Rattle.model.specs.Limits.{max_tokens};
ghost use Rattle.model.specs.Section.{second_at, size};

use super::order::Place;

#[derive(Clone, Copy)]
pub struct Places<'a> {
    pub section: &'a [u32],
    pub n: usize,

    ghost n_is: { n ≡ size section.now },
    ghost few: { n ≤ max_tokens },
    ghost sized: { length section.now ≡ 1 + 2 * n },
}

impl<'a> Places<'a> {
    pub fn at(&self, p: usize) -> Place
        requires { p ≤ self.now.n }
        ensures { result.0 ≡ second_at self.now.section.now p }
    {
        Place(self.section[self.n + p])
    }
}
