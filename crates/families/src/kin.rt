// The kin of a word: all words that fit it, up to 32.
ghost use Rattle.std.specs.Prelude.{true, ◌≡◌, ◌<◌, ◌≤◌, List, [], ◌∷◌, ◌++◌, ℕ, length, take};
ghost use Rattle.families.specs.Kin.{most_kin};

use std::marker::Model;

// How many are told at most.
const MOST_KIN: usize = 32;

#[derive(Drop)]
pub struct Kin {
    numbers: [u32; MOST_KIN],
    count: usize,
}

impl Model for Kin {
    ghost Value = { List ℕ };

    ghost view = { λ kin. take kin.count kin.numbers };

    ghost invariant = { λ kin. kin.count ≤ most_kin };
}

impl Kin {
    pub fn new() -> Kin
        ensures { result ≡ [] }
    {
        Kin {
            numbers: [0; MOST_KIN],
            count: 0,
        }
    }

    pub fn clear(&mut self)
        ensures { self.new ≡ [] }
    {
        self.count = 0;
    }

    // Is there room for one more?
    pub fn has_room(&self) -> bool
        ensures { result ≡ true → length self.now < most_kin }
    {
        self.count < MOST_KIN
    }

    pub fn push(&mut self, number: u32)
        requires { length self.old < most_kin }
        ensures { self.new ≡ self.old ++ number ∷ [] }
    {
        self.numbers[self.count] = number;
        self.count += 1;
    }

    pub fn as_slice(&self) -> &[u32]
        ensures { result.now ≡ self.now }
    {
        &self.numbers[..self.count]
    }
}
