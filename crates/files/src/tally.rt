// What was compared.
ghost use Rattle.std.specs.Prelude.{◌≡◌, ◌+◌, ◌%◌, ◌^◌, cond};

// How many cases there are, and how many of them differ.
#[derive(Clone, Copy, Default)]
pub struct Tally {
    pub cases: u64,
    pub differ: u64,
}

impl Tally {
    // One more case.
    pub fn add(&mut self, agrees: bool)
        ensures cases { self.new.cases ≡ (self.old.cases + 1) % 2 ^ 64 }
        ensures differ { self.new.differ ≡ (self.old.differ + cond agrees 0 1) % 2 ^ 64 }
    {
        self.cases = self.cases.wrapping_add(1);
        self.differ = self.differ.wrapping_add(u64::from(!agrees));
    }
}
