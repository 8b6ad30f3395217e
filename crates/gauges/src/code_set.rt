//! A set of event codes, and the members that it is put together from.
ghost use Rattle.std.specs.Prelude.{◌≡◌, ℕ, ◌<◌, ◌≤◌, Bool, false, not, ◌||◌, slice_index_or};
ghost use Rattle.gauges.specs.Codes.{covers};

/// The codes from `low` to `high`, both counted.
#[derive(Clone, Copy)]
pub struct Member {
    pub low: u8,
    pub high: u8,
}

/// A set of event codes.
#[derive(Clone, Copy)]
pub struct Codes {
    has: [bool; 256],
}

impl Codes {
    /// The set of no code.
    pub fn new() -> Codes
        ensures { (c : ℕ) → slice_index_or result.has c false ≡ false }
    {
        Codes { has: [false; 256] }
    }

    /// Whether the code is in the set.
    pub fn has(&self, code: u8) -> bool
        ensures { result ≡ slice_index_or self.now.has code false }
    {
        self.has[usize::from(code)]
    }

    // Puts each code of the member into the set.
    pub(crate) fn put_member(&mut self, member: Member)
        requires { member.low ≤ member.high }
        ensures { (c : ℕ) → slice_index_or self.new.has c false ≡ (slice_index_or self.old.has c false || covers member c) }
    {
        self.has[usize::from(member.low)..=usize::from(member.high)].fill(true);
    }

    // Takes out what is in, and puts in what is not.
    pub(crate) fn turn(&mut self)
        ensures { (c : ℕ) → c < 256 → slice_index_or self.new.has c false ≡ not (slice_index_or self.old.has c false) }
    {
        for has in self.has.iter_mut() {
            *has = !*has;
        }
    }
}
