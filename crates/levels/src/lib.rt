// Levels: 0 public, 1 transient, 2 secret; and packed words of them. The methods of two words, and those of every slot,
// work on the whole word at once. Each contract holds for every word; what the forms that it names mean, slot by slot,
// is proved in Rattle.model.proofs.theory.Words.
#![tactic(auto)]

ghost use Rattle.std.specs.Prelude.{◌≡◌, ◌%◌, min, ltb};
ghost use Rattle.model.specs.Packing.{slot};
ghost use Rattle.model.specs.Rules.{settle};
ghost use Rattle.model.specs.Tests.{pick};
ghost use Rattle.model.specs.theory.Words.{lows, join_words, within_words, settle_word, put_word};

// A transient level made public.
#[tactic(auto, unfolding(model::specs::Rules::settle))]
pub fn settled(a: u8) -> u8
    ensures { result ≡ settle a }
{
    if a <= 1 { 0 } else { a }
}

// Packed levels: sixteen slots of two bits, slot 0 lowest.
#[derive(Clone, Copy, Debug, PartialEq, Eq)]
pub struct Levels(pub u32);

impl Levels {
    // Transient in each of the first n slots, public in the others.
    pub fn transients(n: u8) -> Levels
        ensures { result.0 ≡ lows (min n 16) }
    {
        if 16 <= n {
            return Levels(0x5555_5555);
        }
        let k = 2 * u32::from(n);
        Levels(0x5555_5555 & ((1 << k) - 1))
    }

    // The level in slot i; past the slots it is public.
    pub fn level(self, i: u8) -> u8
        ensures { result ≡ slot self.0 i }
    {
        if i < 16 {
            let k = 2 * u32::from(i);
            return ((self.0 >> k) % 4) as u8;
        }
        0
    }

    // These levels, but v, of two bits, in slot i; past the slots nothing changes.
    pub fn with(self, i: u8, v: u8) -> Levels
        ensures { result.0 ≡ pick (ltb i 16) (put_word self.0 i (v % 4)) self.0 }
    {
        if 16 <= i {
            return self;
        }
        let k = 2 * u32::from(i);
        let old = u32::from(self.level(i));
        let new = u32::from(v % 4);
        Levels(self.0 ^ ((old ^ new) << k))
    }

    // The larger level, slot by slot. A plain `|` would make 3 of 1 and 2.
    #[tactic(auto, unfolding(model::specs::theory::Words::lows, model::specs::theory::Words::join_words))]
    pub fn join(self, other: Levels) -> Levels
        ensures { result.0 ≡ join_words 16 self.0 other.0 }
    {
        let m = self.0 | other.0;
        Levels(m ^ (m & ((m >> 1) & 0x5555_5555)))
    }

    // Each level is at most that of the other: nothing rises where these are joined into it.
    #[tactic(auto, unfolding(model::specs::theory::Words::within_words))]
    pub fn within(self, other: Levels) -> bool
        ensures { result ≡ within_words 16 self.0 other.0 }
    {
        self.join(other) == other
    }

    // Every transient level made public: the high bits alone.
    #[tactic(auto, unfolding(model::specs::theory::Words::lows, model::specs::theory::Words::settle_word))]
    pub fn settled(self) -> Levels
        ensures { result.0 ≡ settle_word 16 self.0 }
    {
        Levels(self.0 & 0xaaaa_aaaa)
    }
}
