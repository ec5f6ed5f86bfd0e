// The word that LOAD or STORE touches.
ghost use Rattle.std.specs.Prelude.{◌≡◌, ◌<◌, get_or};
ghost use Rattle.machine.specs.Plans.{table_at, accessed, within};
ghost use Rattle.model.specs.Machine.{address, strayed};

use crate::Step;
use crate::makers::takes_plain;
use crate::memory::{offset_of, words_of};
use model::{Directive, Stop};

impl Step<'_> {
    // Word i of array a is asked for: which word is touched, or the stop.
    #[tactic(auto, unfolding(model::specs::Machine::access))]
    pub(crate) fn access_to(&self, a: u8, i: u32) -> Result<(u8, usize), Stop>
        ensures word { result ≡ accessed self.now a i }
        ensures within { within self.now result }
    {
        let index = i as usize;
        if index < words_of(self.table, a) {
            takes_plain(self.dir)?;
            return Ok((a, index));
        }
        if !self.state.mis {
            return Err(Stop::AccessOutOfRange);
        }
        self.stray_to()
    }

    // Out of range, misspeculating: the directive names the word.
    fn stray_to(&self) -> Result<(u8, usize), Stop>
        ensures word { result ≡ strayed (table_at self.now) self.now.dir }
        ensures within { within self.now result }
    {
        let Directive::Stray(a, i) = self.dir else {
            return Err(Stop::WrongDirective);
        };
        if a < self.table.sizes.arrays && i < words_of(self.table, a) {
            return Ok((a, i));
        }
        Err(Stop::NoSuchTarget)
    }

    // Word i of array a.
    pub(crate) fn word_at(&self, a: u8, i: usize) -> u32
        requires { i < 65536 }
        ensures { result ≡ get_or self.now.mem.now (address (table_at self.now) a i) 0 }
    {
        self.mem
            .get(offset_of(self.table, a) + i)
            .copied()
            .unwrap_or(0)
    }
}
