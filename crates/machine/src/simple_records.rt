// The plans of simple records, each with the place after it.
ghost use Rattle.std.specs.Prelude.{◌≡◌, ◌<◌};
ghost use Rattle.machine.specs.Plans.{table_at, planned, works, writes, lands_in};
ghost use Rattle.machine.specs.States.{words_in};
ghost use Rattle.model.specs.Machine.{words_of};
ghost use Rattle.model.specs.Records.{SimpleReaches};

use crate::values::operate;
use crate::{Effect, Next, Plan, Step};
use model::{Observation, Simple, Stop};

impl Step<'_> {
    fn load(&self, next: usize, dest: u8, array: u8, index: u8) -> Result<Plan, Stop>
        ensures plans { planned self.now result ≡ works self.now next (Simple.Load dest array index) }
        ensures lands { lands_in self.now result }
    {
        let i = self.reg(index);
        let (from, word) = self.access_to(array, i)?;
        Ok(Plan {
            next: self.at(next),
            effect: Effect::Register(dest, self.word_at(from, word)),
            seen: Observation::Address(array, i),
        })
    }

    fn store(&self, next: usize, array: u8, index: u8, source: u8) -> Result<Plan, Stop>
        ensures plans { planned self.now result ≡ works self.now next (Simple.Store array index source) }
        ensures lands { lands_in self.now result }
    {
        let i = self.reg(index);
        let (to, word) = self.access_to(array, i)?;
        Ok(Plan {
            next: self.at(next),
            effect: Effect::Word(to, word, self.reg(source)),
            seen: Observation::Address(array, i),
        })
    }

    // A fixed access: the word that the record names, whatever the path.
    fn load_fixed(&self, next: usize, dest: u8, array: u8, index: u16) -> Result<Plan, Stop>
        ensures plans { planned self.now result ≡ works self.now next (Simple.LoadFixed dest array index) }
        ensures lands { lands_in self.now result }
    {
        let value = self.word_at(array, usize::from(index));
        let seen = Observation::Address(array, u32::from(index));
        self.plain(self.at(next), Effect::Register(dest, value), seen)
    }

    fn store_fixed(&self, next: usize, array: u8, index: u16, source: u8) -> Result<Plan, Stop>
        ensures plans { planned self.now result ≡ works self.now next (Simple.StoreFixed array index source) }
        ensures lands { index < words_of (table_at self.now) array → lands_in self.now result }
    {
        let effect = Effect::Word(array, usize::from(index), self.reg(source));
        let seen = Observation::Address(array, u32::from(index));
        self.plain(self.at(next), effect, seen)
    }

    fn init(&self, next: usize) -> Result<Plan, Stop>
        ensures plans { planned self.now result ≡ works self.now next Simple.Init }
        ensures lands { lands_in self.now result }
    {
        if self.state.mis {
            return Err(Stop::InitMisspeculating);
        }
        let clear = Next {
            masked: false,
            ..self.at(next)
        };
        self.plain(clear, Effect::None, Observation::Nothing)
    }

    fn update(&self, next: usize, register: u8, sense: bool) -> Result<Plan, Stop>
        ensures plans { planned self.now result ≡ works self.now next (Simple.Update register sense) }
        ensures lands { lands_in self.now result }
    {
        let held = (self.reg(register) != 0) == sense;
        let updated = Next {
            masked: self.state.masked || !held,
            ..self.at(next)
        };
        self.plain(updated, Effect::None, Observation::Nothing)
    }

    // The value that a record other than the loads gives its dest.
    fn write(&self, next: usize, dest: u8, v: u32) -> Result<Plan, Stop>
        ensures plans { planned self.now result ≡ writes self.now next dest v }
        ensures lands { lands_in self.now result }
    {
        self.plain(
            self.at(next),
            Effect::Register(dest, v),
            Observation::Nothing,
        )
    }

    pub(crate) fn simple(&self, next: usize, r: Simple) -> Result<Plan, Stop>
        requires { SimpleReaches (words_in self.now.table.now) r }
        ensures plans { planned self.now result ≡ works self.now next r }
        ensures lands { lands_in self.now result }
    {
        match r {
            Simple::Const { dest, value } => self.write(next, dest, value),
            Simple::Op {
                dest,
                op,
                left,
                right,
            } => self.write(next, dest, operate(op, self.reg(left), self.reg(right))),
            Simple::Select {
                dest,
                cond,
                yes,
                no,
            } => {
                let chosen = if self.reg(cond) != 0 { yes } else { no };
                self.write(next, dest, self.reg(chosen))
            }
            Simple::Load { dest, array, index } => self.load(next, dest, array, index),
            Simple::Store {
                array,
                index,
                source,
            } => self.store(next, array, index, source),
            Simple::Init => self.init(next),
            Simple::Update { register, sense } => self.update(next, register, sense),
            Simple::Protect { dest, source } => {
                let value = self.reg(source);
                self.write(next, dest, if self.state.masked { u32::MAX } else { value })
            }
            Simple::LoadFixed { dest, array, index } => self.load_fixed(next, dest, array, index),
            Simple::StoreFixed {
                array,
                index,
                source,
            } => self.store_fixed(next, array, index, source),
        }
    }
}
