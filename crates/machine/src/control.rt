// The plans of CALL, IF and WHILE.
ghost use Rattle.std.specs.Prelude.{◌≡◌, ◌<◌};
ghost use Rattle.machine.specs.Plans.{table_at, ctl_at, data_at, planned, lands_in};
ghost use Rattle.machine.specs.States.{called};
ghost use Rattle.model.specs.Machine.{fork, pass};

use crate::{Effect, Next, Plan, Stacking, Step};
use model::{Directive, Observation, Stop};

impl Step<'_> {
    pub(crate) fn call(&self, next: usize, place: usize) -> Result<Plan, Stop>
        requires { next < 65536 }
        ensures plans { planned self.now result
            ≡ pass (table_at self.now) self.now.dir (data_at self.now) (called (ctl_at self.now) next place) }
        ensures lands { lands_in self.now result }
    {
        let pushed = Next {
            stacking: Stacking::Push(next as u16),
            ..self.at(place)
        };
        self.plain(pushed, Effect::None, Observation::Nothing)
    }

    // IF and WHILE on a register's value: way 1 goes to `yes`, way 0 to `no`. Misspeculating becomes yes if the way
    // differs from the register.
    pub(crate) fn forked(&self, value: u32, yes: usize, no: usize) -> Result<Plan, Stop>
        ensures plans { planned self.now result
            ≡ fork (table_at self.now) value yes no (ctl_at self.now) self.now.dir (data_at self.now) }
        ensures lands { lands_in self.now result }
    {
        let Directive::Branch(way) = self.dir else {
            return Err(Stop::WrongDirective);
        };
        let right = value != 0;
        let next = Next {
            mis: self.state.mis || way != right,
            ..self.at(if way { yes } else { no })
        };
        Ok(Plan {
            next,
            effect: Effect::None,
            seen: Observation::Way(right),
        })
    }
}
