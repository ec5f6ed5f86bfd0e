// What records of code have in common: registers, the place that control goes on at, a plan under 60.
ghost use Rattle.std.specs.Prelude.{◌≡◌, get_or};
ghost use Rattle.machine.specs.Plans.{table_at, ctl_at, data_at, planned, goes_on, lands_in, takes_plain};
ghost use Rattle.machine.specs.States.{applied, ctl_next, Lands};
ghost use Rattle.model.specs.Machine.{did, flagged, onward, plain};

use crate::{Effect, Next, Plan, Stacking, Step};
use model::{Directive, Observation, Stop};

// The directive is 60; any other is 22.
pub(crate) fn takes_plain(dir: Directive) -> Result<(), Stop>
    ensures { result ≡ takes_plain dir }
{
    match dir {
        Directive::Plain => Ok(()),
        _ => Err(Stop::WrongDirective),
    }
}

impl Step<'_> {
    // The word in register r; 0 past the end.
    pub(crate) fn reg(&self, r: u8) -> u32
        ensures { result ≡ get_or self.now.regs.now r 0 }
    {
        self.regs.get(usize::from(r)).copied().unwrap_or(0)
    }

    // On at a place, and all else of the state as it is.
    pub(crate) fn at(&self, place: usize) -> Next
        ensures { result ≡ goes_on self.now place }
    {
        Next {
            place,
            stacking: Stacking::Same,
            mis: self.state.mis,
            masked: self.state.masked,
        }
    }

    // A record that takes 60.
    pub(crate) fn plain(&self, next: Next, effect: Effect, seen: Observation) -> Result<Plan, Stop>
        ensures plans { planned self.now result ≡ onward
            (plain self.now.dir
            (did (flagged (applied (table_at self.now) effect (data_at self.now)) next.masked) seen))
            (ctl_next self.now.state.now next) }
        ensures lands { Lands (table_at self.now) effect → lands_in self.now result }
    {
        takes_plain(self.dir)?;
        Ok(Plan { next, effect, seen })
    }
}
