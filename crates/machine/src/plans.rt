// What one step would do, worked out on plain values before anything changes: the stop, or where it leads, the one
// word that changes, and the observation. The stack's array is looked at and never copied.
ghost use Rattle.std.specs.Prelude.{◌≡◌, ◌≤◌, length};
ghost use Rattle.format.specs.Format.{decode_at};
ghost use Rattle.machine.specs.Plans.{table_at, ctl_at, data_at, planned, lands_in, Due, IsDue};
ghost use Rattle.machine.specs.States.{ctl_of, view_plan, LandsIn};
ghost use Rattle.machine.specs.Turns.{data_in, table_of_machine};
ghost use Rattle.model.specs.Machine.{step, step_of, to, pass};

use crate::{Effect, Machine, Plan, State, Step};
use layout::Table;
use model::{Directive, Observation, Record, Refusal, Sizes, Stop};

// The record due at a place, and the place after it. The bytes are a parameter by themselves, since only there it is
// known what their type says: each is below 256, and so a place that a record names is below 65536.
fn due(bytes: &[u8], sizes: Sizes, place: usize) -> Result<(Record, usize), Refusal>
    requires { length bytes.now ≤ 32768 }
    ensures { (result ≡ decode_at sizes bytes.now place) × IsDue sizes bytes.now place result }
{
    records::decode(&Table { bytes, sizes }, place)
}

impl Machine<'_> {
    // What the record at the state's place would do under the directive. Where none can be read, RETURN stands for it.
    pub(crate) fn plan(&self, state: &State, dir: Directive) -> Result<Plan, Stop>
        ensures plans { view_plan (table_of_machine self.now) state.now result (data_in self.now state.now)
            ≡ step (table_of_machine self.now) (ctl_of state.now) dir (data_in self.now state.now) }
        ensures lands { LandsIn (table_of_machine self.now) result }
    {
        let step = Step {
            table: self.table,
            state,
            dir,
            regs: self.regs,
            mem: self.mem,
        };
        match due(self.table.bytes, self.table.sizes, state.place) {
            Ok((r, next)) => step.by_record(r, next),
            Err(_) => step.returning(),
        }
    }
}

impl Step<'_> {
    // What a record would do, with the place after it.
    fn by_record(&self, r: Record, next: usize) -> Result<Plan, Stop>
        requires { Due self.now.table.now.sizes self.now.table.now.bytes.now self.now.state.now.place r next }
        ensures plans { planned self.now result
            ≡ step_of (table_at self.now) r (ctl_at self.now) self.now.dir (data_at self.now) }
        ensures lands { lands_in self.now result }
    {
        match r {
            Record::Do(x) => self.simple(next, x),
            Record::Call { function, .. } => self.call(next, self.table.start_of(function)),
            Record::If { register, to } => self.forked(self.reg(register), next, to + 3),
            Record::Else { to } => self.pass_to(to + 1),
            Record::Endif => self.pass_to(next),
            Record::While { register, to, .. } => self.forked(self.reg(register), next, to + 3),
            Record::Endwhile { to } => self.pass_to(to),
            Record::Return => self.returning(),
        }
    }

    fn pass_to(&self, place: usize) -> Result<Plan, Stop>
        ensures plans { planned self.now result
            ≡ pass (table_at self.now) self.now.dir (data_at self.now) (to (ctl_at self.now) place) }
        ensures lands { lands_in self.now result }
    {
        self.plain(self.at(place), Effect::None, Observation::Nothing)
    }
}
