// The run's steps: each uses one directive and writes one observation, until a stop. Tested in the order 21, 20, 23,
// 24, 22, 25, 26, before anything changes: a plan is made first, and room for its observation looked for, before it
// is carried out.
ghost use Rattle.std.specs.Prelude.{◌≡◌};
ghost use Rattle.model.specs.Table.{entry};
ghost use Rattle.machine.specs.Runs.{ran, started};
ghost use Rattle.machine.specs.Turns.{lent_in, table_of_machine, Same, HasRoom, Acts, Steps, Turns};

use crate::bytes::{directive_at, put_observation, size_of};
use crate::memory::apply;
use crate::states::{moved, start};
use crate::{End, Machine, State};
use model::{Directive, Stop};

impl Machine<'_> {
    // The place of the entry's RETURN: the table's last byte.
    #[tactic(auto, using(crate::proofs::Going::last_byte))]
    fn last_place(&self) -> usize
        ensures { result ≡ (table_of_machine self.now).ret (entry (table_of_machine self.now)) }
    {
        self.table.bytes.len().saturating_sub(1)
    }

    // The step under one directive, on plain values: the state after it. A stop changes nothing.
    #[tactic(auto, using(crate::proofs::Stepping::acts))]
    fn act(&mut self, s: &State, dir: Directive) -> Result<State, Stop>
        requires { HasRoom (table_of_machine self.old) s.now }
        ensures same { Same self.old self.new }
        ensures acts { Steps (table_of_machine self.old) s.now dir (lent_in self.old) result (lent_in self.new) }
    {
        let plan = self.plan(s, dir)?;
        let size = size_of(plan.seen);
        if self.obs.len() - self.seen < size {
            return Err(Stop::NoRoom);
        }
        let after = moved(s, plan.next);
        put_observation(self.obs, self.seen, plan.seen);
        apply(self.table, plan.effect, self.regs, self.mem);
        self.seen += size;
        Ok(after)
    }

    // 01: "One step is given the machine's state by reference and updates it there."
    fn step(&mut self, s: &mut State, dir: Directive) -> Result<(), Stop>
        requires { HasRoom (table_of_machine self.old) s.old }
        ensures same { Same self.old self.new }
        ensures acts { Acts (table_of_machine self.old) s.old dir (lent_in self.old) result s.new (lent_in self.new) }
    {
        *s = self.act(s, dir)?;
        Ok(())
    }

    // One turn of the run, by the directive at a place: 21 first, then 20, then the step. The next directive's place.
    fn one_turn(&mut self, s: &mut State, dirs: &[u8], at: usize) -> Result<usize, Stop>
        requires { HasRoom (table_of_machine self.old) s.old }
        ensures same { Same self.old self.new }
        ensures turns { Turns (table_of_machine self.old) s.old dirs.now at
            (lent_in self.old) result s.new (lent_in self.new) }
    {
        if s.place == self.last_place() {
            return Err(Stop::Returned);
        }
        if dirs.len() <= at {
            return Err(Stop::ListUsedUp);
        }
        let Some((dir, next)) = directive_at(dirs, at) else {
            return Err(Stop::ListUsedUp);
        };
        self.step(s, dir)?;
        Ok(next)
    }

    // All the steps of a run, from 01's start.
    pub(crate) fn all_steps(&mut self, dirs: &[u8]) -> End
        requires { self.old.seen ≡ 0 }
        ensures same { Same self.old self.new }
        ensures ran { ran (Ok result) self.new.regs.now self.new.mem.now self.new.obs.now
            ≡ started self.old.table.now.sizes self.old.table.now.bytes.now
            self.old.regs.now self.old.mem.now dirs.now self.old.obs.now }
    {
        let mut s = start(self.table);
        let mut at = 0;
        let mut steps = 0;
        // (The label is the loop's name in its proofs.)
        'turns: loop {
            match self.one_turn(&mut s, dirs, at) {
                Ok(next) => {
                    at = next;
                    steps += 1;
                }
                Err(stop) => {
                    return End {
                        stop,
                        place: s.place,
                        steps,
                        mis: s.mis,
                        masked: s.masked,
                    };
                }
            }
        }
    }
}
