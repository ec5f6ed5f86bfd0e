// The state by value: where a run starts, and what a step makes of it.
ghost use Rattle.std.specs.Prelude.{◌≡◌, false};
ghost use Rattle.machine.specs.States.{ctl_of, ctl_next, RoomFor, array_next, table_in};
ghost use Rattle.model.specs.Machine.{start_ctl};

use crate::{Next, Stacking, State};
use layout::Table;

// 01: "A start has the entry's first place, empty stack, no, clear."
pub(crate) fn start(table: &Table) -> State
    ensures { (ctl_of result ≡ start_ctl (table_in table.now) false) × (result.masked ≡ false) }
{
    State {
        place: table.start_of(table.sizes.functions.saturating_sub(1)),
        stack: [0; 32],
        depth: 0,
        mis: false,
        masked: false,
    }
}

// The state after a step. A place that is pushed is written at the depth; nothing else in the stack's array changes.
pub(crate) fn moved(s: &State, n: Next) -> State
    requires { RoomFor s.now n.stacking }
    ensures { (ctl_of result ≡ ctl_next s.now n) × (result.masked ≡ n.masked)
        × (result.stack ≡ array_next s.now n.stacking) }
{
    let mut stack = s.stack;
    let depth = match n.stacking {
        Stacking::Same => s.depth,
        Stacking::Push(q) => {
            stack[usize::from(s.depth)] = q;
            s.depth + 1
        }
        Stacking::Pop => s.depth.saturating_sub(1),
        Stacking::Clear => 0,
    };
    State {
        place: n.place,
        stack,
        depth,
        mis: n.mis,
        masked: n.masked,
    }
}
