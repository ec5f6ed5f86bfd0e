// Document 01, "The machine": a run of a table under a directive list.
#![tactic(auto)]

mod accesses;
mod bytes;
mod control;
mod makers;
mod memory;
mod plans;
mod returns;
mod simple_records;
mod states;
mod steps;
mod values;

ghost use Rattle.std.specs.Prelude.{◌≡◌, ◌≤◌, Ok, length};
ghost use Rattle.std.proofs.Props.{props};
ghost use Rattle.reading.specs.Reading.{read_at};
ghost use Rattle.machine.specs.Runs.{ran, run_at, total};
ghost use Rattle.machine.specs.States.{words_in};

use layout::Table;
use model::{Directive, Fault, Observation, Refusal, Stop};

// The machine's state beside registers and memory. The stack never needs more than 31 places; with a 32nd, and at the
// front, it is copied as four whole vector registers.
#[derive(Clone, Copy)]
pub struct State {
    pub stack: [u16; 32],
    pub place: usize,
    pub depth: u8,
    pub mis: bool,
    pub masked: bool,
}

// What a step does to registers and memory: nothing, one register, one word of an array.
#[derive(Clone, Copy)]
pub enum Effect {
    None,
    Register(u8, u32),
    Word(u8, usize, u32),
}

// What a step does to the stack.
#[derive(Clone, Copy)]
pub enum Stacking {
    Same,
    Push(u16),
    Pop,
    Clear,
}

// Where a step leads: the state after it, with what becomes of the stack in place of the stack.
#[derive(Clone, Copy)]
pub struct Next {
    pub place: usize,
    pub stacking: Stacking,
    pub mis: bool,
    pub masked: bool,
}

// What a step would do, worked out before anything changes.
#[derive(Clone, Copy)]
pub struct Plan {
    pub next: Next,
    pub effect: Effect,
    pub seen: Observation,
}

// What one step looks at: the table, the state before it, the directive that it uses, registers and memory.
#[derive(Clone, Copy)]
pub(crate) struct Step<'a> {
    pub table: &'a Table<'a>,
    pub state: &'a State,
    pub dir: Directive,
    pub regs: &'a [u32],
    pub mem: &'a [u32],
}

// The machine of a run: a table that reads, what is lent (registers, memory of the table's words, and a buffer for what
// is observed), and how much of the buffer is written.
#[derive(Drop)]
pub(crate) struct Machine<'a> {
    pub table: &'a Table<'a>,
    pub regs: &'a mut [u32],
    pub mem: &'a mut [u32],
    pub obs: &'a mut [u8],
    pub seen: usize,
    pub ghost reads: { read_at table.now.bytes.now ≡ Ok table.now.sizes } by { Prim.hlevel props },
    pub ghost long: { length mem.now ≡ total (words_in table.now) },
    pub ghost within: { seen ≤ length obs.now },
}

// How a run ended: why, the place it stands at, the steps taken, misspeculating, the flag.
#[derive(Clone, Copy, Debug, PartialEq, Eq)]
pub struct End {
    pub stop: Stop,
    pub place: usize,
    pub steps: usize,
    pub mis: bool,
    pub masked: bool,
}

// What a run answers: a refusal before its first step, or how it ended.
pub type Outcome = Result<End, Refusal>;

// Runs a table over lent registers and memory, and writes observations into a lent buffer. Every refusal leaves all
// three as they were; a run leaves exactly the effects of the steps it took.
#[tactic(auto, unfolding(crate::specs::Runs::run_at))]
pub fn run(t: &[u8], regs: &mut [u32], mem: &mut [u32], dirs: &[u8], obs: &mut [u8]) -> Outcome
    ensures { ran result regs.new mem.new obs.new ≡ run_at t.now regs.old mem.old dirs.now obs.old }
{
    let table = Table {
        bytes: t,
        sizes: reading::read(t)?,
    };
    if !memory::fits(&table, regs.len(), mem.len()) {
        return Err(Fault::WrongLength.at(0));
    }
    bytes::list_fault(dirs)?;
    let mut machine = Machine {
        table: &table,
        regs,
        mem,
        obs,
        seen: 0,
    };
    Ok(machine.all_steps(dirs))
}
