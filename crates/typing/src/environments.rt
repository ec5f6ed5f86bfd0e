// Environments: within, join, and what a block's entry, a call and a packed environment make of them.
ghost use Rattle.std.specs.Prelude.{◌≡◌, ℕ, eqb};
ghost use Rattle.model.specs.Levels.{join_status, covers, join, within};
ghost use Rattle.model.specs.Packing.{env_of};
ghost use Rattle.model.specs.Rules.{kill, guard_status, call_status, guarded, returned};
ghost use Rattle.model.specs.theory.Whole.{Whole, NoThrees};
ghost use Rattle.typing.specs.Envs.{env_from, view_env};

use levels::Levels;
use model::{Packed, Status};

// An environment: a status, and the levels of the registers and of the arrays, packed two bits a slot. The seven
// bytes of a table hold as much, but for the status: there it is never outdated.
#[derive(Clone, Copy)]
pub struct WordEnv {
    pub status: Status,
    pub registers: Levels,
    pub arrays: Levels,
}

#[tactic(auto, unfolding(model::specs::Levels::same_status))]
fn covers_status(a: Status, b: Status) -> bool
    ensures { result ≡ covers a b }
{
    b == Status::Unknown || a == b
}

#[tactic(auto, unfolding(model::specs::Levels::join_status, model::specs::Levels::same_status))]
fn join_status(a: Status, b: Status) -> Status
    ensures { result ≡ join_status a b }
{
    if a == b {
        return a;
    }
    Status::Unknown
}

// The status once register d is written.
#[tactic(auto, unfolding(model::specs::Rules::kill))]
pub(crate) fn killed(d: u8, a: Status) -> Status
    ensures { result ≡ kill d a }
{
    match a {
        Status::Outdated(r, _) if r == d => Status::Unknown,
        _ => a,
    }
}

#[tactic(auto, unfolding(model::specs::Rules::guard_status))]
fn guard_status(r: u8, s: bool, a: Status) -> Status
    ensures { result ≡ guard_status r s a }
{
    match a {
        Status::Updated => Status::Outdated(r, s),
        _ => Status::Unknown,
    }
}

#[tactic(auto, unfolding(model::specs::Rules::call_status))]
fn call_status(mark: bool, a: Status) -> Status
    ensures { result ≡ call_status mark a }
{
    match (mark, a) {
        (true, Status::Updated) => Status::Updated,
        _ => Status::Unknown,
    }
}

// Makes an environment of a status and the packed levels of registers and arrays. No other function writes a
// `WordEnv` down.
pub(crate) fn env_from(status: Status, registers: Levels, arrays: Levels) -> WordEnv
    ensures { view_env result ≡ env_from status registers.0 arrays.0 }
{
    WordEnv {
        status,
        registers,
        arrays,
    }
}

// What seven bytes mean: the two words go over as they are.
impl From<Packed> for WordEnv {
    fn from(p: Packed) -> WordEnv
        ensures { view_env result ≡ env_of p }
    {
        env_from(
            Status::from(p.status),
            Levels(p.registers),
            Levels(p.arrays),
        )
    }
}

impl WordEnv {
    // Register i is public.
    pub(crate) fn is_public(self, i: u8) -> bool
        ensures { result ≡ eqb ((view_env self).regs i) 0 }
    {
        self.registers.level(i) == 0
    }

    // Within another, over any number of slots that both keep to.
    pub(crate) fn within(self, other: WordEnv) -> bool
        ensures { (n m : ℕ) → Whole n m (view_env self) → Whole n m (view_env other)
            → result ≡ within n m (view_env self) (view_env other) }
    {
        covers_status(self.status, other.status)
            && self.registers.within(other.registers)
            && self.arrays.within(other.arrays)
    }

    // The larger level slot by slot; equal statuses stay, others become unknown.
    pub(crate) fn join(self, other: WordEnv) -> WordEnv
        requires { NoThrees (view_env self) × NoThrees (view_env other) }
        ensures { view_env result ≡ join (view_env self) (view_env other) }
    {
        let status = join_status(self.status, other.status);
        let registers = self.registers.join(other.registers);
        let arrays = self.arrays.join(other.arrays);
        env_from(status, registers, arrays)
    }

    // Entering a block on register r, which is not zero (true) or zero (false).
    pub(crate) fn guarded(self, r: u8, s: bool) -> WordEnv
        ensures { view_env result ≡ guarded (view_env self) r s }
    {
        env_from(guard_status(r, s, self.status), self.registers, self.arrays)
    }

    // After a CALL that was made in this environment: the callee's out levels.
    pub(crate) fn returned(self, out: WordEnv, mark: bool) -> WordEnv
        ensures { view_env result ≡ returned (view_env out) mark (view_env self) }
    {
        env_from(call_status(mark, out.status), out.registers, out.arrays)
    }
}
