// The rules for single records: what a record asks of the environment, and the environment after it.
ghost use Rattle.std.specs.Prelude.{◌≡◌, ◌<◌, ◌≤◌, max, eqb, Some, None};
ghost use Rattle.model.specs.Decide.{fault_of};
ghost use Rattle.model.specs.Levels.{same_status};
ghost use Rattle.model.specs.Packing.{slot};
ghost use Rattle.model.specs.Records.{SimpleFits};
ghost use Rattle.model.specs.Rules.{beside, written, raised, stored, stored_fixed, fenced, updated, protected, after};
ghost use Rattle.model.specs.Tests.{pick};
ghost use Rattle.model.specs.theory.Whole.{NoThrees};
ghost use Rattle.model.specs.theory.Words.{NoThree};
ghost use Rattle.typing.specs.Envs.{view_env, Small};

use crate::WordEnv;
use crate::environments::{env_from, killed};
use levels::{Levels, settled};
use model::{Fault, Simple, Sizes, Status};

// The levels of so many arrays beside one into which level l is stored: what was public becomes transient, unless l
// is public.
fn beside_levels(arrays: Levels, count: u8, l: u8) -> Levels
    requires { NoThree (slot arrays.0) × (count ≤ 16) }
    ensures { slot result.0 ≡ (λ b. beside count l b (slot arrays.0 b)) }
{
    if l == 0 {
        return arrays;
    }
    arrays.join(Levels::transients(count))
}

// Where register i, an index, is not public.
fn index_fault(e: WordEnv, i: u8) -> Option<Fault>
    ensures { result ≡ pick (eqb ((view_env e).regs i) 0) None (Some Fault.NotPublic) }
{
    if e.is_public(i) {
        return None;
    }
    Some(Fault::NotPublic)
}

// Where the status is not s.
#[tactic(auto, unfolding(model::specs::Levels::same_status))]
fn status_fault(e: WordEnv, s: Status) -> Option<Fault>
    ensures { result ≡ pick (same_status (view_env e).status s) None (Some Fault.WrongStatus) }
{
    if e.status == s {
        return None;
    }
    Some(Fault::WrongStatus)
}

// A simple record's fault, where the environment does not give it what it asks.
pub(crate) fn fault_of(s: Simple, e: WordEnv) -> Option<Fault>
    ensures { result ≡ fault_of s (view_env e) }
{
    match s {
        Simple::Load { index, .. } | Simple::Store { index, .. } => index_fault(e, index),
        Simple::Update { register, sense } => status_fault(e, Status::Outdated(register, sense)),
        Simple::Protect { .. } => status_fault(e, Status::Updated),
        Simple::Const { .. }
        | Simple::Op { .. }
        | Simple::Select { .. }
        | Simple::Init
        | Simple::LoadFixed { .. }
        | Simple::StoreFixed { .. } => None,
    }
}

// Register d written at level l.
#[tactic(auto, using(crate::proofs::Packed::put_slot))]
fn written_env(e: WordEnv, d: u8, l: u8) -> WordEnv
    requires { (d < 16) × (l < 4) }
    ensures { view_env result ≡ written (view_env e) d l }
{
    let registers = e.registers.with(d, l);
    env_from(killed(d, e.status), registers, e.arrays)
}

#[tactic(auto, using(model::proofs::theory::Words::slot_small))]
fn after_op(e: WordEnv, dest: u8, left: u8, right: u8) -> WordEnv
    requires { dest < 16 }
    ensures { view_env result ≡ written (view_env e) dest
        (max ((view_env e).regs left) ((view_env e).regs right)) }
{
    let a = e.registers;
    written_env(e, dest, a.level(left).max(a.level(right)))
}

#[tactic(auto, using(model::proofs::theory::Words::slot_small))]
fn after_select(e: WordEnv, dest: u8, cond: u8, yes: u8, no: u8) -> WordEnv
    requires { dest < 16 }
    ensures { view_env result ≡ written (view_env e) dest
        (max ((view_env e).regs cond) (max ((view_env e).regs yes) ((view_env e).regs no))) }
{
    let a = e.registers;
    written_env(e, dest, a.level(cond).max(a.level(yes)).max(a.level(no)))
}

// A stray read may find anything that is not public: never public.
#[tactic(auto, using(model::proofs::theory::Words::slot_small))]
fn after_load(e: WordEnv, dest: u8, array: u8) -> WordEnv
    requires { dest < 16 }
    ensures { view_env result ≡ written (view_env e) dest (max 1 ((view_env e).arrays array)) }
{
    written_env(e, dest, e.arrays.level(array).max(1))
}

// A fixed place is never left, not even while misspeculating: the array's own level.
#[tactic(auto, using(model::proofs::theory::Words::slot_small))]
fn after_load_fixed(e: WordEnv, dest: u8, array: u8) -> WordEnv
    requires { dest < 16 }
    ensures { view_env result ≡ written (view_env e) dest ((view_env e).arrays array) }
{
    written_env(e, dest, e.arrays.level(array))
}

// The named array raised to the source's level, beside the others at the levels given.
#[tactic(auto, using(crate::proofs::Packed::put_slot, model::proofs::theory::Words::slot_small))]
fn raised_env(e: WordEnv, others: Levels, array: u8, source: u8) -> WordEnv
    requires { array < 16 }
    ensures { view_env result ≡ raised (view_env e) (slot others.0) array ((view_env e).regs source) }
{
    let named = e.arrays.level(array).max(e.registers.level(source));
    let arrays = others.with(array, named);
    env_from(e.status, e.registers, arrays)
}

// A stray write may reach every array.
fn after_store(z: Sizes, e: WordEnv, array: u8, source: u8) -> WordEnv
    requires { Small z × (array < 16) × NoThrees (view_env e) }
    ensures { view_env result ≡ stored z.arrays (view_env e) array source }
{
    let l = e.registers.level(source);
    let others = beside_levels(e.arrays, z.arrays, l);
    raised_env(e, others, array, source)
}

// A write at a fixed place reaches no other array.
fn after_store_fixed(e: WordEnv, array: u8, source: u8) -> WordEnv
    requires { array < 16 }
    ensures { view_env result ≡ stored_fixed (view_env e) array source }
{
    raised_env(e, e.arrays, array, source)
}

fn after_init(e: WordEnv) -> WordEnv
    requires { NoThrees (view_env e) }
    ensures { view_env result ≡ fenced (view_env e) }
{
    let registers = e.registers.settled();
    let arrays = e.arrays.settled();
    env_from(Status::Updated, registers, arrays)
}

fn after_update(e: WordEnv) -> WordEnv
    ensures { view_env result ≡ updated (view_env e) }
{
    env_from(Status::Updated, e.registers, e.arrays)
}

#[tactic(auto, using(crate::proofs::Packed::put_slot, crate::proofs::Packed::settle_small))]
fn after_protect(e: WordEnv, dest: u8, source: u8) -> WordEnv
    requires { dest < 16 }
    ensures { view_env result ≡ protected (view_env e) dest source }
{
    let registers = e.registers.with(dest, settled(e.registers.level(source)));
    env_from(Status::Updated, registers, e.arrays)
}

// The environment after a simple record whose fields are in range.
pub(crate) fn after_simple(z: Sizes, s: Simple, e: WordEnv) -> WordEnv
    requires { Small z × SimpleFits z.registers z.arrays s × NoThrees (view_env e) }
    ensures { view_env result ≡ after z.arrays s (view_env e) }
{
    match s {
        Simple::Const { dest, .. } => written_env(e, dest, 0),
        Simple::Op {
            dest,
            left,
            right,
            ..
        } => after_op(e, dest, left, right),
        Simple::Select {
            dest,
            cond,
            yes,
            no,
        } => after_select(e, dest, cond, yes, no),
        Simple::Load { dest, array, .. } => after_load(e, dest, array),
        Simple::Store { array, source, .. } => after_store(z, e, array, source),
        Simple::Init => after_init(e),
        Simple::Update { .. } => after_update(e),
        Simple::Protect { dest, source } => after_protect(e, dest, source),
        Simple::LoadFixed { dest, array, .. } => after_load_fixed(e, dest, array),
        Simple::StoreFixed { array, source, .. } => after_store_fixed(e, array, source),
    }
}
