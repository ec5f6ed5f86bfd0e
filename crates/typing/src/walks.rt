// The typing walk: blocks and records in table order, the environment carried along. The readers' cycle once more:
// what falls is the nesting that is left, and within a block the bytes left.
ghost use Rattle.std.specs.Prelude.{◌≡◌, ◌+◌, ◌<◌, ◌≤◌, length};
ghost use Rattle.std.proofs.Props.{props};
ghost use Rattle.model.specs.Packing.{env_of};
ghost use Rattle.model.specs.Records.{SimpleFits};
ghost use Rattle.model.specs.Typing.{on_pass, type_all};
ghost use Rattle.model.specs.theory.Whole.{NoThrees};
ghost use Rattle.typing.specs.Envs.{view_env, Fit, AllSigned, Small};
ghost use Rattle.typing.specs.Walks.{view_walk, view_end, table, size, simple_walk, call_walk, if_walk, while_walk};
ghost use Rattle.typing.specs.Walks.{record_walk, block_walk, function_walk};

use crate::rules::{after_simple, fault_of};
use crate::{BlockEnd, Walk, WordEnv};
use layout::Table;
use model::{Fault, Packed, Record, Refusal, Simple, Walked};

// A table that has been read. Its sizes fit the slots, its signatures keep to them, and it is short.
#[derive(Clone, Copy)]
pub(crate) struct ReadTable<'a> {
    pub table: Table<'a>,
    ghost small: { Small table.sizes } by { Prim.hlevel props },
    ghost signed: { AllSigned table.sizes table.bytes.now } by { Prim.hlevel props },
    ghost short: { length table.bytes.now ≤ 32768 },
}

impl ReadTable<'_> {
    // The simple record at `at`, with `next` after it.
    fn simple(&self, s: Simple, at: usize, next: usize, e: WordEnv) -> Result<Walk, Refusal>
        requires { SimpleFits self.now.table.sizes.registers self.now.table.sizes.arrays s × NoThrees (view_env e) }
        ensures { view_walk result ≡ simple_walk self.now.table.sizes s at next (view_env e) }
    {
        if let Some(fault) = fault_of(s, e) {
            return Err(fault.at(at));
        }
        Ok(Walk {
            to: Walked::Next(next),
            env: after_simple(self.table.sizes, s, e),
        })
    }

    // The CALL of a function at `at`, with `next` after it.
    fn call(
        &self,
        function: u8,
        mark: bool,
        at: usize,
        next: usize,
        e: WordEnv,
    ) -> Result<Walk, Refusal>
        requires { (function < self.now.table.sizes.functions) × Fit self.now.table.sizes (view_env e) }
        ensures { view_walk result
            ≡ call_walk self.now.table.sizes self.now.table.bytes.now function mark at next (view_env e) }
    {
        let into = WordEnv::from(self.table.in_of(function));
        if !e.within(into) {
            return Err(Fault::CallDoesNotFit.at(at));
        }
        let out = WordEnv::from(self.table.out_of(function));
        Ok(Walk {
            to: Walked::Next(next),
            env: e.returned(out, mark),
        })
    }

    // The IF on a register at `at`: both blocks, then their join.
    #[cycle(block_branch_one_repeat)]
    fn branch(&self, at: usize, register: u8, depth: u8, e: WordEnv) -> Result<Walk, Refusal>
        requires { (at + 4 ≤ length self.now.table.bytes.now) × Fit self.now.table.sizes (view_env e) }
        ensures { view_walk result
            ≡ if_walk self.now.table.sizes self.now.table.bytes.now depth at register (view_env e) }
    {
        if !e.is_public(register) {
            return Err(Fault::NotPublic.at(at));
        }
        if depth == 0 {
            return Err(Fault::TooDeep.at(at));
        }
        let first = self.block(at + 4, depth - 1, e.guarded(register, true))?;
        let second = self.block(first.place + 3, depth - 1, e.guarded(register, false))?;
        Ok(Walk {
            to: Walked::Next(second.place + 1),
            env: first.env.join(second.env),
        })
    }

    // The WHILE on a register at `at`, with its loop environment. What arrives is compared before the guard is looked
    // at.
    #[cycle(block_branch_one_repeat)]
    fn repeat(
        &self,
        at: usize,
        register: u8,
        packed: Packed,
        depth: u8,
        e: WordEnv,
    ) -> Result<Walk, Refusal>
        requires { (at + 11 ≤ length self.now.table.bytes.now)
            × Fit self.now.table.sizes (view_env e) × Fit self.now.table.sizes (env_of packed) }
        ensures { view_walk result
            ≡ while_walk self.now.table.sizes self.now.table.bytes.now depth at register packed (view_env e) }
    {
        let kept = WordEnv::from(packed);
        if !e.within(kept) {
            return Err(Fault::LoopNotKept.at(at));
        }
        if !kept.is_public(register) {
            return Err(Fault::NotPublic.at(at));
        }
        if depth == 0 {
            return Err(Fault::TooDeep.at(at));
        }
        let body = self.block(at + 11, depth - 1, kept.guarded(register, true))?;
        if !body.env.within(kept) {
            return Err(Fault::LoopNotKept.at(body.place));
        }
        Ok(Walk {
            to: Walked::Next(body.place + 3),
            env: kept.guarded(register, false),
        })
    }

    // The record at `at`. Where none can be read, RETURN stands for it.
    #[cycle(block_branch_one_repeat)]
    fn one(&self, at: usize, depth: u8, e: WordEnv) -> Result<Walk, Refusal>
        requires { Fit self.now.table.sizes (view_env e) }
        ensures { view_walk result ≡ record_walk self.now.table.sizes self.now.table.bytes.now depth at (view_env e) }
    {
        let (record, next) = records::decode(&self.table, at).unwrap_or((Record::Return, at));
        match record {
            Record::Do(s) => self.simple(s, at, next, e),
            Record::Call { function, mark } => self.call(function, mark, at, next, e),
            Record::If { register, .. } => self.branch(at, register, depth, e),
            Record::While { register, env, .. } => self.repeat(at, register, env, depth, e),
            Record::Else { .. } | Record::Endif | Record::Endwhile { .. } | Record::Return => Ok(
                Walk {
                    to: Walked::Shut(at),
                    env: e,
                },
            ),
        }
    }

    // The records from `from` on, up to the one that closes the block.
    #[cycle(block_branch_one_repeat)]
    fn block(&self, from: usize, depth: u8, env: WordEnv) -> Result<BlockEnd, Refusal>
        requires { Fit self.now.table.sizes (view_env env) }
        ensures { view_end result ≡ block_walk self.now.table.sizes self.now.table.bytes.now depth
            (size self.now.table.sizes self.now.table.bytes.now) from (view_env env) }
    {
        let mut at = from;
        let mut e = env;
        loop {
            let w = self.one(at, depth, e)?;
            match w.to {
                Walked::Next(n) => {
                    at = n;
                    e = w.env;
                }
                Walked::Shut(p) => return Ok(BlockEnd {
                    place: p,
                    env: w.env,
                }),
            }
        }
    }

    // Function g, from its in-environment to its RETURN.
    fn function(&self, g: u8) -> Result<(), Refusal>
        requires { g < self.now.table.sizes.functions }
        ensures { result ≡ on_pass (function_walk self.now.table.sizes self.now.table.bytes.now g) (Ok tt) }
    {
        let into = WordEnv::from(self.table.in_of(g));
        let end = self.block(self.table.start_of(g), 16, into)?;
        let out = WordEnv::from(self.table.out_of(g));
        if !end.env.within(out) {
            return Err(Fault::ReturnDoesNotFit.at(end.place));
        }
        Ok(())
    }

    // The functions in table order, up to the first fault.
    pub(crate) fn functions(&self) -> Result<(), Refusal>
        ensures { result ≡ type_all (table self.now.table.sizes self.now.table.bytes.now)
            (size self.now.table.sizes self.now.table.bytes.now) }
    {
        for g in 0..self.table.sizes.functions {
            self.function(g)?;
        }
        Ok(())
    }
}
