// Registers and memory, lent as words: the arrays lie one after another, and a store is lent the one array's stretch.
ghost use Rattle.std.specs.Prelude.{◌≡◌, ◌<◌, ◌≤◌, Bool, false, length, eqb, set};
ghost use Rattle.format.specs.Format.{words_from};
ghost use Rattle.machine.specs.Runs.{total};
ghost use Rattle.machine.specs.States.{words, applied, Lands, table_in, words_in};
ghost use Rattle.model.specs.Machine.{words_of, address};
ghost use Rattle.model.specs.Memory.{offset_in};
ghost use Rattle.model.specs.Tests.{pick};

use crate::Effect;
use layout::Table;

// Where array a begins: after the words of all arrays before it. Past the last array, where memory ends.
#[tactic(auto, using(crate::proofs::Words::offsets))]
pub(crate) fn offset_of(table: &Table, a: u8) -> usize
    ensures { (result ≡ offset_in (words_in table.now) a) × (result ≤ 16711680) }
{
    let mut offset = 0;
    for b in 0..a.min(table.sizes.arrays) {
        offset += table.words_at(b);
    }
    offset
}

// Registers and memory are of the table's sizes.
#[tactic(auto, using(crate::proofs::Words::offset_all))]
pub(crate) fn fits(table: &Table, regs: usize, mem: usize) -> bool
    ensures { result ≡ pick (eqb regs table.now.sizes.registers) (eqb mem (total (words_in table.now))) false }
{
    regs == usize::from(table.sizes.registers) && mem == offset_of(table, table.sizes.arrays)
}

// The words of array a; 0 where the table has no such array.
pub(crate) fn words_of(table: &Table, a: u8) -> usize
    ensures { (result ≡ words_of (table_in table.now) a) × (result < 65536) }
{
    if a < table.sizes.arrays {
        return table.words_at(a);
    }
    0
}

fn put(s: &mut [u32], i: usize, v: u32)
    ensures { s.new ≡ set s.old i v }
{
    if i < s.len() {
        s[i] = v;
    }
}

// Word i of array a becomes v. Only that array's stretch of memory is lent on, so the other arrays stay as they are.
fn store(table: &Table, mem: &mut [u32], a: u8, i: usize, v: u32)
    requires { (i < words_of (table_in table.now) a) × (length mem.old ≡ total (words_in table.now)) }
    ensures { mem.new ≡ set mem.old (address (table_in table.now) a i) v }
{
    let from = offset_of(table, a);
    let to = from + words_of(table, a);
    put(&mut mem[from..to], i, v);
}

// Does what a plan said.
pub(crate) fn apply(table: &Table, e: Effect, regs: &mut [u32], mem: &mut [u32])
    requires { Lands (table_in table.now) e × (length mem.old ≡ total (words_in table.now)) }
    ensures { (m : Bool) → words regs.new mem.new m ≡ applied (table_in table.now) e (words regs.old mem.old m) }
{
    match e {
        Effect::None => {}
        Effect::Register(d, v) => put(regs, usize::from(d), v),
        Effect::Word(a, i, v) => store(table, mem, a, i, v),
    }
}
