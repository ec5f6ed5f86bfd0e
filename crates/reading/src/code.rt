// The code: functions, blocks, instructions. A block holds instructions and an instruction may hold blocks, so their
// readers call each other. What falls: the nesting that is left, from 16, and within a block the bytes left.
ghost use Rattle.std.specs.Prelude.{◌≡◌};
ghost use Rattle.reading.specs.Reading.{closing_byte, allowed, record_at, if_with, while_with, instr_at, block_at, blocks_at, function_at, functions_at};

use layout::Table;
use model::{Fault, Record, Refusal, Walked};

// The kinds of record that close a block or a function.
#[derive(Clone, Copy, Debug, PartialEq, Eq)]
enum Closing {
    Else,
    Endif,
    Endwhile,
    Return,
}

impl Closing {
    // Where this closing kind is awaited no other closing kind is allowed.
    #[tactic(auto, unfolding(crate::specs::Reading::allowed))]
    fn allows(self, kind: u8) -> bool
        ensures { result ≡ allowed (closing_byte self) kind }
    {
        match kind {
            0x21 => self == Closing::Else,
            0x22 => self == Closing::Endif,
            0x24 => self == Closing::Endwhile,
            0x25 => self == Closing::Return,
            _ => true,
        }
    }
}

// Where records of code are read: in a function of a table, with so many nestings left.
#[derive(Clone, Copy)]
struct Reader<'a> {
    table: Table<'a>,
    function: u8,
    depth: u8,
}

impl Reader<'_> {
    #[tactic(auto, unfolding(crate::specs::Reading::record_at))]
    fn record(&self, c: Closing, at: usize) -> Result<(Record, usize), Refusal>
        ensures { result ≡ record_at self.now.table.sizes self.now.table.bytes.now (closing_byte c) at }
    {
        let Some(&kind) = self.table.bytes.get(at) else {
            return Err(Fault::TableCut.at(at));
        };
        if c.allows(kind) {
            return records::decode(&self.table, at);
        }
        Err(Fault::WrongKind.at(at))
    }

    // The IF at `at`: two blocks, each closed by its own kind.
    #[tactic(auto, using(crate::proofs::Laws::blocks_is, crate::proofs::Laws::shut_else, crate::proofs::Laws::shut_one), unfolding(crate::specs::Reading::if_with))]
    #[cycle(block_branch_at_instr_loop_at)]
    fn branch_at(&self, at: usize, next: usize, to: usize) -> Result<Walked, Refusal>
        ensures { result ≡ if_with (blocks_at self.now.depth self.now.function self.now.table.sizes self.now.table.bytes.now at)
            self.now.table.bytes.now next to }
    {
        let depth = self.depth.checked_sub(1).ok_or(Fault::TooDeep.at(at))?;
        let inner = Reader { depth, ..*self };
        let p = inner.block(Closing::Else, next)?;
        if p != to {
            return Err(Fault::WrongPlace.at(p));
        }
        let q = inner.block(Closing::Endif, p + 3)?;
        if q != format::place_at(self.table.bytes, p + 1) {
            return Err(Fault::WrongPlace.at(q));
        }
        Ok(Walked::Next(q + 1))
    }

    // The WHILE at `at`: one block, whose end names the WHILE.
    #[tactic(auto, using(crate::proofs::Laws::blocks_is, crate::proofs::Laws::shut_endwhile), unfolding(crate::specs::Reading::while_with))]
    #[cycle(block_branch_at_instr_loop_at)]
    fn loop_at(&self, at: usize, next: usize, to: usize) -> Result<Walked, Refusal>
        ensures { result ≡ while_with (blocks_at self.now.depth self.now.function self.now.table.sizes self.now.table.bytes.now at)
            self.now.table.bytes.now at next to }
    {
        let depth = self.depth.checked_sub(1).ok_or(Fault::TooDeep.at(at))?;
        let inner = Reader { depth, ..*self };
        let p = inner.block(Closing::Endwhile, next)?;
        if p != to || format::place_at(self.table.bytes, p + 1) != at {
            return Err(Fault::WrongPlace.at(p));
        }
        Ok(Walked::Next(p + 3))
    }

    #[tactic(auto, using(crate::proofs::Laws::instr_is), unfolding(crate::specs::Reading::call_at))]
    #[cycle(block_branch_at_instr_loop_at)]
    fn instr(&self, c: Closing, at: usize) -> Result<Walked, Refusal>
        ensures { result ≡ instr_at self.now.depth self.now.function self.now.table.sizes self.now.table.bytes.now (closing_byte c) at }
    {
        let (record, next) = self.record(c, at)?;
        match record {
            Record::Do(_) => Ok(Walked::Next(next)),
            Record::Call { function, .. } if function < self.function => Ok(Walked::Next(next)),
            Record::Call { .. } => Err(Fault::CallNotLower.at(at)),
            Record::If { to, .. } => self.branch_at(at, next, to),
            Record::While { to, .. } => self.loop_at(at, next, to),
            Record::Else { .. } | Record::Endif | Record::Endwhile { .. } | Record::Return => {
                Ok(Walked::Shut(at))
            }
        }
    }

    #[tactic(auto, using(crate::proofs::Laws::block_is, crate::proofs::Laws::next_falls))]
    #[cycle(block_branch_at_instr_loop_at)]
    fn block(&self, c: Closing, from: usize) -> Result<usize, Refusal>
        ensures { result ≡ block_at self.now.depth self.now.function self.now.table.sizes self.now.table.bytes.now (closing_byte c) from }
    {
        let mut at = from;
        loop {
            match self.instr(c, at)? {
                Walked::Next(next) => at = next,
                Walked::Shut(end) => return Ok(end),
            }
        }
    }
}

// Function i, which begins at `at`. Its first record is looked at twice: its own 3, 2 and 4 come before its start
// place.
#[tactic(auto, using(crate::proofs::Laws::shut_one), unfolding(crate::specs::Reading::function_at))]
fn function(table: &Table, i: u8, at: usize) -> Result<usize, Refusal>
    ensures { result ≡ function_at table.now.sizes table.now.bytes.now i at }
{
    let reader = Reader {
        table: *table,
        function: i,
        depth: 16,
    };
    reader.record(Closing::Return, at)?;
    if at != table.start_of(i) {
        return Err(Fault::WrongPlace.at(at));
    }
    let end = reader.block(Closing::Return, at)?;
    Ok(end + 1)
}

// The functions, and nothing after them.
#[tactic(auto, using(crate::proofs::Laws::functions_next), unfolding(crate::specs::Reading::functions_at))]
pub(crate) fn functions(table: &Table, from: usize) -> Result<usize, Refusal>
    ensures { result ≡ functions_at table.now.sizes table.now.bytes.now table.now.sizes.functions from }
{
    let mut at = from;
    for i in 0..table.sizes.functions {
        at = function(table, i, at)?;
    }
    if at != table.bytes.len() {
        return Err(Fault::BytesAfterEnd.at(at));
    }
    Ok(at)
}
