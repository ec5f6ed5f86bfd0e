// Document 01, "Numbers given back", 1 to 9: the forward reading of a table.
#![tactic(auto)]

ghost use Rattle.std.specs.Prelude.{◌≡◌, ℕ, Ok};
ghost use Rattle.model.specs.Numbers.{then};
ghost use Rattle.format.specs.Layout.{sizes_of};
ghost use Rattle.reading.specs.Reading.{read_at, parts_at};

use layout::Table;
use model::{Fault, Refusal, Sizes};

mod code;

// Reads a whole table: its sizes, or the first fault with its place.
#[tactic(auto, unfolding(crate::specs::Reading::read_at))]
pub fn read(t: &[u8]) -> Result<Sizes, Refusal>
    ensures { result ≡ read_at t.now }
{
    if 32768 < t.len() {
        return Err(Fault::TableTooLong.at(0));
    }
    all_parts(t)
}

// All that is read of a table that is not too long. (A function of its own, and called: so one that is too long costs
// the test alone.)
#[inline(never)]
fn all_parts(t: &[u8]) -> Result<Sizes, Refusal>
    ensures { result ≡ then (parts_at (sizes_of t.now) t.now) (λ (_ : ℕ). Ok (sizes_of t.now)) }
{
    let table = Table {
        bytes: t,
        sizes: layout::sizes_of(t),
    };
    parts(&table)?;
    Ok(table.sizes)
}

// Sizes, arrays, signatures, functions: each begins where the one before ends.
#[tactic(auto, unfolding(crate::specs::Reading::parts_at))]
fn parts(table: &Table) -> Result<usize, Refusal>
    ensures { result ≡ parts_at table.now.sizes table.now.bytes.now }
{
    let arrays = head::sizes(table.bytes, 0)?;
    let signatures = head::arrays(table.bytes, table.sizes.arrays, arrays)?;
    let functions = head::signatures(table, table.sizes.functions, signatures)?;
    code::functions(table, functions)
}
