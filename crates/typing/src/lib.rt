// Document 01, "Typing, record by record": the check of a table.
#![tactic(auto)]

ghost use Rattle.std.specs.Prelude.{◌≡◌};
ghost use Rattle.typing.specs.Check.{check_at};

pub use environments::WordEnv;
use layout::Table;
use model::{Refusal, Walked};
use walks::ReadTable;

mod environments;
mod rules;
mod walks;

// How far the walk of a record came, and the environment there.
#[derive(Clone, Copy)]
pub struct Walk {
    pub to: Walked,
    pub env: WordEnv,
}

// Where the walk of a block ended, and the environment there.
#[derive(Clone, Copy)]
pub struct BlockEnd {
    pub place: usize,
    pub env: WordEnv,
}

// What is accepted: so many functions in so many bytes.
#[derive(Clone, Copy, Debug, PartialEq, Eq)]
pub struct Accepted {
    pub functions: u8,
    pub bytes: usize,
}

// What the check of a table answers: what it accepts, or the first fault with its place.
pub type Verdict = Result<Accepted, Refusal>;

// Checks a table. Nothing is kept between two calls.
#[tactic(auto, unfolding(crate::specs::Check::check_at))]
pub fn check(t: &[u8]) -> Verdict
    ensures { result ≡ check_at t.now }
{
    let sizes = reading::read(t)?;
    let table = ReadTable {
        table: Table { bytes: t, sizes },
    };
    table.functions()?;
    Ok(Accepted {
        functions: sizes.functions,
        bytes: t.len(),
    })
}
