// The records before the code: sizes, arrays, signatures. In each: kind (3), length (2), fields (4), then 8.
#![tactic(auto)]

ghost use Rattle.std.specs.Prelude.{◌≡◌, [], Ok};
ghost use Rattle.format.specs.Head.{due_at, sizes_at, array_at, signature_at, arrays_at, signatures_at};

use format::{packed_at, packed_in, place_at};
use layout::Table;
use model::{Fault, Refusal};

// A record of this kind and of so many bytes is due, and stands there whole.
fn due(t: &[u8], at: usize, kind: u8, n: usize) -> Result<(), Refusal>
    ensures { result ≡ due_at kind t.now at n [] (Ok tt) }
{
    if t.len() <= at {
        return Err(Fault::TableCut.at(at));
    }
    if t[at] != kind {
        return Err(Fault::WrongKind.at(at));
    }
    if t.len() - at < n {
        return Err(Fault::TableCut.at(at));
    }
    Ok(())
}

// The sizes record: registers 1..16, arrays 0..8, functions 1..32.
#[tactic(auto, using(crate::proofs::Laws::due_then), unfolding(format::specs::Head::sizes_at))]
pub fn sizes(t: &[u8], at: usize) -> Result<usize, Refusal>
    ensures { result ≡ sizes_at t.now at }
{
    due(t, at, 1, 4)?;
    let registers = t[at + 1];
    let arrays = t[at + 2];
    let functions = t[at + 3];
    let fit = 1 <= registers && registers <= 16 && arrays <= 8 && 1 <= functions && functions <= 32;
    if !fit {
        return Err(Fault::OutOfRange.at(at));
    }
    Ok(at + 4)
}

#[tactic(auto, using(crate::proofs::Laws::due_then), unfolding(format::specs::Head::array_at))]
fn array(t: &[u8], at: usize) -> Result<usize, Refusal>
    ensures { result ≡ array_at t.now at }
{
    due(t, at, 2, 3)?;
    let words = place_at(t, at + 1);
    if words < 1 || 1024 < words {
        return Err(Fault::OutOfRange.at(at));
    }
    Ok(at + 3)
}

// The next n array records.
#[tactic(auto, unfolding(format::specs::Head::arrays_at))]
pub fn arrays(t: &[u8], n: u8, from: usize) -> Result<usize, Refusal>
    ensures { result ≡ arrays_at t.now n from }
{
    let mut at = from;
    for _ in 0..n {
        at = array(t, at)?;
    }
    Ok(at)
}

// A signature that n others follow. The last is the entry's.
#[tactic(auto, using(crate::proofs::Laws::due_then), unfolding(format::specs::Head::signature_at))]
fn signature(table: &Table, n: u8, at: usize) -> Result<usize, Refusal>
    ensures { result ≡ signature_at table.now.sizes table.now.bytes.now n at }
{
    let t = table.bytes;
    due(t, at, 3, 17)?;
    let into = packed_at(t, at + 3);
    let out = packed_at(t, at + 10);
    if !packed_in(table.sizes, into) || !packed_in(table.sizes, out) {
        return Err(Fault::OutOfRange.at(at));
    }
    if n == 0 && 1 <= into.status {
        return Err(Fault::EntryUpdated.at(at));
    }
    Ok(at + 17)
}

// The next n signatures.
#[tactic(auto, unfolding(format::specs::Head::signatures_at))]
pub fn signatures(table: &Table, n: u8, from: usize) -> Result<usize, Refusal>
    ensures { result ≡ signatures_at table.now.sizes table.now.bytes.now n from }
{
    let mut at = from;
    for follow in (0..n).rev() {
        at = signature(table, follow, at)?;
    }
    Ok(at)
}
