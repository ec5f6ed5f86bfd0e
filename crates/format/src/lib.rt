// Document 01, "Table layout": the bytes of a table.
//
// Here: the numbers that records are made of, wherever they stand; bytes past the table's end count as 0. The crates
// `head` (the records before the code, read), `layout` (what they say, read off once more) and `records` (one record
// of code) are over these. The definitions of a table's bytes stand in specs/, for all four.
#![tactic(auto)]

ghost use Rattle.std.specs.Prelude.{◌≡◌, ◌+◌, ◌<◌};
ghost use Rattle.model.specs.Packing.{levels_in, packed_in};
ghost use Rattle.format.specs.Format.{byte, word16, word32, packed_at};

use model::{Packed, Sizes};

// The byte at p; 0 past the end.
pub fn byte_at(t: &[u8], p: usize) -> u8
    ensures { result ≡ byte t.now p }
{
    t.get(p).copied().unwrap_or(0)
}

// Two bytes, low byte first. Past the end they are 0.
fn half_at(t: &[u8], p: usize) -> u16
    ensures { result ≡ word16 t.now p }
{
    if p < t.len() {
        return u16::from_le_bytes([t[p], byte_at(t, p + 1)]);
    }
    0
}

// Two bytes, as a place.
pub fn place_at(t: &[u8], p: usize) -> usize
    ensures { (result ≡ word16 t.now p) × (result < 65536) }
{
    usize::from(half_at(t, p))
}

// Four bytes, low byte first.
pub fn word_at(t: &[u8], p: usize) -> u32
    ensures { result ≡ word32 t.now p }
{
    if p < t.len() {
        return four(t, p);
    }
    0
}

fn four(t: &[u8], p: usize) -> u32
    requires { p < 18446744073709551612 }
    ensures { result ≡ word32 t.now p }
{
    u32::from_le_bytes([
        byte_at(t, p),
        byte_at(t, p + 1),
        byte_at(t, p + 2),
        byte_at(t, p + 3),
    ])
}

// Seven bytes: status, registers, arrays.
pub fn packed_at(t: &[u8], p: usize) -> Packed
    ensures { result ≡ packed_at t.now p }
{
    if p < t.len() {
        return Packed {
            status: t[p],
            registers: four(t, p + 1),
            arrays: u32::from(half_at(t, p + 5)),
        };
    }
    Packed {
        status: 0,
        registers: 0,
        arrays: 0,
    }
}

// Of n packed levels none is 3, and nothing is above them.
#[tactic(auto, unfolding(model::specs::Packing::levels_in))]
fn levels_in(n: u8, w: u32) -> bool
    ensures { result ≡ levels_in n w }
{
    let mut left = w;
    for _ in 0..n {
        if left % 4 == 3 {
            return false;
        }
        left /= 4;
    }
    left == 0
}

// A packed environment that a table of these sizes may hold.
#[tactic(auto, unfolding(model::specs::Packing::packed_in))]
pub fn packed_in(z: Sizes, e: Packed) -> bool
    ensures { result ≡ packed_in z.registers z.arrays e }
{
    e.status < 2 && levels_in(z.registers, e.registers) && levels_in(z.arrays, e.arrays)
}
