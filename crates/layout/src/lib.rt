// The head of a table: where the arrays and the signatures stand, and what they say. All of it is read off the bytes
// whenever it is wanted, and bytes past the table's end count as 0.
#![tactic(auto)]

ghost use Rattle.std.specs.Prelude.{◌≡◌, ◌+◌, ◌*◌, ◌<◌};
ghost use Rattle.format.specs.Format.{array_place, words_at};
ghost use Rattle.format.specs.Layout.{sizes_of, signature_place, start_of, in_of, out_of};

use format::{byte_at, packed_at, place_at};
use model::{Packed, Sizes};

// The bytes of a table, with the sizes that its first record gives.
#[derive(Clone, Copy)]
pub struct Table<'a> {
    pub bytes: &'a [u8],
    pub sizes: Sizes,
}

// The sizes that the first record gives.
pub fn sizes_of(t: &[u8]) -> Sizes
    ensures { result ≡ sizes_of t.now }
{
    Sizes {
        registers: byte_at(t, 1),
        arrays: byte_at(t, 2),
        functions: byte_at(t, 3),
    }
}

impl Table<'_> {
    fn array_place(&self, a: u8) -> usize
        ensures { (result ≡ array_place self.now.sizes a) × (result < 1024) }
    {
        4 + 3 * usize::from(a)
    }

    // Where the signature of function f stands.
    fn signature_place(&self, f: u8) -> usize
        ensures { (result ≡ signature_place self.now.sizes f) × (result < 8192) }
    {
        self.array_place(self.sizes.arrays) + 17 * usize::from(f)
    }

    // The first place of function f.
    pub fn start_of(&self, f: u8) -> usize
        ensures { (result ≡ start_of self.now.sizes self.now.bytes.now f) × (result < 65536) }
    {
        place_at(self.bytes, self.signature_place(f) + 1)
    }

    // The in-environment of function f, packed.
    pub fn in_of(&self, f: u8) -> Packed
        ensures { result ≡ in_of self.now.sizes self.now.bytes.now f }
    {
        packed_at(self.bytes, self.signature_place(f) + 3)
    }

    // The out-environment of function f, packed.
    pub fn out_of(&self, f: u8) -> Packed
        ensures { result ≡ out_of self.now.sizes self.now.bytes.now f }
    {
        packed_at(self.bytes, self.signature_place(f) + 10)
    }

    // The words of array a.
    pub fn words_at(&self, a: u8) -> usize
        ensures { (result ≡ words_at self.now.sizes self.now.bytes.now a) × (result < 65536) }
    {
        place_at(self.bytes, self.array_place(a) + 1)
    }
}
