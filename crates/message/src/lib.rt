// Document 01, "Numbers given back": the bytes that a fault message shows.
#![tactic(auto)]

ghost use Rattle.std.specs.Prelude.{◌≡◌, ℕ, ◌+◌, ◌-◌, ◌≤◌, min, length, take, drop};
ghost use Rattle.model.specs.Numbers.{fault_number};
ghost use Rattle.message.specs.Shown.{kind_length, directive_length, table_count, part_of};

use model::Fault;

// A part of the table or of the directive list: where it begins, and how many bytes it has.
#[derive(Clone, Copy, Debug, PartialEq, Eq)]
pub enum Part {
    Table(usize, usize),
    List(usize, usize),
}

// A start and a count, cut off where the slice ends.
fn clipped(s: &[u8], start: usize, count: usize) -> (usize, usize)
    ensures { result ≡ (min start (length s.now), min count (length s.now - start)) }
{
    (start.min(s.len()), count.min(s.len().saturating_sub(start)))
}

// The length of a record, by its kind.
fn kind_length(kind: u8) -> usize
    ensures { result ≡ kind_length kind }
{
    match kind {
        1 => 4,
        2 => 3,
        3 => 17,
        _ => records::code_length(kind),
    }
}

fn directive_length(kind: u8) -> usize
    ensures { result ≡ directive_length kind }
{
    match kind {
        0x60 => 1,
        0x61 => 2,
        0x62 => 4,
        0x63 => 3,
        _ => 1,
    }
}

// How many bytes show a fault that lies in the table.
fn table_count(t: &[u8], fault: Fault, p: usize) -> usize
    ensures { result ≡ table_count t.now (fault_number fault) p }
{
    match fault {
        Fault::TableCut => t.len().saturating_sub(p),
        Fault::WrongKind => 1,
        Fault::BytesAfterEnd => t.len().saturating_sub(p),
        _ => kind_length(format::byte_at(t, p)),
    }
}

// Which slice, from where, and how many bytes. What is no fault's number (a stop's, or any) shows nothing.
#[tactic(auto, unfolding(crate::specs::Shown::part_of))]
pub fn part_of(table: &[u8], list: &[u8], number: u8, place: usize) -> Part
    ensures { result ≡ part_of table.now list.now number place }
{
    let Ok(fault) = Fault::try_from(number) else {
        return Part::Table(0, 0);
    };
    match fault {
        Fault::TableTooLong | Fault::WrongLength => Part::Table(0, 0),
        Fault::BadList => {
            if 16384 < list.len() {
                return Part::Table(0, 0);
            }
            let count = directive_length(format::byte_at(list, place));
            let (start, count) = clipped(list, place, count);
            Part::List(start, count)
        }
        _ => {
            let (start, count) = clipped(table, place, table_count(table, fault, place));
            Part::Table(start, count)
        }
    }
}

fn slice_of<'a>(s: &'a [u8], start: usize, count: usize) -> &'a [u8]
    requires { start + count ≤ length s.now }
    ensures { (result.ref_ptr.0 ≡ s.entry.ref_ptr.0) × (result.ref_ptr.1 ≡ s.entry.ref_ptr.1 + start) × (result.now ≡ take count (drop start s.now)) }
{
    &s[start..start + count]
}

// The bytes that number and place show: a part of one of the two lent slices. Which one, and where it begins, the
// contract says by the pointer.
pub fn shown<'a>(table: &'a [u8], list: &'a [u8], number: u8, place: usize) -> &'a [u8]
    ensures in_table { (a k : ℕ) → part_of table.now list.now number place ≡ Part.Table a k →
        (result.ref_ptr.0 ≡ table.entry.ref_ptr.0) × (result.ref_ptr.1 ≡ table.entry.ref_ptr.1 + a) × (result.now ≡ take k (drop a table.now)) }
    ensures in_list { (a k : ℕ) → part_of table.now list.now number place ≡ Part.List a k →
        (result.ref_ptr.0 ≡ list.entry.ref_ptr.0) × (result.ref_ptr.1 ≡ list.entry.ref_ptr.1 + a) × (result.now ≡ take k (drop a list.now)) }
{
    let w = part_of(table, list, number, place);
    match w {
        Part::Table(a, k) => slice_of(table, a, k),
        Part::List(a, k) => slice_of(list, a, k),
    }
}
