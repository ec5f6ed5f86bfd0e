// One record of code. A kind's byte, its length and its fields are given in one place each: Kind::of, Kind::length and
// Fields::record.
#![tactic(auto)]

ghost use Rattle.std.specs.Prelude.{◌≡◌, ◌+◌, ◌<◌, ◌≤◌, length, IfSome, IfNone};
ghost use Rattle.format.specs.Format.{word16, code_length, decode_at};
ghost use Rattle.format.specs.Layout.{record_of, next_of};
ghost use Rattle.records.specs.Kinds.{kind_byte, byte_below, bit_at, operation_at, index_at, fields_of};

use format::{packed_at, packed_in, place_at, word_at};
use layout::Table;
use model::{Fault, Operation, Record, Refusal, Simple};

// A record of the code, and where the next one is due.
#[derive(Clone, Copy)]
pub struct Met {
    pub record: Record,
    pub next: usize,
}

// The kinds of code.
#[derive(Clone, Copy, Debug, PartialEq, Eq)]
enum Kind {
    Const,
    Op,
    Select,
    Load,
    Store,
    Init,
    Update,
    Protect,
    Call,
    LoadFixed,
    StoreFixed,
    If,
    Else,
    Endif,
    While,
    Endwhile,
    Return,
}

impl Kind {
    // The kind that a byte names.
    #[tactic(auto, unfolding(format::specs::Format::code_length))]
    fn of(byte: u8) -> Option<Kind>
        ensures some { IfSome result (λ k. kind_byte k ≡ byte) }
        ensures none { IfNone result (code_length byte ≡ 0) }
    {
        match byte {
            0x10 => Some(Kind::Const),
            0x11 => Some(Kind::Op),
            0x12 => Some(Kind::Select),
            0x13 => Some(Kind::Load),
            0x14 => Some(Kind::Store),
            0x15 => Some(Kind::Init),
            0x16 => Some(Kind::Update),
            0x17 => Some(Kind::Protect),
            0x18 => Some(Kind::Call),
            0x1B => Some(Kind::LoadFixed),
            0x1C => Some(Kind::StoreFixed),
            0x20 => Some(Kind::If),
            0x21 => Some(Kind::Else),
            0x22 => Some(Kind::Endif),
            0x23 => Some(Kind::While),
            0x24 => Some(Kind::Endwhile),
            0x25 => Some(Kind::Return),
            _ => None,
        }
    }

    // The length of a record of this kind, the kind byte counted.
    #[tactic(auto, unfolding(format::specs::Format::code_length))]
    fn length(self) -> usize
        ensures { (result ≡ code_length (kind_byte self)) × (0 < result) × (result < 12) }
    {
        match self {
            Kind::Const => 6,
            Kind::Op => 5,
            Kind::Select => 5,
            Kind::Load => 4,
            Kind::Store => 4,
            Kind::Init => 1,
            Kind::Update => 3,
            Kind::Protect => 3,
            Kind::Call => 3,
            Kind::LoadFixed => 5,
            Kind::StoreFixed => 5,
            Kind::If => 4,
            Kind::Else => 3,
            Kind::Endif => 1,
            Kind::While => 11,
            Kind::Endwhile => 3,
            Kind::Return => 1,
        }
    }
}

// The length of a record of code, the kind byte counted; 0 where no code has that kind.
#[tactic(auto, unfolding(format::specs::Format::code_length))]
pub fn code_length(kind: u8) -> usize
    ensures { (result ≡ code_length kind) × (result < 12) }
{
    Kind::of(kind).map_or(0, Kind::length)
}

// The record due at `at`. Refused, in this order: an unknown kind, a record cut short, a field out of range.
#[tactic(auto, using(crate::proofs::Laws::decode_by))]
pub fn decode(table: &Table, at: usize) -> Result<(Record, usize), Refusal>
    ensures { result ≡ decode_at table.now.sizes table.now.bytes.now at }
{
    if table.bytes.len() <= at {
        return Err(Fault::TableCut.at(at));
    }
    let Some(kind) = Kind::of(table.bytes[at]) else {
        return Err(Fault::WrongKind.at(at));
    };
    if table.bytes.len() - at < kind.length() {
        return Err(Fault::TableCut.at(at));
    }
    let fields = Fields { table: *table, at };
    let record = fields.record(kind)?;
    Ok((record, at + kind.length()))
}

// The record at a place, for loops over the code. Where none can be read, RETURN stands for it; from the table's end
// on, the place itself is the next.
#[tactic(auto, using(crate::proofs::Laws::met))]
pub fn record_at(table: &Table, at: usize) -> Met
    ensures { (result.record ≡ record_of table.now.sizes table.now.bytes.now at)
        × (result.next ≡ next_of table.now.sizes table.now.bytes.now at) }
{
    if table.bytes.len() <= at {
        return Met {
            record: Record::Return,
            next: at,
        };
    }
    match decode(table, at) {
        Ok((record, next)) => Met { record, next },
        Err(_) => Met {
            record: Record::Return,
            next: at + 1,
        },
    }
}

// A record whose bytes are all there: the fields of each kind, tested in their order.
#[derive(Clone, Copy)]
struct Fields<'a> {
    table: Table<'a>,
    at: usize,
    ghost inside: { at < length table.bytes.now },
}

#[tactic(auto, unfolding(crate::specs::Kinds::fields_of))]
impl Fields<'_> {
    // The record, which is of this kind.
    #[tactic(auto, unfolding(crate::specs::Kinds::fields_of, format::specs::Format::code_length))]
    fn record(&self, kind: Kind) -> Result<Record, Refusal>
        requires { self.now.at + code_length (kind_byte kind) ≤ length self.now.table.bytes.now }
        ensures { result ≡ fields_of (kind_byte kind) self.now.table.sizes self.now.table.bytes.now self.now.at }
    {
        match kind {
            Kind::Const => self.read_const(),
            Kind::Op => self.read_op(),
            Kind::Select => self.read_select(),
            Kind::Load => self.read_load(),
            Kind::Store => self.read_store(),
            Kind::Init => Ok(Record::Do(Simple::Init)),
            Kind::Update => self.read_update(),
            Kind::Protect => self.read_protect(),
            Kind::Call => self.read_call(),
            Kind::LoadFixed => self.read_load_fixed(),
            Kind::StoreFixed => self.read_store_fixed(),
            Kind::If => self.read_if(),
            Kind::Else => Ok(Record::Else { to: self.place(1) }),
            Kind::Endif => Ok(Record::Endif),
            Kind::While => self.read_while(),
            Kind::Endwhile => Ok(Record::Endwhile { to: self.place(1) }),
            Kind::Return => Ok(Record::Return),
        }
    }

    fn read_const(&self) -> Result<Record, Refusal>
        requires { self.now.at + 6 ≤ length self.now.table.bytes.now }
        ensures { result ≡ fields_of 0x10 self.now.table.sizes self.now.table.bytes.now self.now.at }
    {
        Ok(Record::Do(Simple::Const {
            dest: self.register(1)?,
            value: word_at(self.table.bytes, self.at + 2),
        }))
    }

    fn read_op(&self) -> Result<Record, Refusal>
        requires { self.now.at + 5 ≤ length self.now.table.bytes.now }
        ensures { result ≡ fields_of 0x11 self.now.table.sizes self.now.table.bytes.now self.now.at }
    {
        Ok(Record::Do(Simple::Op {
            dest: self.register(1)?,
            op: self.operation(2)?,
            left: self.register(3)?,
            right: self.register(4)?,
        }))
    }

    fn read_select(&self) -> Result<Record, Refusal>
        requires { self.now.at + 5 ≤ length self.now.table.bytes.now }
        ensures { result ≡ fields_of 0x12 self.now.table.sizes self.now.table.bytes.now self.now.at }
    {
        Ok(Record::Do(Simple::Select {
            dest: self.register(1)?,
            cond: self.register(2)?,
            yes: self.register(3)?,
            no: self.register(4)?,
        }))
    }

    fn read_load(&self) -> Result<Record, Refusal>
        requires { self.now.at + 4 ≤ length self.now.table.bytes.now }
        ensures { result ≡ fields_of 0x13 self.now.table.sizes self.now.table.bytes.now self.now.at }
    {
        Ok(Record::Do(Simple::Load {
            dest: self.register(1)?,
            array: self.array(2)?,
            index: self.register(3)?,
        }))
    }

    fn read_store(&self) -> Result<Record, Refusal>
        requires { self.now.at + 4 ≤ length self.now.table.bytes.now }
        ensures { result ≡ fields_of 0x14 self.now.table.sizes self.now.table.bytes.now self.now.at }
    {
        Ok(Record::Do(Simple::Store {
            array: self.array(1)?,
            index: self.register(2)?,
            source: self.register(3)?,
        }))
    }

    fn read_update(&self) -> Result<Record, Refusal>
        requires { self.now.at + 3 ≤ length self.now.table.bytes.now }
        ensures { result ≡ fields_of 0x16 self.now.table.sizes self.now.table.bytes.now self.now.at }
    {
        Ok(Record::Do(Simple::Update {
            register: self.register(1)?,
            sense: self.bit(2)?,
        }))
    }

    fn read_protect(&self) -> Result<Record, Refusal>
        requires { self.now.at + 3 ≤ length self.now.table.bytes.now }
        ensures { result ≡ fields_of 0x17 self.now.table.sizes self.now.table.bytes.now self.now.at }
    {
        Ok(Record::Do(Simple::Protect {
            dest: self.register(1)?,
            source: self.register(2)?,
        }))
    }

    fn read_call(&self) -> Result<Record, Refusal>
        requires { self.now.at + 3 ≤ length self.now.table.bytes.now }
        ensures { result ≡ fields_of 0x18 self.now.table.sizes self.now.table.bytes.now self.now.at }
    {
        Ok(Record::Call {
            function: self.below(1, self.table.sizes.functions)?,
            mark: self.bit(2)?,
        })
    }

    fn read_load_fixed(&self) -> Result<Record, Refusal>
        requires { self.now.at + 5 ≤ length self.now.table.bytes.now }
        ensures { result ≡ fields_of 0x1B self.now.table.sizes self.now.table.bytes.now self.now.at }
    {
        let dest = self.register(1)?;
        let array = self.array(2)?;
        let index = self.index(array, 3)?;
        Ok(Record::Do(Simple::LoadFixed { dest, array, index }))
    }

    fn read_store_fixed(&self) -> Result<Record, Refusal>
        requires { self.now.at + 5 ≤ length self.now.table.bytes.now }
        ensures { result ≡ fields_of 0x1C self.now.table.sizes self.now.table.bytes.now self.now.at }
    {
        let array = self.array(1)?;
        let index = self.index(array, 2)?;
        let source = self.register(4)?;
        Ok(Record::Do(Simple::StoreFixed {
            array,
            index,
            source,
        }))
    }

    fn read_if(&self) -> Result<Record, Refusal>
        requires { self.now.at + 4 ≤ length self.now.table.bytes.now }
        ensures { result ≡ fields_of 0x20 self.now.table.sizes self.now.table.bytes.now self.now.at }
    {
        Ok(Record::If {
            register: self.register(1)?,
            to: self.place(2),
        })
    }

    fn read_while(&self) -> Result<Record, Refusal>
        requires { self.now.at + 11 ≤ length self.now.table.bytes.now }
        ensures { result ≡ fields_of 0x23 self.now.table.sizes self.now.table.bytes.now self.now.at }
    {
        let register = self.register(1)?;
        let to = self.place(2);
        let env = packed_at(self.table.bytes, self.at + 4);
        if !packed_in(self.table.sizes, env) {
            return Err(Fault::OutOfRange.at(self.at));
        }
        Ok(Record::While { register, to, env })
    }
}

// One field: byte i of the record, the kind being byte 0, or the bytes from there on.
impl Fields<'_> {
    // A byte that must be below n.
    fn below(&self, i: u8, n: u8) -> Result<u8, Refusal>
        requires { self.now.at + i < length self.now.table.bytes.now }
        ensures { result ≡ byte_below self.now.table.bytes.now self.now.at i n }
    {
        let field = self.table.bytes[self.at + usize::from(i)];
        if n <= field {
            return Err(Fault::OutOfRange.at(self.at));
        }
        Ok(field)
    }

    fn register(&self, i: u8) -> Result<u8, Refusal>
        requires { self.now.at + i < length self.now.table.bytes.now }
        ensures { result ≡ byte_below self.now.table.bytes.now self.now.at i self.now.table.sizes.registers }
    {
        self.below(i, self.table.sizes.registers)
    }

    fn array(&self, i: u8) -> Result<u8, Refusal>
        requires { self.now.at + i < length self.now.table.bytes.now }
        ensures { result ≡ byte_below self.now.table.bytes.now self.now.at i self.now.table.sizes.arrays }
    {
        self.below(i, self.table.sizes.arrays)
    }

    fn bit(&self, i: u8) -> Result<bool, Refusal>
        requires { self.now.at + i < length self.now.table.bytes.now }
        ensures { result ≡ bit_at self.now.table.bytes.now self.now.at i }
    {
        Ok(self.below(i, 2)? == 1)
    }

    fn operation(&self, i: u8) -> Result<Operation, Refusal>
        requires { self.now.at + i < length self.now.table.bytes.now }
        ensures { result ≡ operation_at self.now.table.bytes.now self.now.at i }
    {
        Ok(match self.below(i, 8)? {
            0 => Operation::Add,
            1 => Operation::Sub,
            2 => Operation::Mul,
            3 => Operation::Xor,
            4 => Operation::And,
            5 => Operation::Or,
            6 => Operation::Less,
            _ => Operation::Equal,
        })
    }

    fn place(&self, i: u8) -> usize
        ensures { (result ≡ word16 self.now.table.bytes.now (self.now.at + i)) × (result < 65536) }
    {
        place_at(self.table.bytes, self.at + usize::from(i))
    }

    // The index of a word of array a. It is tested here, so that no run can stray from it.
    fn index(&self, a: u8, i: u8) -> Result<u16, Refusal>
        ensures { result ≡ index_at self.now.table.sizes self.now.table.bytes.now self.now.at a i }
    {
        let index = self.place(i);
        if self.table.words_at(a) <= index {
            return Err(Fault::OutOfRange.at(self.at));
        }
        Ok(index as u16)
    }
}
