// The words of document 01 that every crate shares: faults and stops, statuses, packed environments, records.
// What they mean stands in specs/, in 01's order; the theorems over them in proofs/, and beside short definitions.
#![tactic(auto)]

ghost use Rattle.std.specs.Prelude.{◌≡◌};
ghost use Rattle.model.specs.Packing.{status_of};
ghost use Rattle.model.specs.Numbers.{fault_number, stop_number, refusal, Numbered};

// What is at fault, in 01's order. As numbers: 1 to 16.
#[derive(Clone, Copy, Debug, PartialEq, Eq)]
pub enum Fault {
    TableTooLong = 1,
    TableCut = 2,
    WrongKind = 3,
    OutOfRange = 4,
    WrongPlace = 5,
    TooDeep = 6,
    CallNotLower = 7,
    EntryUpdated = 8,
    BytesAfterEnd = 9,
    NotPublic = 10,
    WrongStatus = 11,
    LoopNotKept = 12,
    CallDoesNotFit = 13,
    ReturnDoesNotFit = 14,
    WrongLength = 15,
    BadList = 16,
}

impl Fault {
    // The refusal for this fault at a place.
    pub fn at(self, place: usize) -> Refusal
        ensures { result ≡ refusal self place }
    {
        Refusal { fault: self, place }
    }
}

// A fault's number.
impl From<Fault> for u8 {
    fn from(fault: Fault) -> u8
        ensures { result ≡ fault_number fault }
    {
        fault as u8
    }
}

// A number that no fault has.
#[derive(Clone, Copy, Debug, PartialEq, Eq)]
pub struct NoFault(pub u8);

impl TryFrom<u8> for Fault {
    type Error = NoFault;

    ghost try_from_gives = { Numbered };

    fn try_from(number: u8) -> Result<Fault, NoFault> {
        match number {
            1 => Ok(Fault::TableTooLong),
            2 => Ok(Fault::TableCut),
            3 => Ok(Fault::WrongKind),
            4 => Ok(Fault::OutOfRange),
            5 => Ok(Fault::WrongPlace),
            6 => Ok(Fault::TooDeep),
            7 => Ok(Fault::CallNotLower),
            8 => Ok(Fault::EntryUpdated),
            9 => Ok(Fault::BytesAfterEnd),
            10 => Ok(Fault::NotPublic),
            11 => Ok(Fault::WrongStatus),
            12 => Ok(Fault::LoopNotKept),
            13 => Ok(Fault::CallDoesNotFit),
            14 => Ok(Fault::ReturnDoesNotFit),
            15 => Ok(Fault::WrongLength),
            16 => Ok(Fault::BadList),
            _ => Err(NoFault(number)),
        }
    }
}

// A fault, and its place.
#[derive(Clone, Copy, Debug, PartialEq, Eq)]
pub struct Refusal {
    pub fault: Fault,
    pub place: usize,
}

// Why a run ends. As numbers: 20 to 26.
#[derive(Clone, Copy, Debug, PartialEq, Eq)]
pub enum Stop {
    ListUsedUp = 20,
    Returned = 21,
    WrongDirective = 22,
    InitMisspeculating = 23,
    AccessOutOfRange = 24,
    NoSuchTarget = 25,
    NoRoom = 26,
}

// A stop's number.
impl From<Stop> for u8 {
    fn from(stop: Stop) -> u8
        ensures { result ≡ stop_number stop }
    {
        stop as u8
    }
}

// The numbers of the sizes record.
#[derive(Clone, Copy)]
pub struct Sizes {
    pub registers: u8,
    pub arrays: u8,
    pub functions: u8,
}

// The flag status. Outdated(r, true) is 01's outdated(r, 1), "r is not zero".
#[derive(Clone, Copy, PartialEq, Eq)]
pub enum Status {
    Unknown,
    Updated,
    Outdated(u8, bool),
}

// A status byte as it stands in a table: 1 is updated.
impl From<u8> for Status {
    fn from(byte: u8) -> Status
        ensures { result ≡ status_of byte }
    {
        match byte {
            1 => Status::Updated,
            _ => Status::Unknown,
        }
    }
}

// An environment as it stands in a table: status byte, two bits a register, two bits an array.
#[derive(Clone, Copy)]
pub struct Packed {
    pub status: u8,
    pub registers: u32,
    pub arrays: u32,
}

// What OP does, by its numbers 0 to 7.
#[derive(Clone, Copy, Debug, PartialEq, Eq)]
pub enum Operation {
    Add,
    Sub,
    Mul,
    Xor,
    And,
    Or,
    Less,
    Equal,
}

// A record that goes on to the next one and touches registers, memory and flag alone.
#[derive(Clone, Copy)]
pub enum Simple {
    Const {
        dest: u8,
        value: u32,
    },
    Op {
        dest: u8,
        op: Operation,
        left: u8,
        right: u8,
    },
    Select {
        dest: u8,
        cond: u8,
        yes: u8,
        no: u8,
    },
    Load {
        dest: u8,
        array: u8,
        index: u8,
    },
    Store {
        array: u8,
        index: u8,
        source: u8,
    },
    Init,
    Update {
        register: u8,
        sense: bool,
    },
    Protect {
        dest: u8,
        source: u8,
    },
    LoadFixed {
        dest: u8,
        array: u8,
        index: u16,
    },
    StoreFixed {
        array: u8,
        index: u16,
        source: u8,
    },
}

// A decoded record of code.
#[derive(Clone, Copy)]
pub enum Record {
    Do(Simple),
    Call {
        function: u8,
        mark: bool,
    },
    If {
        register: u8,
        to: usize,
    },
    Else {
        to: usize,
    },
    Endif,
    While {
        register: u8,
        to: usize,
        env: Packed,
    },
    Endwhile {
        to: usize,
    },
    Return,
}

// How far a walk over the records of a block came: past one record, or one block with its ends; or to the record that
// closes the block.
#[derive(Clone, Copy)]
pub enum Walked {
    Next(usize),
    Shut(usize),
}

// A directive: what the machine's surroundings choose for one step.
#[derive(Clone, Copy)]
pub enum Directive {
    Plain,
    Branch(bool),
    Stray(u8, usize),
    Back(usize),
}

// An observation: what a step shows. Way(true) is 01's branch 1, "the register is not zero".
#[derive(Clone, Copy)]
pub enum Observation {
    Nothing,
    Way(bool),
    Address(u8, u32),
}
