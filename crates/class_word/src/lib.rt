// Part 1 of document 01: the class word.
//
// `Info060::new` packs class, clocks and flags by shifts; `class`, `cycles` and `has` answer from the word alone. The
// crates of part 2 make words, and `window` and `cost` read them. `Clocks` is apart from raw counts, which `window`
// has.
#![tactic(auto)]

ghost use Rattle.std.specs.Prelude.{◌≡◌};
ghost use Rattle.class_word.specs.Word.{class_number, new_of, class_of, clocks_of, has, info, clocks};

// The dispatch classes.
#[derive(Clone, Copy, PartialEq, Eq)]
pub enum OepClass {
    PoepSoep = 0,
    PoepOnly = 1,
    PoepUntilLast = 2,
    PoepButAllowsSoep = 3,
}

// The entry of an opcode, packed: class(2) | clocks(5) | flags(9).
#[derive(Clone, Copy, PartialEq, Eq)]
pub struct Info060(pub u16);

// A number of 68060 clocks.
#[derive(Clone, Copy, PartialEq, Eq, PartialOrd, Ord)]
pub struct Clocks(pub u32);

const CLASS_SHIFT: u16 = 0;

const CYCLES_SHIFT: u16 = 2;

const CYCLES_MASK: u16 = 0x1F;

pub const F_BRANCH: u16 = 1 << 7;

pub const F_DBCC: u16 = 1 << 8;

pub const F_VARIABLE: u16 = 1 << 9;

pub const F_DEFINES_CCR: u16 = 1 << 10;

pub const F_USES_CCR_LATE: u16 = 1 << 11;

pub const F_EA_INDEXED: u16 = 1 << 12;

pub const F_UNCLASSIFIED: u16 = 1 << 13;

pub const F_READS_MEM: u16 = 1 << 14;

pub const F_WRITES_MEM: u16 = 1 << 15;

// The Rust's `class as u16`.
impl From<OepClass> for u16 {
    ghost from_gives = { λ class number. number ≡ class_number class };

    fn from(class: OepClass) -> u16 {
        class as u16
    }
}

impl Info060 {
    pub fn new(class: OepClass, cycles: u16, flags: u16) -> Self
        ensures { result ≡ info (new_of (class_number class) cycles flags) }
    {
        let number = u16::from(class);
        Info060(number << CLASS_SHIFT | (cycles & CYCLES_MASK) << CYCLES_SHIFT | flags)
    }

    // Stays a match on two bits: the form of document 01, and every word has a class.
    pub fn class(self) -> OepClass
        ensures { class_number result ≡ class_of self.0 }
    {
        match (self.0 >> CLASS_SHIFT) & 3 {
            0 => OepClass::PoepSoep,
            1 => OepClass::PoepOnly,
            2 => OepClass::PoepUntilLast,
            _ => OepClass::PoepButAllowsSoep,
        }
    }

    pub fn cycles(self) -> Clocks
        ensures { result ≡ clocks (clocks_of self.0) }
    {
        Clocks(((self.0 >> CYCLES_SHIFT) & CYCLES_MASK) as u32)
    }

    // Any bit in common, for every flag.
    pub fn has(self, flag: u16) -> bool
        ensures { result ≡ has self.0 flag }
    {
        self.0 & flag != 0
    }
}
