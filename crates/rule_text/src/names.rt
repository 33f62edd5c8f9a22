// The rules and the operand modes on the page, by name.
ghost use Rattle.std.specs.Prelude.{◌≡◌, ◌<◌};
ghost use Rattle.text.specs.Written.{text_of};
ghost use Rattle.classifier.specs.Rules.{rule_count, name_of, sentence_of};
ghost use Rattle.rule_text.specs.Names.{mode_count, mode_name, six_at};

// By the rules' numbers: name and sentence.
pub const RULES: [(&[u8], &[u8]); 29] = [
    (
        b"immediate-alu",
        b"ALU, reads and writes its operand; at #immediate it runs alone",
    ),
    (
        b"unclassified",
        b"not classified; runs alone, for a quarter of its raw count",
    ),
    (b"bit-test", b"reads its operand, sets the CCR; runs alone"),
    (
        b"bit-change",
        b"reads and writes its operand, sets the CCR; runs alone",
    ),
    (
        b"immediate-compare",
        b"ALU, reads its operand; at #immediate it runs alone",
    ),
    (b"alu-read", b"ALU, reads its operand"),
    (
        b"move-to-memory",
        b"MOVE, ALU, reads its operand and writes memory",
    ),
    (
        b"move-to-indexed",
        b"MOVE, ALU, reads its operand and writes memory at an index",
    ),
    (b"alu-modify", b"ALU, reads and writes its operand"),
    (b"alone", b"runs alone, for a quarter of its raw count"),
    (b"chk", b"CHK; runs alone, for a quarter of its raw count"),
    (
        b"lea",
        b"LEA, takes its operand's address: no memory, and the CCR stays",
    ),
    (
        b"swap",
        b"at Dn SWAP, ALU; else runs alone, for a quarter of its raw count",
    ),
    (
        b"ext-or-movem",
        b"at Dn EXT, ALU; else MOVEM, reads and writes memory, for a quarter of its raw count",
    ),
    (
        b"tas",
        b"TAS, reads and writes memory whatever its operand, sets the CCR; runs alone, two clocks",
    ),
    (
        b"divide",
        b"DIVU, DIVS, MULL and DIVL; sets the CCR, runs alone, for a quarter of its raw count",
    ),
    (
        b"movem",
        b"at Dn runs alone; else MOVEM, reads and writes memory; for a quarter of its raw count",
    ),
    (
        b"scc-or-dbcc",
        b"at An DBcc, a branch; else Scc, writes its operand; both use the CCR late",
    ),
    (b"bra", b"BRA, a branch that does not use the CCR"),
    (
        b"bcc-or-bsr",
        b"Bcc and BSR, branches that use the CCR late",
    ),
    (
        b"moveq",
        b"MOVEQ, ALU; its low six bits are data, no operand",
    ),
    (
        b"decimal",
        b"at Dn and An SBCD, ABCD or PACK, as divide; else as alu-modify",
    ),
    (
        b"extended",
        b"at Dn and An ADDX or SUBX, sets the CCR and uses it late, alone; else as alu-modify",
    ),
    (
        b"extended-read",
        b"at Dn and An taken as ADDX or SUBX, as extended; else as alu-read",
    ),
    (
        b"multiply",
        b"MULU and MULS; sets the CCR, runs alone, two clocks",
    ),
    (
        b"exchange",
        b"at Dn and An EXG, runs alone, and the CCR stays; else as alu-modify",
    ),
    (
        b"exchange-both",
        b"at An EXG, runs alone, and the CCR stays; else as alu-modify",
    ),
    (
        b"shift",
        b"ALU on registers; ROXL and ROXR, bits 4 and 3 of 10, set the CCR, use it late, run alone",
    ),
    (
        b"memory-shift",
        b"ALU, reads and writes memory whatever its operand",
    ),
];

// By the modes' numbers, in twelve columns.
pub const MODE_NAMES: [&[u8]; 13] = [
    b"Dn          ",
    b"An          ",
    b"(An)        ",
    b"(An)+       ",
    b"-(An)       ",
    b"(d16,An)    ",
    b"(d8,An,Xn)  ",
    b"(xxx).W     ",
    b"(xxx).L     ",
    b"(d16,PC)    ",
    b"(d8,PC,Xn)  ",
    b"#immediate  ",
    b"mode7/5-7   ",
];

// A rule of the table.
#[derive(Clone, Copy)]
pub struct Rule {
    pub number: u8,
    ghost is_rule: { number < rule_count },
}

impl Rule {
    pub fn name(self) -> &'static [u8]
        ensures { result.now ≡ text_of (name_of self.number) }
    {
        RULES[self.number as usize].0
    }

    pub fn sentence(self) -> &'static [u8]
        ensures { result.now ≡ text_of (sentence_of self.number) }
    {
        RULES[self.number as usize].1
    }
}

// An operand mode; mode 7 has its registers apart.
#[derive(Clone, Copy)]
pub struct Mode {
    pub number: u16,
    ghost is_mode: { number < mode_count },
}

impl Mode {
    pub fn name(self) -> &'static [u8]
        ensures { result.now ≡ text_of (mode_name self.number) }
    {
        MODE_NAMES[self.number as usize]
    }

    // The low six bits of an opcode: mode and register.
    pub fn six(self) -> u16
        ensures { result ≡ six_at self.number }
    {
        if self.number < 7 {
            return 8 * self.number;
        }
        49 + self.number
    }
}
