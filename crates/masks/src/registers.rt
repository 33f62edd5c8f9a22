// Part 3 of document 01: masks of registers, what reaching an operand uses and defines, and the groups that are all
// operands.
ghost use Rattle.std.specs.Prelude.{◌≡◌, cond, ◌+◌, ◌<◌, ltb};
ghost use Rattle.bits.specs.Fields.{mode_of, reg_of};
ghost use Rattle.masks.specs.Registers.{register, mask_of_regs};
ghost use Rattle.masks.specs.Operands.{undecoded, operand_sets, register_operand, move_sets, quick_sets, mask_pair};

// The Rust's pair (use, def): D0 to D7 in bits 0 to 7, A0 to A7 in bits 8 to 15.
#[derive(Clone, Copy)]
pub struct RegMasks060 {
    pub uses: u16,
    pub defs: u16,
}

pub fn full() -> RegMasks060
    ensures { result ≡ mask_pair undecoded }
{
    RegMasks060 {
        uses: 0xFFFF,
        defs: 0xFFFF,
    }
}

// A selection: a jump for each mode costs more.
pub fn select(t: bool, yes: u16, no: u16) -> u16
    ensures { result ≡ cond t yes no }
{
    if t { yes } else { no }
}

// The register of a mode that has one: Dn in mode 0, else An.
// Stays a bound in three contracts, here and below: a type of three bits would be made and taken apart at each call.
fn register_of(mode: u16, reg: u16) -> u16
    requires { reg < 8 }
    ensures { result ≡ mask_of_regs (register (cond (ltb mode 1) reg (8 + reg))) }
{
    if mode < 1 { 1 << reg } else { 1 << (8 + reg) }
}

fn ea_masks(mode: u16, reg: u16) -> RegMasks060
    requires { reg < 8 }
    ensures { result ≡ mask_pair (operand_sets mode reg) }
{
    let own = register_of(mode, reg);
    RegMasks060 {
        uses: select(mode < 6, own, select(mode < 7, 0xFFFF, 0)),
        defs: select(mode < 3, 0, select(mode < 5, own, 0)),
    }
}

// The register that an operand itself is.
fn operand_def(mode: u16, reg: u16) -> u16
    requires { reg < 8 }
    ensures { result ≡ mask_of_regs (register_operand mode reg) }
{
    select(mode < 2, register_of(mode, reg), 0)
}

// The operand that the low six bits name.
pub fn operand_masks(op: u16) -> RegMasks060
    ensures { result ≡ mask_pair (operand_sets (mode_of op) (reg_of op)) }
{
    ea_masks(bits::mode_of(op), bits::reg_of(op))
}

pub fn move_masks(op: u16) -> RegMasks060
    ensures { result ≡ mask_pair (move_sets op) }
{
    let src = operand_masks(op);
    let dst_mode = bits::dst_mode_of(op);
    let dst_reg = bits::dst_reg_of(op);
    let dst = ea_masks(dst_mode, dst_reg);
    let extra_def = operand_def(dst_mode, dst_reg);
    RegMasks060 {
        uses: src.uses | dst.uses,
        defs: src.defs | dst.defs | extra_def,
    }
}

pub fn quick_masks(op: u16) -> RegMasks060
    ensures { result ≡ mask_pair (quick_sets op) }
{
    let ea = operand_masks(op);
    let operand_def = operand_def(bits::mode_of(op), bits::reg_of(op));
    RegMasks060 {
        uses: ea.uses,
        defs: ea.defs | operand_def,
    }
}
