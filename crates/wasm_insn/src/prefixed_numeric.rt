// Written by tools/instructions from tools/instructions.tsv: do not edit.
// Numeric instructions after the prefix FC: truncations that saturate, and wide arithmetic.
ghost use Rattle.std.specs.Prelude.{◌≡◌};
ghost use Rattle.wasm_insn.specs.PrefixedNumeric.{prefixed_numeric_number};

use crate::instruction::Instruction;
use crate::op::Op;

/// Numeric instructions after the prefix FC: truncations that saturate, and wide arithmetic.
#[derive(Clone, Copy)]
pub enum PrefixedNumeric {
    I32TruncSatF32S = 0,
    I32TruncSatF32U = 1,
    I32TruncSatF64S = 2,
    I32TruncSatF64U = 3,
    I64TruncSatF32S = 4,
    I64TruncSatF32U = 5,
    I64TruncSatF64S = 6,
    I64TruncSatF64U = 7,
    I64Add128 = 19,
    I64Sub128 = 20,
    I64MulWideS = 21,
    I64MulWideU = 22,
}

impl PrefixedNumeric {
    /// Returns the opcode, as in the opcode table.
    pub fn op(self) -> Op
        ensures { result ≡ Op.Prefixed 0xFC (prefixed_numeric_number self) }
    {
        Op::Prefixed(0xFC, self as u32)
    }
}

/// The same instructions as constants of `Instruction`.
impl Instruction<'static> {
    pub const I32TruncSatF32S: Self = Instruction::PrefixedNumeric(
        PrefixedNumeric::I32TruncSatF32S,
    );

    pub const I32TruncSatF32U: Self = Instruction::PrefixedNumeric(
        PrefixedNumeric::I32TruncSatF32U,
    );

    pub const I32TruncSatF64S: Self = Instruction::PrefixedNumeric(
        PrefixedNumeric::I32TruncSatF64S,
    );

    pub const I32TruncSatF64U: Self = Instruction::PrefixedNumeric(
        PrefixedNumeric::I32TruncSatF64U,
    );

    pub const I64TruncSatF32S: Self = Instruction::PrefixedNumeric(
        PrefixedNumeric::I64TruncSatF32S,
    );

    pub const I64TruncSatF32U: Self = Instruction::PrefixedNumeric(
        PrefixedNumeric::I64TruncSatF32U,
    );

    pub const I64TruncSatF64S: Self = Instruction::PrefixedNumeric(
        PrefixedNumeric::I64TruncSatF64S,
    );

    pub const I64TruncSatF64U: Self = Instruction::PrefixedNumeric(
        PrefixedNumeric::I64TruncSatF64U,
    );

    pub const I64Add128: Self = Instruction::PrefixedNumeric(PrefixedNumeric::I64Add128);

    pub const I64Sub128: Self = Instruction::PrefixedNumeric(PrefixedNumeric::I64Sub128);

    pub const I64MulWideS: Self = Instruction::PrefixedNumeric(PrefixedNumeric::I64MulWideS);

    pub const I64MulWideU: Self = Instruction::PrefixedNumeric(PrefixedNumeric::I64MulWideU);
}
