// Written by tools/instructions from tools/instructions.tsv: do not edit.
// Instructions on aggregates and references without immediates: those after the prefix FB.
ghost use Rattle.std.specs.Prelude.{◌≡◌};
ghost use Rattle.wasm_insn.specs.Aggregate.{aggregate_number};

use crate::instruction::Instruction;
use crate::op::Op;

/// Instructions on aggregates and references without immediates: those after the prefix FB.
#[derive(Clone, Copy)]
pub enum Aggregate {
    ArrayLen = 15,
    AnyConvertExtern = 26,
    ExternConvertAny = 27,
    RefI31 = 28,
    I31GetS = 29,
    I31GetU = 30,
}

impl Aggregate {
    /// Returns the opcode, as in the opcode table.
    pub fn op(self) -> Op
        ensures { result ≡ Op.Prefixed 0xFB (aggregate_number self) }
    {
        Op::Prefixed(0xFB, self as u32)
    }
}

/// The same instructions as constants of `Instruction`.
impl Instruction<'static> {
    pub const ArrayLen: Self = Instruction::Aggregate(Aggregate::ArrayLen);

    pub const AnyConvertExtern: Self = Instruction::Aggregate(Aggregate::AnyConvertExtern);

    pub const ExternConvertAny: Self = Instruction::Aggregate(Aggregate::ExternConvertAny);

    pub const RefI31: Self = Instruction::Aggregate(Aggregate::RefI31);

    pub const I31GetS: Self = Instruction::Aggregate(Aggregate::I31GetS);

    pub const I31GetU: Self = Instruction::Aggregate(Aggregate::I31GetU);
}
