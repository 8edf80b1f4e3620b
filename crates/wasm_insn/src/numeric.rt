// Written by tools/instructions from tools/instructions.tsv: do not edit.
// Numeric instructions: the one-byte opcodes 45 to C4.
ghost use Rattle.std.specs.Prelude.{◌≡◌};
ghost use Rattle.wasm_insn.specs.Numeric.{numeric_number};

use crate::instruction::Instruction;
use crate::op::Op;

/// Numeric instructions: the one-byte opcodes 45 to C4.
#[derive(Clone, Copy)]
pub enum Numeric {
    I32Eqz = 0x45,
    I32Eq = 0x46,
    I32Ne = 0x47,
    I32LtS = 0x48,
    I32LtU = 0x49,
    I32GtS = 0x4A,
    I32GtU = 0x4B,
    I32LeS = 0x4C,
    I32LeU = 0x4D,
    I32GeS = 0x4E,
    I32GeU = 0x4F,
    I64Eqz = 0x50,
    I64Eq = 0x51,
    I64Ne = 0x52,
    I64LtS = 0x53,
    I64LtU = 0x54,
    I64GtS = 0x55,
    I64GtU = 0x56,
    I64LeS = 0x57,
    I64LeU = 0x58,
    I64GeS = 0x59,
    I64GeU = 0x5A,
    F32Eq = 0x5B,
    F32Ne = 0x5C,
    F32Lt = 0x5D,
    F32Gt = 0x5E,
    F32Le = 0x5F,
    F32Ge = 0x60,
    F64Eq = 0x61,
    F64Ne = 0x62,
    F64Lt = 0x63,
    F64Gt = 0x64,
    F64Le = 0x65,
    F64Ge = 0x66,
    I32Clz = 0x67,
    I32Ctz = 0x68,
    I32Popcnt = 0x69,
    I32Add = 0x6A,
    I32Sub = 0x6B,
    I32Mul = 0x6C,
    I32DivS = 0x6D,
    I32DivU = 0x6E,
    I32RemS = 0x6F,
    I32RemU = 0x70,
    I32And = 0x71,
    I32Or = 0x72,
    I32Xor = 0x73,
    I32Shl = 0x74,
    I32ShrS = 0x75,
    I32ShrU = 0x76,
    I32Rotl = 0x77,
    I32Rotr = 0x78,
    I64Clz = 0x79,
    I64Ctz = 0x7A,
    I64Popcnt = 0x7B,
    I64Add = 0x7C,
    I64Sub = 0x7D,
    I64Mul = 0x7E,
    I64DivS = 0x7F,
    I64DivU = 0x80,
    I64RemS = 0x81,
    I64RemU = 0x82,
    I64And = 0x83,
    I64Or = 0x84,
    I64Xor = 0x85,
    I64Shl = 0x86,
    I64ShrS = 0x87,
    I64ShrU = 0x88,
    I64Rotl = 0x89,
    I64Rotr = 0x8A,
    F32Abs = 0x8B,
    F32Neg = 0x8C,
    F32Ceil = 0x8D,
    F32Floor = 0x8E,
    F32Trunc = 0x8F,
    F32Nearest = 0x90,
    F32Sqrt = 0x91,
    F32Add = 0x92,
    F32Sub = 0x93,
    F32Mul = 0x94,
    F32Div = 0x95,
    F32Min = 0x96,
    F32Max = 0x97,
    F32Copysign = 0x98,
    F64Abs = 0x99,
    F64Neg = 0x9A,
    F64Ceil = 0x9B,
    F64Floor = 0x9C,
    F64Trunc = 0x9D,
    F64Nearest = 0x9E,
    F64Sqrt = 0x9F,
    F64Add = 0xA0,
    F64Sub = 0xA1,
    F64Mul = 0xA2,
    F64Div = 0xA3,
    F64Min = 0xA4,
    F64Max = 0xA5,
    F64Copysign = 0xA6,
    I32WrapI64 = 0xA7,
    I32TruncF32S = 0xA8,
    I32TruncF32U = 0xA9,
    I32TruncF64S = 0xAA,
    I32TruncF64U = 0xAB,
    I64ExtendI32S = 0xAC,
    I64ExtendI32U = 0xAD,
    I64TruncF32S = 0xAE,
    I64TruncF32U = 0xAF,
    I64TruncF64S = 0xB0,
    I64TruncF64U = 0xB1,
    F32ConvertI32S = 0xB2,
    F32ConvertI32U = 0xB3,
    F32ConvertI64S = 0xB4,
    F32ConvertI64U = 0xB5,
    F32DemoteF64 = 0xB6,
    F64ConvertI32S = 0xB7,
    F64ConvertI32U = 0xB8,
    F64ConvertI64S = 0xB9,
    F64ConvertI64U = 0xBA,
    F64PromoteF32 = 0xBB,
    I32ReinterpretF32 = 0xBC,
    I64ReinterpretF64 = 0xBD,
    F32ReinterpretI32 = 0xBE,
    F64ReinterpretI64 = 0xBF,
    I32Extend8S = 0xC0,
    I32Extend16S = 0xC1,
    I64Extend8S = 0xC2,
    I64Extend16S = 0xC3,
    I64Extend32S = 0xC4,
}

impl Numeric {
    /// Returns the opcode, as in the opcode table.
    pub fn op(self) -> Op
        ensures { result ≡ Op.Byte (numeric_number self) }
    {
        Op::Byte(self as u8)
    }
}

/// The same instructions as constants of `Instruction`.
impl Instruction<'static> {
    pub const I32Eqz: Self = Instruction::Numeric(Numeric::I32Eqz);

    pub const I32Eq: Self = Instruction::Numeric(Numeric::I32Eq);

    pub const I32Ne: Self = Instruction::Numeric(Numeric::I32Ne);

    pub const I32LtS: Self = Instruction::Numeric(Numeric::I32LtS);

    pub const I32LtU: Self = Instruction::Numeric(Numeric::I32LtU);

    pub const I32GtS: Self = Instruction::Numeric(Numeric::I32GtS);

    pub const I32GtU: Self = Instruction::Numeric(Numeric::I32GtU);

    pub const I32LeS: Self = Instruction::Numeric(Numeric::I32LeS);

    pub const I32LeU: Self = Instruction::Numeric(Numeric::I32LeU);

    pub const I32GeS: Self = Instruction::Numeric(Numeric::I32GeS);

    pub const I32GeU: Self = Instruction::Numeric(Numeric::I32GeU);

    pub const I64Eqz: Self = Instruction::Numeric(Numeric::I64Eqz);

    pub const I64Eq: Self = Instruction::Numeric(Numeric::I64Eq);

    pub const I64Ne: Self = Instruction::Numeric(Numeric::I64Ne);

    pub const I64LtS: Self = Instruction::Numeric(Numeric::I64LtS);

    pub const I64LtU: Self = Instruction::Numeric(Numeric::I64LtU);

    pub const I64GtS: Self = Instruction::Numeric(Numeric::I64GtS);

    pub const I64GtU: Self = Instruction::Numeric(Numeric::I64GtU);

    pub const I64LeS: Self = Instruction::Numeric(Numeric::I64LeS);

    pub const I64LeU: Self = Instruction::Numeric(Numeric::I64LeU);

    pub const I64GeS: Self = Instruction::Numeric(Numeric::I64GeS);

    pub const I64GeU: Self = Instruction::Numeric(Numeric::I64GeU);

    pub const F32Eq: Self = Instruction::Numeric(Numeric::F32Eq);

    pub const F32Ne: Self = Instruction::Numeric(Numeric::F32Ne);

    pub const F32Lt: Self = Instruction::Numeric(Numeric::F32Lt);

    pub const F32Gt: Self = Instruction::Numeric(Numeric::F32Gt);

    pub const F32Le: Self = Instruction::Numeric(Numeric::F32Le);

    pub const F32Ge: Self = Instruction::Numeric(Numeric::F32Ge);

    pub const F64Eq: Self = Instruction::Numeric(Numeric::F64Eq);

    pub const F64Ne: Self = Instruction::Numeric(Numeric::F64Ne);

    pub const F64Lt: Self = Instruction::Numeric(Numeric::F64Lt);

    pub const F64Gt: Self = Instruction::Numeric(Numeric::F64Gt);

    pub const F64Le: Self = Instruction::Numeric(Numeric::F64Le);

    pub const F64Ge: Self = Instruction::Numeric(Numeric::F64Ge);

    pub const I32Clz: Self = Instruction::Numeric(Numeric::I32Clz);

    pub const I32Ctz: Self = Instruction::Numeric(Numeric::I32Ctz);

    pub const I32Popcnt: Self = Instruction::Numeric(Numeric::I32Popcnt);

    pub const I32Add: Self = Instruction::Numeric(Numeric::I32Add);

    pub const I32Sub: Self = Instruction::Numeric(Numeric::I32Sub);

    pub const I32Mul: Self = Instruction::Numeric(Numeric::I32Mul);

    pub const I32DivS: Self = Instruction::Numeric(Numeric::I32DivS);

    pub const I32DivU: Self = Instruction::Numeric(Numeric::I32DivU);

    pub const I32RemS: Self = Instruction::Numeric(Numeric::I32RemS);

    pub const I32RemU: Self = Instruction::Numeric(Numeric::I32RemU);

    pub const I32And: Self = Instruction::Numeric(Numeric::I32And);

    pub const I32Or: Self = Instruction::Numeric(Numeric::I32Or);

    pub const I32Xor: Self = Instruction::Numeric(Numeric::I32Xor);

    pub const I32Shl: Self = Instruction::Numeric(Numeric::I32Shl);

    pub const I32ShrS: Self = Instruction::Numeric(Numeric::I32ShrS);

    pub const I32ShrU: Self = Instruction::Numeric(Numeric::I32ShrU);

    pub const I32Rotl: Self = Instruction::Numeric(Numeric::I32Rotl);

    pub const I32Rotr: Self = Instruction::Numeric(Numeric::I32Rotr);

    pub const I64Clz: Self = Instruction::Numeric(Numeric::I64Clz);

    pub const I64Ctz: Self = Instruction::Numeric(Numeric::I64Ctz);

    pub const I64Popcnt: Self = Instruction::Numeric(Numeric::I64Popcnt);

    pub const I64Add: Self = Instruction::Numeric(Numeric::I64Add);

    pub const I64Sub: Self = Instruction::Numeric(Numeric::I64Sub);

    pub const I64Mul: Self = Instruction::Numeric(Numeric::I64Mul);

    pub const I64DivS: Self = Instruction::Numeric(Numeric::I64DivS);

    pub const I64DivU: Self = Instruction::Numeric(Numeric::I64DivU);

    pub const I64RemS: Self = Instruction::Numeric(Numeric::I64RemS);

    pub const I64RemU: Self = Instruction::Numeric(Numeric::I64RemU);

    pub const I64And: Self = Instruction::Numeric(Numeric::I64And);

    pub const I64Or: Self = Instruction::Numeric(Numeric::I64Or);

    pub const I64Xor: Self = Instruction::Numeric(Numeric::I64Xor);

    pub const I64Shl: Self = Instruction::Numeric(Numeric::I64Shl);

    pub const I64ShrS: Self = Instruction::Numeric(Numeric::I64ShrS);

    pub const I64ShrU: Self = Instruction::Numeric(Numeric::I64ShrU);

    pub const I64Rotl: Self = Instruction::Numeric(Numeric::I64Rotl);

    pub const I64Rotr: Self = Instruction::Numeric(Numeric::I64Rotr);

    pub const F32Abs: Self = Instruction::Numeric(Numeric::F32Abs);

    pub const F32Neg: Self = Instruction::Numeric(Numeric::F32Neg);

    pub const F32Ceil: Self = Instruction::Numeric(Numeric::F32Ceil);

    pub const F32Floor: Self = Instruction::Numeric(Numeric::F32Floor);

    pub const F32Trunc: Self = Instruction::Numeric(Numeric::F32Trunc);

    pub const F32Nearest: Self = Instruction::Numeric(Numeric::F32Nearest);

    pub const F32Sqrt: Self = Instruction::Numeric(Numeric::F32Sqrt);

    pub const F32Add: Self = Instruction::Numeric(Numeric::F32Add);

    pub const F32Sub: Self = Instruction::Numeric(Numeric::F32Sub);

    pub const F32Mul: Self = Instruction::Numeric(Numeric::F32Mul);

    pub const F32Div: Self = Instruction::Numeric(Numeric::F32Div);

    pub const F32Min: Self = Instruction::Numeric(Numeric::F32Min);

    pub const F32Max: Self = Instruction::Numeric(Numeric::F32Max);

    pub const F32Copysign: Self = Instruction::Numeric(Numeric::F32Copysign);

    pub const F64Abs: Self = Instruction::Numeric(Numeric::F64Abs);

    pub const F64Neg: Self = Instruction::Numeric(Numeric::F64Neg);

    pub const F64Ceil: Self = Instruction::Numeric(Numeric::F64Ceil);

    pub const F64Floor: Self = Instruction::Numeric(Numeric::F64Floor);

    pub const F64Trunc: Self = Instruction::Numeric(Numeric::F64Trunc);

    pub const F64Nearest: Self = Instruction::Numeric(Numeric::F64Nearest);

    pub const F64Sqrt: Self = Instruction::Numeric(Numeric::F64Sqrt);

    pub const F64Add: Self = Instruction::Numeric(Numeric::F64Add);

    pub const F64Sub: Self = Instruction::Numeric(Numeric::F64Sub);

    pub const F64Mul: Self = Instruction::Numeric(Numeric::F64Mul);

    pub const F64Div: Self = Instruction::Numeric(Numeric::F64Div);

    pub const F64Min: Self = Instruction::Numeric(Numeric::F64Min);

    pub const F64Max: Self = Instruction::Numeric(Numeric::F64Max);

    pub const F64Copysign: Self = Instruction::Numeric(Numeric::F64Copysign);

    pub const I32WrapI64: Self = Instruction::Numeric(Numeric::I32WrapI64);

    pub const I32TruncF32S: Self = Instruction::Numeric(Numeric::I32TruncF32S);

    pub const I32TruncF32U: Self = Instruction::Numeric(Numeric::I32TruncF32U);

    pub const I32TruncF64S: Self = Instruction::Numeric(Numeric::I32TruncF64S);

    pub const I32TruncF64U: Self = Instruction::Numeric(Numeric::I32TruncF64U);

    pub const I64ExtendI32S: Self = Instruction::Numeric(Numeric::I64ExtendI32S);

    pub const I64ExtendI32U: Self = Instruction::Numeric(Numeric::I64ExtendI32U);

    pub const I64TruncF32S: Self = Instruction::Numeric(Numeric::I64TruncF32S);

    pub const I64TruncF32U: Self = Instruction::Numeric(Numeric::I64TruncF32U);

    pub const I64TruncF64S: Self = Instruction::Numeric(Numeric::I64TruncF64S);

    pub const I64TruncF64U: Self = Instruction::Numeric(Numeric::I64TruncF64U);

    pub const F32ConvertI32S: Self = Instruction::Numeric(Numeric::F32ConvertI32S);

    pub const F32ConvertI32U: Self = Instruction::Numeric(Numeric::F32ConvertI32U);

    pub const F32ConvertI64S: Self = Instruction::Numeric(Numeric::F32ConvertI64S);

    pub const F32ConvertI64U: Self = Instruction::Numeric(Numeric::F32ConvertI64U);

    pub const F32DemoteF64: Self = Instruction::Numeric(Numeric::F32DemoteF64);

    pub const F64ConvertI32S: Self = Instruction::Numeric(Numeric::F64ConvertI32S);

    pub const F64ConvertI32U: Self = Instruction::Numeric(Numeric::F64ConvertI32U);

    pub const F64ConvertI64S: Self = Instruction::Numeric(Numeric::F64ConvertI64S);

    pub const F64ConvertI64U: Self = Instruction::Numeric(Numeric::F64ConvertI64U);

    pub const F64PromoteF32: Self = Instruction::Numeric(Numeric::F64PromoteF32);

    pub const I32ReinterpretF32: Self = Instruction::Numeric(Numeric::I32ReinterpretF32);

    pub const I64ReinterpretF64: Self = Instruction::Numeric(Numeric::I64ReinterpretF64);

    pub const F32ReinterpretI32: Self = Instruction::Numeric(Numeric::F32ReinterpretI32);

    pub const F64ReinterpretI64: Self = Instruction::Numeric(Numeric::F64ReinterpretI64);

    pub const I32Extend8S: Self = Instruction::Numeric(Numeric::I32Extend8S);

    pub const I32Extend16S: Self = Instruction::Numeric(Numeric::I32Extend16S);

    pub const I64Extend8S: Self = Instruction::Numeric(Numeric::I64Extend8S);

    pub const I64Extend16S: Self = Instruction::Numeric(Numeric::I64Extend16S);

    pub const I64Extend32S: Self = Instruction::Numeric(Numeric::I64Extend32S);
}
