// Written by tools/instructions from tools/instructions.tsv: do not edit.
// Vector instructions without immediates: those after the prefix FD.
ghost use Rattle.std.specs.Prelude.{◌≡◌};
ghost use Rattle.wasm_insn.specs.Vector.{vector_number};

use crate::instruction::Instruction;
use crate::op::Op;

/// Vector instructions without immediates: those after the prefix FD.
#[derive(Clone, Copy)]
pub enum Vector {
    I8x16Swizzle = 14,
    I8x16Splat = 15,
    I16x8Splat = 16,
    I32x4Splat = 17,
    I64x2Splat = 18,
    F32x4Splat = 19,
    F64x2Splat = 20,
    I8x16Eq = 35,
    I8x16Ne = 36,
    I8x16LtS = 37,
    I8x16LtU = 38,
    I8x16GtS = 39,
    I8x16GtU = 40,
    I8x16LeS = 41,
    I8x16LeU = 42,
    I8x16GeS = 43,
    I8x16GeU = 44,
    I16x8Eq = 45,
    I16x8Ne = 46,
    I16x8LtS = 47,
    I16x8LtU = 48,
    I16x8GtS = 49,
    I16x8GtU = 50,
    I16x8LeS = 51,
    I16x8LeU = 52,
    I16x8GeS = 53,
    I16x8GeU = 54,
    I32x4Eq = 55,
    I32x4Ne = 56,
    I32x4LtS = 57,
    I32x4LtU = 58,
    I32x4GtS = 59,
    I32x4GtU = 60,
    I32x4LeS = 61,
    I32x4LeU = 62,
    I32x4GeS = 63,
    I32x4GeU = 64,
    F32x4Eq = 65,
    F32x4Ne = 66,
    F32x4Lt = 67,
    F32x4Gt = 68,
    F32x4Le = 69,
    F32x4Ge = 70,
    F64x2Eq = 71,
    F64x2Ne = 72,
    F64x2Lt = 73,
    F64x2Gt = 74,
    F64x2Le = 75,
    F64x2Ge = 76,
    V128Not = 77,
    V128And = 78,
    V128AndNot = 79,
    V128Or = 80,
    V128Xor = 81,
    V128Bitselect = 82,
    V128AnyTrue = 83,
    F32x4DemoteF64x2Zero = 94,
    F64x2PromoteLowF32x4 = 95,
    I8x16Abs = 96,
    I8x16Neg = 97,
    I8x16Popcnt = 98,
    I8x16AllTrue = 99,
    I8x16Bitmask = 100,
    I8x16NarrowI16x8S = 101,
    I8x16NarrowI16x8U = 102,
    F32x4Ceil = 103,
    F32x4Floor = 104,
    F32x4Trunc = 105,
    F32x4Nearest = 106,
    I8x16Shl = 107,
    I8x16ShrS = 108,
    I8x16ShrU = 109,
    I8x16Add = 110,
    I8x16AddSatS = 111,
    I8x16AddSatU = 112,
    I8x16Sub = 113,
    I8x16SubSatS = 114,
    I8x16SubSatU = 115,
    F64x2Ceil = 116,
    F64x2Floor = 117,
    I8x16MinS = 118,
    I8x16MinU = 119,
    I8x16MaxS = 120,
    I8x16MaxU = 121,
    F64x2Trunc = 122,
    I8x16AvgrU = 123,
    I16x8ExtAddPairwiseI8x16S = 124,
    I16x8ExtAddPairwiseI8x16U = 125,
    I32x4ExtAddPairwiseI16x8S = 126,
    I32x4ExtAddPairwiseI16x8U = 127,
    I16x8Abs = 128,
    I16x8Neg = 129,
    I16x8Q15MulrSatS = 130,
    I16x8AllTrue = 131,
    I16x8Bitmask = 132,
    I16x8NarrowI32x4S = 133,
    I16x8NarrowI32x4U = 134,
    I16x8ExtendLowI8x16S = 135,
    I16x8ExtendHighI8x16S = 136,
    I16x8ExtendLowI8x16U = 137,
    I16x8ExtendHighI8x16U = 138,
    I16x8Shl = 139,
    I16x8ShrS = 140,
    I16x8ShrU = 141,
    I16x8Add = 142,
    I16x8AddSatS = 143,
    I16x8AddSatU = 144,
    I16x8Sub = 145,
    I16x8SubSatS = 146,
    I16x8SubSatU = 147,
    F64x2Nearest = 148,
    I16x8Mul = 149,
    I16x8MinS = 150,
    I16x8MinU = 151,
    I16x8MaxS = 152,
    I16x8MaxU = 153,
    I16x8AvgrU = 155,
    I16x8ExtMulLowI8x16S = 156,
    I16x8ExtMulHighI8x16S = 157,
    I16x8ExtMulLowI8x16U = 158,
    I16x8ExtMulHighI8x16U = 159,
    I32x4Abs = 160,
    I32x4Neg = 161,
    I32x4AllTrue = 163,
    I32x4Bitmask = 164,
    I32x4ExtendLowI16x8S = 167,
    I32x4ExtendHighI16x8S = 168,
    I32x4ExtendLowI16x8U = 169,
    I32x4ExtendHighI16x8U = 170,
    I32x4Shl = 171,
    I32x4ShrS = 172,
    I32x4ShrU = 173,
    I32x4Add = 174,
    I32x4Sub = 177,
    I32x4Mul = 181,
    I32x4MinS = 182,
    I32x4MinU = 183,
    I32x4MaxS = 184,
    I32x4MaxU = 185,
    I32x4DotI16x8S = 186,
    I32x4ExtMulLowI16x8S = 188,
    I32x4ExtMulHighI16x8S = 189,
    I32x4ExtMulLowI16x8U = 190,
    I32x4ExtMulHighI16x8U = 191,
    I64x2Abs = 192,
    I64x2Neg = 193,
    I64x2AllTrue = 195,
    I64x2Bitmask = 196,
    I64x2ExtendLowI32x4S = 199,
    I64x2ExtendHighI32x4S = 200,
    I64x2ExtendLowI32x4U = 201,
    I64x2ExtendHighI32x4U = 202,
    I64x2Shl = 203,
    I64x2ShrS = 204,
    I64x2ShrU = 205,
    I64x2Add = 206,
    I64x2Sub = 209,
    I64x2Mul = 213,
    I64x2Eq = 214,
    I64x2Ne = 215,
    I64x2LtS = 216,
    I64x2GtS = 217,
    I64x2LeS = 218,
    I64x2GeS = 219,
    I64x2ExtMulLowI32x4S = 220,
    I64x2ExtMulHighI32x4S = 221,
    I64x2ExtMulLowI32x4U = 222,
    I64x2ExtMulHighI32x4U = 223,
    F32x4Abs = 224,
    F32x4Neg = 225,
    F32x4Sqrt = 227,
    F32x4Add = 228,
    F32x4Sub = 229,
    F32x4Mul = 230,
    F32x4Div = 231,
    F32x4Min = 232,
    F32x4Max = 233,
    F32x4PMin = 234,
    F32x4PMax = 235,
    F64x2Abs = 236,
    F64x2Neg = 237,
    F64x2Sqrt = 239,
    F64x2Add = 240,
    F64x2Sub = 241,
    F64x2Mul = 242,
    F64x2Div = 243,
    F64x2Min = 244,
    F64x2Max = 245,
    F64x2PMin = 246,
    F64x2PMax = 247,
    I32x4TruncSatF32x4S = 248,
    I32x4TruncSatF32x4U = 249,
    F32x4ConvertI32x4S = 250,
    F32x4ConvertI32x4U = 251,
    I32x4TruncSatF64x2SZero = 252,
    I32x4TruncSatF64x2UZero = 253,
    F64x2ConvertLowI32x4S = 254,
    F64x2ConvertLowI32x4U = 255,
    I8x16RelaxedSwizzle = 256,
    I32x4RelaxedTruncF32x4S = 257,
    I32x4RelaxedTruncF32x4U = 258,
    I32x4RelaxedTruncF64x2SZero = 259,
    I32x4RelaxedTruncF64x2UZero = 260,
    F32x4RelaxedMadd = 261,
    F32x4RelaxedNmadd = 262,
    F64x2RelaxedMadd = 263,
    F64x2RelaxedNmadd = 264,
    I8x16RelaxedLaneselect = 265,
    I16x8RelaxedLaneselect = 266,
    I32x4RelaxedLaneselect = 267,
    I64x2RelaxedLaneselect = 268,
    F32x4RelaxedMin = 269,
    F32x4RelaxedMax = 270,
    F64x2RelaxedMin = 271,
    F64x2RelaxedMax = 272,
    I16x8RelaxedQ15mulrS = 273,
    I16x8RelaxedDotI8x16I7x16S = 274,
    I32x4RelaxedDotI8x16I7x16AddS = 275,
}

impl Vector {
    /// Returns the opcode, as in the opcode table.
    pub fn op(self) -> Op
        ensures { result ≡ Op.Prefixed 0xFD (vector_number self) }
    {
        Op::Prefixed(0xFD, self as u32)
    }
}

/// The same instructions as constants of `Instruction`.
impl Instruction<'static> {
    pub const I8x16Swizzle: Self = Instruction::Vector(Vector::I8x16Swizzle);

    pub const I8x16Splat: Self = Instruction::Vector(Vector::I8x16Splat);

    pub const I16x8Splat: Self = Instruction::Vector(Vector::I16x8Splat);

    pub const I32x4Splat: Self = Instruction::Vector(Vector::I32x4Splat);

    pub const I64x2Splat: Self = Instruction::Vector(Vector::I64x2Splat);

    pub const F32x4Splat: Self = Instruction::Vector(Vector::F32x4Splat);

    pub const F64x2Splat: Self = Instruction::Vector(Vector::F64x2Splat);

    pub const I8x16Eq: Self = Instruction::Vector(Vector::I8x16Eq);

    pub const I8x16Ne: Self = Instruction::Vector(Vector::I8x16Ne);

    pub const I8x16LtS: Self = Instruction::Vector(Vector::I8x16LtS);

    pub const I8x16LtU: Self = Instruction::Vector(Vector::I8x16LtU);

    pub const I8x16GtS: Self = Instruction::Vector(Vector::I8x16GtS);

    pub const I8x16GtU: Self = Instruction::Vector(Vector::I8x16GtU);

    pub const I8x16LeS: Self = Instruction::Vector(Vector::I8x16LeS);

    pub const I8x16LeU: Self = Instruction::Vector(Vector::I8x16LeU);

    pub const I8x16GeS: Self = Instruction::Vector(Vector::I8x16GeS);

    pub const I8x16GeU: Self = Instruction::Vector(Vector::I8x16GeU);

    pub const I16x8Eq: Self = Instruction::Vector(Vector::I16x8Eq);

    pub const I16x8Ne: Self = Instruction::Vector(Vector::I16x8Ne);

    pub const I16x8LtS: Self = Instruction::Vector(Vector::I16x8LtS);

    pub const I16x8LtU: Self = Instruction::Vector(Vector::I16x8LtU);

    pub const I16x8GtS: Self = Instruction::Vector(Vector::I16x8GtS);

    pub const I16x8GtU: Self = Instruction::Vector(Vector::I16x8GtU);

    pub const I16x8LeS: Self = Instruction::Vector(Vector::I16x8LeS);

    pub const I16x8LeU: Self = Instruction::Vector(Vector::I16x8LeU);

    pub const I16x8GeS: Self = Instruction::Vector(Vector::I16x8GeS);

    pub const I16x8GeU: Self = Instruction::Vector(Vector::I16x8GeU);

    pub const I32x4Eq: Self = Instruction::Vector(Vector::I32x4Eq);

    pub const I32x4Ne: Self = Instruction::Vector(Vector::I32x4Ne);

    pub const I32x4LtS: Self = Instruction::Vector(Vector::I32x4LtS);

    pub const I32x4LtU: Self = Instruction::Vector(Vector::I32x4LtU);

    pub const I32x4GtS: Self = Instruction::Vector(Vector::I32x4GtS);

    pub const I32x4GtU: Self = Instruction::Vector(Vector::I32x4GtU);

    pub const I32x4LeS: Self = Instruction::Vector(Vector::I32x4LeS);

    pub const I32x4LeU: Self = Instruction::Vector(Vector::I32x4LeU);

    pub const I32x4GeS: Self = Instruction::Vector(Vector::I32x4GeS);

    pub const I32x4GeU: Self = Instruction::Vector(Vector::I32x4GeU);

    pub const F32x4Eq: Self = Instruction::Vector(Vector::F32x4Eq);

    pub const F32x4Ne: Self = Instruction::Vector(Vector::F32x4Ne);

    pub const F32x4Lt: Self = Instruction::Vector(Vector::F32x4Lt);

    pub const F32x4Gt: Self = Instruction::Vector(Vector::F32x4Gt);

    pub const F32x4Le: Self = Instruction::Vector(Vector::F32x4Le);

    pub const F32x4Ge: Self = Instruction::Vector(Vector::F32x4Ge);

    pub const F64x2Eq: Self = Instruction::Vector(Vector::F64x2Eq);

    pub const F64x2Ne: Self = Instruction::Vector(Vector::F64x2Ne);

    pub const F64x2Lt: Self = Instruction::Vector(Vector::F64x2Lt);

    pub const F64x2Gt: Self = Instruction::Vector(Vector::F64x2Gt);

    pub const F64x2Le: Self = Instruction::Vector(Vector::F64x2Le);

    pub const F64x2Ge: Self = Instruction::Vector(Vector::F64x2Ge);

    pub const V128Not: Self = Instruction::Vector(Vector::V128Not);

    pub const V128And: Self = Instruction::Vector(Vector::V128And);

    pub const V128AndNot: Self = Instruction::Vector(Vector::V128AndNot);

    pub const V128Or: Self = Instruction::Vector(Vector::V128Or);

    pub const V128Xor: Self = Instruction::Vector(Vector::V128Xor);

    pub const V128Bitselect: Self = Instruction::Vector(Vector::V128Bitselect);

    pub const V128AnyTrue: Self = Instruction::Vector(Vector::V128AnyTrue);

    pub const F32x4DemoteF64x2Zero: Self = Instruction::Vector(Vector::F32x4DemoteF64x2Zero);

    pub const F64x2PromoteLowF32x4: Self = Instruction::Vector(Vector::F64x2PromoteLowF32x4);

    pub const I8x16Abs: Self = Instruction::Vector(Vector::I8x16Abs);

    pub const I8x16Neg: Self = Instruction::Vector(Vector::I8x16Neg);

    pub const I8x16Popcnt: Self = Instruction::Vector(Vector::I8x16Popcnt);

    pub const I8x16AllTrue: Self = Instruction::Vector(Vector::I8x16AllTrue);

    pub const I8x16Bitmask: Self = Instruction::Vector(Vector::I8x16Bitmask);

    pub const I8x16NarrowI16x8S: Self = Instruction::Vector(Vector::I8x16NarrowI16x8S);

    pub const I8x16NarrowI16x8U: Self = Instruction::Vector(Vector::I8x16NarrowI16x8U);

    pub const F32x4Ceil: Self = Instruction::Vector(Vector::F32x4Ceil);

    pub const F32x4Floor: Self = Instruction::Vector(Vector::F32x4Floor);

    pub const F32x4Trunc: Self = Instruction::Vector(Vector::F32x4Trunc);

    pub const F32x4Nearest: Self = Instruction::Vector(Vector::F32x4Nearest);

    pub const I8x16Shl: Self = Instruction::Vector(Vector::I8x16Shl);

    pub const I8x16ShrS: Self = Instruction::Vector(Vector::I8x16ShrS);

    pub const I8x16ShrU: Self = Instruction::Vector(Vector::I8x16ShrU);

    pub const I8x16Add: Self = Instruction::Vector(Vector::I8x16Add);

    pub const I8x16AddSatS: Self = Instruction::Vector(Vector::I8x16AddSatS);

    pub const I8x16AddSatU: Self = Instruction::Vector(Vector::I8x16AddSatU);

    pub const I8x16Sub: Self = Instruction::Vector(Vector::I8x16Sub);

    pub const I8x16SubSatS: Self = Instruction::Vector(Vector::I8x16SubSatS);

    pub const I8x16SubSatU: Self = Instruction::Vector(Vector::I8x16SubSatU);

    pub const F64x2Ceil: Self = Instruction::Vector(Vector::F64x2Ceil);

    pub const F64x2Floor: Self = Instruction::Vector(Vector::F64x2Floor);

    pub const I8x16MinS: Self = Instruction::Vector(Vector::I8x16MinS);

    pub const I8x16MinU: Self = Instruction::Vector(Vector::I8x16MinU);

    pub const I8x16MaxS: Self = Instruction::Vector(Vector::I8x16MaxS);

    pub const I8x16MaxU: Self = Instruction::Vector(Vector::I8x16MaxU);

    pub const F64x2Trunc: Self = Instruction::Vector(Vector::F64x2Trunc);

    pub const I8x16AvgrU: Self = Instruction::Vector(Vector::I8x16AvgrU);

    pub const I16x8ExtAddPairwiseI8x16S: Self = Instruction::Vector(
        Vector::I16x8ExtAddPairwiseI8x16S,
    );

    pub const I16x8ExtAddPairwiseI8x16U: Self = Instruction::Vector(
        Vector::I16x8ExtAddPairwiseI8x16U,
    );

    pub const I32x4ExtAddPairwiseI16x8S: Self = Instruction::Vector(
        Vector::I32x4ExtAddPairwiseI16x8S,
    );

    pub const I32x4ExtAddPairwiseI16x8U: Self = Instruction::Vector(
        Vector::I32x4ExtAddPairwiseI16x8U,
    );

    pub const I16x8Abs: Self = Instruction::Vector(Vector::I16x8Abs);

    pub const I16x8Neg: Self = Instruction::Vector(Vector::I16x8Neg);

    pub const I16x8Q15MulrSatS: Self = Instruction::Vector(Vector::I16x8Q15MulrSatS);

    pub const I16x8AllTrue: Self = Instruction::Vector(Vector::I16x8AllTrue);

    pub const I16x8Bitmask: Self = Instruction::Vector(Vector::I16x8Bitmask);

    pub const I16x8NarrowI32x4S: Self = Instruction::Vector(Vector::I16x8NarrowI32x4S);

    pub const I16x8NarrowI32x4U: Self = Instruction::Vector(Vector::I16x8NarrowI32x4U);

    pub const I16x8ExtendLowI8x16S: Self = Instruction::Vector(Vector::I16x8ExtendLowI8x16S);

    pub const I16x8ExtendHighI8x16S: Self = Instruction::Vector(Vector::I16x8ExtendHighI8x16S);

    pub const I16x8ExtendLowI8x16U: Self = Instruction::Vector(Vector::I16x8ExtendLowI8x16U);

    pub const I16x8ExtendHighI8x16U: Self = Instruction::Vector(Vector::I16x8ExtendHighI8x16U);

    pub const I16x8Shl: Self = Instruction::Vector(Vector::I16x8Shl);

    pub const I16x8ShrS: Self = Instruction::Vector(Vector::I16x8ShrS);

    pub const I16x8ShrU: Self = Instruction::Vector(Vector::I16x8ShrU);

    pub const I16x8Add: Self = Instruction::Vector(Vector::I16x8Add);

    pub const I16x8AddSatS: Self = Instruction::Vector(Vector::I16x8AddSatS);

    pub const I16x8AddSatU: Self = Instruction::Vector(Vector::I16x8AddSatU);

    pub const I16x8Sub: Self = Instruction::Vector(Vector::I16x8Sub);

    pub const I16x8SubSatS: Self = Instruction::Vector(Vector::I16x8SubSatS);

    pub const I16x8SubSatU: Self = Instruction::Vector(Vector::I16x8SubSatU);

    pub const F64x2Nearest: Self = Instruction::Vector(Vector::F64x2Nearest);

    pub const I16x8Mul: Self = Instruction::Vector(Vector::I16x8Mul);

    pub const I16x8MinS: Self = Instruction::Vector(Vector::I16x8MinS);

    pub const I16x8MinU: Self = Instruction::Vector(Vector::I16x8MinU);

    pub const I16x8MaxS: Self = Instruction::Vector(Vector::I16x8MaxS);

    pub const I16x8MaxU: Self = Instruction::Vector(Vector::I16x8MaxU);

    pub const I16x8AvgrU: Self = Instruction::Vector(Vector::I16x8AvgrU);

    pub const I16x8ExtMulLowI8x16S: Self = Instruction::Vector(Vector::I16x8ExtMulLowI8x16S);

    pub const I16x8ExtMulHighI8x16S: Self = Instruction::Vector(Vector::I16x8ExtMulHighI8x16S);

    pub const I16x8ExtMulLowI8x16U: Self = Instruction::Vector(Vector::I16x8ExtMulLowI8x16U);

    pub const I16x8ExtMulHighI8x16U: Self = Instruction::Vector(Vector::I16x8ExtMulHighI8x16U);

    pub const I32x4Abs: Self = Instruction::Vector(Vector::I32x4Abs);

    pub const I32x4Neg: Self = Instruction::Vector(Vector::I32x4Neg);

    pub const I32x4AllTrue: Self = Instruction::Vector(Vector::I32x4AllTrue);

    pub const I32x4Bitmask: Self = Instruction::Vector(Vector::I32x4Bitmask);

    pub const I32x4ExtendLowI16x8S: Self = Instruction::Vector(Vector::I32x4ExtendLowI16x8S);

    pub const I32x4ExtendHighI16x8S: Self = Instruction::Vector(Vector::I32x4ExtendHighI16x8S);

    pub const I32x4ExtendLowI16x8U: Self = Instruction::Vector(Vector::I32x4ExtendLowI16x8U);

    pub const I32x4ExtendHighI16x8U: Self = Instruction::Vector(Vector::I32x4ExtendHighI16x8U);

    pub const I32x4Shl: Self = Instruction::Vector(Vector::I32x4Shl);

    pub const I32x4ShrS: Self = Instruction::Vector(Vector::I32x4ShrS);

    pub const I32x4ShrU: Self = Instruction::Vector(Vector::I32x4ShrU);

    pub const I32x4Add: Self = Instruction::Vector(Vector::I32x4Add);

    pub const I32x4Sub: Self = Instruction::Vector(Vector::I32x4Sub);

    pub const I32x4Mul: Self = Instruction::Vector(Vector::I32x4Mul);

    pub const I32x4MinS: Self = Instruction::Vector(Vector::I32x4MinS);

    pub const I32x4MinU: Self = Instruction::Vector(Vector::I32x4MinU);

    pub const I32x4MaxS: Self = Instruction::Vector(Vector::I32x4MaxS);

    pub const I32x4MaxU: Self = Instruction::Vector(Vector::I32x4MaxU);

    pub const I32x4DotI16x8S: Self = Instruction::Vector(Vector::I32x4DotI16x8S);

    pub const I32x4ExtMulLowI16x8S: Self = Instruction::Vector(Vector::I32x4ExtMulLowI16x8S);

    pub const I32x4ExtMulHighI16x8S: Self = Instruction::Vector(Vector::I32x4ExtMulHighI16x8S);

    pub const I32x4ExtMulLowI16x8U: Self = Instruction::Vector(Vector::I32x4ExtMulLowI16x8U);

    pub const I32x4ExtMulHighI16x8U: Self = Instruction::Vector(Vector::I32x4ExtMulHighI16x8U);

    pub const I64x2Abs: Self = Instruction::Vector(Vector::I64x2Abs);

    pub const I64x2Neg: Self = Instruction::Vector(Vector::I64x2Neg);

    pub const I64x2AllTrue: Self = Instruction::Vector(Vector::I64x2AllTrue);

    pub const I64x2Bitmask: Self = Instruction::Vector(Vector::I64x2Bitmask);

    pub const I64x2ExtendLowI32x4S: Self = Instruction::Vector(Vector::I64x2ExtendLowI32x4S);

    pub const I64x2ExtendHighI32x4S: Self = Instruction::Vector(Vector::I64x2ExtendHighI32x4S);

    pub const I64x2ExtendLowI32x4U: Self = Instruction::Vector(Vector::I64x2ExtendLowI32x4U);

    pub const I64x2ExtendHighI32x4U: Self = Instruction::Vector(Vector::I64x2ExtendHighI32x4U);

    pub const I64x2Shl: Self = Instruction::Vector(Vector::I64x2Shl);

    pub const I64x2ShrS: Self = Instruction::Vector(Vector::I64x2ShrS);

    pub const I64x2ShrU: Self = Instruction::Vector(Vector::I64x2ShrU);

    pub const I64x2Add: Self = Instruction::Vector(Vector::I64x2Add);

    pub const I64x2Sub: Self = Instruction::Vector(Vector::I64x2Sub);

    pub const I64x2Mul: Self = Instruction::Vector(Vector::I64x2Mul);

    pub const I64x2Eq: Self = Instruction::Vector(Vector::I64x2Eq);

    pub const I64x2Ne: Self = Instruction::Vector(Vector::I64x2Ne);

    pub const I64x2LtS: Self = Instruction::Vector(Vector::I64x2LtS);

    pub const I64x2GtS: Self = Instruction::Vector(Vector::I64x2GtS);

    pub const I64x2LeS: Self = Instruction::Vector(Vector::I64x2LeS);

    pub const I64x2GeS: Self = Instruction::Vector(Vector::I64x2GeS);

    pub const I64x2ExtMulLowI32x4S: Self = Instruction::Vector(Vector::I64x2ExtMulLowI32x4S);

    pub const I64x2ExtMulHighI32x4S: Self = Instruction::Vector(Vector::I64x2ExtMulHighI32x4S);

    pub const I64x2ExtMulLowI32x4U: Self = Instruction::Vector(Vector::I64x2ExtMulLowI32x4U);

    pub const I64x2ExtMulHighI32x4U: Self = Instruction::Vector(Vector::I64x2ExtMulHighI32x4U);

    pub const F32x4Abs: Self = Instruction::Vector(Vector::F32x4Abs);

    pub const F32x4Neg: Self = Instruction::Vector(Vector::F32x4Neg);

    pub const F32x4Sqrt: Self = Instruction::Vector(Vector::F32x4Sqrt);

    pub const F32x4Add: Self = Instruction::Vector(Vector::F32x4Add);

    pub const F32x4Sub: Self = Instruction::Vector(Vector::F32x4Sub);

    pub const F32x4Mul: Self = Instruction::Vector(Vector::F32x4Mul);

    pub const F32x4Div: Self = Instruction::Vector(Vector::F32x4Div);

    pub const F32x4Min: Self = Instruction::Vector(Vector::F32x4Min);

    pub const F32x4Max: Self = Instruction::Vector(Vector::F32x4Max);

    pub const F32x4PMin: Self = Instruction::Vector(Vector::F32x4PMin);

    pub const F32x4PMax: Self = Instruction::Vector(Vector::F32x4PMax);

    pub const F64x2Abs: Self = Instruction::Vector(Vector::F64x2Abs);

    pub const F64x2Neg: Self = Instruction::Vector(Vector::F64x2Neg);

    pub const F64x2Sqrt: Self = Instruction::Vector(Vector::F64x2Sqrt);

    pub const F64x2Add: Self = Instruction::Vector(Vector::F64x2Add);

    pub const F64x2Sub: Self = Instruction::Vector(Vector::F64x2Sub);

    pub const F64x2Mul: Self = Instruction::Vector(Vector::F64x2Mul);

    pub const F64x2Div: Self = Instruction::Vector(Vector::F64x2Div);

    pub const F64x2Min: Self = Instruction::Vector(Vector::F64x2Min);

    pub const F64x2Max: Self = Instruction::Vector(Vector::F64x2Max);

    pub const F64x2PMin: Self = Instruction::Vector(Vector::F64x2PMin);

    pub const F64x2PMax: Self = Instruction::Vector(Vector::F64x2PMax);

    pub const I32x4TruncSatF32x4S: Self = Instruction::Vector(Vector::I32x4TruncSatF32x4S);

    pub const I32x4TruncSatF32x4U: Self = Instruction::Vector(Vector::I32x4TruncSatF32x4U);

    pub const F32x4ConvertI32x4S: Self = Instruction::Vector(Vector::F32x4ConvertI32x4S);

    pub const F32x4ConvertI32x4U: Self = Instruction::Vector(Vector::F32x4ConvertI32x4U);

    pub const I32x4TruncSatF64x2SZero: Self = Instruction::Vector(Vector::I32x4TruncSatF64x2SZero);

    pub const I32x4TruncSatF64x2UZero: Self = Instruction::Vector(Vector::I32x4TruncSatF64x2UZero);

    pub const F64x2ConvertLowI32x4S: Self = Instruction::Vector(Vector::F64x2ConvertLowI32x4S);

    pub const F64x2ConvertLowI32x4U: Self = Instruction::Vector(Vector::F64x2ConvertLowI32x4U);

    pub const I8x16RelaxedSwizzle: Self = Instruction::Vector(Vector::I8x16RelaxedSwizzle);

    pub const I32x4RelaxedTruncF32x4S: Self = Instruction::Vector(Vector::I32x4RelaxedTruncF32x4S);

    pub const I32x4RelaxedTruncF32x4U: Self = Instruction::Vector(Vector::I32x4RelaxedTruncF32x4U);

    pub const I32x4RelaxedTruncF64x2SZero: Self = Instruction::Vector(
        Vector::I32x4RelaxedTruncF64x2SZero,
    );

    pub const I32x4RelaxedTruncF64x2UZero: Self = Instruction::Vector(
        Vector::I32x4RelaxedTruncF64x2UZero,
    );

    pub const F32x4RelaxedMadd: Self = Instruction::Vector(Vector::F32x4RelaxedMadd);

    pub const F32x4RelaxedNmadd: Self = Instruction::Vector(Vector::F32x4RelaxedNmadd);

    pub const F64x2RelaxedMadd: Self = Instruction::Vector(Vector::F64x2RelaxedMadd);

    pub const F64x2RelaxedNmadd: Self = Instruction::Vector(Vector::F64x2RelaxedNmadd);

    pub const I8x16RelaxedLaneselect: Self = Instruction::Vector(Vector::I8x16RelaxedLaneselect);

    pub const I16x8RelaxedLaneselect: Self = Instruction::Vector(Vector::I16x8RelaxedLaneselect);

    pub const I32x4RelaxedLaneselect: Self = Instruction::Vector(Vector::I32x4RelaxedLaneselect);

    pub const I64x2RelaxedLaneselect: Self = Instruction::Vector(Vector::I64x2RelaxedLaneselect);

    pub const F32x4RelaxedMin: Self = Instruction::Vector(Vector::F32x4RelaxedMin);

    pub const F32x4RelaxedMax: Self = Instruction::Vector(Vector::F32x4RelaxedMax);

    pub const F64x2RelaxedMin: Self = Instruction::Vector(Vector::F64x2RelaxedMin);

    pub const F64x2RelaxedMax: Self = Instruction::Vector(Vector::F64x2RelaxedMax);

    pub const I16x8RelaxedQ15mulrS: Self = Instruction::Vector(Vector::I16x8RelaxedQ15mulrS);

    pub const I16x8RelaxedDotI8x16I7x16S: Self = Instruction::Vector(
        Vector::I16x8RelaxedDotI8x16I7x16S,
    );

    pub const I32x4RelaxedDotI8x16I7x16AddS: Self = Instruction::Vector(
        Vector::I32x4RelaxedDotI8x16I7x16AddS,
    );
}
