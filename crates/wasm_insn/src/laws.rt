//! Laws about opcodes and instructions, for all byte sequences: each function does nothing, and its
//! clauses are the law.
//!
//! `Unambiguous F` says that the format `F` is unambiguous: at most one value decodes from the
//! front of any bytes, with minimal and with padded numbers. A value has at most one minimal
//! encoding. `UnambiguousWhole F` says the same of a format that occupies all of the bytes.
//! `HasMinimalEncodings F encodable encoding` says that `encoding` is the minimal encoding of each
//! value that fits.
ghost use Rattle.std.specs.Prelude.{All};
ghost use Rattle.wasm_base.specs.Formats.{members};
ghost use Rattle.wasm_base.specs.Decoding.{Unambiguous, UnambiguousWhole, HasMinimalEncodings, UnambiguousPadded, UnambiguousWholePadded};
ghost use Rattle.wasm_insn.specs.Cases.{Given, all_cases, AreRows, IsCase};
ghost use Rattle.wasm_insn.specs.Opcodes.{op_encoding};
ghost use Rattle.wasm_insn.specs.Plain.{opcode, instruction, IsOpcode};
ghost use Rattle.wasm_insn.specs.Table.{table, IsOpcodeTable, BeginsNoOther, IsRow};
ghost use Rattle.wasm_insn.specs.Instructions.{row_of, DecodesInstruction, HaveOneEncoding, IsWellFormedWhereAligned};
ghost use Rattle.wasm_insn.specs.declared.instruction.Instruction.{Instruction};

pub use self::padded as wide;
use crate::instruction::Instruction;
use crate::ranged::arguments_ranged;
use std::alloc::Allocator;

/// The format of opcodes is unambiguous. The opcode table has 628 rows in ascending order; one pair
/// of neighbours shares an opcode. No opcode's bytes are a prefix of another's.
#[tactic(auto, using(crate::proofs::InstructionLaws::opcodes))]
pub fn opcodes()
    ensures unique { Unambiguous opcode }
    ensures encodings { HasMinimalEncodings opcode IsOpcode op_encoding }
    ensures table { IsOpcodeTable table }
    ensures apart { BeginsNoOther }
{}

/// The opcode of each instruction has a row in the table, and the instruction's immediates are of
/// the types of that row's shape.
pub fn rows<A: Allocator>()
    ensures { (i : Instruction A) → IsRow table (row_of i) }
{}

/// The cases of the enums and the rows of the table correspond one to one: in the table's order,
/// they have its opcodes and the immediates of its shapes. Each instruction is one of the cases,
/// with its own fields.
pub fn cases<A: Allocator>()
    ensures rows { (given : Given A) → AreRows (all_cases given) table }
    ensures each { (i : Instruction A) → IsCase i }
{}

/// The format of instructions over the table is unambiguous. The encoding of a well-formed
/// instruction decodes to its normal form alone. Two well-formed instructions have the same
/// encoding exactly if they have the same normal form.
pub fn instructions<A: Allocator>()
    ensures unique { Unambiguous (instruction table) }
    ensures plain { (i : Instruction A) → DecodesInstruction i }
    ensures one_encoding { (i j : Instruction A) → HaveOneEncoding i j }
{}

/// With padded numbers the formats are unambiguous too.
#[tactic(auto, using(crate::proofs::InstructionLaws::padded))]
pub fn padded()
    ensures opcode { UnambiguousPadded opcode }
    ensures instruction { UnambiguousPadded (instruction table) }
    ensures list { UnambiguousWholePadded (members (instruction table)) }
{}

/// Lists of instructions that occupy all of the bytes are unambiguous.
#[tactic(auto, using(crate::proofs::InstructionLaws::lists))]
pub fn lists()
    ensures { UnambiguousWhole (members (instruction table)) }
{}

/// An instruction is well-formed if its alignments are below 16 and each of its lists has at most
/// 4294967295 members. A call that has encoded it promises the latter.
pub fn plain_instruction<A: Allocator>(instruction: &Instruction<'_, A>)
    ensures { IsWellFormedWhereAligned instruction.now }
{
    arguments_ranged(instruction);
}

/// The same holds for each instruction of a list.
pub fn plain_instructions<A: Allocator>(instructions: &[Instruction<'_, A>])
    ensures { All IsWellFormedWhereAligned instructions.now }
{
    for instruction in instructions {
        plain_instruction(instruction);
    }
}
