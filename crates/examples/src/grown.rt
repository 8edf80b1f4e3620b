// Bodies and sections of arguments of any value. The first calls of each function prove that these
// are well-formed.
ghost use Rattle.std.specs.Prelude.{All, [], ◌∷◌, map, OnOk};
ghost use Rattle.wasm_base.specs.Entries.{counted_format};
ghost use Rattle.wasm_base.specs.Modules.{GainsDecoding};
ghost use Rattle.wasm_code.specs.Bodies.{Body, IsWellFormedBody, and_then};
ghost use Rattle.wasm_code.specs.Expressions.{normal_row};
ghost use Rattle.wasm_insn.specs.Instructions.{HasSmallAlignments};
ghost use Rattle.wasm_sections.specs.Imports.{import_item, import_format};
ghost use Rattle.wasm_sections.specs.Memories.{IsMemory, memory_type};

use std::alloc::Allocator;
use wasm_base::laws::plain_name;
use wasm_base::{Encode, Result, add_all};
use wasm_code::Function;
use wasm_insn::Instruction;
use wasm_insn::laws::{plain_instruction, plain_instructions};
use wasm_sections::laws::{plain_entity, plain_memory};
use wasm_sections::{Import, ImportSection, MemorySection, MemoryType};

/// Adds an instruction that the caller passes. The only requirement is that its alignments are
/// below 16.
pub fn grow<A: Allocator>(function: &mut Function<A>, instruction: &Instruction<'_>) -> Result<()>
    ensures { OnOk result (HasSmallAlignments instruction.now → (x : Body) → IsWellFormedBody function.old x → IsWellFormedBody function.new (and_then x (normal_row instruction.now ∷ []))) }
{
    plain_instruction(instruction);
    function.instruction(instruction)
}

/// Adds the instructions of a list, in order. On an error, the function keeps those before the
/// failing one.
pub fn grow_by_each<A: Allocator>(
    function: &mut Function<A>,
    instructions: &[Instruction<'_>],
) -> Result<()>
    ensures { OnOk result (All HasSmallAlignments instructions.now → (x : Body) → IsWellFormedBody function.old x → IsWellFormedBody function.new (and_then x (map normal_row instructions.now))) }
{
    plain_instructions(instructions);
    for instruction in instructions {
        function.instruction(instruction)?;
    }
    Ok(())
}

/// Appends an import section of one import that the caller passes.
pub fn encode_given_import<A: Allocator + Copy>(
    sink: &mut Vec<u8, A>,
    import: &Import<'_>,
) -> Result<()>
    ensures { OnOk result (GainsDecoding (counted_format import_format) (import_item import.now ∷ []) sink.old.items sink.new.items) }
{
    plain_name(import.module);
    plain_name(import.name);
    plain_entity(import.ty);
    let mut section = ImportSection::new(*sink.allocator());
    section.import(import.module, import.name, import.ty)?;
    section.encode(sink)
}

/// Appends a memory section of the memories of a list.
pub fn encode_memories<A: Allocator + Copy>(
    sink: &mut Vec<u8, A>,
    memories: &[MemoryType],
) -> Result<()>
    ensures { OnOk result (GainsDecoding (counted_format memory_type) memories.now sink.old.items sink.new.items) }
{
    plain_memories(memories);
    let mut section = MemorySection::new(*sink.allocator());
    match add_all(&mut section, memories) {
        Ok(()) => section.encode(sink),
        Err((_, refused)) => Err(refused),
    }
}

/// Proves that each memory of a list is well-formed.
fn plain_memories(memories: &[MemoryType])
    ensures { All IsMemory memories.now }
{
    for memory in memories {
        plain_memory(*memory);
    }
}
