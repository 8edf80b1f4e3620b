// Sections of entries that are already encoded, with padded LEB128.
ghost use Rattle.std.specs.Prelude.{[], ◌∷◌, IfOk, OnOk, pos, neg_ℤ};
ghost use Rattle.wasm_base.specs.Entries.{counted_format};
ghost use Rattle.wasm_base.specs.Formats.{size_prefixed};
ghost use Rattle.wasm_base.specs.Modules.{DecodesSections, GainsDecodingPadded};
ghost use Rattle.wasm_code.specs.Code.{code_section, padded_code_decoding};
ghost use Rattle.wasm_custom.specs.Names.{Map, name_payload};
ghost use Rattle.wasm_sections.specs.Globals.{global_item};
ghost use Rattle.examples.specs.Bodies.{first_body, local_body};
ghost use Rattle.examples.specs.Padded.{bare_body, number};

use crate::bodies::{first_function, local_function};
use std::alloc::Allocator;
use wasm_base::{Encode, Module, Result, ValType};
use wasm_code::{CodeSection, ConstExpr};
use wasm_custom::NameSection;
use wasm_sections::{GlobalSection, GlobalType};

/// Appends a code section of a body whose number of runs is padded, and of a function, which
/// returns the local of this index.
pub fn encode_padded_body<A: Allocator + Copy>(sink: &mut Vec<u8, A>, index: u32) -> Result<()>
    ensures { OnOk result (GainsDecodingPadded code_section (bare_body ∷ local_body index ∷ []) sink.old.items sink.new.items) }
{
    let alloc = *sink.allocator();
    let mut code = CodeSection::new(alloc);
    code.raw(&[0x80, 0x00, 0x0B])?;
    code.function(&local_function(alloc, index)?)?;
    code.encode(sink)
}

/// Appends a global section of two globals: the constant of an expression is padded, and so is that
/// of an encoded global.
pub fn encode_padded_globals<A: Allocator + Copy>(sink: &mut Vec<u8, A>) -> Result<()>
    ensures { OnOk result (GainsDecodingPadded (counted_format global_item) (number (neg_ℤ (pos 1)) ∷ number (pos 0) ∷ []) sink.old.items sink.new.items) }
{
    let alloc = *sink.allocator();
    let constant = GlobalType {
        val_type: ValType::I32,
        mutable: false,
        shared: false,
    };
    let init = ConstExpr::raw(alloc, [0x41, 0xFF, 0xFF, 0xFF, 0xFF, 0x7F])?;
    let mut section = GlobalSection::new(alloc);
    section.global(constant, &init)?;
    section.raw(&[0x7F, 0x00, 0x41, 0x80, 0x00, 0x0B])?;
    section.encode(sink)
}

/// Appends a name section of the name `a` of the function 0, whose index is padded.
pub fn encode_padded_names<A: Allocator + Copy>(sink: &mut Vec<u8, A>) -> Result<()>
    ensures { OnOk result (GainsDecodingPadded (size_prefixed name_payload) (Map 1 ((0, 97 ∷ []) ∷ []) ∷ []) sink.old.items sink.new.items) }
{
    let mut names = NameSection::new(*sink.allocator());
    names.raw(1, &[0x01, 0x80, 0x00, 0x01, 0x61])?;
    names.encode(sink)
}

/// Returns a module of a code section of a body whose number of runs is padded, and of a function
/// of one local.
pub fn padded_module<A: Allocator + Copy>(alloc: A) -> Result<Vec<u8, A>>
    ensures { IfOk result (λ bytes. DecodesSections (padded_code_decoding (bare_body ∷ first_body ∷ []) ∷ []) bytes.items) }
{
    let mut code = CodeSection::new(alloc);
    code.raw(&[0x80, 0x80, 0x00, 0x0B])?;
    code.function(&first_function(alloc)?)?;
    let mut module = Module::new(alloc)?;
    module.section(&code)?;
    Ok(module.finish())
}
