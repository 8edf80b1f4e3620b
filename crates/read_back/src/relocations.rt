//! A relocation section, written and read back.
ghost use Rattle.std.specs.Prelude.{◌≡◌, ◌≢◌, [], IfOk, IfErr, OnOk};
ghost use Rattle.wasm_base.specs.Formats.{size_prefixed};
ghost use Rattle.wasm_base.specs.Modules.{GainsDecoding};
ghost use Rattle.wasm_custom.specs.Relocations.{relocations_payload};
ghost use Rattle.wasm_base.specs.declared.fault.ReadFault.TheVariants.{Memory};
ghost use Rattle.read_back.specs.Relocated.{call_and_addresses};
ghost use Rattle.wasm_reader.specs.Kinds.{Relocations, contents_of};

use crate::read_and_shorten;
use std::alloc::Allocator;
use wasm_base::{Encode, ReadFault, Result};
use wasm_custom::{
    Addend32Relocation, Addend64Relocation, PlainRelocation, Relocation, RelocationSection,
};
use wasm_reader::{Items, SectionKind};

/// Appends the relocation section of a code section: relocations without an addend, and with
/// addends of 32 and of 64 bits.
fn write_relocations<A: Allocator + Copy>(sink: &mut Vec<u8, A>, index: u32) -> Result<()>
    ensures { OnOk result (GainsDecoding (size_prefixed relocations_payload) (call_and_addresses index) sink.old.items sink.new.items) }
{
    let mut section = RelocationSection::new(*sink.allocator(), "CODE", 3)?;
    section.relocation(Relocation::Plain {
        kind: PlainRelocation::FunctionIndexLeb,
        offset: 4,
        index,
    })?;
    section.relocation(Relocation::Addend32 {
        kind: Addend32Relocation::MemoryAddrLeb,
        offset: 300,
        index,
        addend: -4,
    })?;
    section.relocation(Relocation::Addend64 {
        kind: Addend64Relocation::MemoryAddrI64,
        offset: 310,
        index: 1,
        addend: -8,
    })?;
    section.encode(sink)
}

/// Decodes that relocation section, and appends its minimal encoding.
pub fn read_relocations<'a, A: Allocator + Copy + 'a>(
    encoding: &'a mut Vec<u8, A>,
    index: u32,
    sink: &mut Vec<u8, A>,
) -> Result<Items<'a, A>, ReadFault>
    requires { encoding.old.items ≡ [] }
    ensures read { IfOk result (λ items. contents_of items ≡ Relocations (call_and_addresses index)) }
    ensures same { OnOk result (GainsDecoding (size_prefixed relocations_payload) (call_and_addresses index) sink.old.items sink.new.items) }
    ensures memory { IfErr result (λ e. e ≢ Memory → ⊥) }
{
    write_relocations(encoding, index)?;
    let items = read_and_shorten(SectionKind::Relocations, encoding, sink)?;
    Ok(items)
}
