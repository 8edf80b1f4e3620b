//! The section of a dynamic library, written and read back.
ghost use Rattle.std.specs.Prelude.{◌≡◌, ◌≢◌, [], ◌∷◌, IfOk, IfErr, OnOk, codes};
ghost use Rattle.wasm_base.specs.Formats.{size_prefixed};
ghost use Rattle.wasm_base.specs.Modules.{GainsDecoding};
ghost use Rattle.wasm_custom.specs.Dylink.{AreNames, AreDylinkExports, AreDylinkImports, dylink_payload};
ghost use Rattle.wasm_base.specs.declared.fault.ReadFault.TheVariants.{Memory};
ghost use Rattle.read_back.specs.Libraries.{flagged_export, weak_import, library};
ghost use Rattle.wasm_reader.specs.Kinds.{Dylink, contents_of};

use crate::read_and_shorten;
use std::alloc::Allocator;
use wasm_base::{Encode, ReadFault, Result};
use wasm_custom::{
    DylinkExports, DylinkImports, DylinkMemory, DylinkNeeded, DylinkPath, DylinkSection,
};
use wasm_reader::{Items, SectionKind};

/// Returns a list of one library.
fn needed<A: Allocator + Copy>(alloc: A, name: &str) -> Result<DylinkNeeded<A>>
    ensures { IfOk result (λ list. AreNames list (name.now ∷ [])) }
{
    let mut list = DylinkNeeded::new(alloc);
    list.library(name)?;
    Ok(list)
}

/// Returns a list of one folder.
fn folders<A: Allocator + Copy>(alloc: A) -> Result<DylinkPath<A>>
    ensures { IfOk result (λ list. AreNames list (codes "/l" ∷ [])) }
{
    let mut list = DylinkPath::new(alloc);
    list.folder("/l")?;
    Ok(list)
}

/// Returns the flags of one exported symbol.
fn exports<A: Allocator + Copy>(alloc: A, flags: u32) -> Result<DylinkExports<A>>
    ensures { IfOk result (λ list. AreDylinkExports list (flagged_export flags ∷ [])) }
{
    let mut list = DylinkExports::new(alloc);
    list.export("f", flags)?;
    Ok(list)
}

/// Returns the flags of one imported symbol.
fn imports<A: Allocator + Copy>(alloc: A) -> Result<DylinkImports<A>>
    ensures { IfOk result (λ list. AreDylinkImports list (weak_import ∷ [])) }
{
    let mut list = DylinkImports::new(alloc);
    list.import("env", "g", 1)?;
    Ok(list)
}

/// Appends the section of a dynamic library: a subsection of each id.
fn write_dylink<A: Allocator + Copy>(sink: &mut Vec<u8, A>, name: &str, flags: u32) -> Result<()>
    ensures { OnOk result (GainsDecoding (size_prefixed dylink_payload) (library name.now flags) sink.old.items sink.new.items) }
{
    let alloc = *sink.allocator();
    let mut section = DylinkSection::new(alloc);
    section.memory(DylinkMemory {
        memory_size: 16,
        memory_alignment: 2,
        table_size: 0,
        table_alignment: 0,
    })?;
    section.needed(&needed(alloc, name)?)?;
    section.exports(&exports(alloc, flags)?)?;
    section.imports(&imports(alloc)?)?;
    section.runtime_path(&folders(alloc)?)?;
    section.encode(sink)
}

/// Decodes the section of that library, and appends its minimal encoding.
pub fn read_dylink<'a, A: Allocator + Copy + 'a>(
    encoding: &'a mut Vec<u8, A>,
    name: &str,
    flags: u32,
    sink: &mut Vec<u8, A>,
) -> Result<Items<'a, A>, ReadFault>
    requires { encoding.old.items ≡ [] }
    ensures read { IfOk result (λ items. contents_of items ≡ Dylink (library name.now flags)) }
    ensures same { OnOk result (GainsDecoding (size_prefixed dylink_payload) (library name.now flags) sink.old.items sink.new.items) }
    ensures memory { IfErr result (λ e. e ≢ Memory → ⊥) }
{
    write_dylink(encoding, name, flags)?;
    let items = read_and_shorten(SectionKind::Dylink, encoding, sink)?;
    Ok(items)
}
