// A module without its custom sections.
ghost use Rattle.std.specs.Prelude.{◌≡◌, ◌≢◌, IfOk, IfErr, OnOk, OnErr};
ghost use Rattle.wasm_base.specs.Calls.{DecodesOneMore};
ghost use Rattle.wasm_base.specs.Continuing.{RejectsWhole};
ghost use Rattle.wasm_base.specs.Formats.{wasm_module};
ghost use Rattle.wasm_base.specs.Numbers.{padded};
ghost use Rattle.wasm_base.specs.declared.fault.ReadFault.TheVariants.{Memory};
ghost use Rattle.examples.specs.Stripped.{IsStripped};

use std::alloc::Allocator;
use wasm_base::{Module, RawSection, ReadFault};
use wasm_reader::{ReadError, Section, Sections};

/// Returns the module without its custom sections, as strippers do. Other sections keep their
/// payloads, and their order.
///
/// # Errors
///
/// Every error except `Memory` means that the bytes are no module: the header, then sections of any
/// payload.
pub fn without_custom<A: Allocator + Copy>(bytes: &[u8], alloc: A) -> Result<Vec<u8, A>, ReadError>
    ensures found { IfOk result (λ kept. IsStripped bytes.now kept.items) }
    ensures none { IfErr result (λ e. e.cause ≢ Memory → RejectsWhole wasm_module padded bytes.now) }
{
    let mut sections = Sections::new(alloc, bytes)?;
    let mut kept = match Module::new(alloc) {
        Ok(module) => module,
        Err(_) => return Err(refused_at(0)),
    };
    loop {
        let section = match sections.next() {
            None => return Ok(kept.finish()),
            Some(section) => section?,
        };
        if section.id() == 0 {
            continue;
        }
        match copy(&section, &mut kept) {
            Ok(()) => {}
            Err(error) => return Err(error),
        }
    }
}

/// Returns the error of a failed allocation at the section of this offset.
pub(crate) fn refused_at(offset: usize) -> ReadError
    ensures { result.cause ≡ Memory }
{
    ReadError {
        cause: ReadFault::Memory,
        offset,
    }
}

/// Appends a section to the module, with the same payload.
fn copy<A: Allocator + Copy>(
    section: &Section<'_, A>,
    module: &mut Module<A>,
) -> Result<(), ReadError>
    ensures ok { OnOk result (DecodesOneMore (λ payload. payload ≡ section.now.section.payload) section.now.section.id module.old module.new) }
    ensures memory { IfErr result (λ e. e.cause ≡ Memory) }
{
    let copied = RawSection {
        id: section.id(),
        bytes: section.payload(),
    };
    match module.section(&copied) {
        Ok(()) => Ok(()),
        Err(_) => Err(refused_at(section.offset())),
    }
}
