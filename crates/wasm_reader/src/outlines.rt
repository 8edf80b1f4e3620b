// Outlines a module: lists its sections, whether their payloads decode or not.
ghost use Rattle.std.specs.Prelude.{◌≡◌, ◌≢◌, IfOk, IfErr};
ghost use Rattle.wasm_base.specs.Formats.{wasm_module};
ghost use Rattle.wasm_base.specs.Continuing.{RejectsWhole};
ghost use Rattle.wasm_base.specs.Numbers.{padded};
ghost use Rattle.wasm_base.specs.declared.fault.ReadFault.TheVariants.{Memory};
ghost use Rattle.wasm_reader.specs.Outlines.{section_kind_of, IsCount, IsOutline, HasOutline, EndsAt, ExplainsHeader};

use crate::sections::{Section, Sections};
use crate::walk::count_content;
use std::alloc::Allocator;
use wasm_base::{ReadFault, Standard};

/// A section in the outline of a module.
#[derive(Clone, Copy, PartialEq, Eq, Debug)]
pub struct Outlined<'a> {
    pub id: u8,
    /// The offset of the payload in the module, in bytes.
    pub offset: usize,
    /// The length of the payload, in bytes.
    pub size: u32,
    /// The number of items, if the payload decodes as a section of its id, by the standard's
    /// grammar, and its items are counted. These are the items that `list_module` counts, and the
    /// entries of a type section. A recursion group is one entry, however many types it defines.
    pub items: Option<u32>,
    /// The name of a custom section, if its payload begins with one.
    pub name: Option<&'a str>,
}

/// Returns the number of items of a section, if its payload decodes as its kind and the items are
/// counted. Those of custom sections are not, so their payloads are not decoded.
fn count<A: Allocator + Copy>(section: &Section<'_, A>) -> Result<Option<u32>, ReadFault>
    ensures found { IfOk result (λ count. IsCount (section_kind_of section.now.section) section.now.section.payload count) }
    ensures memory { IfErr result (λ e. e ≡ Memory) }
{
    if section.id() == 0 {
        return Ok(None);
    }
    let kind = section.standing().kind();
    match count_content::<A, Standard>(kind, section.payload(), section.allocator()) {
        Ok(count) => Ok(count),
        Err(error) if error.cause() == ReadFault::Memory => Err(ReadFault::Memory),
        Err(_) => Ok(None),
    }
}

/// Returns the line of a section.
fn line_of<'a, A: Allocator + Copy>(section: &Section<'a, A>) -> Result<Outlined<'a>, ReadFault>
    ensures found { IfOk result (λ line. IsOutline section.now.offset section.now.section line) }
    ensures memory { IfErr result (λ e. e ≡ Memory) }
{
    let items = count(section)?;
    Ok(Outlined {
        id: section.id(),
        offset: section.range().start,
        size: section.payload().len() as u32,
        items,
        name: section.name(),
    })
}

/// Lists the sections of a module, whatever their payloads are. A section whose payload does not
/// decode as its kind has no number of items.
///
/// A type section decodes as types. No custom section is decoded, so none has a number of items.
///
/// # Errors
///
/// Returns the error and a section number, counted from 1. For every error except `Memory`, this is
/// the first section that is not an id and a size-prefixed payload. It is 0 if the bytes do not
/// begin with the header: the cause is then `Ended` if they are fewer than 8, and `UnknownTag`
/// otherwise.
pub fn outline<'a, A: Allocator + Copy>(
    alloc: A,
    bytes: &'a [u8],
) -> Result<Vec<Outlined<'a>, A>, (usize, ReadFault)>
    ensures found { IfOk result (λ lines. HasOutline bytes.now lines.items) }
    ensures none { IfErr result (λ e. e.1 ≢ Memory → EndsAt bytes.now e.0) }
    ensures no_module { IfErr result (λ e. e.1 ≢ Memory → RejectsWhole wasm_module padded bytes.now) }
    ensures header { IfErr result (λ e. ExplainsHeader bytes.now e.0 e.1) }
{
    let mut sections = match Sections::new(alloc, bytes) {
        Ok(sections) => sections,
        Err(error) => return Err((0, error.cause)),
    };
    let mut lines = Vec::new(alloc);
    loop {
        let number = lines.len() + 1;
        let section = match sections.next() {
            None => return Ok(lines),
            Some(Ok(section)) => section,
            Some(Err(error)) => return Err((number, error.cause)),
        };
        let line = match line_of(&section) {
            Ok(line) => line,
            Err(fault) => return Err((number, fault)),
        };
        match lines.push(line) {
            Ok(()) => {}
            Err(_) => return Err((number, ReadFault::Memory)),
        }
    }
}
