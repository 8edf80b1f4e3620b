// Lists the sections of a module.
ghost use Rattle.std.specs.Prelude.{◌≡◌, ◌≢◌, ◌++◌, length, IfOk, IfErr};
ghost use Rattle.wasm_base.specs.Formats.{fixed, header};
ghost use Rattle.wasm_base.specs.Numbers.{padded};
ghost use Rattle.wasm_base.specs.Continuing.{RejectsWhole};
ghost use Rattle.wasm_base.specs.Decoding.{Rejects};
ghost use Rattle.wasm_base.specs.declared.fault.ReadFault.TheVariants.{Memory};
ghost use Rattle.wasm_reader.specs.Kinds.{Contents, content, kind_of_id};
ghost use Rattle.wasm_reader.specs.Modules.{line_of, HasLines, StopsAt};
ghost use Rattle.wasm_reader.specs.Outlines.{IsHeaderCause, ExplainsHeader};

use crate::kinds::kind_of_id;
use crate::sections::{Section, Sections};
use crate::walk::count_content;
use std::alloc::Allocator;
use wasm_base::{Padded, ReadFault};

/// The magic and the version of a module.
pub(crate) const HEADER: [u8; 8] = [0x00, 0x61, 0x73, 0x6D, 0x01, 0x00, 0x00, 0x00];

/// A section in the listing of a module.
#[derive(Clone, Copy, PartialEq, Eq, Debug)]
pub struct Listed {
    pub id: u8,
    /// The length of its payload, in bytes.
    pub size: u32,
    /// The number of its items: 1 for a start and a data count section, `None` for type sections,
    /// custom sections, and those of ids above 13.
    pub items: Option<u32>,
}

/// Decodes the header, and returns the remaining bytes.
#[tactic(auto, using(crate::proofs::DecodeModules::header_steps))]
pub(crate) fn read_header(bytes: &[u8]) -> Result<&[u8], ReadFault>
    ensures found { IfOk result (λ rest. bytes.now ≡ header ++ rest.now) }
    ensures none { IfErr result (λ _. Rejects (fixed header (tt {0})) padded bytes.now) }
    ensures cause { IfErr result (λ e. IsHeaderCause bytes.now e) }
{
    match bytes.split_first_chunk::<8>() {
        None => Err(ReadFault::Ended),
        Some((front, rest)) => {
            if *front == HEADER {
                Ok(rest)
            } else {
                Err(ReadFault::UnknownTag)
            }
        }
    }
}

/// Returns the line of a section.
fn line_of<A: Allocator + Copy>(section: &Section<'_, A>) -> Result<Listed, ReadFault>
    ensures found { IfOk result (λ line. (x : Contents) × content (kind_of_id section.now.section.id) padded section.now.section.payload x × (line ≡ line_of (section.now.section.id, (length section.now.section.payload, x)))) }
    ensures none { IfErr result (λ e. e ≢ Memory → RejectsWhole (content (kind_of_id section.now.section.id)) padded section.now.section.payload) }
{
    let id = section.id();
    let items = count_content::<A, Padded>(kind_of_id(id), section.payload(), section.allocator())?;
    let size = section.payload().len() as u32;
    Ok(Listed { id, size, items })
}

/// Lists the sections of a module. Each section is decoded as the kind of its id. Type sections and
/// those of ids above 13 count as raw bytes.
///
/// # Errors
///
/// Returns the error and a section number, counted from 1. For every error except `Memory`, this is
/// the section at which the bytes stop being a module. It is 0 if they do not begin with the
/// header. For `Memory` it is the section that was being decoded, which no contract states.
pub fn list_module<'a, A: Allocator + Copy>(
    alloc: A,
    bytes: &'a [u8],
) -> Result<Vec<Listed, A>, (usize, ReadFault)>
    ensures found { IfOk result (λ lines. HasLines bytes.now lines.items) }
    ensures none { IfErr result (λ e. e.1 ≢ Memory → StopsAt bytes.now e.0) }
    ensures header { IfErr result (λ e. ExplainsHeader bytes.now e.0 e.1) }
{
    let mut sections = match Sections::new(alloc, bytes) {
        Ok(sections) => sections,
        Err(error) => return Err((0, error.cause)),
    };
    let mut lines = Vec::new(alloc);
    loop {
        let number = lines.len() + 1;
        let section = match sections.next() {
            None => return Ok(lines),
            Some(Ok(section)) => section,
            Some(Err(error)) => return Err((number, error.cause)),
        };
        let line = match line_of(&section) {
            Ok(line) => line,
            Err(fault) => return Err((number, fault)),
        };
        match lines.push(line) {
            Ok(()) => {}
            Err(_) => return Err((number, ReadFault::Memory)),
        }
    }
}
