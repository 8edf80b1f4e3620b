// The numbers of a module that its counters depend on.
ghost use Rattle.std.specs.Prelude.{◌≡◌, ◌≢◌, ◌∷◌, [], List, Some, map, IfOk, IfErr, IfSome};
ghost use Rattle.wasm_base.specs.Continuing.{RejectsWhole};
ghost use Rattle.wasm_base.specs.Formats.{vec};
ghost use Rattle.wasm_base.specs.Numbers.{standard};
ghost use Rattle.wasm_base.specs.declared.fault.ReadFault.TheVariants.{Memory};
ghost use Rattle.wasm_reader.specs.Kinds.{Contents, content, number_in};
ghost use Rattle.wasm_reader.specs.Outlines.{IsSection, section_kind_of};
ghost use Rattle.wasm_remap.specs.Places.{copied};
ghost use Rattle.wasm_sections.specs.Exports.{ExportItem, export, item_of};
ghost use Rattle.examples.specs.Coverage.{AreNumbers, Explains, ExplainsSection, HasNumbers, ImportsNumbers, IsSum, has_counter};

use super::{CoverageError, MAX_LENGTH};
use crate::stripped::refused_at;
use std::alloc::Allocator;
use wasm_reader::{Items, ReadError, Section, Sections};
use wasm_remap::{IndexSpace, imported};
use wasm_sections::Export;

/// The numbers of a module that its counters depend on.
#[derive(Clone, Copy)]
pub(super) struct Numbers {
    /// The number of imported functions: the index of the first function that the module defines.
    pub(super) function: u32,
    /// The number of globals: the index of the first counter.
    pub(super) counter: u32,
    /// The number of functions that the module defines.
    pub(super) bodies: u32,
}

/// The numbers of an empty module.
const NONE: Numbers = Numbers {
    function: 0,
    counter: 0,
    bodies: 0,
};

/// Returns the sums of the numbers, or `None` above 4294967295.
fn sum(a: Numbers, b: Numbers) -> Option<Numbers>
    ensures { IfSome result (λ c. IsSum a b c) }
{
    Some(Numbers {
        function: a.function.checked_add(b.function)?,
        counter: a.counter.checked_add(b.counter)?,
        bodies: a.bodies.checked_add(b.bodies)?,
    })
}

/// Returns the numbers of a module that can be covered.
pub(super) fn numbers_of<A: Allocator + Copy>(
    bytes: &[u8],
    alloc: A,
) -> Result<Numbers, CoverageError>
    ensures found { IfOk result (λ n. HasNumbers bytes.now n) }
    ensures why { IfErr result (λ e. Explains bytes.now e) }
{
    if bytes.len() >= MAX_LENGTH {
        return Err(CoverageError::TooLong);
    }
    let mut sections = Sections::new(alloc, bytes)?;
    let mut numbers = NONE;
    loop {
        let section = match sections.next() {
            None => return Ok(numbers),
            Some(section) => section?,
        };
        let more = numbers_in(&section)?;
        numbers = match sum(numbers, more) {
            Some(sum) => sum,
            None => return Err(CoverageError::Read(refused_at(section.offset()))),
        };
    }
}

/// Returns the numbers of a module of this section alone.
fn numbers_in<A: Allocator + Copy>(section: &Section<'_, A>) -> Result<Numbers, CoverageError>
    ensures found { IsSection section.now.section → IfOk result (λ n. AreNumbers (copied section.now.section ∷ []) n) }
    ensures why { IsSection section.now.section → IfErr result (λ e. ExplainsSection section.now e) }
{
    let offset = section.offset();
    if section.has_offsets() {
        return Err(CoverageError::Offsets { offset });
    }
    match section.id() {
        2 => Ok(imported_in(section)?),
        6 => Ok(Numbers {
            counter: count_of(section)?,
            ..NONE
        }),
        7 => {
            if names_counters(section)? {
                return Err(CoverageError::Taken { offset });
            }
            Ok(NONE)
        }
        10 => Ok(Numbers {
            bodies: count_of(section)?,
            ..NONE
        }),
        _ => Ok(NONE),
    }
}

/// Returns the numbers of a module of these imports alone. The section must be one of imports.
fn imported_in<A: Allocator + Copy>(section: &Section<'_, A>) -> Result<Numbers, ReadError>
    ensures found { IsSection section.now.section → section.now.section.id ≡ 2 → IfOk result (λ n. ImportsNumbers section.now.section.payload n) }
    ensures none { IfErr result (λ e. e.cause ≢ Memory → RejectsWhole (content (section_kind_of section.now.section)) standard section.now.section.payload) }
{
    let offset = section.offset();
    let Items::Imports(entries) = section.items()? else {
        return Err(refused_at(offset));
    };
    let (Some(function), Some(counter)) = (
        imported(&entries, IndexSpace::Functions),
        imported(&entries, IndexSpace::Globals),
    ) else {
        return Err(refused_at(offset));
    };
    Ok(Numbers {
        function,
        counter,
        bodies: 0,
    })
}

/// Returns the number of items of a section, which must be of a kind that is counted.
fn count_of<A: Allocator + Copy>(section: &Section<'_, A>) -> Result<u32, ReadError>
    ensures found { IfOk result (λ n. (x : Contents) × content (section_kind_of section.now.section) standard section.now.section.payload x × (number_in x ≡ Some n)) }
    ensures none { IfErr result (λ e. e.cause ≢ Memory → RejectsWhole (content (section_kind_of section.now.section)) standard section.now.section.payload) }
{
    match section.count()? {
        Some(number) => Ok(number),
        None => Err(refused_at(section.offset())),
    }
}

/// Returns `true` if an export has a name that begins as the names of counters.
fn has_counter(exports: &[Export<'_>]) -> bool
    ensures { result ≡ has_counter (map item_of exports.now) }
{
    for export in exports {
        if export.name.as_bytes().starts_with(b"coverage.") {
            return true;
        }
    }
    false
}

/// Returns `true` if the section has such an export. It must be one of exports.
fn names_counters<A: Allocator + Copy>(section: &Section<'_, A>) -> Result<bool, ReadError>
    ensures found { IsSection section.now.section → section.now.section.id ≡ 7 → IfOk result (λ taken. (exports : List ExportItem) × vec export standard section.now.section.payload exports × (taken ≡ has_counter exports)) }
    ensures none { IfErr result (λ e. e.cause ≢ Memory → RejectsWhole (content (section_kind_of section.now.section)) standard section.now.section.payload) }
{
    match section.items()? {
        Items::Exports(exports) => Ok(has_counter(&exports)),
        _ => Err(refused_at(section.offset())),
    }
}
