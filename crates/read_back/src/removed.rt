// Modules without the functions that nothing refers to.
ghost use Rattle.std.specs.Prelude.{IfOk};
ghost use Rattle.read_back.specs.Removed.{LosesFunctions};

use std::alloc::Allocator;
use wasm_base::Refused;
use wasm_reader::{Items, Offsets, ReadError, Section, Sections};
use wasm_remap::{IndexSpace, RemapError, RemoveError, imported, remove_functions};

/// Returns the number of functions that a section imports or defines, or 0 above 4294967295.
fn functions_in<A: Allocator + Copy>(section: &Section<'_, A>) -> Result<u32, ReadError> {
    match section.items()? {
        Items::Imports(entries) => Ok(imported(&entries, IndexSpace::Functions).unwrap_or(0)),
        Items::Functions(types) => Ok(u32::try_from(types.len()).unwrap_or(0)),
        _ => Ok(0),
    }
}

/// Returns the number of functions of a module, imported ones too.
fn count_functions<A: Allocator + Copy>(module: &[u8], alloc: A) -> Result<u32, ReadError> {
    let mut count = 0u32;
    let mut sections = Sections::new(alloc, module)?;
    while let Some(section) = sections.next() {
        let section = section?;
        count = count.saturating_add(functions_in(&section)?);
    }
    Ok(count)
}

/// Returns as many flags, all of them set.
fn all_set<A: Allocator>(count: u32, alloc: A) -> Result<Vec<bool, A>, Refused> {
    let mut flags = Vec::new(alloc);
    for _set in 0..count {
        flags.push(true)?;
    }
    Ok(flags)
}

/// Returns the module without its unused functions: those that it neither imports nor exports, and
/// to which no other place of it refers but bodies of such functions.
///
/// It tries to remove all functions, and keeps each one that is in use. So it decodes the module once
/// for each function that stays.
pub fn without_unused<A: Allocator + Copy>(
    module: &[u8],
    alloc: A,
) -> Result<Vec<u8, A>, RemapError<RemoveError>>
    ensures { IfOk result (λ new. LosesFunctions module.now new.items) }
{
    let count = count_functions(module, alloc)?;
    let mut removed = all_set(count, alloc)?;
    for _kept in 0..count {
        let used = match remove_functions(module, alloc, &removed, Offsets::LeaveOut) {
            Err(RemapError::Index(RemoveError::InUse(index) | RemoveError::Imported(index))) => {
                index
            }
            other => return other,
        };
        if let Some(flag) = removed.get_mut(used as usize) {
            *flag = false;
        }
    }
    remove_functions(module, alloc, &removed, Offsets::LeaveOut)
}
