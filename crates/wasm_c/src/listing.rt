// Lists of sections, for C.
ghost use Rattle.std.specs.Prelude.{◌≡◌, map};
ghost use Rattle.wasm_c.specs.Assembled.{Gives};
ghost use Rattle.wasm_c.specs.Listing.{fault_number, section_of, Outcome};

use crate::NO_ANSWER;
use std::alloc::Global;
use wasm_base::ReadFault;
use wasm_reader::{Listed, list_module};

/// A section in the listing of a module.
#[derive(Clone, Copy)]
#[repr(C)]
pub struct DzSection {
    /// The number of its items, or [`NO_ANSWER`] if they are not counted.
    pub items: u64,
    /// The length of its payload, in bytes.
    pub size: u32,
    pub id: u32,
}

/// Returns the number of an error.
pub(crate) fn number_of(fault: ReadFault) -> u32
    ensures { result ≡ fault_number fault }
{
    match fault {
        ReadFault::Ended => 1,
        ReadFault::NotShortest => 2,
        ReadFault::TooLarge => 3,
        ReadFault::UnknownTag => 4,
        ReadFault::UnknownOpcode => 5,
        ReadFault::NotUtf8 => 6,
        ReadFault::SizeMismatch => 7,
        ReadFault::Memory => 8,
    }
}

fn section(line: &Listed) -> DzSection
    ensures { result ≡ section_of line.now }
{
    DzSection {
        items: match line.items {
            Some(items) => u64::from(items),
            None => NO_ANSWER,
        },
        size: line.size,
        id: u32::from(line.id),
    }
}

/// Copies a section for each line to the front of `out`, if `out` holds all of them, and returns
/// their number.
fn put(lines: &[Listed], out: &mut [DzSection]) -> u64
    ensures { Gives (map section_of lines.now) out.old out.new result }
{
    let count = lines.len();
    if count <= out.len() {
        for i in 0..count {
            out[i] = section(&lines[i]);
        }
    }
    count as u64
}

/// Lists the sections of a module, in order. Returns their number.
///
/// On an error, `place` is the number of the section at which the bytes stop being a module,
/// counted from 1. It is 0 if they do not begin with the header. `cause` is the number of the
/// error, which may be a failed allocation. On success both are 0.
#[unsafe(no_mangle)]
pub extern "C" fn dz_list(
    alloc: Global,
    bytes: &[u8],
    out: &mut [DzSection],
    place: &mut u64,
    cause: &mut u32,
) -> u64
    ensures { Outcome bytes.now out.old out.new place.new cause.new result }
{
    *place = 0;
    *cause = 0;
    match list_module(alloc, bytes) {
        Ok(lines) => put(&lines, out),
        Err((number, fault)) => {
            *place = number as u64;
            *cause = number_of(fault);
            NO_ANSWER
        }
    }
}
