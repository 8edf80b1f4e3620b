// Outlines of modules, for C.
ghost use Rattle.std.specs.Prelude.{◌≡◌, ◌≤◌, ◌<◌, All, length, map};
ghost use Rattle.wasm_c.specs.Assembled.{Gives};
ghost use Rattle.wasm_c.specs.Outlining.{behind_number, section_of, IsNamed, Outcome};

use crate::NO_ANSWER;
use crate::listing::number_of;
use std::alloc::Global;
use wasm_reader::{Outlined, outline};

/// A section in the outline of a module.
#[derive(Clone, Copy)]
#[repr(C)]
pub struct DzOutlined {
    /// The number of its items, or [`NO_ANSWER`] if it does not decode as its kind, or its items
    /// are not counted.
    pub items: u64,
    /// The offset of the payload in the module, in bytes.
    pub offset: u64,
    /// The offset of a custom section's name in the module, in bytes, or [`NO_ANSWER`] if the
    /// payload does not begin with a name.
    pub name_offset: u64,
    /// The length of the name in bytes, or [`NO_ANSWER`].
    pub name_size: u64,
    /// The length of the payload, in bytes.
    pub size: u32,
    pub id: u32,
}

/// Returns the offset after the LEB128 number at this offset.
#[tactic(auto, using(crate::proofs::Named::number_steps))]
fn end_of_number(bytes: &[u8], place: usize) -> usize
    requires { behind_number bytes.now place ≤ length bytes.now }
    ensures { result ≡ behind_number bytes.now place }
{
    let mut last = place;
    while bytes[last] >= 0x80 {
        last += 1;
    }
    last + 1
}

fn section(bytes: &[u8], line: &Outlined<'_>) -> DzOutlined
    requires { IsNamed bytes.now line.now }
    ensures { result ≡ section_of bytes.now line.now }
{
    let (name_offset, name_size) = match line.name {
        Some(name) => (end_of_number(bytes, line.offset) as u64, name.len() as u64),
        None => (NO_ANSWER, NO_ANSWER),
    };
    DzOutlined {
        items: match line.items {
            Some(items) => u64::from(items),
            None => NO_ANSWER,
        },
        offset: line.offset as u64,
        name_offset,
        name_size,
        size: line.size,
        id: u32::from(line.id),
    }
}

/// Copies a section for each line to the front of `out`, if `out` holds all of them, and returns
/// their number.
fn put(bytes: &[u8], lines: &[Outlined<'_>], out: &mut [DzOutlined]) -> u64
    requires { All (IsNamed bytes.now) lines.now }
    ensures { Gives (map (section_of bytes.now) lines.now) out.old out.new result }
{
    let count = lines.len();
    if count <= out.len() {
        for i in 0..count {
            out[i] = section(bytes, &lines[i]);
        }
    }
    count as u64
}

/// Lists the sections of a module, whatever their payloads are. Returns their number.
///
/// On an error, `place` is the number of the first section that is not an id and a size-prefixed
/// payload, counted from 1. It is 0 if the bytes do not begin with the header. `cause` is the
/// number of the error, which may be a failed allocation. On success both are 0.
#[unsafe(no_mangle)]
pub extern "C" fn dz_outline(
    alloc: Global,
    bytes: &[u8],
    out: &mut [DzOutlined],
    place: &mut u64,
    cause: &mut u32,
) -> u64
    ensures { Outcome bytes.now out.old out.new place.new cause.new result }
{
    *place = 0;
    *cause = 0;
    match outline(alloc, bytes) {
        Ok(lines) => put(bytes, &lines, out),
        Err((number, fault)) => {
            *place = number as u64;
            *cause = number_of(fault);
            NO_ANSWER
        }
    }
}
