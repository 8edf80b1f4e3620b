// Minimal encodings of modules, for C.
ghost use Rattle.std.specs.Prelude.{◌≡◌};
ghost use Rattle.wasm_c.specs.Whole.{offsets_numbered, Outcome};

use crate::NO_ANSWER;
use crate::listing::number_of;
use crate::recipes::copied;
use std::alloc::Global;
use wasm_reader::{ModuleFault, Offsets, shorten_module};

/// The number of the cause of a section whose offsets would become wrong.
pub(crate) const OFFSETS: u32 = 10;

/// Returns the treatment of sections that hold offsets: 0 is an error, and any other number leaves
/// them out.
pub(crate) fn offsets_of(drop_offsets: u32) -> Offsets
    ensures { result ≡ offsets_numbered drop_offsets }
{
    if drop_offsets == 0 {
        Offsets::Refuse
    } else {
        Offsets::LeaveOut
    }
}

/// Writes a module with each section in its minimal encoding. Returns its length in bytes.
///
/// `kept` is the number of sections that are kept unchanged, since they do not decode as their
/// kinds. On an error, `place` is the number of the section, counted from 1, or 0, and `cause` is
/// the number of the error. On success both are 0.
#[unsafe(no_mangle)]
pub extern "C" fn dz_shorten_module(
    alloc: Global,
    bytes: &[u8],
    drop_offsets: u32,
    out: &mut [u8],
    kept: &mut u64,
    place: &mut u64,
    cause: &mut u32,
) -> u64
    ensures { Outcome bytes.now drop_offsets out.old out.new kept.new place.new cause.new result }
{
    *kept = 0;
    *place = 0;
    *cause = 0;
    let mut text = Vec::new(alloc);
    match shorten_module(alloc, bytes, offsets_of(drop_offsets), &mut text) {
        Ok(count) => {
            *kept = count as u64;
            copied(&text, out)
        }
        Err(ModuleFault::Section { number, fault }) => {
            *place = number as u64;
            *cause = number_of(fault);
            NO_ANSWER
        }
        Err(ModuleFault::Offsets { number }) => {
            *place = number as u64;
            *cause = OFFSETS;
            NO_ANSWER
        }
    }
}
