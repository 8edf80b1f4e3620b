// The workload of the data section.
ghost use Rattle.std.specs.Prelude.{◌≡◌, ◌+◌, ◌<◌, length, IfOk, OnErr, OnOk};
ghost use Rattle.wasm_bench.specs.Answers.{DataAnswer, IsSplit, Outcome};

use crate::answers::{Fault, answer, number};
use std::alloc::Global;
use wasm_base::Result;
use wasm_code::ConstExpr;
use wasm_sections::DataSection;

/// Adds an active segment of these bytes, which begins at the offset `start`.
#[tactic(auto, using(wasm_base::proofs::KnownLengths::drained_copied))]
fn add(alloc: Global, section: &mut DataSection, start: i32, bytes: &[u8]) -> Result<()>
    ensures { OnOk result (length section.new ≡ length section.old + 1) }
{
    let offset = ConstExpr::i32_const(alloc, start)?;
    section.active(0, &offset, bytes.iter().copied())
}

/// Returns a section of segments of `segment` bytes each. The last one may be shorter. All of them
/// begin below 2 GiB.
fn build(alloc: Global, bytes: &[u8], segment: usize) -> Result<DataSection, Fault>
    requires { 0 < segment }
    ensures { IfOk result (λ section. IsSplit (length bytes.now) segment (length section)) }
{
    let mut section = DataSection::new(alloc);
    let mut start = 0;
    while start < bytes.len() {
        let Ok(place) = i32::try_from(start) else {
            return Err(Fault::WrongInput);
        };
        let end = start.saturating_add(segment).min(bytes.len());
        add(alloc, &mut section, place, &bytes[start..end])?;
        start = end;
    }
    Ok(section)
}

fn data_section(
    alloc: Global,
    bytes: &[u8],
    segment: u32,
    phase: u32,
    out: &mut [u8],
) -> Result<u64, Fault>
    ensures ok { IfOk result (λ n. DataAnswer (length bytes.now) segment phase out.old out.new n) }
    ensures err { OnErr result (out.new ≡ out.old) }
{
    if segment == 0 {
        return Err(Fault::WrongInput);
    }
    let section = build(alloc, bytes, segment as usize)?;
    answer(alloc, &section, phase, out)
}

/// Builds a section of active segments of memory 0, one for each `segment` bytes.
#[unsafe(no_mangle)]
pub extern "C" fn wb_data(
    alloc: Global,
    bytes: &[u8],
    segment: u32,
    phase: u32,
    out: &mut [u8],
) -> u64
    ensures { Outcome out.old out.new result (DataAnswer (length bytes.now) segment phase out.old out.new result) }
{
    number(data_section(alloc, bytes, segment, phase, out))
}
