// The workloads that decode code sections and bodies.
ghost use Rattle.std.specs.Prelude.{◌≡◌, ◌⊎◌, ⊤, map, IfOk, MatchOption};
ghost use Rattle.wasm_bench.specs.Decodings.{HasRead, HasWalked, instructions_in};
ghost use Rattle.wasm_bench.specs.declared.answers.TheConstants.{NO_ANSWER as no_answer};
ghost use Rattle.wasm_code.specs.BodyViews.{body_view};

use crate::answers::NO_ANSWER;
use std::alloc::Global;
use wasm_base::DecodeError;
use wasm_code::{Body, Instructions};
use wasm_reader::{Items, SectionKind, read_section};

/// Returns the number of instructions in all bodies together, or `None` if it does not fit 64 bits.
fn instructions(bodies: &[Body]) -> Option<u64>
    ensures { MatchOption result ⊤ (λ n. n ≡ instructions_in (map body_view bodies.now)) }
{
    let mut count: u64 = 0;
    for body in bodies {
        count = count.checked_add(body.code.len() as u64)?;
    }
    Some(count)
}

/// Decodes a code section, whose bytes begin at its size prefix, into a list of its bodies, and
/// returns the number of their instructions.
#[unsafe(no_mangle)]
pub extern "C" fn wb_read(alloc: Global, section: &[u8]) -> u64
    ensures { (result ≡ no_answer) ⊎ HasRead section.now result }
{
    match read_section(alloc, SectionKind::Bodies, section) {
        Ok((Items::Bodies(bodies), _)) => instructions(&bodies).unwrap_or(NO_ANSWER),
        _ => NO_ANSWER,
    }
}

/// Returns the number of instructions that a visitor visits.
fn walked(alloc: Global, body: &[u8]) -> Result<u64, DecodeError>
    ensures { IfOk result (λ n. HasWalked body.now n) }
{
    let (_runs, mut walk) = Instructions::of_body(body, alloc)?;
    let mut count = 0;
    while let Some(_step) = walk.next()? {
        count += 1;
    }
    Ok(count)
}

/// Visits the instructions of a body, whose bytes are those without its size prefix, and returns
/// their number.
#[unsafe(no_mangle)]
pub extern "C" fn wb_walk(alloc: Global, body: &[u8]) -> u64
    ensures { (result ≡ no_answer) ⊎ HasWalked body.now result }
{
    walked(alloc, body).unwrap_or(NO_ANSWER)
}
