// The results of workloads.
ghost use Rattle.std.specs.Prelude.{◌≡◌, ◌≤◌, ◌<◌, ◌^◌, ℕ, List, length, IfErr, MatchOption, MatchResult};
ghost use Rattle.wasm_base.specs.Pieces.{joined};
ghost use Rattle.wasm_bench.specs.Answers.{Gives, Answers};
ghost use Rattle.wasm_bench.specs.declared.answers.Fault.TheVariants as faults;

use std::alloc::Global;
use wasm_base::{Module, Refused, Section};
use wasm_code::CodeSection;
use wasm_custom::NameSection;
use wasm_sections::{CountedSection, ItemKind};
use wasm_types::TypeSection;

/// The result of a workload whose input is wrong, or in which a call of the library failed.
pub const NO_ANSWER: u64 = 18446744073709551615;

/// The error of a workload.
#[derive(Clone, Copy)]
pub(crate) enum Fault {
    /// The input is not one of the workload.
    WrongInput,
    /// A call of the library failed.
    Refused,
}

impl From<Refused> for Fault {
    ghost from_gives = { λ _ fault. fault ≡ faults.Refused };

    fn from(_refused: Refused) -> Fault {
        Fault::Refused
    }
}

/// Copies the bytes to the front of `out`, if `out` holds all of them, and returns their number.
fn copied(bytes: &[u8], out: &mut [u8]) -> u64
    ensures { Gives bytes.now out.old out.new result }
{
    let count = bytes.len();
    if count <= out.len() {
        let (spare, _) = out.split_at_mut(count);
        spare.copy_from_slice(bytes);
    }
    count as u64
}

/// A section of entries, whose total length a workload returns.
pub(crate) trait Entries: Section {
    /// The bytes of the entries.
    ghost content: { Self → List ℕ };

    /// Returns the length of all entries together in bytes, without their number, or `None` if it
    /// does not fit 64 bits.
    fn entries_len(&self) -> Option<u64>
        ensures { MatchOption result (2 ^ 64 ≤ length (content self.now)) (λ n. n ≡ length (content self.now)) };
}

impl Entries for CodeSection {
    ghost content = { λ section. joined section };

    fn entries_len(&self) -> Option<u64> {
        Some(self.byte_len() as u64)
    }
}

impl Entries for NameSection {
    ghost content = { λ section. joined section };

    fn entries_len(&self) -> Option<u64> {
        Some(self.as_custom().bytes.as_slice().len() as u64)
    }
}

/// Adds the lengths of the entries one by one, since the section does not report the total.
impl<K: ItemKind> Entries for CountedSection<K> {
    ghost content = { λ section. joined section };

    #[tactic(auto, using(crate::proofs::PieceLengths::joined_take_more, crate::proofs::PieceLengths::joined_take_le))]
    fn entries_len(&self) -> Option<u64> {
        let mut bytes: u64 = 0;
        for index in 0..self.len() {
            let piece = self.piece(index)?;
            bytes = bytes.checked_add(piece.len() as u64)?;
        }
        Some(bytes)
    }
}

/// Adds the lengths of the entries, as for a counted section.
impl Entries for TypeSection {
    ghost content = { λ section. joined section };

    #[tactic(auto, using(crate::proofs::PieceLengths::joined_take_more, crate::proofs::PieceLengths::joined_take_le))]
    fn entries_len(&self) -> Option<u64> {
        let mut bytes: u64 = 0;
        for index in 0..self.len() {
            let piece = self.piece(index)?;
            bytes = bytes.checked_add(piece.len() as u64)?;
        }
        Some(bytes)
    }
}

/// Returns the result of a workload that built this section: in phase 0 the length of its entries
/// in bytes, in phase 1 the section, and in phase 2 a module of this section alone.
pub(crate) fn answer<S: Entries>(
    alloc: Global,
    section: &S,
    phase: u32,
    out: &mut [u8],
) -> Result<u64, Fault>
    ensures answers { Answers (S.id_of section.now) (S.content section.now) (S.encoding section.now) phase out.old out.new result }
    ensures wrong { IfErr result (λ fault. fault ≡ faults.WrongInput → 2 < phase) }
{
    match phase {
        0 => section.entries_len().ok_or(Fault::Refused),
        1 => {
            let mut bytes = Vec::new(alloc);
            section.append_to(&mut bytes)?;
            Ok(copied(&bytes, out))
        }
        2 => {
            let mut module = Module::new(alloc)?;
            module.section(section)?;
            Ok(copied(&module.finish(), out))
        }
        _ => Err(Fault::WrongInput),
    }
}

/// Returns the result as a number.
pub(crate) fn number(outcome: Result<u64, Fault>) -> u64
    ensures { MatchResult outcome (λ n. result ≡ n) (λ _. result ≡ NO_ANSWER) }
{
    match outcome {
        Ok(n) => n,
        Err(_) => NO_ANSWER,
    }
}
