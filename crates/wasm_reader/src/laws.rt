//! Laws about sections and modules, for all byte sequences: each function does nothing, and its
//! clause is the law.
ghost use Rattle.wasm_reader.specs.Modules.{HaveOneListing};
ghost use Rattle.wasm_reader.specs.Sections.{HaveOneEncoding};
ghost use Rattle.wasm_reader.specs.Shortening.{IsIdempotent};

/// Two minimized sections of a kind have the same bytes exactly if the originals decode to the same
/// items.
#[tactic(auto, using(crate::proofs::MinimalSections::one_encoding))]
pub fn encodings()
    ensures { HaveOneEncoding }
{}

/// Bytes are a module with exactly one listing, or stop being a module at exactly one section.
#[tactic(auto, using(crate::proofs::ModuleLaws::one_listing))]
pub fn modules()
    ensures { HaveOneListing }
{}

/// Minimizing is idempotent: a minimized module can be minimized again, to the same bytes, unless
/// an allocation fails.
#[tactic(auto, using(crate::proofs::MinimalAgain::settled))]
pub fn shortened()
    ensures { IsIdempotent }
{}
