// Cases that only the standard's grammar has.
ghost use Rattle.std.specs.Prelude.{◌≡◌, ◌≢◌, true, false, IfOk, IfErr};
ghost use Rattle.wasm_base.specs.Numbers.{is_admitted};
ghost use Rattle.wasm_base.specs.declared.fault.ReadFault.TheVariants.{Memory};

use wasm_base::{DecodeError, Grammar, ReadFault};

/// Returns an error unless the grammar is the standard's. The error's offset is that of the byte
/// just before `rest`, which selects the case.
pub(crate) fn require_standard<G: Grammar>(rest: &[u8]) -> Result<(), DecodeError>
    ensures found { IfOk result (λ _. is_admitted G.grammar ≡ true) }
    ensures none { IfErr result (λ _. is_admitted G.grammar ≡ false) }
    ensures no_memory { IfErr result (λ e. e.cause ≢ Memory) }
{
    if G::is_standard() {
        Ok(())
    } else {
        Err(ReadFault::UnknownTag.just_before(rest))
    }
}
