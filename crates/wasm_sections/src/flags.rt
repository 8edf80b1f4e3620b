// Helpers for bytes of flags.
ghost use Rattle.std.specs.Prelude.{◌≡◌, ◌≤◌};
ghost use Rattle.wasm_immediates.specs.Immediates.{where_set};

/// Returns `weight` if the bit is set, and 0 otherwise.
#[inline]
pub(crate) fn where_set(set: bool, weight: u8) -> u8
    ensures is { result ≡ where_set set weight }
    ensures small { result ≤ weight }
{
    if set { weight } else { 0 }
}
