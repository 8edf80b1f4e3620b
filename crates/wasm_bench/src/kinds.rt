// The kinds of exports and imports.
ghost use Rattle.std.specs.Prelude.{◌≡◌, ◌<◌, MatchResult};
ghost use Rattle.wasm_sections.specs.Exports.{kind_code};

use crate::answers::Fault;
use wasm_sections::ExportKind;

/// Returns the kind of this number.
pub(crate) fn export_kind_of(number: u8) -> Result<ExportKind, Fault>
    ensures { MatchResult result (λ kind. kind_code kind ≡ number) (λ _. 4 < number) }
{
    match number {
        0 => Ok(ExportKind::Func),
        1 => Ok(ExportKind::Table),
        2 => Ok(ExportKind::Memory),
        3 => Ok(ExportKind::Global),
        4 => Ok(ExportKind::Tag),
        _ => Err(Fault::WrongInput),
    }
}
