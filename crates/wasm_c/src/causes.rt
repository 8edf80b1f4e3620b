// Messages of causes, for C.
ghost use Rattle.std.specs.Prelude.{◌≡◌, option_map};
ghost use Rattle.wasm_c.specs.Causes.{fault_texts, recipe_texts, text_numbered, Determines};

use crate::NO_ANSWER;
use crate::recipes::copied;

/// Returns the message of an error of a section or a module, if one has this number.
fn fault_text(cause: u32) -> Option<&'static str>
    ensures { option_map (λ t. t.now) result ≡ text_numbered fault_texts cause }
{
    match cause {
        1 => Some("Ended"),
        2 => Some("NotShortest"),
        3 => Some("TooLarge"),
        4 => Some("UnknownTag"),
        5 => Some("UnknownOpcode"),
        6 => Some("NotUtf8"),
        7 => Some("SizeMismatch"),
        8 => Some("Memory"),
        9 => Some("NoKind"),
        10 => Some("Offsets"),
        11 => Some("NoIndex"),
        12 => Some("Overlong"),
        _ => None,
    }
}

/// Returns the message of an error of a recipe, if one has this number.
fn recipe_text(cause: u32) -> Option<&'static str>
    ensures { option_map (λ t. t.now) result ≡ text_numbered recipe_texts cause }
{
    match cause {
        1 => Some("unknown command"),
        2 => Some("bad number"),
        3 => Some("bad hex"),
        4 => Some("missing word"),
        5 => Some("out of memory"),
        6 => Some("too long"),
        7 => Some("not text"),
        8 => Some("surplus word"),
        9 => Some("unknown type"),
        10 => Some("locals without a body"),
        _ => None,
    }
}

/// Writes the message of a cause of [`dz_list`](crate::listing::dz_list),
/// [`dz_outline`](crate::outlining::dz_outline), [`dz_shorten`](crate::minimal::dz_shorten),
/// [`dz_shorten_module`](crate::whole::dz_shorten_module),
/// [`dz_remap_module`](crate::indices::dz_remap_module) or
/// [`dz_insert_import`](crate::indices::dz_insert_import), in ASCII and without a terminating NUL.
/// Returns its length in bytes, or [`NO_ANSWER`] for any other number.
#[unsafe(no_mangle)]
pub extern "C" fn dz_cause(cause: u32, out: &mut [u8]) -> u64
    ensures { Determines (text_numbered fault_texts cause) out.old out.new result }
{
    match fault_text(cause) {
        Some(text) => copied(text.as_bytes(), out),
        None => NO_ANSWER,
    }
}

/// Writes the message of a cause of [`dz_assemble`](crate::recipes::dz_assemble) or
/// [`dz_assemble_versioned`](crate::recipes::dz_assemble_versioned), in ASCII and without a
/// terminating NUL. Returns its length in bytes, or [`NO_ANSWER`] for any other number.
#[unsafe(no_mangle)]
pub extern "C" fn dz_recipe_cause(cause: u32, out: &mut [u8]) -> u64
    ensures { Determines (text_numbered recipe_texts cause) out.old out.new result }
{
    match recipe_text(cause) {
        Some(text) => copied(text.as_bytes(), out),
        None => NO_ANSWER,
    }
}
