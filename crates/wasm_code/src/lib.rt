//! Constant expressions, function bodies and the code section of a WebAssembly module, encoded and
//! decoded, by the core specification, "Binary Format", "Instructions" and "Modules".
#![tactic(auto)]

mod body;
mod code_section;
mod const_expr;
mod expression;
mod first;
mod function;
pub mod joined;
pub mod laws;
mod locals;
mod members;
mod walk;

pub use body::{Body, read_body, read_code, shorten_body};
pub use code_section::{CodeSection, CodeSectionIn};
pub use const_expr::ConstExpr;
pub use expression::Expression;
pub use function::Function;
pub use members::Members;
pub use walk::{Decoded, Instructions};
