// A module of compiled functions.
ghost use Rattle.std.specs.Prelude.{[], ◌∷◌, IfOk};
ghost use Rattle.wasm_base.specs.Modules.{DecodesSections};
ghost use Rattle.wasm_code.specs.Bodies.{IsWellFormedBody};
ghost use Rattle.wasm_code.specs.Code.{EncodesBodies};
ghost use Rattle.wasm_sections.specs.Exports.{ContainsExports};
ghost use Rattle.wasm_sections.specs.Functions.{ContainsFunctions};
ghost use Rattle.wasm_types.specs.RecTypes.{ContainsTypes};
ghost use Rattle.examples.specs.Adding.{adding_type};
ghost use Rattle.examples.specs.Compiled.{one_number, factorial_of, squares_of, factorial_operations, compiled_bodies, compiled_sections};
ghost use Rattle.examples.specs.Lowering.{body_of};

use crate::lowering::{Operation, Operator, compile};
use crate::trees::{Expr, Statement, compile_tree};
use std::alloc::Allocator;
use wasm_base::{Module, Result, ValType};
use wasm_code::{CodeSection, Function};
use wasm_sections::{ExportKind, ExportSection, FunctionSection};
use wasm_types::TypeSection;

/// Computes the product of its two parameters.
const PRODUCT: [Operation; 3] = [
    Operation::Get(0),
    Operation::Get(1),
    Operation::Binary(Operator::Multiply),
];

/// Computes the factorial of its parameter, by products: the local 1 is multiplied by each number
/// from the parameter down to 1.
const FACTORIAL: [Statement<'static>; 3] = [
    Statement::Set(1, Expr::Constant(1)),
    Statement::While(
        Expr::Local(0),
        &[
            Statement::Set(1, Expr::Call(0, &[Expr::Local(1), Expr::Local(0)])),
            Statement::Set(
                0,
                Expr::Binary(Operator::Subtract, &Expr::Local(0), &Expr::Constant(1)),
            ),
        ],
    ),
    Statement::Return(Expr::Local(1)),
];

/// Computes the sum of the squares from 1 to its parameter, by products: the square of each number
/// is added to the local 1.
const SQUARES: [Operation; 19] = [
    Operation::Block,
    Operation::Loop,
    Operation::Get(0),
    Operation::IsZero,
    Operation::BranchIf(1),
    Operation::Get(1),
    Operation::Get(0),
    Operation::Get(0),
    Operation::Call(0),
    Operation::Binary(Operator::Add),
    Operation::Set(1),
    Operation::Get(0),
    Operation::Constant(1),
    Operation::Binary(Operator::Subtract),
    Operation::Set(0),
    Operation::Branch(0),
    Operation::End,
    Operation::End,
    Operation::Get(1),
];

/// Returns a module that exports a factorial, compiled from a tree, and a sum of squares, compiled
/// from operations. Both have a loop, and call a third function.
pub fn compiled_module<A: Allocator + Copy>(alloc: A) -> Result<Vec<u8, A>>
    ensures { IfOk result (λ bytes. DecodesSections compiled_sections bytes.items) }
{
    let mut module = Module::new(alloc)?;
    module.section(&types(alloc)?)?;
    module.section(&functions(alloc)?)?;
    module.section(&exports(alloc)?)?;
    module.section(&code(alloc)?)?;
    Ok(module.finish())
}

/// Returns the types of the functions: of two numbers, and of one.
fn types<A: Allocator + Copy>(alloc: A) -> Result<TypeSection<A>>
    ensures { IfOk result (λ section. ContainsTypes section (adding_type ∷ one_number ∷ [])) }
{
    let mut section = TypeSection::new(alloc);
    section
        .ty()
        .function([ValType::I32, ValType::I32], [ValType::I32])?;
    section.ty().function([ValType::I32], [ValType::I32])?;
    Ok(section)
}

/// The product is of the type 0, and the others are of the type 1.
fn functions<A: Allocator + Copy>(alloc: A) -> Result<FunctionSection<A>>
    ensures { IfOk result (λ section. ContainsFunctions section (0 ∷ 1 ∷ 1 ∷ [])) }
{
    let mut section = FunctionSection::new(alloc);
    section.function(0)?;
    section.function(1)?;
    section.function(1)?;
    Ok(section)
}

/// Exports the functions 1 and 2.
fn exports<A: Allocator + Copy>(alloc: A) -> Result<ExportSection<A>>
    ensures { IfOk result (λ section. ContainsExports section (factorial_of ∷ squares_of ∷ [])) }
{
    let mut section = ExportSection::new(alloc);
    section.export("factorial", ExportKind::Func, 1)?;
    section.export("squares", ExportKind::Func, 2)?;
    Ok(section)
}

/// Returns the bodies of the three functions.
fn code<A: Allocator + Copy>(alloc: A) -> Result<CodeSection<A>>
    ensures { IfOk result (λ section. EncodesBodies section compiled_bodies) }
{
    let mut section = CodeSection::new(alloc);
    section.function(&compile(alloc, 0, &PRODUCT)?)?;
    section.function(&compiled_factorial(alloc)?)?;
    section.function(&compile(alloc, 1, &SQUARES)?)?;
    Ok(section)
}

/// Returns the compiled factorial.
fn compiled_factorial<A: Allocator>(alloc: A) -> Result<Function<A>>
    ensures { IfOk result (λ function. IsWellFormedBody function (body_of 1 factorial_operations)) }
{
    compile_tree(alloc, 1, &FACTORIAL)
}
