//! Recipes of WebAssembly modules: lines that each add an item to a section.
//!
//! `specs/Lines.antt` defines the lines of a recipe, their words, and the version of the recipe.
//! `specs/Recipe.antt` defines the entry or the error of each line, and the module of the sections
//! to which the entries are added. [`assemble`] returns that module for version 1, which [`run`],
//! the program around it, takes; [`assemble_versioned`] takes version 2 too.
#![tactic(auto)]

mod fault;
mod listing;
mod numbers;
mod program;
mod recipe;
mod types;
mod version;
mod words;

pub use fault::{RecipeCause, RecipeFault};
pub use program::run;
pub use recipe::{assemble, assemble_versioned};
