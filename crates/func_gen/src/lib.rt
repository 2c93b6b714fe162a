//! Statements of the tree, by instructions.
#![tactic(auto)]

mod added;
mod area;
mod blocks;
mod blocks_used;
mod body;
mod case_form;
mod core_words;
mod emit;
mod enum_site;
mod finish;
mod flags_site;
mod forms;
mod function_bindgen;
mod inward;
mod lawful;
mod operand;
mod record_site;
mod scope;
mod type_site;
mod type_tables;
mod variant_site;

pub use body::{Body, needed_area};
pub use core_words::{import_params, import_result};
pub use enum_site::EnumSite;
pub use flags_site::FlagsSite;
pub use function_bindgen::{Code, FunctionBindgen, ParamSite};
pub use operand::ExprOperand;
pub use record_site::RecordSite;
pub use type_site::TypeSite;
pub use type_tables::TypeTables;
pub use variant_site::VariantSite;
