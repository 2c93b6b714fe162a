//! Which worlds are built, and why one is refused: options, causes, the names that a file declares, and their clashes.
#![tactic(auto)]

mod accept;
mod area;
mod built;
mod clash;
mod declared;
mod emitted;
mod error;
mod export_key;
mod name_text;
mod names;
mod opts;
mod too_large;
mod try_copy;
mod type_scopes;

pub use accept::accepted_world;
pub use area::{import_needs_area, needs_area, needs_return};
pub use emitted::{functions_in, places_in};
pub use error::{Clash, Entry, GenError, Lack, MissingWith, TooLarge};
pub use export_key::ExportKey;
pub use names::param_idents;
pub use opts::{ChainingMode, Opts, WithOption};
