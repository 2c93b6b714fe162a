//! The bodies of wrappers, which are the driver's code for their functions, and that a wrapper that closes such code is faithful to its
//! function. The definitions are in `specs/`, and the laws are functions.
#![tactic(auto)]

mod asked_laws;
mod block;
mod body_laws;
mod exports;
mod imports;
mod laws;
mod name_laws;
mod param_laws;
mod params;
mod parts;
mod post_returns;
mod printed_law;
mod sites;

pub use asked_laws::asked_body_law;
pub use block::import_block;
pub use body_laws::one_body_law;
pub use exports::export_body;
pub use imports::import_body;
pub use laws::{
    export_body_law, export_law, import_body_law, import_law, post_return_body_law, post_return_law,
};
pub use name_laws::named_body_law;
pub use param_laws::param_law;
pub use params::{core_params, core_result, post_return_params};
pub use parts::BodyParts;
pub use post_returns::post_return_body;
pub use printed_law::printed_types_law;
pub use sites::{are_distinct_names, cleanup_list, core_sites, param_sites, ret_area};
