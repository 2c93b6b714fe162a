//! Tests of containers, of tables that are deep, and of calls that nothing else makes. What the definitions of tables, layouts,
//! core words, facts on types, identifiers and trees of a file hold of worked rows is proved in `proofs`, and what is copied and
//! cloned in `copies`.
#![tactic(auto)]

#[cfg(test)]
mod calls;
#[cfg(test)]
mod containers;
mod copies;
#[cfg(test)]
mod parts;
#[cfg(test)]
mod types;
