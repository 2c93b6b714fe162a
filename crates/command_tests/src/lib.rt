//! Tests of the command: runs whose ends fail, and files that no document makes; that the wrappers of a file are the driver's code, for
//! a payload in a joined slot and for flags of two words; and what the driver stores and frees by itself.
#![tactic(auto)]

#[cfg(test)]
mod bodies;
#[cfg(test)]
mod ends;
#[cfg(test)]
mod files;
#[cfg(test)]
mod runs;
#[cfg(test)]
mod std_ends;
