//! Tests of the libraries by their public calls: what no proof shows, that calls succeed, and that clauses mean what a reader expects.
//!
//! They stand in a crate of their own, since a crate that has tests is proved a second time with them.
#![tactic(auto)]

#[cfg(test)]
mod answers;
#[cfg(test)]
mod contexts;
#[cfg(test)]
mod json_texts;
#[cfg(test)]
mod names;
#[cfg(test)]
mod orders;
#[cfg(test)]
mod plain_lines;
#[cfg(test)]
mod pools;
#[cfg(test)]
mod stacks;
#[cfg(test)]
mod stand_ins;
#[cfg(test)]
mod stocked_peers;
