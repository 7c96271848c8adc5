//! Tests of what no program of the repository tells: memory, values, cells and sets, bound matrices, files and sinks, the
//! single steps of the parser, shares of trees, and lists of the language that is analysed.
//!
//! They stand here, and not in the crates that they call, since a crate with tests is proved twice.
#![tactic(auto)]

#[cfg(test)]
mod all_states;
#[cfg(test)]
mod blocks;
#[cfg(test)]
mod cells;
#[cfg(test)]
mod csharp_lists;
#[cfg(test)]
mod host;
#[cfg(test)]
mod layouts;
#[cfg(test)]
mod matrices;
#[cfg(test)]
mod objects;
#[cfg(test)]
mod one_state;
#[cfg(test)]
mod parse_steps;
#[cfg(test)]
mod scalars;
#[cfg(test)]
mod shares;
#[cfg(test)]
mod stretches;
#[cfg(test)]
mod targets;
#[cfg(test)]
mod values;
#[cfg(test)]
mod written;
