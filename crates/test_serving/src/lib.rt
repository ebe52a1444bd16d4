//! Sessions that are served over devices which fail, with memory that is wanting, and through a gate: what no dialogue with the program
//! shows.
#![tactic(auto)]

#[cfg(test)]
mod devices;
#[cfg(test)]
mod gates;
#[cfg(test)]
mod lab;
#[cfg(test)]
mod memory;
