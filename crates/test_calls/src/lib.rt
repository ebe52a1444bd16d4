//! What only a call shows: devices that fail, a check and a run without memory, faults that print, and a table that takes no memory once it
//! is made. What a script shows is a case of test_cases.
#![tactic(auto)]

#[cfg(test)]
mod devices;
#[cfg(test)]
mod faults;
#[cfg(test)]
mod refusals;
#[cfg(test)]
mod scripts;
#[cfg(test)]
mod tables;
