//! Calls on links with faults over services in memory, and what each answers.
#![tactic(auto)]

pub mod call;
#[cfg(test)]
mod client_tests;
#[cfg(test)]
mod fault_tests;
#[cfg(test)]
mod large_tests;
#[cfg(test)]
mod law_tests;
#[cfg(test)]
mod memory_tests;
#[cfg(test)]
mod thread_tests;
#[cfg(test)]
mod told;
#[cfg(test)]
mod untold;
