//! Proposing, learning, refs and calls on objects at desks over services in memory, and what each answers.
#![tactic(auto)]

#[cfg(test)]
mod bidding;
#[cfg(test)]
mod call_tests;
#[cfg(test)]
mod catching_tests;
#[cfg(test)]
mod learning_tests;
#[cfg(test)]
mod mark_tests;
#[cfg(test)]
mod proposal_tests;
#[cfg(test)]
mod proposing;
#[cfg(test)]
mod shelves;
#[cfg(test)]
mod table_tests;
