//! The laws of links and of links in memory, each called once.

use ms_core::FoldClosed;
use ms_link::law::{
    answers_pass_out, asks_stay, calls_compose, changes_stay, links_lead, logs_grow, reads_stay,
};
use ms_memory::never_fails;
use std::marker::Brand;
use std::test::*;

#[test]
fn the_laws_of_calls_in_turn(_rt: HostRuntime) {
    calls_compose();
    asks_stay::<FoldClosed>();
    changes_stay();
    reads_stay();
}

#[test]
fn the_laws_of_links_and_logs(_rt: HostRuntime) {
    answers_pass_out();
    logs_grow();
    links_lead();
    never_fails::<HostRuntime, Brand>();
}
