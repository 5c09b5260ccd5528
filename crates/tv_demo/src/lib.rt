//! Demonstration programs, which show the analyzer at work: variables walk along a list, one after the other.
#![tactic(auto)]

mod demo;
mod list;
mod walks;

pub use demo::{DemoTexts, demo_texts};
