//! Writing bytes to any writer: all of them, or a beginning.
#![tactic(auto)]

mod sending;

pub use sending::{WriteFailed, send, send_both};
