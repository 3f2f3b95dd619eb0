//! Examples of what the calls of `exam_office` answer. They are a crate of their own, so that the gate proves
//! `exam_office` only once.
#![tactic(auto)]

#[cfg(test)]
mod tests;
