//! Examples of what the calls of `exam_request` answer. They are a crate of their own, so that the gate proves
//! `exam_request` only once.
#![tactic(auto)]

#[cfg(test)]
mod tests;
