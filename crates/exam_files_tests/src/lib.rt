//! Examples of what the calls of `exam_files` answer. They are a crate of their own, so that the gate proves
//! `exam_files` only once.
#![tactic(auto)]

#[cfg(test)]
mod tests;
