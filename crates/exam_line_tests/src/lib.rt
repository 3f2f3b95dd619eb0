//! Examples of what the calls of `exam_line` answer. They are a crate of their own, so that the gate proves `exam_line`
//! only once.
#![tactic(auto)]

#[cfg(test)]
mod tests;
