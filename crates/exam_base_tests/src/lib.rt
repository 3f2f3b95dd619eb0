//! Examples of what the calls of `exam_types`, `exam_plan` and `exam_rules` answer. They are one crate, and none of
//! those three, so that the gate proves each of those once, and no proof waits beside `exam_plan` and `exam_rules`, on
//! which all others wait.
#![tactic(auto)]

#[cfg(test)]
mod tests;
