//! Examples of what `exam_store` opens and refuses to open, of the first bad table that `exam_check` finds, of what
//! `exam_http` answers, of what `exam_job` prints and keeps, and of a day through the calls of `exam_theorem`, over
//! offices in memory. They are one crate, since each crate of tests over a database costs the gate minutes, and none of
//! those five, so that the gate proves each of them once.
#![tactic(auto)]

#[cfg(test)]
mod tests;
