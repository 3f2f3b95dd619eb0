//! The candidate's view over HTTP: one request after the other, over an office in a database.
#![tactic(auto)]

mod answering;
mod laws;
mod serving;

pub use answering::answer;
pub use exam_request::{Answer, Asked, Fault, Request};
pub use laws::{own_rows_decide_an_answer, strangers_are_answered_alike};
pub use serving::{HttpFault, serve_one};
