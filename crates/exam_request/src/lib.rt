//! The candidate view's HTTP: what a request asks, and the bytes of an answer.
#![tactic(auto)]

mod answers;
mod choice;
mod fault;
mod head;
mod laws;
mod lines;
mod methods;
mod objects;
mod own_bodies;
mod posted;
mod reading;
mod routes;
mod secret;
mod status;

pub use answers::{Answer, write_answer};
pub use choice::{Choice, Named, candidate_of, choose};
pub use fault::Fault;
pub use laws::{
    choices_are_of_who_shows_the_code, requests_ask_one_thing, strangers_are_told_alike,
    texts_of_strangers_are_not_read,
};
pub use own_bodies::{Page, appeals_body, clashes_body, page_body, seats_body};
pub use posted::{Posted, posted_in};
pub use reading::{Asked, MOST_REQUEST, ReadFailed, Request, read_request};
pub use routes::{Found, Route, find, reading_is_exact, routes_read, server_routes};
