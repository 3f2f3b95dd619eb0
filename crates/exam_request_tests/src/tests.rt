//! Requests by example, read whole and byte by byte, and answers by example.
mod answers;
mod choices;
mod owns;
mod posted;
mod reading;
mod targets;
mod writers;
