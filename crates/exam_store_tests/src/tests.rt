//! An office as the rows of its tables, and requests to it.
mod check;
mod http;
mod job;
mod offices;
mod store;
mod views;
