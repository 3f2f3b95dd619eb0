//! The calls of each crate over texts, small problems and small offices.
mod examples;
mod plan;
mod rules;
mod types;
