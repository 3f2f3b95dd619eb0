//! Import files and sheets by example, sheets to writers that take little at a time or fail, and registers from sources
//! that break their contract.
mod examples;
mod files;
mod office;
mod sheets;
mod slow;
mod streams;
