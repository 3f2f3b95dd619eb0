//! The office of the examples, in memory.
use crate::tests::offices::{office_of, opened};
use exam_school::ROWS;
use exam_store::Store;
use sqlite::MemStore;
use std::alloc::Global;
use std::test::Fail;

/// The school with these rows.
pub fn office_with(alloc: Global, rows: &str) -> Result<Store<MemStore>, Fail> {
    opened(alloc, office_of(alloc, &[ROWS, rows])?)
}
