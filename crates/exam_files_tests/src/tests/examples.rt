//! What the READMEs of `exam_send` and `exam_files` show.
use super::slow::Slow;
use exam_files::read_import;
use exam_office::Kind;
use exam_send::send;
use exam_types::Refusal;
use std::test::Fail;

#[test]
fn a_writer_with_room_for_four_bytes_gets_four(rt: HostRuntime) -> Result<(), Fail> {
    // Takes a byte at a time, and fails once it has four.
    let mut out = Slow::new(rt.alloc(), 1, 4);
    assert!(rt; send(&mut out, b"seat").is_ok());
    let mut out = Slow::new(rt.alloc(), 1, 4);
    assert!(rt; send(&mut out, b"seats").is_err());
    assert!(rt; out.taken.as_slice() == b"seat".as_slice());
    Ok(())
}

#[test]
fn a_file_gives_its_rows_or_a_refusal(rt: HostRuntime) -> Result<(), Fail> {
    let alloc = rt.alloc();
    let import = read_import(alloc, Kind::Entries, b"number,paper\n0000001,MA-1\n")?;
    assert!(rt; import.rows().len() == 1);
    let refused = read_import(alloc, Kind::Entries, b"number,paper\n0000001,ma-1\n").err();
    assert!(rt; refused == Some(Refusal::BadRow(1, 2)));
    Ok(())
}
