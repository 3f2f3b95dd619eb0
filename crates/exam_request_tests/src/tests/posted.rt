//! Bodies of postings.
use exam_request::{Posted, posted_in};
use exam_rules::Subject;
use exam_types::{HallCode, PaperCode};
use std::test::Fail;

#[test]
fn a_hall_is_appealed_against(rt: HostRuntime) -> Result<(), Fail> {
    let body =
        b"{\"hall\":\"B\",\"kind\":\"hall\",\"reason\":\"\",\"ref\":\"HA1\",\"session\":\"S1\"}";
    let Some(posted) = posted_in(rt.alloc(), body)? else {
        return Err(Fail::from("no posting"));
    };
    assert!(rt; posted.reference.as_bytes() == b"HA1".as_slice());
    assert!(rt; posted.session.as_bytes() == b"S1".as_slice());
    let hall = HallCode::parse(b"B").map(Subject::Hall);
    assert!(rt; Some(posted.subject) == hall);
    assert_eq!(rt; posted.reason.as_str(), "");
    Ok(())
}

/// Members may come in any order, with white space between, and texts may have escapes.
#[test]
fn a_paper_is_asked_for(rt: HostRuntime) -> Result<(), Fail> {
    let body =
        b" { \"session\" : \"S1\", \"ref\":\"C\\u0041\", \"reason\":\"a\\\"b\", \"paper\":\"PH-2\", \"k\\u0069nd\":\"clash\" } ";
    let Some(posted) = posted_in(rt.alloc(), body)? else {
        return Err(Fail::from("no posting"));
    };
    assert!(rt; posted.reference.as_bytes() == b"CA".as_slice());
    assert_eq!(rt; posted.reason.as_str(), "a\"b");
    let paper = PaperCode::parse(b"PH-2").map(Subject::Clash);
    assert!(rt; Some(posted.subject) == paper);
    Ok(())
}

fn extra_in<R: AllocGlobal>(rt: &R, extra: &[u8]) -> Result<Option<u16>, Fail> {
    let mut body = Vec::from_slice(
        rt.alloc(),
        b"{\"kind\":\"arrangement\",\"reason\":\"r\",\"ref\":\"A1\",\"session\":\"S1\",\"needs\":\"screen\",\"extra\":",
    )?;
    body.extend_from_slice(extra)?;
    body.extend_from_slice(b"}")?;
    let Some(posted) = posted_in(rt.alloc(), body.as_slice())? else {
        return Ok(None);
    };
    let Posted { subject, .. } = posted;
    match subject {
        Subject::Arrangement(arrangement) if arrangement.needs.sum() == 2 => {
            Ok(Some(arrangement.extra.get()))
        }
        _ => Err(Fail::from("another subject")),
    }
}

/// What may be written as extra time, and what it is read as.
const EXTRAS: &[(&[u8], Option<u16>)] = &[
    (b"0", Some(0)),
    (b"100", Some(100)),
    (b"101", None),
    (b"65536", None),
    (b"99999999999999999999", None),
    (b"1.0", None),
    (b"1e1", None),
    (b"-0", None),
    (b"+1", None),
    (b"01", None),
    (b"\"25\"", None),
    (b"null", None),
];

#[test]
fn extra_time_is_a_plain_number(rt: HostRuntime) -> Result<(), Fail> {
    for (text, extra) in EXTRAS {
        assert_eq!(rt; extra_in(&rt, text)?, *extra, "{text:?}");
    }
    Ok(())
}

/// Bodies that are no posting.
const NO_POSTINGS: &[&[u8]] = &[
    // one member more, one less, and one of another kind
    b"{\"hall\":\"B\",\"kind\":\"hall\",\"reason\":\"\",\"ref\":\"HA1\",\"session\":\"S1\",\"x\":1}",
    b"{\"hall\":\"B\",\"kind\":\"hall\",\"reason\":\"\",\"ref\":\"HA1\"}",
    b"{\"paper\":\"B\",\"kind\":\"hall\",\"reason\":\"\",\"ref\":\"HA1\",\"session\":\"S1\"}",
    // members whose values are not allowed
    b"{\"hall\":\"B\",\"kind\":\"Hall\",\"reason\":\"\",\"ref\":\"HA1\",\"session\":\"S1\"}",
    b"{\"hall\":\"b\",\"kind\":\"hall\",\"reason\":\"\",\"ref\":\"HA1\",\"session\":\"S1\"}",
    b"{\"hall\":null,\"kind\":\"hall\",\"reason\":\"\",\"ref\":\"HA1\",\"session\":\"S1\"}",
    b"{\"hall\":\"B\",\"kind\":\"hall\",\"reason\":\"\\u0000\",\"ref\":\"HA1\",\"session\":\"S1\"}",
    // a member that comes twice, even with the same value or with an escape
    b"{\"hall\":\"B\",\"kind\":\"hall\",\"reason\":\"\",\"ref\":\"HA1\",\"session\":\"S1\",\"hall\":\"B\"}",
    b"{\"hall\":\"B\",\"kind\":\"hall\",\"reason\":\"\",\"ref\":\"HA1\",\"session\":\"S1\",\"h\\u0061ll\":\"B\"}",
    b"{\"hall\":\"B\",\"hall\":\"B\",\"kind\":\"hall\",\"reason\":\"\",\"ref\":\"HA1\"}",
    // no object, and one after a byte order mark
    b"",
    b"[]",
    b"{}",
    b"{} {}",
    b"null",
    b"\xef\xbb\xbf{\"hall\":\"B\",\"kind\":\"hall\",\"reason\":\"\",\"ref\":\"HA1\",\"session\":\"S1\"}",
    // an unpaired surrogate, and bytes that are no text
    b"{\"hall\":\"B\",\"kind\":\"hall\",\"reason\":\"\\ud800\",\"ref\":\"HA1\",\"session\":\"S1\"}",
    b"{\"hall\":\"B\",\"kind\":\"hall\",\"reason\":\"\xff\",\"ref\":\"HA1\",\"session\":\"S1\"}",
];

#[test]
fn other_bodies_are_refused(rt: HostRuntime) -> Result<(), Fail> {
    for body in NO_POSTINGS {
        assert!(rt; posted_in(rt.alloc(), body)?.is_none(), "{body:?}");
    }
    assert!(rt; posted_in(rt.alloc(), &[b'['; 200])?.is_none());
    Ok(())
}
