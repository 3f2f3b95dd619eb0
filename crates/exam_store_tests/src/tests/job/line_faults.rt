//! What is printed for words that are no line.
use exam_job::print_line_fault;
use exam_line::LineFault;
use exam_school::expect_same;
use std::alloc::Global;
use std::str;
use std::test::Fail;

/// The exit status, and what is printed on standard output and on standard error.
fn printed(alloc: Global, fault: &LineFault) -> Result<String, Fail> {
    let mut out = Vec::new(alloc);
    let mut err = Vec::new(alloc);
    let status = print_line_fault(fault, &mut out, &mut err);
    let out = str::from_utf8(out.as_slice())?;
    let err = str::from_utf8(err.as_slice())?;
    Ok(format!(in alloc; "{status} out {out} err {err}")?)
}

fn expect_printed(alloc: Global, fault: &LineFault, wanted: &str) -> Result<(), Fail> {
    expect_same(printed(alloc, fault)?.as_str(), wanted, "no line")
}

#[test]
fn words_that_are_no_line_are_answered(rt: HostRuntime) -> Result<(), Fail> {
    let alloc = rt.alloc();
    let help = LineFault::Help(String::from_str(alloc, "how to use it\n")?);
    expect_printed(alloc, &help, "0 out how to use it\n err ")?;
    let version = "0 out examoffice 1.1.0, tables of version 3\n err ";
    expect_printed(alloc, &LineFault::Version, version)?;
    expect_printed(alloc, &LineFault::NoMemory, "1 out  err refused 22\n")?;
    let told = "2 out  err line not understood\n";
    expect_printed(alloc, &LineFault::NotUnderstood, told)
}
