use super::program::Status;
use super::program_tests::run;
use host_io::{MemorySink, MemorySource};
use std::alloc::Global;
use std::process::Abort;
use std::test::Fail;

/// Sets so many cells of column A to a content, then reads two lines more, and compares the last two replies.
fn fills(
    rt: &impl Abort,
    alloc: Global,
    rows: u32,
    content: &str,
    more: &str,
    last: &str,
) -> Result<(), Fail> {
    let mut script = Vec::new(alloc);
    let mut want = Vec::new(alloc);
    for row in 1..=rows {
        let line = format!(in alloc; "set A{row} {content}\n")?;
        script.extend_from_slice(line.as_bytes())?;
        want.extend_from_slice(b"ok\n")?;
    }
    script.extend_from_slice(more.as_bytes())?;
    want.extend_from_slice(last.as_bytes())?;
    let mut src = MemorySource::new(script, 65_536, Vec::new(alloc));
    let mut out = MemorySink::new(alloc, 100, Vec::new(alloc));
    assert_eq!(rt; run(alloc, &mut src, &mut out)?, Status::Ok);
    assert!(rt; out.written() == want.as_slice(), "behind {rows} cells");
    Ok(())
}

#[test]
fn at_most_500000_cells_have_content(rt: HostRuntime) -> Result<(), Fail> {
    let more = "set B1 1\nset A1 2\n";
    fills(&rt, rt.alloc(), 500_000, "1", more, "full cells\nok\n")
}

#[test]
fn at_most_100000_cells_have_a_formula(rt: HostRuntime) -> Result<(), Fail> {
    let more = "set B1 =1\nset A1 =2\nset B1 1\n";
    fills(
        &rt,
        rt.alloc(),
        100_000,
        "=1",
        more,
        "full formulas\nok\nok\n",
    )
}

#[test]
fn at_most_1000000_commands_are_answered(rt: HostRuntime) -> Result<(), Fail> {
    let mut script = Vec::new(rt.alloc());
    let mut want = Vec::new(rt.alloc());
    for _ in 1..1_000_000u32 {
        script.extend_from_slice(b"print\n")?;
        want.extend_from_slice(b"end\n")?;
    }
    script.extend_from_slice(b"calc\nprint\n")?;
    want.extend_from_slice(b"begun 1\n")?;
    let mut src = MemorySource::new(script, 65_536, Vec::new(rt.alloc()));
    let mut out = MemorySink::new(rt.alloc(), 100, Vec::new(rt.alloc()));
    assert_eq!(rt; run(rt.alloc(), &mut src, &mut out)?, Status::SessionFull);
    assert!(rt; out.written() == want.as_slice());
    Ok(())
}
