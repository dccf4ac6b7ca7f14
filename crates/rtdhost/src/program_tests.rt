ghost use Rattle.std.specs.Prelude.{◌<◌};

use super::program::{Status, open_desk, rtd_host_plain};
use desk_run::run_desk;
use host_io::{MemorySink, MemorySource};
use std::alloc::Global;
use std::process::Abort;
use std::test::Fail;

/// The status with which the words `run` end.
pub fn run(alloc: Global, src: &mut MemorySource, out: &mut MemorySink) -> Result<Status, Fail> {
    let words = vec![in alloc; String::from_str(alloc, "run")?]?;
    Ok(rtd_host_plain(alloc, words.as_slice(), src, out))
}

/// Runs a script whose source gives so many bytes a call, and compares what was written.
pub fn plays(
    rt: &impl Abort,
    alloc: Global,
    script: &str,
    piece: usize,
    want: &str,
) -> Result<(), Fail>
    requires { 0 < piece }
{
    let bytes = Vec::from_slice(alloc, script.as_bytes())?;
    let mut src = MemorySource::new(bytes, piece, Vec::new(alloc));
    let mut out = MemorySink::new(alloc, 100, Vec::new(alloc));
    assert_eq!(rt; run(alloc, &mut src, &mut out)?, Status::Ok);
    assert_eq!(rt;
        str::from_utf8(out.written())?,
        want,
        "at {script:?} by {piece}"
    );
    Ok(())
}

#[test]
fn scripts_however_cut(rt: HostRuntime) -> Result<(), Fail> {
    let table = [
        (
            "set A1 2\nset A2 =A1+3\ncalc\nprint\n",
            "ok\nok\nbegun 1\ndone 1 cells 1\nA1=2\nA2=5\nend\n",
        ),
        ("", ""),
        (
            "set A1 =A2\nset A2 =1\ncalc\nprint\n",
            "ok\nok\nbegun 1\ndone 1 cells 2\nA1=1\nA2=1\nend\n",
        ),
        (
            "set A1 =B1\nset B1 =A1\ncalc\nprint\n",
            "ok\nok\nbegun 1\ndone 1 cells 2\nA1=#CIRC!\nB1=#CIRC!\nend\n",
        ),
        (
            "set A1 =999999999999999+1\ncalc\nprint\n",
            "ok\nbegun 1\ndone 1 cells 1\nA1=#NUM!\nend\n",
        ),
        ("set A1 2\r\nprint", "ok\nend\n"),
    ];
    for (script, want) in table {
        for piece in [1, 7, 1000] {
            plays(&rt, rt.alloc(), script, piece, want)?;
        }
    }
    Ok(())
}

#[test]
fn a_session_tells_how_many_commands_there_were(rt: HostRuntime) -> Result<(), Fail> {
    let script = b"set A1 2\nset A2 =A1+3\n\ncalc\nprnt\nprint\n";
    let bytes = Vec::from_slice(rt.alloc(), script)?;
    let mut src = MemorySource::new(bytes, 7, Vec::new(rt.alloc()));
    let mut out = MemorySink::new(rt.alloc(), 100, Vec::new(rt.alloc()));
    match open_desk(rt.alloc()) {
        Ok(mut desk) => {
            let count = run_desk(rt.alloc(), &mut desk, &mut src, &mut out);
            assert_eq!(rt; count, Ok(5));
        }
        Err(_) => assert!(rt; false),
    }
    Ok(())
}

#[test]
fn only_what_a_changed_cell_reaches_is_stale(rt: HostRuntime) -> Result<(), Fail> {
    let script = "set A1 1\nset A2 =A1\nset A3 =A2\nset B1 =5\ncalc\nset A1 2\ncalc\nprint\ncalc\n";
    let want = "ok\nok\nok\nok\nbegun 1\ndone 1 cells 3\nok\nbegun 2\ndone 2 cells 2\n\
        A1=2\nB1=5\nA2=2\nA3=2\nend\nbegun 3\ndone 3 cells 0\n";
    plays(&rt, rt.alloc(), script, 1000, want)
}

/// Sets a content, recalculates, and compares what the cell shows.
fn shows(
    rt: &impl Abort,
    alloc: Global,
    content: &str,
    stale: u32,
    word: &str,
) -> Result<(), Fail> {
    let script = format!(in alloc; "set A1 {content}\ncalc\nprint\n")?;
    let want = format!(in alloc; "ok\nbegun 1\ndone 1 cells {stale}\nA1={word}\nend\n")?;
    plays(rt, alloc, script.as_str(), 1000, want.as_str())
}

#[test]
fn numbers_booleans_errors_and_formulas_show_their_words(rt: HostRuntime) -> Result<(), Fail> {
    shows(&rt, rt.alloc(), "=2+3", 1, "5")?;
    let table = [
        ("TRUE", "TRUE"),
        ("tRuE", "TRUE"),
        ("false", "FALSE"),
        ("#N/A", "#N/A"),
        ("#DIV/0!", "#DIV/0!"),
        ("-0", "0"),
        ("007", "7"),
        ("-007", "-7"),
        ("-999999999999999", "-999999999999999"),
    ];
    for (content, word) in table {
        shows(&rt, rt.alloc(), content, 0, word)?;
    }
    Ok(())
}

#[test]
fn texts_show_between_quotes(rt: HostRuntime) -> Result<(), Fail> {
    shows(&rt, rt.alloc(), "é", 0, "\"é\"")?;
    let table = [
        ("'x", "\"x\""),
        ("'", "\"\""),
        ("'=A1", "\"=A1\""),
        ("'-7", "\"-7\""),
        ("#n/a", "\"#n/a\""),
        ("-", "\"-\""),
        ("+7", "\"+7\""),
        ("1.5", "\"1.5\""),
        ("a\"b", "\"a\"\"b\""),
        (" two  words ", "\" two  words \""),
    ];
    for (content, word) in table {
        shows(&rt, rt.alloc(), content, 0, word)?;
    }
    Ok(())
}

#[test]
fn sums_take_constants_of_every_kind(rt: HostRuntime) -> Result<(), Fail> {
    let table = [
        ("'x", "#VALUE!"),
        ("' 7 ", "8"),
        ("TRUE", "2"),
        ("FALSE", "1"),
        ("#N/A", "#N/A"),
        ("-0", "1"),
        ("007", "8"),
    ];
    for (content, word) in table {
        let script = format!(in rt.alloc();
            "set B1 {content}\nset A1 =B1+1\ncalc\nset B1 =1\nprint\n"
        )?;
        let bytes = Vec::from_slice(rt.alloc(), script.as_bytes())?;
        let want = format!(in rt.alloc(); "ok\nok\nbegun 1\ndone 1 cells 1\nok\nA1={word}\n")?;
        let mut src = MemorySource::new(bytes, 1000, Vec::new(rt.alloc()));
        let mut out = MemorySink::new(rt.alloc(), 1000, Vec::new(rt.alloc()));
        assert_eq!(rt; run(rt.alloc(), &mut src, &mut out)?, Status::Ok);
        assert!(rt;
            out.written().starts_with(want.as_bytes()),
            "at {content:?}"
        );
    }
    Ok(())
}

#[test]
fn cells_on_other_sheets(rt: HostRuntime) -> Result<(), Fail> {
    let script =
        "set sheet2!$A$1 1\nset Sheet2!B1 =A1+2\nset A1 'x\nset Sheet65!A1 1\nset Sheet2! 1\ncalc\nprint\n";
    let want = "ok\nok\nok\nbad ref\nbad ref\nbegun 1\ndone 1 cells 1\n\
        A1=\"x\"\nSheet2!A1=1\nSheet2!B1=3\nend\n";
    plays(&rt, rt.alloc(), script, 1000, want)
}

#[test]
fn contents_that_are_not_read(rt: HostRuntime) -> Result<(), Fail> {
    let contents = [
        ("", "value"),
        ("1000000000000000", "value"),
        ("-1000000000000000", "value"),
        ("00000000000000000000000000000001000000000000000", "value"),
        ("=", "formula syntax 1"),
        ("=A1+", "formula syntax 4"),
        ("=1.5", "formula syntax 2"),
        ("=A1:", "formula syntax 4"),
        ("=IF(1,,2)", "formula syntax 6"),
        ("=SUM(A1:XFD5)", "formula range"),
        ("=1000000000000000", "formula number"),
        ("a\tb", "control"),
        ("'a\u{7f}", "control"),
        ("\u{1}", "control"),
        ("TRUE\t", "control"),
    ];
    for (content, fault) in contents {
        let script = format!(in rt.alloc(); "set A1 {content}\ncalc\nprint\n")?;
        let want = format!(in rt.alloc(); "bad {fault}\nbegun 1\ndone 1 cells 0\nend\n")?;
        plays(&rt, rt.alloc(), script.as_str(), 1000, want.as_str())?;
    }
    Ok(())
}

#[test]
fn a_text_has_at_most_32767_characters(rt: HostRuntime) -> Result<(), Fail> {
    for (prefix, count, want) in [
        ("set A1 ", 32_767, "ok\n"),
        ("set A1 ", 32_768, "bad value\n"),
        ("set A1 '", 32_767, "ok\n"),
        ("set A1 '", 32_768, "bad value\n"),
    ] {
        let mut bytes = Vec::from_slice(rt.alloc(), prefix.as_bytes())?;
        bytes.extend_from_slice(vec![in rt.alloc(); b'x'; count]?.as_slice())?;
        let mut src = MemorySource::new(bytes, 1000, Vec::new(rt.alloc()));
        let mut out = MemorySink::new(rt.alloc(), 1000, Vec::new(rt.alloc()));
        assert_eq!(rt; run(rt.alloc(), &mut src, &mut out)?, Status::Ok);
        assert_eq!(rt;
            out.written(),
            want.as_bytes(),
            "of {count} behind {prefix:?}"
        );
    }
    Ok(())
}

#[test]
fn lines_of_other_forms_are_bad(rt: HostRuntime) -> Result<(), Fail> {
    let script =
        "jump\nset A1\nset XFE1 1\nset A1048577 1\nset A2 =7%2\nset  A1 1\n calc\ncalc \n\nset A1 1\n";
    let want = "bad word\nbad value\nbad ref\nbad ref\nbad formula syntax 2\nbad ref\nbad word\n\
        bad value\nok\n";
    plays(&rt, rt.alloc(), script, 1000, want)
}

#[test]
fn each_kind_of_bad_line(rt: HostRuntime) -> Result<(), Fail> {
    let mut bytes = vec![in rt.alloc(); b'x'; 160_001]?;
    bytes.extend_from_slice(b"\n\xff\nset XFE1 1\nset A1048577 1\nset A1 =")?;
    for _ in 0..65u32 {
        bytes.extend_from_slice(b"IF(")?;
    }
    bytes.extend_from_slice(b"1")?;
    for _ in 0..65u32 {
        bytes.extend_from_slice(b",1)")?;
    }
    bytes.extend_from_slice(b"\njump\nset A1\nset A1 =1.5\nreturn x 1\nregister F #\nset A1 1\n")?;
    let mut src = MemorySource::new(bytes, 1000, Vec::new(rt.alloc()));
    let mut out = MemorySink::new(rt.alloc(), 1, Vec::new(rt.alloc()));
    assert_eq!(rt; run(rt.alloc(), &mut src, &mut out)?, Status::Ok);
    assert_eq!(rt;
        str::from_utf8(out.written())?,
        "bad long\nbad utf8\nbad ref\nbad ref\nbad formula deep\nbad word\nbad value\n\
        bad formula syntax 2\nbad handle\nbad type macro\nok\n"
    );
    Ok(())
}

#[test]
fn a_source_that_fails_at_its_second_call(rt: HostRuntime) -> Result<(), Fail> {
    let bytes = Vec::from_slice(rt.alloc(), b"set A1 2\nset A2")?;
    let mut src = MemorySource::new(bytes, 1000, vec![in rt.alloc(); 2]?);
    let mut out = MemorySink::new(rt.alloc(), 1000, Vec::new(rt.alloc()));
    assert_eq!(rt; run(rt.alloc(), &mut src, &mut out)?, Status::ReadFault);
    assert_eq!(rt; out.written(), b"ok\n".as_slice());
    Ok(())
}

#[test]
fn a_sink_that_fails_at_its_first_call(rt: HostRuntime) -> Result<(), Fail> {
    let bytes = Vec::from_slice(rt.alloc(), b"set A1 2\nset A2 =A1+3\ncalc\nprint\n")?;
    let mut src = MemorySource::new(bytes, 1000, Vec::new(rt.alloc()));
    let mut out = MemorySink::new(rt.alloc(), 1000, vec![in rt.alloc(); 1]?);
    assert_eq!(rt; run(rt.alloc(), &mut src, &mut out)?, Status::WriteFault);
    assert_eq!(rt; out.written(), b"".as_slice());
    Ok(())
}

#[test]
fn a_sink_that_fails_at_finish_alone(rt: HostRuntime) -> Result<(), Fail> {
    let bytes = Vec::from_slice(rt.alloc(), b"set A1 2\nprint\n")?;
    let mut src = MemorySource::new(bytes, 1000, Vec::new(rt.alloc()));
    // Both replies are one write.
    let mut out = MemorySink::new(rt.alloc(), 1000, vec![in rt.alloc(); 2]?);
    assert_eq!(rt; run(rt.alloc(), &mut src, &mut out)?, Status::WriteFault);
    assert_eq!(rt; out.written(), b"ok\nend\n".as_slice());
    Ok(())
}

#[test]
fn an_input_of_a_byte_too_many(rt: HostRuntime) -> Result<(), Fail> {
    let bytes = vec![in rt.alloc(); b'x'; 67_108_865]?;
    let mut src = MemorySource::new(bytes, 1_000_000, Vec::new(rt.alloc()));
    let mut out = MemorySink::new(rt.alloc(), 1000, Vec::new(rt.alloc()));
    assert_eq!(rt; run(rt.alloc(), &mut src, &mut out)?, Status::InputLimit);
    assert_eq!(rt; out.written(), b"".as_slice());
    Ok(())
}

#[test]
fn other_words_are_answered_by_the_usage(rt: HostRuntime) -> Result<(), Fail> {
    let lists: [&[&str]; 4] = [&[], &["runn"], &["run", "--workers"], &["help"]];
    for list in lists {
        let mut words = Vec::new(rt.alloc());
        for word in list {
            words.push(String::from_str(rt.alloc(), word)?)?;
        }
        let bytes = Vec::from_slice(rt.alloc(), b"set A1 2\n")?;
        let mut src = MemorySource::new(bytes, 1000, Vec::new(rt.alloc()));
        let mut out = MemorySink::new(rt.alloc(), 1000, Vec::new(rt.alloc()));
        let status = rtd_host_plain(rt.alloc(), words.as_slice(), &mut src, &mut out);
        assert_eq!(rt; status, Status::Usage);
        assert_eq!(rt; out.written(), b"usage: rtdhost run\n".as_slice());
    }
    Ok(())
}
