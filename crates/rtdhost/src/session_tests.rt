//! Worked sessions over servers, asynchronous functions and events.

use super::program_tests::plays;
use std::alloc::Global;
use std::test::Fail;

#[test]
fn a_pull_takes_what_servers_told_of(rt: HostRuntime) -> Result<(), Fail> {
    let script =
        "server feed\npublish feed \"px\" 10\nset A1 =RTD(\"feed\",\"\",\"px\")\ncalc\nprint\n\
        publish feed \"px\" 11\npull 0\nnotify feed\npull 0\ncalc\nprint\npull 500\nnotify feed\n\
        pull 1000\npull 2000\nthrottle -1\nnotify feed\npull 9000\npull force\npublish zz \"a\" 1\n\
        notify zz\nserver feed\n";
    let want = "ok\nok\nok\nbegun 1\ndone 1 cells 1\nA1=10\nend\n\
        ok\nnothing\nok\npulled 1\nbegun 2\ndone 2 cells 1\nA1=11\nend\nnothing\nok\n\
        early 1000\npulled 0\nok\nok\nmanual\npulled 0\nno server\nno server\nknown\n";
    plays(&rt, rt.alloc(), script, 1, want)
}

#[test]
fn a_recalculation_sees_one_snapshot(rt: HostRuntime) -> Result<(), Fail> {
    let script = "set A1 =RTD(\"f\",\"\",\"a\")&RTD(\"f\",\"\",\"b\")\ncalc\nprint\nserver f\n\
        publish f \"a\" 1\npublish f \"b\" 2\nbegin\npublish f \"b\" 3\nserver g\nthrottle 0\n\
        pull force\nsettle\nprint\nnotify f\npull 1\ncalc\nprint\n";
    let want =
        "ok\nbegun 1\ndone 1 cells 1\nA1=#N/A\nend\nok\nok\nok\nbegun 2\nok\nbusy 2\nbusy 2\n\
        busy 2\ndone 2 cells 1\nA1=\"12\"\nend\nok\npulled 1\nbegun 3\ndone 3 cells 1\nA1=\"13\"\nend\n";
    plays(&rt, rt.alloc(), script, 7, want)
}

#[test]
fn a_value_that_comes_back_leaves_its_reader_changed(rt: HostRuntime) -> Result<(), Fail> {
    let script = "server px\nserver fx\npublish px \"a\" 5\npublish fx \"a\" 7\n\
        set A1 =RTD(\"px\",\"\",\"a\")\nset A2 =RTD(\"fx\",\"\",\"a\")\ncalc\n\
        publish px \"a\" 6\npublish fx \"a\" 8\nthrottle 0\nnotify px\npull 5\n\
        publish px \"a\" 5\nnotify px\npull 4\ncalc\nprint\n\
        throttle 1000\nnotify fx\npull 3\npull 1003\npull 1004\ncalc\nprint\n";
    let want = "ok\nok\nok\nok\nok\nok\nbegun 1\ndone 1 cells 2\n\
        ok\nok\nok\nok\npulled 1\nok\nok\npulled 1\nbegun 2\ndone 2 cells 1\nA1=5\nA2=7\nend\n\
        ok\nok\nearly 1001\nearly 1\npulled 1\nbegun 3\ndone 3 cells 1\nA1=5\nA2=8\nend\n";
    plays(&rt, rt.alloc(), script, 1000, want)
}

#[test]
fn calls_are_answered_once(rt: HostRuntime) -> Result<(), Fail> {
    let script = "register SLOW >QX\nlisten app\nset A1 =SLOW(2)+1\nset A2 =A1*2\nbegin\nsettle\n\
        return 1:A1#2 5\nreturn 1:A1#1 20\nreturn 1:A1#1 30\nsettle\nprint\n\
        set A1 =SLOW(SLOW(3))\nbegin\nsettle\nreturn 2:A1#2 4\nsettle\nset A3 1\ncancel\n\
        return 2:A1#1 5\nprint\nevents app\nevents app\nevents other\nlisten app\nregister SUM QQ\n";
    let want = "ok\nok\nok\nok\nbegun 1\nwaiting 1 count 1\n 1:A1#1 SLOW(2)\n\
        256\n0\n256\ndone 1 cells 2\nA1=21\nA2=42\nend\n\
        ok\nbegun 2\nwaiting 2 count 1\n 2:A1#2 SLOW(3)\n0\nwaiting 2 count 1\n 2:A1#1 SLOW(4)\nbusy 2\n\
        cancelled 2\n256\nA1=21\nA2=42\nend\n ended 1\n cancelled 2\nend\nend\nno listener\nknown\n\
        builtin\n";
    plays(&rt, rt.alloc(), script, 1, want)
}

#[test]
fn calls_wait_for_their_arguments(rt: HostRuntime) -> Result<(), Fail> {
    let script =
        "register slow >QX\nset B1 =SLOW(A1)\nset A1 =SLOW(\"x\")\nset C1 =IF(FALSE,SLOW(1),7)\n\
        set D1 =B1+C1\nbegin\nsettle\nreturn 1:B1#1 1\nreturn 1:A1#1 3\nsettle\nreturn 2/1:B1#1 1\n\
        return 1:B1#1 #N/A\nsettle\nprint\ncalc\n";
    let want = "ok\nok\nok\nok\nok\nbegun 1\nwaiting 1 count 1\n 1:A1#1 SLOW(\"x\")\n256\n0\n\
        waiting 1 count 1\n 1:B1#1 SLOW(3)\n256\n0\ndone 1 cells 4\n\
        A1=3\nB1=#N/A\nC1=7\nD1=#N/A\nend\nbegun 2\ndone 2 cells 0\n";
    plays(&rt, rt.alloc(), script, 7, want)
}

#[test]
fn a_sheet_is_printed_as_records(rt: HostRuntime) -> Result<(), Fail> {
    let script =
        "set A1 'a,b\nset A2 TRUE\nset A3 #N/A\nset A4 'say \"x\"\nset B1 12\ncalc\nprint csv\n";
    let want = "ok\nok\nok\nok\nok\nbegun 1\ndone 1 cells 0\n\
        A1,text,\"a,b\"\nB1,number,12\nA2,bool,TRUE\nA3,error,#N/A\nA4,text,\"say \"\"x\"\"\"\nend\n";
    plays(&rt, rt.alloc(), script, 1000, want)
}

#[test]
fn worked_sessions(rt: HostRuntime) -> Result<(), Fail> {
    let table = [
        (
            "register SLOW >QX$\nset A1 =SLOW(2)+1\ncalc\nreturn 2/1:A1#1 7\nreturn 1:A1#1 7\nreturn 1:A1#1 8\nsettle\nprint\n",
            "ok\nok\nbegun 1\nwaiting 1 count 1\n 1:A1#1 SLOW(2)\n256\n0\n256\ndone 1 cells 1\nA1=8\nend\n",
        ),
        (
            "register SLOW >QX$\nset A1 =SLOW(SLOW(2))\ncalc\nreturn 1:A1#2 7\nsettle\nreturn 1:A1#1 9\nsettle\nprint\n",
            "ok\nok\nbegun 1\nwaiting 1 count 1\n 1:A1#2 SLOW(2)\n0\nwaiting 1 count 1\n 1:A1#1 SLOW(7)\n0\ndone 1 cells 1\nA1=9\nend\n",
        ),
        (
            "register SLOW >QX$\nset A1 =SLOW(2)+1\ncalc\ncancel\nreturn 1:A1#1 7\nprint\ncalc\n",
            "ok\nok\nbegun 1\nwaiting 1 count 1\n 1:A1#1 SLOW(2)\ncancelled 1\n256\nend\nbegun 2\nwaiting 2 count 1\n 2:A1#1 SLOW(2)\n",
        ),
        ("return 9:Z9#1 1\nsettle\ncancel\n", "256\nidle\nidle\n"),
        (
            "register SLOW >QX$\nset B1 0\nset A1 =IF(B1=1,SLOW(1),5)\ncalc\nset B1 1\ncalc\nreturn 2:A1#1 9\nsettle\nset B1 0\ncalc\nprint\n",
            "ok\nok\nok\nbegun 1\ndone 1 cells 1\nok\nbegun 2\nwaiting 2 count 1\n 2:A1#1 SLOW(1)\n0\ndone 2 cells 1\nok\nbegun 3\ndone 3 cells 1\nA1=5\nB1=0\nend\n",
        ),
        (
            "register SLOW >QX$\nserver feed\npublish feed \"px\" 10\nset A1 =SLOW(1)+RTD(\"feed\",\"\",\"px\")\ncalc\npublish feed \"px\" 11\nnotify feed\npull 0\nset B1 1\nreturn 1:A1#1 5\nsettle\nprint\npull 0\ncalc\n",
            "ok\nok\nok\nok\nbegun 1\nwaiting 1 count 1\n 1:A1#1 SLOW(1)\nok\nok\nbusy 1\nbusy 1\n0\ndone 1 cells 1\nA1=15\nend\npulled 1\nbegun 2\nwaiting 2 count 1\n 2:A1#1 SLOW(1)\n",
        ),
        (
            "set A1 =RTD(\"f\",\"\",\"a\")&RTD(\"f\",\"\",\"b\")\ncalc\nprint\nserver f\nserver f\npublish f \"a\" 1\npublish f \"b\" 2\ncalc\nprint\n",
            "ok\nbegun 1\ndone 1 cells 1\nA1=#N/A\nend\nok\nknown\nok\nok\nbegun 2\ndone 2 cells 1\nA1=\"12\"\nend\n",
        ),
        (
            "set A1 2\nset B1 'a,b\nset C1 =1/0\ncalc\nprint csv\n",
            "ok\nok\nok\nbegun 1\ndone 1 cells 1\nA1,number,2\nB1,text,\"a,b\"\nC1,error,#DIV/0!\nend\n",
        ),
        (
            "listen app\nset A1 =1\ncalc\ncalc\ncancel\nevents app\nevents app\nevents other\nlisten app\n",
            "ok\nok\nbegun 1\ndone 1 cells 1\nbegun 2\ndone 2 cells 0\nidle\n ended 1\n ended 2\nend\nend\nno listener\nknown\n",
        ),
        (
            "register SUM QQ\npublish zz \"a\" 1\nnotify zz\nset A1 =FOO(1)\nset A2 =ABS()\ncalc\nprint\n",
            "builtin\nno server\nno server\nok\nok\nbegun 1\ndone 1 cells 2\nA1=#NAME?\nA2=#VALUE!\nend\n",
        ),
    ];
    for (script, want) in table {
        for piece in [1, 1000] {
            plays(&rt, rt.alloc(), script, piece, want)?;
        }
    }
    Ok(())
}

/// Feeds under formulas, of which three ask for quotes.
fn desk_script(alloc: Global) -> Result<String, Fail> {
    let mut script = String::from_str(
        alloc,
        "server px\nserver fx\npublish px \"A\" 100\npublish px \"B\" 250\npublish fx \"EURUSD\" 110\n\
         register QUOTE >QX$\nset A1 =RTD(\"px\",\"\",\"A\")\nset A2 =RTD(\"px\",\"\",\"B\")\n\
         set A3 =RTD(\"fx\",\"\",\"EURUSD\")\n",
    )?;
    for row in 1..=30_u32 {
        let line = format!(in alloc; "set B{row} =$A$1+{row}\n")?;
        script.push_str(line.as_str())?;
    }
    script.push_str(
        "set C1 =SUM(B1:B30)\nset C2 =C1+A2\nset C3 =IF(C2>3000,\"high\",\"low\")\nset D1 =QUOTE(A1)\n\
         set D2 =QUOTE(A2)\nset D3 =QUOTE(A3)\nset E1 =D1+D2+D3\ncalc\nreturn 1:D2#1 2000\n\
         return 1:D1#1 1000\nreturn 1:D3#1 3000\nsettle\npublish px \"A\" 101\nnotify px\npull 5000\ncalc\n\
         return 2:D1#1 1010\nsettle\nprint\n",
    )?;
    Ok(script)
}

/// What it is answered with.
fn desk_replies(alloc: Global) -> Result<String, Fail> {
    let mut want = String::from_str(alloc, "")?;
    for _ in 0..46_u32 {
        want.push_str("ok\n")?;
    }
    want.push_str(
        "begun 1\nwaiting 1 count 3\n 1:D1#1 QUOTE(100)\n 1:D2#1 QUOTE(250)\n 1:D3#1 QUOTE(110)\n\
         0\n0\n0\ndone 1 cells 40\nok\nok\npulled 1\nbegun 2\nwaiting 2 count 1\n 2:D1#1 QUOTE(101)\n0\n\
         done 2 cells 36\nA1=101\nB1=102\nC1=3495\nD1=1010\nE1=6010\nA2=250\nB2=103\nC2=3745\nD2=2000\n\
         A3=110\nB3=104\nC3=\"high\"\nD3=3000\n",
    )?;
    for row in 4..=30_u32 {
        let line = format!(in alloc; "B{row}={}\n", row.wrapping_add(101))?;
        want.push_str(line.as_str())?;
    }
    want.push_str("end\n")?;
    Ok(want)
}

#[test]
fn a_desk_with_feeds_and_quotes(rt: HostRuntime) -> Result<(), Fail> {
    let script = desk_script(rt.alloc())?;
    let want = desk_replies(rt.alloc())?;
    for piece in [1, 1000] {
        plays(&rt, rt.alloc(), script.as_str(), piece, want.as_str())?;
    }
    Ok(())
}
