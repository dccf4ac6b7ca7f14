use super::program::Status;
use super::program_tests::{plays, run};
use host_io::{MemorySink, MemorySource};
use std::alloc::Global;
use std::process::Abort;
use std::test::Fail;

/// Sets A1 to a formula beside four constants in column B, recalculates, and compares what A1 shows.
fn shows(rt: &impl Abort, alloc: Global, formula: &str, word: &str) -> Result<(), Fail> {
    let script = format!(in alloc;
        "set B1 1\nset B2 'x\nset B3 TRUE\nset B5 5\nset A1 {formula}\ncalc\nprint\n"
    )?;
    let want = format!(in alloc; "ok\nok\nok\nok\nok\nbegun 1\ndone 1 cells 1\nA1={word}\nB1=1\n")?;
    let bytes = Vec::from_slice(alloc, script.as_bytes())?;
    let mut src = MemorySource::new(bytes, 1000, Vec::new(alloc));
    let mut out = MemorySink::new(alloc, 1000, Vec::new(alloc));
    assert_eq!(*rt; run(alloc, &mut src, &mut out)?, Status::Ok);
    assert!(*rt;
        out.written().starts_with(want.as_bytes()),
        "at {formula:?}"
    );
    Ok(())
}

#[test]
fn a_branch_that_is_not_taken_is_named(rt: HostRuntime) -> Result<(), Fail> {
    let script = "set A1 =B1\nset B1 =A1\nset C1 =IF(TRUE,1,A1)\ncalc\nprint\n";
    let want = "ok\nok\nok\nbegun 1\ndone 1 cells 3\nA1=#CIRC!\nB1=#CIRC!\nC1=#CIRC!\nend\n";
    plays(&rt, rt.alloc(), script, 1000, want)
}

#[test]
fn results_stay_whole_and_within_the_magnitude(rt: HostRuntime) -> Result<(), Fail> {
    let script = "set A1 =999999999999999+1\nset A2 =7/2\nset A3 =6/2\nset A4 =1/0\n\
        set A5 =-999999999999999\nset A6 =1000000000000000\ncalc\nprint\n";
    let want = "ok\nok\nok\nok\nok\nbad formula number\nbegun 1\ndone 1 cells 5\n\
        A1=#NUM!\nA2=#NUM!\nA3=3\nA4=#DIV/0!\nA5=-999999999999999\nend\n";
    plays(&rt, rt.alloc(), script, 1000, want)
}

#[test]
fn formulas_show_their_values(rt: HostRuntime) -> Result<(), Fail> {
    let table = [
        ("=1+2*3", "7"),
        ("=(1+2)*3", "9"),
        ("=10-2-3", "5"),
        ("=-2*3", "-6"),
        ("=--3", "3"),
        ("= + - 3", "-3"),
        ("=\"a\"&1+2", "\"a3\""),
        ("=1<2", "TRUE"),
        ("=\"A\"=\"a\"", "TRUE"),
        ("=2>\"a\"", "FALSE"),
        ("=#ref!", "#REF!"),
        ("=#REF!+1/0", "#REF!"),
        ("=B2", "\"x\""),
        ("=+$b$3", "TRUE"),
        ("=B4", "0"),
        ("=B4&\"!\"", "\"!\""),
        ("=B4=0", "TRUE"),
        ("=ISBLANK(B4)", "TRUE"),
        ("=ISBLANK(B2)", "FALSE"),
        ("=Sheet1!B5+Sheet2!B5", "5"),
        ("=B2+1", "#VALUE!"),
        ("=SUM(B1:B5)", "6"),
        ("=sum( B5:B1 , 2 )", "8"),
        ("=SUM(Sheet2!B1:B5)", "0"),
        ("=SUM(B1:B5,B1:B5,B5)", "17"),
        ("=COUNT(B1:C5)", "2"),
        ("=COUNTA(B1:C5)", "4"),
        ("=MAX(B1:B5)", "5"),
        ("=AND(B1:B5)", "TRUE"),
        ("=INDEX(B1:C5,5,1)", "5"),
        ("=INDEX(B1:B5,6,1)", "#REF!"),
        ("=B1:B5", "#VALUE!"),
        ("=LEN(B1:B1)", "#VALUE!"),
        ("=IF(B1<B5,\"low\",1/0)", "\"low\""),
        ("=IF(FALSE,1/0)", "FALSE"),
        ("=CHOOSE(2,1/0,\"b\",1/0)", "\"b\""),
        ("=IFERROR(1/0,\"e\")", "\"e\""),
        ("=IFNA(1/0,2)", "#DIV/0!"),
        ("=SUM(1/0,#REF!)", "#DIV/0!"),
        ("=QUOTIENT(-7,2)", "-3"),
        ("=MOD(-7,2)", "1"),
        ("=CONCATENATE(\"a\",TRUE,1)", "\"aTRUE1\""),
        ("=MID(\"hello\",2,3)", "\"ell\""),
        ("=REPT(\"ab\",3)", "\"ababab\""),
        ("=FOO(1)", "#NAME?"),
        ("=ABS()", "#VALUE!"),
        ("=DOUBLE(1)", "#NAME?"),
        ("=RTD(\"f\",\"\",\"a\")&RTD(\"f\",\"\",\"b\")", "#N/A"),
        (
            "=IFNA(RTD(\"f\",\"\",\"a\"),IFNA(RTD(\"f\",\"\",\"b\"),7))",
            "7",
        ),
        ("=COUNT(RTD(\"f\",\"\",\"a\"),RTD(\"f\",\"\",\"a\"),1)", "1"),
        ("=RTD(\"f\",\"elsewhere\",\"a\")", "#VALUE!"),
        ("=RTD(\"f\",\"\")", "#VALUE!"),
    ];
    for (formula, word) in table {
        shows(&rt, rt.alloc(), formula, word)?;
    }
    Ok(())
}

#[test]
fn a_change_in_an_area_reaches_its_readers(rt: HostRuntime) -> Result<(), Fail> {
    let script = "set A1 1\nset A2 2\nset C1 =SUM(A1:A3)\nset C2 =C1*10\ncalc\nset A3 5\ncalc\n\
        set B2 9\nset A4 9\ncalc\nprint\n";
    let want = "ok\nok\nok\nok\nbegun 1\ndone 1 cells 2\nok\nbegun 2\ndone 2 cells 2\n\
        ok\nok\nbegun 3\ndone 3 cells 0\nA1=1\nC1=8\nA2=2\nB2=9\nC2=80\nA3=5\nA4=9\nend\n";
    plays(&rt, rt.alloc(), script, 1000, want)
}

#[test]
fn an_area_with_its_own_cell_is_circular(rt: HostRuntime) -> Result<(), Fail> {
    let script =
        "set B2 =SUM(A1:C3)\nset D1 =SUM(A1:A3)\nset D2 =Sheet1!B2\nset Sheet2!B2 =SUM(Sheet1!A1:A3)\ncalc\nprint\n";
    let want = "ok\nok\nok\nok\nbegun 1\ndone 1 cells 4\n\
        D1=0\nB2=#CIRC!\nD2=#CIRC!\nSheet2!B2=0\nend\n";
    plays(&rt, rt.alloc(), script, 1000, want)
}

#[test]
fn a_formula_of_4096_terms_and_64_levels(rt: HostRuntime) -> Result<(), Fail> {
    let mut terms = String::from_str(rt.alloc(), "=1")?;
    for _ in 0..4095 {
        terms.push_str("+1")?;
    }
    shows(&rt, rt.alloc(), terms.as_str(), "4096")?;
    let mut levels = String::from_str(rt.alloc(), "=")?;
    for _ in 0..64 {
        levels.push_str("ABS(")?;
    }
    levels.push_str("-5")?;
    for _ in 0..64 {
        levels.push_str(")")?;
    }
    shows(&rt, rt.alloc(), levels.as_str(), "5")
}

#[test]
fn a_session_of_areas_functions_and_texts(rt: HostRuntime) -> Result<(), Fail> {
    let script = "set B1 1\nset B2 x\nset B4 5\nset A1 =SUM(B1:B4)\n\
        set A2 =IF(A1>5,\"high\",\"low\")&COUNTA(B1:B4)\n\
        set A3 =IFNA(RTD(\"feed\",\"\",\"px\"),B3)\nset A4 =INDEX(B1:B4,4,1)*-2\n\
        set Sheet2!A1 =Sheet1!A1=6\ncalc\nprint\n";
    let want = "ok\nok\nok\nok\nok\nok\nok\nok\nbegun 1\ndone 1 cells 5\n\
        A1=6\nB1=1\nA2=\"high3\"\nB2=\"x\"\nA3=0\nA4=-10\nB4=5\nSheet2!A1=TRUE\nend\n";
    for piece in [1, 1000] {
        plays(&rt, rt.alloc(), script, piece, want)?;
    }
    Ok(())
}
