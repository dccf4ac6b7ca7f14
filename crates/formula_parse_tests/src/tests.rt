use cell_refs::Area;
use formula_parse::{Node, ParseFault, called_names, has_rtd_call, names, parse, print, sites};
use std::alloc::{AllocError, Global};
use std::test::Fail;
use std::thread::join;

/// The canonical text of the formula that a text is.
fn printed(alloc: Global, text: &str) -> Result<String, ParseFault> {
    let tree = parse(alloc, text)?;
    let mut out = Vec::new(alloc);
    if print(&tree, &mut out).is_err() {
        return Err(ParseFault::Memory);
    }
    match String::from_utf8(out) {
        Ok(text) => Ok(text),
        Err(_) => Err(ParseFault::Memory),
    }
}

/// A text that stands so many times, one behind the other, between two others.
fn repeated(
    alloc: Global,
    front: &str,
    part: &str,
    count: usize,
    back: &str,
) -> Result<String, AllocError> {
    let mut text = String::from_str(alloc, front)?;
    for _ in 0..count {
        text.push_str(part)?;
    }
    text.push_str(back)?;
    Ok(text)
}

#[test]
fn a_formula_is_printed_canonically_and_reads_back(rt: HostRuntime) -> Result<(), Fail> {
    let table = [
        ("= a1 + 01", "=A1+1"),
        ("=1+2*3-4/5&\"x\"=True", "=1+2*3-4/5&\"x\"=TRUE"),
        ("= - + -1", "=--1"),
        ("=+-+ 1", "=-1"),
        ("=++a1", "=A1"),
        ("=1--2", "=1--2"),
        ("=1<2", "=1<2"),
        ("=1 <= 2", "=1<=2"),
        ("=1<>2>=3>4", "=1<>2>=3>4"),
        ("=sheet64!$xfd$1048576 : a1", ""),
        (
            "=sheet64!$xfd$1048576:xfc$1048570",
            "=Sheet64!$XFD$1048576:XFC$1048570",
        ),
        ("=SHEET1!a1", "=Sheet1!A1"),
        ("=sum( a1:b2 , 3 )", "=SUM(A1:B2,3)"),
        ("=((1))", "=((1))"),
        ("=\"a\"\"b \"", "=\"a\"\"b \""),
        ("=\"\"", "=\"\""),
        ("=\"\u{e9}\"&\"\u{1f600}\"", "=\"\u{e9}\"&\"\u{1f600}\""),
        ("=#null!&#div/0!&#Value!", "=#NULL!&#DIV/0!&#VALUE!"),
        ("=#ref!&#name?&#num!&#n/a", "=#REF!&#NAME?&#NUM!&#N/A"),
        ("=false", "=FALSE"),
        ("=true()", "=TRUE()"),
        ("=f.x_1()", "=F.X_1()"),
        ("=a1(2)", "=A1(2)"),
        ("=if(true,1,a1)", "=IF(TRUE,1,A1)"),
        ("=999999999999999", "=999999999999999"),
        ("=007", "=7"),
        ("=A1:A65536", "=A1:A65536"),
    ];
    for (text, canonical) in table {
        if canonical.is_empty() {
            assert!(rt; parse(rt.alloc(), text).is_err(), "in {text}");
        } else {
            let once = printed(rt.alloc(), text)?;
            assert_eq!(rt; once.as_str(), canonical, "in {text}");
            let twice = printed(rt.alloc(), once.as_str())?;
            assert_eq!(rt; twice.as_str(), canonical, "in {text}");
        }
    }
    Ok(())
}

#[test]
fn a_text_that_is_no_formula_is_refused_where_the_last_one_goes_on(rt: HostRuntime) {
    let table = [
        ("", 0),
        ("1", 0),
        (" =1", 0),
        ("=", 1),
        ("=  ", 3),
        ("=*1", 1),
        ("=1+", 3),
        ("=1 2", 3),
        ("=1A", 2),
        ("=1.5", 2),
        ("=1==2", 3),
        ("=1<>", 4),
        ("=1><2", 3),
        ("=A", 2),
        ("=A01", 4),
        ("=XFE1+1", 5),
        ("=A1048577", 9),
        ("=A1B", 4),
        ("=$A01", 3),
        ("=$XFE1", 4),
        ("=$A$1048577", 10),
        ("=$A1B", 4),
        ("=A1:", 4),
        ("=A1:B", 5),
        ("=A1 :B2", 4),
        ("=A1:B2C", 6),
        ("=A1:B2(", 6),
        ("=A1:Sheet2!B2", 7),
        ("=Sheet65!A1", 8),
        ("=Sheet01!A1", 8),
        ("=Sheet1!", 8),
        ("=Sheet1!A1B", 10),
        ("=Sheet1!XFE1", 10),
        ("=TRUE1", 6),
        ("=TRUE 1", 6),
        ("=\"abc", 5),
        ("=\"a\"\"", 5),
        ("=\"a\tb\"", 3),
        ("=#", 2),
        ("=#N/B", 4),
        ("=#DIV/0", 7),
        ("=)", 1),
        ("=(1", 3),
        ("=1)", 2),
        ("=()", 2),
        ("=f(,)", 3),
        ("=f(1,)", 5),
        ("=f(+)", 4),
        ("=f(1", 4),
        ("=f (1)", 2),
        ("=(1,2)", 3),
        ("=1,2", 2),
        ("=\u{e9}", 1),
        ("=_a", 1),
        ("=1000000000000000+", 18),
        ("=A1:A65537+", 11),
    ];
    for (text, place) in table {
        let fault = parse(rt.alloc(), text).err();
        assert_eq!(rt; fault, Some(ParseFault::Syntax(place)), "in {text}");
    }
}

#[test]
fn areas_are_judged_before_numbers(rt: HostRuntime) {
    let table = [
        ("=A1:A65537", ParseFault::BadRange),
        ("=A1:B32769", ParseFault::BadRange),
        ("=A1:XFD1048576", ParseFault::BadRange),
        ("=1000000000000000", ParseFault::NumberTooLarge),
        ("=99999999999999999999999", ParseFault::NumberTooLarge),
        ("=1000000000000000+A1:A65537", ParseFault::BadRange),
    ];
    for (text, fault) in table {
        assert_eq!(rt; parse(rt.alloc(), text).err(), Some(fault), "in {text}");
    }
}

#[test]
fn at_most_64_calls_and_128_with_parentheses_are_open(rt: HostRuntime) -> Result<(), Fail> {
    let deep = Some(ParseFault::TooDeep);
    let calls = repeated(rt.alloc(), "=", "f(", 64, "1")?;
    let closed = repeated(rt.alloc(), calls.as_str(), ")", 64, "")?;
    assert!(rt; parse(rt.alloc(), closed.as_str()).is_ok());
    let calls = repeated(rt.alloc(), "=", "f(", 65, "")?;
    assert_eq!(rt; parse(rt.alloc(), calls.as_str()).err(), deep);
    let fault = repeated(rt.alloc(), "=1 1", "f(", 65, "")?;
    assert_eq!(rt;
        parse(rt.alloc(), fault.as_str()).err(),
        Some(ParseFault::Syntax(3))
    );

    let open = repeated(rt.alloc(), "=", "(", 128, "1")?;
    let closed = repeated(rt.alloc(), open.as_str(), ")", 128, "")?;
    assert!(rt; parse(rt.alloc(), closed.as_str()).is_ok());
    let open = repeated(rt.alloc(), "=", "(", 129, "?")?;
    assert_eq!(rt; parse(rt.alloc(), open.as_str()).err(), deep);

    let calls = repeated(rt.alloc(), "=", "f(", 64, "")?;
    let both = repeated(rt.alloc(), calls.as_str(), "(", 64, "")?;
    assert_eq!(rt;
        parse(rt.alloc(), both.as_str()).err(),
        Some(ParseFault::Syntax(both.len()))
    );
    let both = repeated(rt.alloc(), calls.as_str(), "(", 65, "")?;
    assert_eq!(rt; parse(rt.alloc(), both.as_str()).err(), deep);

    // What is closed is no longer open, and a text opens nothing.
    let many = repeated(rt.alloc(), "=0", "+(1)&f(\"((\")", 200, "")?;
    assert!(rt; parse(rt.alloc(), many.as_str()).is_ok());
    Ok(())
}

#[test]
fn lengths_are_limited(rt: HostRuntime) -> Result<(), Fail> {
    let most = repeated(rt.alloc(), "=1", "+1", 4_095, "")?;
    assert!(rt; parse(rt.alloc(), most.as_str()).is_ok());
    let over = repeated(rt.alloc(), "=11", "+1", 4_095, "")?;
    assert_eq!(rt;
        parse(rt.alloc(), over.as_str()).err(),
        Some(ParseFault::TooLong)
    );
    let wide = repeated(rt.alloc(), "=\"", "\u{e9}", 8_189, "\"")?;
    assert!(rt; parse(rt.alloc(), wide.as_str()).is_ok());
    let signs = repeated(rt.alloc(), "=", "-", 8_190, "1")?;
    assert!(rt; parse(rt.alloc(), signs.as_str()).is_ok());
    let quotes = repeated(rt.alloc(), "=", "\"", 8_190, "")?;
    assert!(rt; parse(rt.alloc(), quotes.as_str()).is_ok());

    let arguments = repeated(rt.alloc(), "=f(", "1,", 254, "1)")?;
    assert!(rt; parse(rt.alloc(), arguments.as_str()).is_ok());
    let arguments = repeated(rt.alloc(), "=f(", "1,", 255, "1)")?;
    assert_eq!(rt;
        parse(rt.alloc(), arguments.as_str()).err(),
        Some(ParseFault::Syntax(512))
    );
    let name = repeated(rt.alloc(), "=", "n", 255, "()")?;
    assert!(rt; parse(rt.alloc(), name.as_str()).is_ok());
    let name = repeated(rt.alloc(), "=", "n", 256, "()")?;
    assert_eq!(rt;
        parse(rt.alloc(), name.as_str()).err(),
        Some(ParseFault::Syntax(256))
    );
    Ok(())
}

/// How many operands the chain has that a tree is, 0 where it is none.
fn operands(node: &Node) -> usize {
    match node {
        Node::Chain { operands, .. } => operands.get().len(),
        _ => 0,
    }
}

#[test]
fn operators_of_one_level_are_one_chain(rt: HostRuntime) -> Result<(), Fail> {
    let table = [
        ("=1-2-3-4", 4),
        ("=1*2/3+4*5", 2),
        ("=1&2+3&4", 3),
        ("=1=2&3<>4", 3),
        ("=-1*2", 2),
        ("=(1+2+3)", 0),
    ];
    for (text, count) in table {
        let tree = parse(rt.alloc(), text)?;
        assert_eq!(rt; operands(tree.root()), count, "in {text}");
    }
    let copy = parse(rt.alloc(), "=1-2-3")?.copy()?;
    assert_eq!(rt; operands(copy.root()), 3);
    Ok(())
}

#[test]
fn a_formula_names_areas_from_left_to_right(rt: HostRuntime) -> Result<(), Fail> {
    let tree = parse(rt.alloc(), "=A1+Sheet3!$C$4:B2*IF(TRUE,D5,-(E6&F(\"A9\")))")?;
    let area = |sheet, top, left, bottom, right| Area {
        sheet,
        top,
        left,
        bottom,
        right,
    };
    let expected = [
        area(2, 1, 1, 1, 1),
        area(3, 2, 2, 4, 3),
        area(2, 5, 4, 5, 4),
        area(2, 6, 5, 6, 5),
    ];
    let named = names(rt.alloc(), &tree, 2)?;
    assert_eq!(rt; named.as_slice(), expected.as_slice());
    let none = parse(rt.alloc(), "=SUM(1,\"A1\")")?;
    assert_eq!(rt; names(rt.alloc(), &none, 1)?.len(), 0);
    Ok(())
}

#[test]
fn sites_are_calls_that_are_not_built_in(rt: HostRuntime) -> Result<(), Fail> {
    let table = [
        ("=1+SUM(2)", 0),
        ("=RTD(\"f\",\"\",\"a\")", 0),
        ("=SLOW(SUM(FAST(1)),RTD(\"f\",\"\",\"a\"))+slow(2)", 3),
        ("=IF(TRUE,1,f(g(),h()))", 3),
        ("=\"f(1)\"", 0),
    ];
    for (text, count) in table {
        let tree = parse(rt.alloc(), text)?;
        assert_eq!(rt; sites(&tree), count, "in {text}");
        let called = called_names(rt.alloc(), &tree)?;
        assert_eq!(rt; called.len(), usize::from(count), "in {text}");
    }
    Ok(())
}

#[test]
fn calls_of_rtd_are_found(rt: HostRuntime) -> Result<(), Fail> {
    let table = [
        ("=1+SUM(2)", false),
        ("=rtd(\"f\",\"\",\"a\")", true),
        ("=-(1+IF(TRUE,2,RTD(\"f\",\"\",\"a\")))", true),
        ("=RTDS(1)", false),
        ("=\"RTD(1)\"", false),
    ];
    for (text, is_there) in table {
        let tree = parse(rt.alloc(), text)?;
        assert_eq!(rt; has_rtd_call(&tree), is_there, "in {text}");
    }
    Ok(())
}

#[test]
fn a_tree_crosses_threads(rt: HostRuntime) -> Result<(), Fail> {
    let tree = parse(rt.alloc(), "=1+2+A3")?;
    let copy = tree.copy()?;
    let (here, there) = join(&rt, || operands(tree.root()), || operands(copy.root()));
    assert_eq!(rt; here, 3);
    assert_eq!(rt; there, 3);
    Ok(())
}
