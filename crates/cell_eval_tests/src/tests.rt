use addin_types::{Kind, Registration, SampleAddIns};
use cell_eval::{
    Inputs, Job, Outcome, Registrations, Results, Topics, eval, eval_closed, is_in_order,
};
use cell_refs::Cell;
use cell_values::{Name, Text, Texts, Topic, Value, print_value, read_value};
use formula_parse::parse;
use std::alloc::Global;
use std::test::Fail;

/// The inputs of cells by sheet, row, column and value word.
fn inputs_of(alloc: Global, cells: &[(u8, u32, u16, &str)]) -> Result<Inputs, Fail> {
    let mut entries = Vec::new(alloc);
    for (sheet, row, col, word) in cells {
        let cell = Cell {
            sheet: *sheet,
            row: *row,
            col: *col,
        };
        entries.push((cell, read_value(alloc, word)?))?;
    }
    if !is_in_order(entries.as_slice()) {
        return Err(Fail::from("inputs out of order"));
    }
    Ok(Inputs::new(entries))
}

/// The topic of a server and one string.
fn topic_of(alloc: Global, server: &str, string: &str) -> Result<Topic, Fail> {
    let mut strings = Vec::new(alloc);
    strings.push(Text::new(alloc, string)?)?;
    Ok(Topic {
        server: Name::new(alloc, server)?,
        strings: Texts::new(strings)?,
    })
}

/// The topics of servers, strings and value words.
fn topics_of(alloc: Global, topics: &[(&str, &str, &str)]) -> Result<Topics, Fail> {
    let mut entries = Vec::new(alloc);
    for (server, string, word) in topics {
        let topic = topic_of(alloc, server, string)?;
        entries.push((topic, read_value(alloc, word)?))?;
    }
    Ok(Topics::new(entries))
}

/// The results of sites and value words.
fn results_of(alloc: Global, results: &[(u16, &str)]) -> Result<Results, Fail> {
    let mut entries = Vec::new(alloc);
    for (site, word) in results {
        entries.push((*site, read_value(alloc, word)?))?;
    }
    Ok(Results::new(entries))
}

/// The registered functions: DOUBLE and ECHO of one argument, which answer at once, and SLOW of one and PAIR of two,
/// which don't.
fn functions_of(alloc: Global) -> Result<Registrations, Fail> {
    let mut entries = Vec::new(alloc);
    for (name, arguments, kind) in [
        ("DOUBLE", 1, Kind::Plain),
        ("ECHO", 1, Kind::Plain),
        ("SLOW", 1, Kind::Asynchronous { handle_place: 1 }),
        ("PAIR", 2, Kind::Asynchronous { handle_place: 0 }),
    ] {
        let registration = Registration {
            kind,
            arguments,
            thread_safe: true,
        };
        entries.push((Name::new(alloc, name)?, registration))?;
    }
    Ok(Registrations::new(entries))
}

/// The words of values, with a space before each.
fn push_values(values: &[Value], out: &mut Vec<u8>) -> Result<(), Fail> {
    for value in values {
        out.extend_from_slice(b" ")?;
        print_value(value, out)?;
    }
    Ok(())
}

/// An outcome in words: a value word, `topic` with the server and the strings, or `call` with the site, the name and
/// the arguments.
fn outcome_words(alloc: Global, outcome: &Outcome) -> Result<String, Fail> {
    let mut out = Vec::new(alloc);
    match outcome {
        Outcome::Done(value) => print_value(value, &mut out)?,
        Outcome::Topic(topic) => {
            out.extend_from_slice(b"topic ")?;
            out.extend_from_slice(topic.server.as_str().as_bytes())?;
            for string in topic.strings.as_slice() {
                out.extend_from_slice(b" ")?;
                out.extend_from_slice(string.as_str().as_bytes())?;
            }
        }
        Outcome::Call { site, name, args } => {
            let head = format!(in alloc; "call {site} ")?;
            out.extend_from_slice(head.as_str().as_bytes())?;
            out.extend_from_slice(name.as_str().as_bytes())?;
            push_values(args.as_slice(), &mut out)?;
        }
    }
    Ok(String::from_utf8(out)?)
}

/// What is known to a job.
#[derive(Clone, Copy)]
struct Known<'a> {
    inputs: &'a [(u8, u32, u16, &'a str)],
    topics: &'a [(&'a str, &'a str, &'a str)],
    results: &'a [(u16, &'a str)],
}

/// The outcome of a formula in a cell of a sheet, in words.
fn outcome_of(alloc: Global, sheet: u8, text: &str, known: Known<'_>) -> Result<String, Fail> {
    let job = Job {
        round: 1,
        cell: Cell {
            sheet,
            row: 9,
            col: 9,
        },
        tree: parse(alloc, text)?,
        inputs: inputs_of(alloc, known.inputs)?,
        topics: topics_of(alloc, known.topics)?,
        results: results_of(alloc, known.results)?,
        functions: functions_of(alloc)?,
    };
    outcome_words(alloc, &eval(alloc, &job, &SampleAddIns)?)
}

/// The inputs of most tests: B1 is 5, C1 is "x", B2 is 7, B3 is #N/A, and B1 of the second sheet is 6.
static CELLS: [(u8, u32, u16, &str); 5] = [
    (1, 1, 2, "5"),
    (1, 1, 3, "\"x\""),
    (1, 2, 2, "7"),
    (1, 3, 2, "#N/A"),
    (2, 1, 2, "6"),
];

/// The outcome of a formula on the first sheet over these inputs, with these results.
fn outcome(alloc: Global, text: &str, results: &[(u16, &str)]) -> Result<String, Fail> {
    let known = Known {
        inputs: &CELLS,
        topics: &[],
        results,
    };
    outcome_of(alloc, 1, text, known)
}

#[test]
fn only_the_branch_that_is_taken_is_evaluated(rt: HostRuntime) -> Result<(), Fail> {
    for (text, expected) in [
        ("=IF(TRUE,1,SLOW(1))", "1"),
        ("=IF(FALSE,SLOW(1),2)", "2"),
        ("=IF(FALSE,SLOW(1))", "FALSE"),
        ("=IF(1/0,SLOW(1),SLOW(2))", "#DIV/0!"),
        ("=IF(\"no\",SLOW(1),SLOW(2))", "#VALUE!"),
        ("=IF(FALSE,RTD(\"S\",\"\",\"a\"),3)", "3"),
        ("=IFERROR(1,SLOW(1))", "1"),
        ("=IFERROR(1/0,2)", "2"),
        ("=IFNA(#DIV/0!,SLOW(1))", "#DIV/0!"),
        ("=IFNA(#N/A,2)", "2"),
        ("=CHOOSE(2,SLOW(1),5,SLOW(2))", "5"),
        ("=CHOOSE(4,SLOW(1),SLOW(2))", "#VALUE!"),
        ("=CHOOSE(0,SLOW(1),SLOW(2))", "#VALUE!"),
        ("=CHOOSE(#REF!,SLOW(1),SLOW(2))", "#REF!"),
    ] {
        let words = outcome(rt.alloc(), text, &[])?;
        assert_eq!(rt; words.as_str(), expected, "{text}");
    }
    Ok(())
}

#[test]
fn the_first_error_is_answered(rt: HostRuntime) -> Result<(), Fail> {
    for (text, expected) in [
        ("=#REF!+#N/A", "#REF!"),
        ("=1+#N/A+#REF!", "#N/A"),
        ("=SUM(#NUM!,B3)", "#NUM!"),
        ("=B3+1/0", "#N/A"),
        ("=RTD(#NUM!,#N/A,\"a\")", "#NUM!"),
        ("=RTD(\"S\",#N/A,#NUM!)", "#N/A"),
        ("=RTD(\"S\",\"\",#NUM!,#N/A)", "#NUM!"),
        ("=RTD(\"S\",\"host\",\"a\")", "#VALUE!"),
        ("=RTD(\"1S\",\"\",\"a\")", "#N/A"),
    ] {
        let words = outcome(rt.alloc(), text, &[])?;
        assert_eq!(rt; words.as_str(), expected, "{text}");
    }
    Ok(())
}

#[test]
fn errors_are_arguments_of_added_functions(rt: HostRuntime) -> Result<(), Fail> {
    for (text, expected) in [
        ("=DOUBLE(4)", "8"),
        ("=DOUBLE(#N/A)", "#N/A"),
        ("=IFERROR(ECHO(#NUM!),3)", "3"),
        ("=SLOW(#N/A)", "call 1 SLOW #N/A"),
        ("=PAIR(1/0,B1)", "call 1 PAIR #DIV/0! 5"),
    ] {
        let words = outcome(rt.alloc(), text, &[])?;
        assert_eq!(rt; words.as_str(), expected, "{text}");
    }
    Ok(())
}

#[test]
fn with_a_wrong_count_nothing_is_evaluated(rt: HostRuntime) -> Result<(), Fail> {
    for (text, expected) in [
        ("=DOUBLE(SLOW(1),2)", "#VALUE!"),
        ("=PAIR(SLOW(1))", "#VALUE!"),
        ("=ABS()", "#VALUE!"),
        ("=NOT(SLOW(1),2)", "#VALUE!"),
        ("=IF(SLOW(1))", "#VALUE!"),
        ("=RTD(SLOW(1),\"\")", "#VALUE!"),
        ("=NOSUCH(SLOW(1))", "#NAME?"),
    ] {
        let words = outcome(rt.alloc(), text, &[])?;
        assert_eq!(rt; words.as_str(), expected, "{text}");
    }
    Ok(())
}

#[test]
fn areas_are_values_only_where_a_function_takes_them(rt: HostRuntime) -> Result<(), Fail> {
    for (text, expected) in [
        ("=B1:B2+1", "#VALUE!"),
        ("=B1:B2", "#VALUE!"),
        ("=ABS(B1:B1)", "#VALUE!"),
        ("=SUM((B1:B2))", "#VALUE!"),
        ("=SUM(B1:B2)", "12"),
        ("=SUM(B1:C2,3)", "15"),
        ("=SUM(B1)", "5"),
        ("=SUM(C1)", "0"),
        ("=SUM(C1+0)", "#VALUE!"),
        ("=COUNTA(A1:C3)", "4"),
        ("=INDEX(B1:C2,2,1)", "7"),
        ("=INDEX(B1:C2,1,2)", "\"x\""),
        ("=INDEX(B1:C2,2,2)", "0"),
        ("=SUM(Sheet2!A1:B1)", "6"),
    ] {
        let words = outcome(rt.alloc(), text, &[])?;
        assert_eq!(rt; words.as_str(), expected, "{text}");
    }
    Ok(())
}

#[test]
fn a_blank_is_zero_at_the_end_and_as_an_argument(rt: HostRuntime) -> Result<(), Fail> {
    for (text, expected) in [
        ("=D4", "0"),
        ("=IF(TRUE,D4)", "0"),
        ("=ECHO(D4)", "0"),
        ("=SLOW(D4)", "call 1 SLOW 0"),
        ("=ISBLANK(D4)", "TRUE"),
        ("=D4&\"y\"", "\"y\""),
        ("=--D4", "0"),
    ] {
        let words = outcome(rt.alloc(), text, &[])?;
        assert_eq!(rt; words.as_str(), expected, "{text}");
    }
    Ok(())
}

#[test]
fn sites_are_counted_by_the_places_of_names(rt: HostRuntime) -> Result<(), Fail> {
    let alloc = rt.alloc();
    let words = outcome(alloc, "=IF(FALSE,SLOW(1),SLOW(2))", &[])?;
    assert_eq!(rt; words.as_str(), "call 2 SLOW 2");
    let words = outcome(alloc, "=SLOW(SLOW(2))", &[])?;
    assert_eq!(rt; words.as_str(), "call 2 SLOW 2");
    let words = outcome(alloc, "=SLOW(SLOW(2))", &[(2, "7")])?;
    assert_eq!(rt; words.as_str(), "call 1 SLOW 7");
    let words = outcome(alloc, "=SLOW(SLOW(2))", &[(1, "9"), (2, "7")])?;
    assert_eq!(rt; words.as_str(), "9");
    let words = outcome(alloc, "=IF(SLOW(1)>0,DOUBLE(2),SLOW(3))", &[(1, "-1")])?;
    assert_eq!(rt; words.as_str(), "call 3 SLOW 3");
    let words = outcome(
        alloc,
        "=CHOOSE(3,SLOW(1),SLOW(2)+SLOW(3),SLOW(4))+SLOW(5)",
        &[(4, "1")],
    )?;
    assert_eq!(rt; words.as_str(), "call 5 SLOW 5");
    let words = outcome(alloc, "=DOUBLE(SLOW(1),2)&SLOW(3)", &[])?;
    assert_eq!(rt; words.as_str(), "call 3 SLOW 3");
    Ok(())
}

/// The outcome of a formula on the first sheet where these topics are known.
fn resumed(alloc: Global, text: &str, topics: &[(&str, &str, &str)]) -> Result<String, Fail> {
    let known = Known {
        inputs: &CELLS,
        topics,
        results: &[],
    };
    outcome_of(alloc, 1, text, known)
}

#[test]
fn a_resumed_job_ends_as_one_that_knows_all(rt: HostRuntime) -> Result<(), Fail> {
    let alloc = rt.alloc();
    let text = "=RTD(\"S\",\"\",\"a\")+RTD(\"S\",\"\",\"b\")+RTD(\"S\",\"\",\"a\")";
    let words = resumed(alloc, text, &[])?;
    assert_eq!(rt; words.as_str(), "topic S a");
    let words = resumed(alloc, text, &[("S", "a", "5")])?;
    assert_eq!(rt; words.as_str(), "topic S b");
    let words = resumed(alloc, text, &[("S", "a", "5"), ("S", "b", "6")])?;
    assert_eq!(rt; words.as_str(), "16");
    Ok(())
}

#[test]
fn cells_are_looked_up_on_the_sheet_of_the_formula(rt: HostRuntime) -> Result<(), Fail> {
    let alloc = rt.alloc();
    let known = Known {
        inputs: &CELLS,
        topics: &[],
        results: &[],
    };
    let words = outcome_of(alloc, 1, "=B1", known)?;
    assert_eq!(rt; words.as_str(), "5");
    let words = outcome_of(alloc, 2, "=B1", known)?;
    assert_eq!(rt; words.as_str(), "6");
    let words = outcome_of(alloc, 2, "=Sheet1!B1+SUM(A1:B2)", known)?;
    assert_eq!(rt; words.as_str(), "11");
    let known = Known {
        inputs: &[(1, 1, 2, "4")],
        ..known
    };
    let words = outcome_of(alloc, 1, "=B1+1", known)?;
    assert_eq!(rt; words.as_str(), "5");
    let words = outcome_of(alloc, 1, "=RTD(\"f\",\"\",\"a\")", known)?;
    assert_eq!(rt; words.as_str(), "topic f a");
    Ok(())
}

/// A job of a formula on the first sheet over these topics.
fn job_of(alloc: Global, text: &str, topics: &[(&str, &str, &str)]) -> Result<Job, Fail> {
    Ok(Job {
        round: 1,
        cell: Cell {
            sheet: 1,
            row: 9,
            col: 9,
        },
        tree: parse(alloc, text)?,
        inputs: inputs_of(alloc, &CELLS)?,
        topics: topics_of(alloc, topics)?,
        results: results_of(alloc, &[])?,
        functions: functions_of(alloc)?,
    })
}

/// The outcome of a job that is evaluated to its end with a value, and then the job's topics, in words.
fn closed_words(
    alloc: Global,
    text: &str,
    topics: &[(&str, &str, &str)],
    word: &str,
) -> Result<String, Fail> {
    let mut job = job_of(alloc, text, topics)?;
    let value = read_value(alloc, word)?;
    let outcome = eval_closed(alloc, &mut job, &SampleAddIns, &value)?;
    let mut out = Vec::new(alloc);
    out.extend_from_slice(outcome_words(alloc, &outcome)?.as_str().as_bytes())?;
    for (topic, value) in job.topics.as_slice() {
        out.extend_from_slice(b"; ")?;
        for string in topic.strings.as_slice() {
            out.extend_from_slice(string.as_str().as_bytes())?;
            out.extend_from_slice(b" ")?;
        }
        print_value(value, &mut out)?;
    }
    Ok(String::from_utf8(out)?)
}

/// A formula of two topics: the second stands in a branch of IF whose condition uses the first.
static TWO_TOPICS: &str =
    "=IF(RTD(\"S\",\"\",\"a\")>1,RTD(\"S\",\"\",\"b\")+RTD(\"S\",\"\",\"a\"),7)";

#[test]
fn a_formula_evaluated_to_its_end_has_a_value_for_each_topic(rt: HostRuntime) -> Result<(), Fail> {
    let alloc = rt.alloc();
    for (word, expected) in [
        ("#N/A", "#N/A; a #N/A"),
        ("1", "7; a 1"),
        ("3", "6; a 3; b 3"),
    ] {
        let words = closed_words(alloc, TWO_TOPICS, &[], word)?;
        assert_eq!(rt; words.as_str(), expected, "{word}");
    }
    let words = closed_words(alloc, TWO_TOPICS, &[("S", "a", "5")], "#N/A")?;
    assert_eq!(rt; words.as_str(), "#N/A; a 5; b #N/A");
    let words = closed_words(alloc, TWO_TOPICS, &[("S", "b", "4")], "2")?;
    assert_eq!(rt; words.as_str(), "6; b 4; a 2");
    let words = closed_words(alloc, TWO_TOPICS, &[("S", "a", "5"), ("S", "b", "6")], "0")?;
    assert_eq!(rt; words.as_str(), "11; a 5; b 6");
    let words = closed_words(
        alloc,
        "=IFERROR(RTD(\"S\",\"\",\"a\"),SLOW(1))",
        &[],
        "#N/A",
    )?;
    assert_eq!(rt; words.as_str(), "call 1 SLOW 1; a #N/A");
    let words = closed_words(alloc, "=B1+1", &[], "#N/A")?;
    assert_eq!(rt; words.as_str(), "6");
    Ok(())
}

/// The outcome of a formula whose job is given each topic that it asks for, at most three, with this value.
fn topic_by_topic(alloc: Global, text: &str, word: &str) -> Result<String, Fail> {
    let mut job = job_of(alloc, text, &[])?;
    for _ in 0..3 {
        if let Outcome::Topic(topic) = eval(alloc, &job, &SampleAddIns)? {
            job.topics.push(topic, read_value(alloc, word)?)?;
        }
    }
    outcome_words(alloc, &eval(alloc, &job, &SampleAddIns)?)
}

#[test]
fn a_job_resumed_topic_by_topic_has_the_value_of_one_that_knows_all(
    rt: HostRuntime,
) -> Result<(), Fail> {
    let alloc = rt.alloc();
    for (word, expected) in [("3", "6"), ("1", "7"), ("#N/A", "#N/A")] {
        let words = topic_by_topic(alloc, TWO_TOPICS, word)?;
        assert_eq!(rt; words.as_str(), expected, "{word}");
        let words = resumed(alloc, TWO_TOPICS, &[("S", "a", word), ("S", "b", word)])?;
        assert_eq!(rt; words.as_str(), expected, "{word}");
    }
    Ok(())
}

#[test]
fn entries_are_in_order_where_each_cell_is_greater(rt: HostRuntime) -> Result<(), Fail> {
    let (first, second) = (
        Cell {
            sheet: 1,
            row: 1,
            col: 2,
        },
        Cell {
            sheet: 1,
            row: 2,
            col: 1,
        },
    );
    let ascending = [(first, Value::Num(1)), (second, Value::Num(2))];
    assert!(rt; is_in_order(&ascending));
    let repeated = [(first, Value::Num(1)), (first, Value::Num(2))];
    assert!(rt; !is_in_order(&repeated));
    let descending = [(second, Value::Num(1)), (first, Value::Num(2))];
    assert!(rt; !is_in_order(&descending));
    Ok(())
}
