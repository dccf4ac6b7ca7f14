use super::*;
use std::alloc::Global;
use std::test::Fail;
use std::thread;

/// The value word of a value.
fn word_of(alloc: Global, value: &Value) -> Result<String, Fail> {
    let mut out = Vec::new(alloc);
    print_value(value, &mut out)?;
    Ok(String::from_utf8(out)?)
}

/// What an operator, a comparison or `&` makes of two values.
fn applied(alloc: Global, op: &str, a: &Value, b: &Value) -> Result<Value, Memory> {
    match op {
        "+" => Ok(add(a, b)),
        "-" => Ok(sub(a, b)),
        "*" => Ok(mul(a, b)),
        "/" => Ok(div(a, b)),
        "=" => Ok(compare(CompareOp::Eq, a, b)),
        "<>" => Ok(compare(CompareOp::Ne, a, b)),
        "<" => Ok(compare(CompareOp::Lt, a, b)),
        ">" => Ok(compare(CompareOp::Gt, a, b)),
        "<=" => Ok(compare(CompareOp::Le, a, b)),
        ">=" => Ok(compare(CompareOp::Ge, a, b)),
        _ => join(alloc, a, b),
    }
}

#[test]
fn operators_answer_their_table(rt: HostRuntime) -> Result<(), Fail> {
    for (a, op, b, answer) in [
        ("999999999999999", "+", "1", "#NUM!"),
        ("999999999999999", "-", "999999999999999", "0"),
        ("-999999999999999", "-", "1", "#NUM!"),
        ("999999999999999", "*", "999999999999999", "#NUM!"),
        ("-3", "*", "5", "-15"),
        ("6", "/", "2", "3"),
        ("-6", "/", "2", "-3"),
        ("7", "/", "2", "#NUM!"),
        ("-7", "/", "2", "#NUM!"),
        ("1", "/", "0", "#DIV/0!"),
        ("\" 5 \"", "+", "\"+1\"", "6"),
        ("TRUE", "+", "\"-007\"", "-6"),
        ("\"1 2\"", "+", "1", "#VALUE!"),
        ("#N/A", "+", "#REF!", "#N/A"),
        ("1", "+", "#REF!", "#REF!"),
        ("1", "<", "\"\"", "TRUE"),
        ("\"z\"", "<", "FALSE", "TRUE"),
        ("FALSE", "<", "TRUE", "TRUE"),
        ("\"Ab\"", "=", "\"aB\"", "TRUE"),
        ("\"É\"", "=", "\"é\"", "FALSE"),
        ("\"a\"", "<>", "\"b\"", "TRUE"),
        ("2", ">=", "2", "TRUE"),
        ("2", "<=", "1", "FALSE"),
        ("\"b\"", ">", "\"A\"", "TRUE"),
        ("#NULL!", "=", "#NAME?", "#NULL!"),
        ("1", "&", "\"a\"", "\"1a\""),
        ("TRUE", "&", "-2", "\"TRUE-2\""),
        ("1", "&", "#NUM!", "#NUM!"),
    ] {
        let left = read_value(rt.alloc(), a)?;
        let right = read_value(rt.alloc(), b)?;
        let value = applied(rt.alloc(), op, &left, &right)?;
        let word = word_of(rt.alloc(), &value)?;
        assert_eq!(rt; word.as_str(), answer, "{a} {op} {b}");
    }
    Ok(())
}

#[test]
fn a_blank_counts_by_what_stands_beside_it(rt: HostRuntime) -> Result<(), Fail> {
    let blank = Value::Blank;
    for (op, other, answer) in [
        ("=", "0", "TRUE"),
        ("=", "\"\"", "TRUE"),
        ("=", "FALSE", "TRUE"),
        ("<", "TRUE", "TRUE"),
        (">", "-1", "TRUE"),
        ("+", "5", "5"),
        ("&", "5", "\"5\""),
        ("=", "#N/A", "#N/A"),
    ] {
        let other = read_value(rt.alloc(), other)?;
        let value = applied(rt.alloc(), op, &blank, &other)?;
        let word = word_of(rt.alloc(), &value)?;
        assert_eq!(rt; word.as_str(), answer, "beside {other:?}");
    }
    assert_eq!(rt; compare(CompareOp::Eq, &blank, &blank), Value::Bool(true));
    assert_eq!(rt; word_of(rt.alloc(), &blank)?.as_str(), "0");
    Ok(())
}

#[test]
fn a_value_word_is_read_and_nothing_else(rt: HostRuntime) -> Result<(), Fail> {
    for word in [
        "0",
        "-1",
        "999999999999999",
        "TRUE",
        "FALSE",
        "\"\"",
        "\"a\"\"b\"",
        "#NULL!",
        "#DIV/0!",
        "#VALUE!",
        "#REF!",
        "#NAME?",
        "#NUM!",
        "#N/A",
    ] {
        let value = read_value(rt.alloc(), word)?;
        let again = word_of(rt.alloc(), &value.copy()?)?;
        assert_eq!(rt; again.as_str(), word);
    }
    for text in [
        "",
        "007",
        "-0",
        "+5",
        " 5",
        "-",
        "1000000000000000",
        "true",
        "#n/a",
        "\"a",
        "\"a\"b\"",
        "a\"",
        "\"\t\"",
    ] {
        assert_eq!(rt;
            read_value(rt.alloc(), text).err(),
            Some(ValueFault::Form),
            "{text}"
        );
    }
    Ok(())
}

#[test]
fn digits_are_read_with_leading_zeros_and_a_minus(rt: HostRuntime) -> Result<(), Fail> {
    for (bytes, number) in [
        ("0", Some(0)),
        ("-0", Some(0)),
        ("007", Some(7)),
        ("-0012", Some(-12)),
        ("999999999999999", Some(999_999_999_999_999)),
        ("1000000000000000", None),
        ("-1000000000000000", None),
    ] {
        assert!(rt; has_number_form(bytes.as_bytes()), "{bytes}");
        assert_eq!(rt; read_digits(bytes.as_bytes()), number, "{bytes}");
    }
    for bytes in ["", "-", "+5", "--5", " 5", "5 ", "1.5", "x"] {
        assert!(rt; !has_number_form(bytes.as_bytes()), "{bytes}");
        assert_eq!(rt; read_digits(bytes.as_bytes()), None, "{bytes}");
    }
    Ok(())
}

#[test]
fn values_count_as_booleans_and_texts(rt: HostRuntime) -> Result<(), Fail> {
    for (word, truth, text) in [
        ("-2", Ok(true), "-2"),
        ("0", Ok(false), "0"),
        ("\"tRuE\"", Ok(true), "tRuE"),
        ("\"false\"", Ok(false), "false"),
        ("\" true\"", Err(ErrorKind::Value), " true"),
        ("TRUE", Ok(true), "TRUE"),
    ] {
        let value = read_value(rt.alloc(), word)?;
        assert_eq!(rt; to_bool(&value), truth, "{word}");
        let shown = to_text(rt.alloc(), &value)?.ok().ok_or("an error")?;
        assert_eq!(rt; shown.as_str(), text, "{word}");
    }
    assert_eq!(rt;
        to_text(rt.alloc(), &Value::Error(ErrorKind::Na))?.err(),
        Some(ErrorKind::Na)
    );
    assert_eq!(rt; negate(&Value::Bool(true)), Value::Num(-1));
    assert_eq!(rt; ErrorKind::Na.code(), 42);
    assert_eq!(rt; Value::Blank.or_zero(), Value::Num(0));
    assert_eq!(rt; Value::Bool(true).or_zero(), Value::Bool(true));
    Ok(())
}

#[test]
fn a_text_has_at_most_32767_characters(rt: HostRuntime) -> Result<(), Fail> {
    let mut most = String::new(rt.alloc());
    for _ in 0..32_766 {
        most.push('é')?;
    }
    most.push('a')?;
    let text = Text::new(rt.alloc(), most.as_str())?;
    assert_eq!(rt; text.copy()?, text);
    let joined = join(rt.alloc(), &Value::Text(text), &Value::Num(1))?;
    assert_eq!(rt; joined, Value::Error(ErrorKind::Value));
    most.push('\n')?;
    assert_eq!(rt;
        Text::new(rt.alloc(), most.as_str()).err(),
        Some(TextFault::TooLong)
    );
    for (s, place) in [("a\nb", 1), ("é\u{7f}", 2), ("\u{1f}", 0)] {
        assert_eq!(rt;
            Text::new(rt.alloc(), s).err(),
            Some(TextFault::Control(place))
        );
    }
    Ok(())
}

#[test]
fn a_name_begins_with_a_letter(rt: HostRuntime) -> Result<(), Fail> {
    let name = Name::new(rt.alloc(), "px.A_1")?;
    assert_eq!(rt; name.copy()?.as_str(), "px.A_1");
    let mut long = String::new(rt.alloc());
    for _ in 0..255 {
        long.push('x')?;
    }
    assert!(rt; Name::new(rt.alloc(), long.as_str()).is_ok());
    long.push('x')?;
    for s in ["", "1x", "_x", "a-b", "é", long.as_str()] {
        assert_eq!(rt; Name::new(rt.alloc(), s).err(), Some(NameFault::Form));
    }
    Ok(())
}

#[test]
fn topics_and_values_cross_threads(rt: HostRuntime) -> Result<(), Fail> {
    let mut strings = Vec::new(rt.alloc());
    strings.push(Text::new(rt.alloc(), "a")?)?;
    let server = Name::new(rt.alloc(), "px")?;
    let topic = Topic {
        server,
        strings: Texts::new(strings)?,
    };
    let value = Value::Num(2);
    let shared = (&topic, &value);
    let (copies, opposite) = thread::join(&rt, || shared.0.copy(), || negate(shared.1));
    assert_eq!(rt; copies?, topic);
    assert_eq!(rt; opposite, Value::Num(-2));
    let child = thread::spawn(
        &rt,
        move || topic.strings.as_slice().len() == 1 && value == Value::Num(2),
    )?;
    assert!(rt; child.join(&rt));
    Ok(())
}
