use addin_types::{Kind, Registration};
use cell_refs::{Cell, Handle};
use cell_values::{ErrorKind, Name, Text, Value};
use formula_parse::{parse, print};
use std::alloc::Global;
use std::test::Fail;
use workbook::{
    BeginKind, Book, CELL_LIMIT, Command, Content, FORMULA_LIMIT, Form, Moment, SetFault,
    SheetCells,
};

fn cell(sheet: u8, row: u32, col: u16) -> Cell {
    Cell { sheet, row, col }
}

/// The number of a constant.
fn number_of(content: Option<&Content>) -> Option<i64> {
    match content {
        Some(Content::Num(number)) => Some(*number),
        _ => None,
    }
}

/// Whether a content is the formula of this text.
fn is_formula(alloc: Global, content: Option<&Content>, text: &str) -> bool {
    match content {
        Some(Content::Formula(tree)) => {
            let mut out = Vec::new(alloc);
            print(tree, &mut out).is_ok() && out.as_slice() == text.as_bytes()
        }
        _ => false,
    }
}

/// The text of a constant.
fn text_of(content: Option<&Content>) -> Option<&str> {
    match content {
        Some(Content::Text(text)) => Some(text.as_str()),
        _ => None,
    }
}

#[test]
fn a_cell_has_the_content_that_was_set_last(rt: HostRuntime) -> Result<(), Fail> {
    let (first, second) = (cell(1, 1, 1), cell(1, 2, 1));
    let mut book = Book::new(rt.alloc());
    assert!(rt; book.get(first).is_none());
    assert!(rt; book.set(first, Content::Num(1)).is_ok());
    assert!(rt; book.set(second, Content::Num(2)).is_ok());
    assert_eq!(rt; number_of(book.get(first)), Some(1));
    let formula = parse(rt.alloc(), "=A2+3")?;
    assert!(rt; book.set(first, Content::Formula(formula)).is_ok());
    assert!(rt; is_formula(rt.alloc(), book.get(first), "=A2+3"));
    assert!(rt; book.set(first, Content::Num(-999_999_999_999_999)).is_ok());
    assert_eq!(rt; number_of(book.get(first)), Some(-999_999_999_999_999));
    assert_eq!(rt; number_of(book.get(second)), Some(2));
    assert!(rt; book.get(cell(2, 1, 1)).is_none());
    Ok(())
}

#[test]
fn a_replaced_content_counts_no_more(rt: HostRuntime) -> Result<(), Fail> {
    let table = [
        (1, None, 1, 0),
        (2, Some("=A1"), 2, 1),
        (1, Some("=A2"), 2, 2),
        (1, Some("=A2+1"), 2, 2),
        (2, None, 2, 1),
        (3, Some("=A1"), 3, 2),
    ];
    let mut book = Book::new(rt.alloc());
    assert_eq!(rt; (book.cells(), book.formulas()), (0, 0));
    for (row, formula, cells, formulas) in table {
        let content = match formula {
            Some(text) => Content::Formula(parse(rt.alloc(), text)?),
            None => Content::Num(5),
        };
        assert!(rt; book.set(cell(1, row, 1), content).is_ok());
        assert_eq!(rt;
            (book.cells(), book.formulas()),
            (cells, formulas),
            "at row {row}"
        );
    }
    Ok(())
}

#[test]
fn a_content_is_of_one_of_five_kinds(rt: HostRuntime) -> Result<(), Fail> {
    let at = cell(1, 1, 1);
    let mut book = Book::new(rt.alloc());
    let text = Text::new(rt.alloc(), "'=A1")?;
    assert!(rt; book.set(at, Content::Text(text)).is_ok());
    assert_eq!(rt; text_of(book.get(at)), Some("'=A1"));
    assert!(rt; book.set(at, Content::Bool(true)).is_ok());
    assert!(rt; matches!(book.get(at), Some(Content::Bool(true))));
    assert!(rt; book.set(at, Content::Error(ErrorKind::Na)).is_ok());
    assert!(rt; matches!(book.get(at), Some(Content::Error(ErrorKind::Na))));
    assert_eq!(rt; (book.cells(), book.formulas()), (1, 0));
    Ok(())
}

#[test]
fn a_cleared_cell_has_no_content(rt: HostRuntime) -> Result<(), Fail> {
    let (first, second) = (cell(1, 1, 1), cell(1, 2, 1));
    let mut book = Book::new(rt.alloc());
    assert!(rt; book.clear(first).is_none());
    assert!(rt;
        book.set(first, Content::Formula(parse(rt.alloc(), "=A2+3")?))
            .is_ok()
    );
    assert!(rt; book.set(second, Content::Num(2)).is_ok());
    assert!(rt; is_formula(rt.alloc(), book.clear(first).as_ref(), "=A2+3"));
    assert!(rt; book.get(first).is_none());
    assert_eq!(rt; (book.cells(), book.formulas()), (1, 0));
    assert!(rt; book.clear(first).is_none());
    assert_eq!(rt; number_of(book.clear(second).as_ref()), Some(2));
    assert_eq!(rt; book.next_cell(None), None);
    Ok(())
}

#[test]
fn a_refusal_gives_the_content_back(rt: HostRuntime) -> Result<(), Fail> {
    let mut book = Book::new(rt.alloc());
    for row in 1..=100_000 {
        let formula = parse(rt.alloc(), "=1")?;
        assert!(rt; book.set(cell(1, row, 1), Content::Formula(formula)).is_ok());
    }
    let added = Content::Formula(parse(rt.alloc(), "=A1+A2+A3")?);
    match book.set(cell(1, 1, 2), added) {
        Err(SetFault::FormulaLimit(back)) => {
            assert!(rt; is_formula(rt.alloc(), Some(&back), "=A1+A2+A3"))
        }
        _ => panic!(rt; "one formula too many was taken"),
    }
    let replaced = Content::Formula(parse(rt.alloc(), "=A2")?);
    assert!(rt; book.set(cell(1, 1, 1), replaced).is_ok());
    for row in 100_001..=500_000 {
        assert!(rt; book.set(cell(1, row, 1), Content::Num(1)).is_ok());
    }
    match book.set(cell(1, 1, 2), Content::Num(7)) {
        Err(SetFault::CellLimit(back)) => assert_eq!(rt; number_of(Some(&back)), Some(7)),
        _ => panic!(rt; "one cell too many was taken"),
    }
    assert!(rt; book.get(cell(1, 1, 2)).is_none());
    assert_eq!(rt;
        (book.cells(), book.formulas()),
        (CELL_LIMIT, FORMULA_LIMIT)
    );
    Ok(())
}

#[test]
fn functions_go_by_the_bytes_of_their_names(rt: HostRuntime) -> Result<(), Fail> {
    let plain = Registration {
        kind: Kind::Plain,
        arguments: 1,
        thread_safe: true,
    };
    let later = Registration {
        kind: Kind::Asynchronous { handle_place: 0 },
        ..plain
    };
    let mut book = Book::new(rt.alloc());
    assert_eq!(rt; book.registration("DOUBLE"), None);
    for name in ["ECHO", "DOUBLE", "ECHO.2", "ECHO"] {
        book.register(Name::new(rt.alloc(), name)?, plain)?;
    }
    book.register(Name::new(rt.alloc(), "DOUBLE")?, later)?;
    assert_eq!(rt; book.registration("DOUBLE"), Some(&later));
    assert_eq!(rt; book.registration("ECHO"), Some(&plain));
    assert_eq!(rt; book.registration("double"), None);
    let mut last = None;
    for name in ["DOUBLE", "ECHO", "ECHO.2"] {
        let next = book.next_name(last).map(|next| next.as_str());
        assert_eq!(rt; next, Some(name));
        last = Some(name);
    }
    assert_eq!(rt; book.next_name(last), None);
    assert_eq!(rt;
        book.next_name(Some("A")).map(|next| next.as_str()),
        Some("DOUBLE")
    );
    Ok(())
}

#[test]
fn cells_go_by_sheet_then_row_then_column(rt: HostRuntime) {
    let mut book = Book::new(rt.alloc());
    assert_eq!(rt; book.next_cell(None), None);
    for (sheet, row, col) in [(2, 1, 1), (1, 2, 1), (1, 1, 2), (1, 10, 1), (1, 1, 1)] {
        assert!(rt; book.set(cell(sheet, row, col), Content::Num(0)).is_ok());
    }
    let mut last = None;
    for (sheet, row, col) in [(1, 1, 1), (1, 1, 2), (1, 2, 1), (1, 10, 1), (2, 1, 1)] {
        let next = book.next_cell(last);
        assert_eq!(rt; next, Some(cell(sheet, row, col)));
        last = next;
    }
    assert_eq!(rt; book.next_cell(last), None);
    assert_eq!(rt; book.next_cell(Some(cell(1, 2, 2))), Some(cell(1, 10, 1)));
    for (from, cells) in [
        (cell(1, 2, 1), [Some(cell(1, 2, 1)), Some(cell(1, 10, 1))]),
        (cell(1, 2, 2), [Some(cell(1, 10, 1)), Some(cell(2, 1, 1))]),
        (cell(1, 10, 2), [Some(cell(2, 1, 1)), None]),
        (cell(2, 1, 2), [None, None]),
    ] {
        let mut contents = book.contents_from(from);
        for cell in cells {
            assert_eq!(rt; contents.next().map(|(cell, _)| *cell), cell);
        }
    }
}

#[test]
fn a_sheet_lists_its_cells_as_given(rt: HostRuntime) -> Result<(), Fail> {
    let cells = vec![in rt.alloc(); (cell(1, 1, 1), Some(Value::Num(2))), (cell(1, 2, 1), None)]?;
    let sheet = SheetCells::from_vec(cells);
    let listed = [(cell(1, 1, 1), Some(Value::Num(2))), (cell(1, 2, 1), None)];
    assert_eq!(rt; sheet.as_slice(), listed.as_slice());
    Ok(())
}

/// Whether a command is the set of this cell to this text.
fn is_set(command: &Command, at: Cell, text: &str) -> bool {
    match command {
        Command::Set { cell, content } => *cell == at && text_of(Some(content)) == Some(text),
        _ => false,
    }
}

#[test]
fn a_copy_is_the_same_command(rt: HostRuntime) -> Result<(), Fail> {
    let at = cell(2, 3, 4);
    let content = Content::Text(Text::new(rt.alloc(), "hi")?);
    let copy = Command::Set { cell: at, content }.copy()?;
    assert!(rt; is_set(&copy, at, "hi"));
    let handle = Handle {
        session: 1,
        round: 2,
        cell: at,
        site: 3,
    };
    let value = Value::Num(7);
    match (Command::Return { handle, value }.copy()?) {
        Command::Return {
            handle: same,
            value,
        } => {
            assert_eq!(rt; same, handle);
            assert_eq!(rt; value, Value::Num(7));
        }
        _ => panic!(rt; "another command"),
    }
    let name = Name::new(rt.alloc(), "px")?;
    match Command::Notify(name).copy()? {
        Command::Notify(name) => assert_eq!(rt; name.as_str(), "px"),
        _ => panic!(rt; "another command"),
    }
    assert!(rt; matches!(Command::Settle.copy()?, Command::Settle));
    assert!(rt; matches!(Command::Throttle(-1).copy()?, Command::Throttle(-1)));
    assert!(rt;
        matches!(
            Command::Pull(Moment::At(500)).copy()?,
            Command::Pull(Moment::At(500))
        )
    );
    assert!(rt;
        matches!(
            Command::Begin(BeginKind::All).copy()?,
            Command::Begin(BeginKind::All)
        )
    );
    assert!(rt; matches!(Command::Print(Form::Csv).copy()?, Command::Print(Form::Csv)));
    Ok(())
}
