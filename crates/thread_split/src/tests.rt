//! Formulas and their sides.

use super::{Side, side};
use addin_types::{Kind, Registration};
use cell_values::Name;
use formula_parse::parse;
use std::alloc::Global;
use std::test::Fail;
use workbook::Book;

/// A book with a function of each kind.
fn book_of_functions(alloc: Global) -> Result<Book, Fail> {
    let later = Kind::Asynchronous { handle_place: 1 };
    let mut book = Book::new(alloc);
    for (name, kind, thread_safe) in [
        ("SAFE", Kind::Plain, true),
        ("BOUND", Kind::Plain, false),
        ("SLOW", later, true),
        ("LATE", later, false),
    ] {
        book.register(
            Name::new(alloc, name)?,
            Registration {
                kind,
                arguments: 1,
                thread_safe,
            },
        )?;
    }
    Ok(book)
}

#[test]
fn rtd_and_functions_that_are_not_thread_safe_stay_on_the_main_thread(
    rt: HostRuntime,
) -> Result<(), Fail> {
    let alloc = rt.alloc();
    let book = book_of_functions(alloc)?;
    for (text, wanted) in [
        ("=1+SUM(A1:A9)", Side::Any),
        ("=UNKNOWN(1)", Side::Any),
        ("=SAFE(1)&SLOW(2)", Side::Any),
        ("=RTD(\"feed\",\"\",\"px\")", Side::Main),
        ("=IF(FALSE,-(1+RTD(\"feed\",\"\",\"px\")),0)", Side::Main),
        ("=SAFE(BOUND(1))", Side::Main),
        ("=late(1)", Side::Main),
    ] {
        let tree = parse(alloc, text)?;
        assert!(rt; side(&tree, &book) == wanted, "{text}");
    }
    Ok(())
}
