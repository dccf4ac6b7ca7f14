ghost use Rattle.std.specs.Prelude.{◌≡◌, ◌<◌};

use super::*;
use std::marker::Brand;
use std::sync::ledger::{Blank, Ledger};
use std::test::Fail;

/// A reference without `$`.
fn plain(sheet: Option<u8>, row: u32, col: u16) -> RefText {
    RefText {
        sheet,
        row,
        col,
        row_fixed: false,
        col_fixed: false,
    }
}

#[test]
fn references_at_the_front(rt: HostRuntime) {
    let fixed = RefText {
        sheet: None,
        row: 2,
        col: 2,
        row_fixed: true,
        col_fixed: true,
    };
    let last = plain(None, 1_048_576, 16_384);
    let table: [(&[u8], RefText, usize); 9] = [
        (b"A1", plain(None, 1, 1), 2),
        (b"$B$2", fixed, 4),
        (b"Sheet2!A1", plain(Some(2), 1, 1), 9),
        (b"XFD1048576", last, 10),
        (b"sheet64!xfd1", plain(Some(64), 1, 16_384), 12),
        (b"SHEET1!z9", plain(Some(1), 9, 26), 9),
        (b"aa10+1", plain(None, 10, 27), 4),
        (b"A1(", plain(None, 1, 1), 2),
        (b"A1:B2", plain(None, 1, 1), 2),
    ];
    for (text, reference, length) in table {
        assert_eq!(rt; read_ref(text), Some((reference, length)));
    }
}

#[test]
fn no_reference_at_the_front(rt: HostRuntime) {
    let table: [&[u8]; 16] = [
        b"",
        b"XFE1",
        b"A1048577",
        b"A01",
        b"A0",
        b"AAAA1",
        b"Sheet65!A1",
        b"Sheet0!A1",
        b"Sheet01!A1",
        b"Sheet1A1",
        b"Sheet!A1",
        b"A",
        b"12",
        b" A1",
        b"$$A1",
        b"A99999999999999999999999999999",
    ];
    for text in table {
        assert_eq!(rt; read_ref(text), None);
    }
}

#[test]
fn written_texts(rt: HostRuntime) -> Result<(), Fail> {
    let fixed = RefText {
        sheet: None,
        row: 2,
        col: 2,
        row_fixed: true,
        col_fixed: true,
    };
    let mut out = Vec::new(rt.alloc());
    assert_eq!(rt; write_ref(&fixed, &mut out), Ok(()));
    assert_eq!(rt; out.as_slice(), b"$B$2".as_slice());
    let table: [(u8, u32, u16, &[u8]); 6] = [
        (2, 1, 1, b"Sheet2!A1"),
        (1, 1, 1, b"A1"),
        (1, 10, 26, b"Z10"),
        (1, 1, 27, b"AA1"),
        (1, 7, 703, b"AAA7"),
        (64, 1_048_576, 16_384, b"Sheet64!XFD1048576"),
    ];
    for (sheet, row, col, text) in table {
        out.clear();
        assert_eq!(rt; write_cell(Cell { sheet, row, col }, &mut out), Ok(()));
        assert_eq!(rt; out.as_slice(), text);
    }
    Ok(())
}

#[test]
fn written_handles(rt: HostRuntime) -> Result<(), Fail> {
    let last = 18_446_744_073_709_551_615;
    let mut out = Vec::new(rt.alloc());
    let table: [(u64, u64, (u8, u32, u16), u16, &[u8]); 5] = [
        (2, 1, (1, 1, 1), 1, b"2/1:A1#1"),
        (1, 1, (1, 2, 4), 1, b"1:D2#1"),
        (1, 1, (2, 1, 1), 65_535, b"1:Sheet2!A1#65535"),
        (0, 12, (64, 7, 27), 0, b"0/12:Sheet64!AA7#0"),
        (
            last,
            last,
            (1, 1, 1),
            1,
            b"18446744073709551615/18446744073709551615:A1#1",
        ),
    ];
    for (session, round, (sheet, row, col), site, text) in table {
        let handle = Handle {
            session,
            round,
            cell: Cell { sheet, row, col },
            site,
        };
        out.clear();
        assert_eq!(rt; write_handle(&handle, &mut out), Ok(()));
        assert_eq!(rt; out.as_slice(), text);
    }
    Ok(())
}

/// A handle of site 1.
fn handle(session: u64, round: u64, sheet: u8, row: u32, col: u16) -> Handle {
    Handle {
        session,
        round,
        cell: Cell { sheet, row, col },
        site: 1,
    }
}

#[test]
fn texts_of_handles(rt: HostRuntime) {
    let last = 18_446_744_073_709_551_615;
    let table: [(&[u8], Handle); 5] = [
        (b"1:A1#1", handle(1, 1, 1, 1, 1)),
        (b"2/1:A1#1", handle(2, 1, 1, 1, 1)),
        (b"0:AB10#1", handle(1, 0, 1, 10, 28)),
        (
            b"18446744073709551615/10:Sheet2!A1#1",
            handle(last, 10, 2, 1, 1),
        ),
        (
            b"18446744073709551615:Sheet64!XFD1048576#1",
            handle(1, last, 64, 1_048_576, 16_384),
        ),
    ];
    for (text, wanted) in table {
        assert_eq!(rt; read_handle(text), Some(wanted));
    }
    let last_site = Handle {
        site: 65_535,
        ..handle(3, 0, 1, 1, 1)
    };
    assert_eq!(rt; read_handle(b"3/0:A1#65535"), Some(last_site));
}

#[test]
fn texts_of_no_handle(rt: HostRuntime) {
    let table: [&[u8]; 24] = [
        b"",
        b"1:A1",
        b"1:A1#",
        b"1:A1#1 ",
        b" 1:A1#1",
        b"1:A1#01",
        b"01:A1#1",
        b"02/1:A1#1",
        b"1/1:A1#1",
        b"0/1:A1#1",
        b"/1:A1#1",
        b"2/:A1#1",
        b"2//1:A1#1",
        b"2/1/1:A1#1",
        b"1:A1#65536",
        b"18446744073709551616:A1#1",
        b"18446744073709551616/1:A1#1",
        b"1:a1#1",
        b"1:$A$1#1",
        b"1:Sheet1!A1#1",
        b"1:sheet2!A1#1",
        b"1:XFE1#1",
        b"1:A1#-1",
        b"1:A1:B2#1",
    ];
    for text in table {
        assert_eq!(rt; read_handle(text), None);
    }
}

#[test]
fn an_area_by_rows(rt: HostRuntime) {
    let area = Area::of(&plain(Some(3), 2, 4), &plain(None, 1, 3), 1);
    assert_eq!(rt; area.size(), 4);
    let table = [
        (3, 1, 3, true),
        (3, 2, 4, true),
        (3, 3, 3, false),
        (3, 2, 5, false),
        (1, 1, 3, false),
    ];
    for (sheet, row, col, inside) in table {
        assert_eq!(rt; area.contains(Cell { sheet, row, col }), inside);
    }
    let mut cells = area.cells();
    for (row, col) in [(1, 3), (1, 4), (2, 3), (2, 4)] {
        assert_eq!(rt; cells.next(), Some(Cell { sheet: 3, row, col }));
    }
    assert_eq!(rt; cells.next(), None);
}

/// Two steps on a counter of its own.
fn two_steps<L: Ledger>(blank: Blank)
    requires name { blank.name ≡ L.name }
    requires parts { blank.parts ≡ L.parts }
    requires some { 0 < blank.parts }
{
    let mut steps = Steps::<L>::new(blank);
    steps.tick();
    steps.tick();
}

#[test]
fn a_counter_of_its_own() {
    two_steps::<Brand>(Blank::new(1));
}
