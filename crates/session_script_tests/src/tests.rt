use cell_values::Memory;
use session_script::{BadLine, MAX_LINE, Parsed, bad_word, read_line, write_line};
use std::alloc::Global;
use std::test::Fail;
use workbook::BeginKind;

/// Lines that are read, and behind ` => ` the canonical line of the command that each says.
const COMMANDS: &str = r#" => nothing
set A1 7 => set A1 7
set A1 -7 => set A1 -7
set A1 007 => set A1 7
set A1 -007 => set A1 -7
set A1 0 => set A1 0
set A1 -0 => set A1 0
set A1 000 => set A1 0
set A1 999999999999999 => set A1 999999999999999
set A1 -999999999999999 => set A1 -999999999999999
set A1 00999999999999999 => set A1 999999999999999
set A1 +7 => set A1 '+7
set A1 1.5 => set A1 '1.5
set A1 - => set A1 '-
set A1 --1 => set A1 '--1
set A1 1- => set A1 '1-
set A1 1 2 => set A1 '1 2
set A1  7 => set A1 ' 7
set A1 ' => set A1 '
set A1 '7 => set A1 '7
set A1 '=B1 => set A1 '=B1
set A1 '' => set A1 ''
set A1 'TRUE => set A1 'TRUE
set A1 TRUE => set A1 TRUE
set A1 tRuE => set A1 TRUE
set A1 false => set A1 FALSE
set A1 truer => set A1 'truer
set A1 #NULL! => set A1 #NULL!
set A1 #DIV/0! => set A1 #DIV/0!
set A1 #VALUE! => set A1 #VALUE!
set A1 #REF! => set A1 #REF!
set A1 #NAME? => set A1 #NAME?
set A1 #NUM! => set A1 #NUM!
set A1 #N/A => set A1 #N/A
set A1 #n/a => set A1 '#n/a
set A1 #N/A! => set A1 '#N/A!
set A1 #CIRC! => set A1 '#CIRC!
set A1 "x" => set A1 '"x"
set A1 hello world => set A1 'hello world
set $B$2 x => set B2 'x
set b$2 x => set B2 'x
set xfd1048576 x => set XFD1048576 'x
set Sheet1!A1 x => set A1 'x
set sHEET2!$c$3 x => set Sheet2!C3 'x
set Sheet64!A1 x => set Sheet64!A1 'x
set A1 =1 => set A1 =1
set A1 = a1 + 01 => set A1 =A1+1
set A1 =sum( a1:b2 ) => set A1 =SUM(A1:B2)
set A1 ="a b"&"c""d" => set A1 ="a b"&"c""d"
set A1 =foo.bar(1) => set A1 =FOO.BAR(1)
set A1 =+-(1)  => set A1 =-(1)
set A1 =if(true,sheet3!$a$1,#n/a) => set A1 =IF(TRUE,Sheet3!$A$1,#N/A)
clear A1 => clear A1
clear $a$1 => clear A1
clear Sheet2!B7 => clear Sheet2!B7
register SLOW >QX$ => register SLOW >QX$
register slow >XQ => register SLOW >XQ
register f.x_1 Q => register F.X_1 Q
register F QQQ$ => register F QQQ$
register F >X => register F >X
server feed => server feed
server Feed.2_x => server Feed.2_x
publish feed "px" 10 => publish feed "px" 10
publish f "a","b" TRUE => publish f "a","b" TRUE
publish f "a,b","c d" "e f" => publish f "a,b","c d" "e f"
publish f "a""b","" #N/A => publish f "a""b","" #N/A
publish f """",""", """ -5 => publish f """",""", """ -5
publish f "" "" => publish f "" ""
publish f "1","2","3","4","5","6","7","8","9","10","11","12","13","14","15","16" 0 => publish f "1","2","3","4","5","6","7","8","9","10","11","12","13","14","15","16" 0
notify feed => notify feed
throttle 0 => throttle 0
throttle -1 => throttle -1
throttle 2147483647 => throttle 2147483647
pull 0 => pull 0
pull 999999999999999 => pull 999999999999999
pull force => pull force
begin => begin
begin all => begin all
begin rebuild => begin rebuild
settle => settle
cancel => cancel
calc => calc
calc all => calc all
calc rebuild => calc rebuild
return 1:A1#1 5 => return 1:A1#1 5
return 2/1:A1#1 7 => return 2/1:A1#1 7
return 1:Sheet2!B3#2 "x y" => return 1:Sheet2!B3#2 "x y"
return 0:A1#0 #REF! => return 0:A1#0 #REF!
return 18446744073709551615/18446744073709551615:XFD1048576#65535 FALSE => return 18446744073709551615/18446744073709551615:XFD1048576#65535 FALSE
print => print
print csv => print csv
listen app => listen app
events app => events app"#;

/// `calc` of a kind.
fn calc_text(kind: BeginKind) -> &'static str {
    match kind {
        BeginKind::Dirty => "calc",
        BeginKind::All => "calc all",
        BeginKind::Rebuild => "calc rebuild",
    }
}

/// The canonical line of what a line says, or why it is bad.
fn told(alloc: Global, line: &[u8]) -> Result<Vec<u8>, Memory> {
    let mut out = Vec::new(alloc);
    match read_line(alloc, line) {
        Ok(Parsed::Empty) => out.extend_from_slice(b"nothing")?,
        Ok(Parsed::One(command)) => write_line(&command, &mut out)?,
        Ok(Parsed::Calc(kind)) => out.extend_from_slice(calc_text(kind).as_bytes())?,
        Err(BadLine::Memory) => return Err(Memory),
        Err(bad) => {
            out.extend_from_slice(b"bad ")?;
            bad_word(&bad, &mut out)?;
        }
    }
    Ok(out)
}

/// Whether what is told of the line of a row is what stands behind its ` => `.
fn holds(alloc: Global, row: &str) -> Result<bool, Memory> {
    let (line, want) = row.split_once(" => ").unwrap_or((row, ""));
    Ok(told(alloc, line.as_bytes())?.as_slice() == want.as_bytes())
}

/// The first row of a table that doesn't hold, if there is one.
pub fn first_wrong<'a>(alloc: Global, table: &'a str) -> Result<Option<&'a str>, Memory> {
    for row in table.split('\n') {
        if !holds(alloc, row)? {
            return Ok(Some(row));
        }
    }
    Ok(None)
}

#[test]
fn lines_say_what_they_are_written_as(rt: HostRuntime) -> Result<(), Fail> {
    assert_eq!(rt; COMMANDS.split('\n').count(), 93);
    assert_eq!(rt; first_wrong(rt.alloc(), COMMANDS)?, None);
    Ok(())
}

#[test]
fn bytes_say_what_they_are_written_as(rt: HostRuntime) -> Result<(), Fail> {
    let table: [(&[u8], &[u8]); 16] = [
        (b"set A1 7 ", b"set A1 '7 "),
        (b"set A1 TRUE ", b"set A1 'TRUE "),
        (b"set A1  ", b"set A1 ' "),
        (b"set A1 \xc2\x85", b"set A1 '\xc2\x85"),
        (b"set A1\xc2\xa0 1", b"bad ref"),
        (b"\xff", b"bad utf8"),
        (b"jump \xc3", b"bad utf8"),
        (b"set \xe9 1", b"bad utf8"),
        (b"set A1 \xed\xa0\x80", b"bad utf8"),
        (b"set A1 \xf4\x90\x80\x80", b"bad utf8"),
        (b"set A1 \xc0\xaf\x01", b"bad utf8"),
        (b"set A1 \t", b"bad control"),
        (b"set\tA1 1", b"bad control"),
        (b"publish f \"a\tb\" 1", b"bad control"),
        (b"jump\x7f", b"bad control"),
        (b"set A1 1\r", b"bad control"),
    ];
    for (line, want) in table {
        assert!(rt; told(rt.alloc(), line)?.as_slice() == want, "at {line:?}");
    }
    Ok(())
}

#[test]
fn each_byte_behind_a_letter(rt: HostRuntime) -> Result<(), Fail> {
    for byte in 0..=255_u8 {
        let want: &[u8] = if byte > 127 {
            b"bad utf8"
        } else if byte < 32 || byte == 127 {
            b"bad control"
        } else {
            b"bad word"
        };
        assert!(rt;
            told(rt.alloc(), &[b'a', byte])?.as_slice() == want,
            "at {byte}"
        );
    }
    Ok(())
}

/// Lines at a limit and one past it. A row has what a line begins with, a part, how often that stands behind it, what it
/// ends with, and behind ` => ` the first sixteen bytes of what is told of it.
const LIMITS: &str = r#"jump| |159996| => bad word
jump| |159997| => bad long
é|é|79999| => bad word
é|é|79999|x => bad long
set A1 |0|159993| => set A1 0
set A1 |0|159994| => bad long
set A1 |x|32767| => set A1 'xxxxxxxx
set A1 |x|32768| => bad value
set A1 '|😀|32767| => set A1 '😀😀
set A1 '|😀|32768| => bad value
set A1 =| |8190|1 => set A1 =1
set A1 =| |8191|1 => bad formula long
set A1 ="abc|😀|8186|" => set A1 ="abc😀
set A1 ="abc|😀|8187|" => bad formula long
set A1 =|IF(|64|1 => bad formula synt
set A1 =|IF(|65|1 => bad formula deep
set A1 =|(|128|1 => bad formula synt
set A1 =|(|129|1 => bad formula deep
server |n|255| => server nnnnnnnnn
server |n|256| => bad name
notify |n|256| => bad name
listen |n|256| => bad name
events |n|256| => bad name
publish |n|255| "a" 1 => publish nnnnnnnn
publish |n|256| "a" 1 => bad name
register |n|255| Q => register NNNNNNN
register |n|256| Q => bad name
register F Q|Q|255| => register F QQQQQ
register F Q|Q|256| => bad type many
register F >X|Q|255|$ => register F >XQQQ
register F >X|Q|256|$ => bad type many
publish f "|s|255|" 1 => publish f "sssss
publish f "|s|256|" 1 => bad value
publish f "a|😀|254|" 1 => publish f "a😀
publish f "a|😀|255|" 1 => bad value
publish f "|""|255|" 1 => publish f """"""
publish f "|""|256|" 1 => bad value
publish f "a"|,"a"|15| 1 => publish f "a","a
publish f "a"|,"a"|16| 1 => bad value
publish f "a" "|""|32767|" => publish f "a" ""
publish f "a" "|""|32768|" => bad value
return 1:A1#1 "|""|32767|" => return 1:A1#1 ""
return 1:A1#1 "|""|32768|" => bad value"#;

/// A part so many times between two others.
fn repeated(
    alloc: Global,
    front: &str,
    part: &str,
    count: usize,
    back: &str,
) -> Result<Vec<u8>, Memory> {
    let mut line = Vec::new(alloc);
    line.extend_from_slice(front.as_bytes())?;
    for _ in 0..count {
        line.extend_from_slice(part.as_bytes())?;
    }
    line.extend_from_slice(back.as_bytes())?;
    Ok(line)
}

/// The line of a row of limits.
fn line_at_limit(alloc: Global, row: &str) -> Result<Vec<u8>, Memory> {
    let (front, rest) = row.split_once('|').unwrap_or((row, ""));
    let (part, rest) = rest.split_once('|').unwrap_or((rest, ""));
    let (count, back) = rest.split_once('|').unwrap_or((rest, ""));
    repeated(alloc, front, part, count.parse().unwrap_or(0), back)
}

/// Whether a row of limits holds.
fn limit_holds(alloc: Global, row: &str) -> Result<bool, Memory> {
    let (row, want) = row.split_once(" => ").unwrap_or((row, ""));
    let line = line_at_limit(alloc, row)?;
    let mut said = told(alloc, line.as_slice())?;
    said.truncate(16);
    Ok(said.as_slice() == want.as_bytes())
}

#[test]
fn each_limit_and_one_past_it(rt: HostRuntime) -> Result<(), Fail> {
    for row in LIMITS.split('\n') {
        assert!(rt; limit_holds(rt.alloc(), row)?, "at {row}");
    }
    Ok(())
}

/// What is told of a line of one byte, so many times.
fn told_of_bytes(alloc: Global, byte: u8, count: usize) -> Result<Vec<u8>, Memory> {
    let mut line = Vec::new(alloc);
    for _ in 0..count {
        line.extend_from_slice(&[byte])?;
    }
    told(alloc, line.as_slice())
}

#[test]
fn the_length_of_a_line_is_judged_first(rt: HostRuntime) -> Result<(), Fail> {
    for (byte, want) in [(1, "bad control"), (255, "bad utf8"), (b'x', "bad word")] {
        let shorter = told_of_bytes(rt.alloc(), byte, MAX_LINE)?;
        assert!(rt; shorter.as_slice() == want.as_bytes());
        let longer = told_of_bytes(rt.alloc(), byte, MAX_LINE + 1)?;
        assert!(rt; longer.as_slice() == b"bad long".as_slice());
    }
    Ok(())
}

#[test]
fn a_written_line_follows_what_stands_there(rt: HostRuntime) -> Result<(), Fail> {
    let mut out = Vec::from_slice(rt.alloc(), b"> ")?;
    let Ok(Parsed::One(command)) = read_line(rt.alloc(), b"set A1 'hi") else {
        return Err(Fail::new("the line says no command"));
    };
    write_line(&command, &mut out)?;
    assert!(rt; out.as_slice() == b"> set A1 'hi".as_slice());
    Ok(())
}
