//! Lines that are not read, each with its one reply. A row has the line and, behind ` => `, the reply.

use super::tests::first_wrong;
use std::test::Fail;

/// The first word: none, another, in another case, behind a space, with something of its own behind it.
const WORDS: &str = r#"jump => bad word
Set A1 1 => bad word
SET A1 1 => bad word
CALC => bad word
 set A1 1 => bad word
 calc => bad word
  => bad word
    => bad word
setA1 1 => bad word
sets A1 1 => bad word
se A1 1 => bad word
set! A1 1 => bad word
set=A1 1 => bad word
setset A1 1 => bad word
calcs => bad word
calc, => bad word
pulls 0 => bad word
begin,all => bad word
'set A1 1 => bad word
"set" A1 1 => bad word
=A1+1 => bad word
A1 1 => bad word
1 => bad word
TRUE => bad word
#N/A => bad word
é => bad word
é A1 1 => bad word
sété A1 1 => bad word
seté A1 1 => bad word
ｓｅｔ A1 1 => bad word
desk => bad word
await => bad word
answer F 1 1 => bad word"#;

/// CELL: missing, doubled, behind further spaces, of another form, outside of the grid, with bytes over 127.
const CELLS: &str = r#"set => bad ref
set  => bad ref
set   => bad ref
clear => bad ref
clear  => bad ref
set  A1 1 => bad ref
set   A1 1 => bad ref
clear  A1 => bad ref
set A 1 1 => bad ref
set $ A1 1 => bad ref
clear A 1 => bad ref
set A1A1 1 => bad ref
set A1,A1 1 => bad ref
set A1:B2 1 => bad ref
clear A1:A1 => bad ref
set A 1 => bad ref
set 1 1 => bad ref
set 1A 1 => bad ref
set A-1 1 => bad ref
set =A1 1 => bad ref
set 'A1 1 => bad ref
set "A1" 1 => bad ref
set A1x 1 => bad ref
set A1. 1 => bad ref
set A1( 1 => bad ref
set R1C1 1 => bad ref
set $$A1 1 => bad ref
set A$$1 1 => bad ref
set A1$ 1 => bad ref
set $A$ 1 => bad ref
set A0 1 => bad ref
set A01 1 => bad ref
set A00 1 => bad ref
set XFE1 1 => bad ref
set XFD0 1 => bad ref
set AAAA1 1 => bad ref
set ZZZZ1 1 => bad ref
set A1048577 1 => bad ref
set A10485760 1 => bad ref
set XFE1048577 1 => bad ref
clear XFE1 => bad ref
clear A1048577 => bad ref
set Sheet0!A1 1 => bad ref
set Sheet65!A1 1 => bad ref
set Sheet01!A1 1 => bad ref
set Sheet!A1 1 => bad ref
set Sheet1 A1 1 => bad ref
set Sheet1! 1 => bad ref
set Sheet1!!A1 1 => bad ref
set Sheet1!Sheet1!A1 1 => bad ref
set Sheet64!XFE1 1 => bad ref
set 'Sheet1'!A1 1 => bad ref
set !A1 1 => bad ref
set A1! 1 => bad ref
clear Sheet65!A1 => bad ref
set é 1 => bad ref
set é1 1 => bad ref
set Aé1 1 => bad ref
set A1é 1 => bad ref
set А1 1 => bad ref
set A１ 1 => bad ref
clear Å1 => bad ref
set XFE1 => bad ref
set XFE1 =1.5 => bad ref
clear x y => bad ref
clear A1  => bad value
clear A1 x => bad value
clear A1 A1 => bad value
clear A1 é => bad value
clear A1 1 => bad value"#;

/// CONTENT: missing, a number out of range, a formula with each of its faults.
const CONTENTS: &str = r#"set A1 => bad value
set A1  => bad value
set Sheet2!$A$1 => bad value
set A1 1000000000000000 => bad value
set A1 -1000000000000000 => bad value
set A1 9999999999999999 => bad value
set A1 00000000001000000000000000 => bad value
set A1 -00000000001000000000000000 => bad value
set A1 18446744073709551616 => bad value
set A1 340282366920938463463374607431768211456 => bad value
set A1 = => bad formula syntax 1
set A1 =  => bad formula syntax 2
set A1 == => bad formula syntax 1
set A1 ==1 => bad formula syntax 1
set A1 =1.5 => bad formula syntax 2
set A1 =1 2 => bad formula syntax 3
set A1 =1+ => bad formula syntax 3
set A1 =*1 => bad formula syntax 1
set A1 =%1 => bad formula syntax 1
set A1 =1% => bad formula syntax 2
set A1 =2^3 => bad formula syntax 2
set A1 =(1 => bad formula syntax 3
set A1 =1) => bad formula syntax 2
set A1 =() => bad formula syntax 2
set A1 =1,2 => bad formula syntax 2
set A1 =" => bad formula syntax 2
set A1 ="a"" => bad formula syntax 5
set A1 =1:2 => bad formula syntax 2
set A1 =A1: => bad formula syntax 4
set A1 =A1 :B2 => bad formula syntax 4
set A1 =A1 A1 => bad formula syntax 4
set A1 =A01 => bad formula syntax 4
set A1 =XFE1+1 => bad formula syntax 5
set A1 =Sheet65!A1 => bad formula syntax 8
set A1 =IF( => bad formula syntax 4
set A1 =IF(1, => bad formula syntax 6
set A1 =IF (1) => bad formula syntax 3
set A1 ='x' => bad formula syntax 1
set A1 =#N/B => bad formula syntax 4
set A1 =é => bad formula syntax 1
set A1 =1é => bad formula syntax 2
set A1 ="é => bad formula syntax 4
set A1 ="é"é => bad formula syntax 5
set A1 =A1é => bad formula syntax 3
set A1 =A1:XFD1048576 => bad formula range
set A1 =A1:A65537 => bad formula range
set A1 =SUM(A1:B32769) => bad formula range
set A1 =A1:A65537+1000000000000000 => bad formula range
set A1 =1000000000000000 => bad formula number
set A1 =A1+18446744073709551616 => bad formula number
set A1 =1000000000000000+ => bad formula syntax 18
set A1 =A1:A65537+ => bad formula syntax 11"#;

/// NAME: missing, doubled, behind and before further spaces, of another form, with bytes over 127.
const NAMES: &str = r#"server => bad name
server  => bad name
notify => bad name
notify  => bad name
listen => bad name
listen  => bad name
events => bad name
events  => bad name
publish => bad name
publish  => bad name
register => bad name
register  => bad name
server  f => bad name
notify  f => bad name
listen  f => bad name
events  f => bad name
publish  f "a" 1 => bad name
register  F Q => bad name
server 1 => bad name
server 1f => bad name
server _f => bad name
server .f => bad name
server f-g => bad name
server f,g => bad name
server f! => bad name
server "f" => bad name
server 'f => bad name
server $f => bad name
notify 1 => bad name
listen 1 => bad name
events 1 => bad name
publish 1 "a" 1 => bad name
publish "f" "a" 1 => bad name
publish "a" 1 => bad name
register 1x Q => bad name
register 1f Q => bad name
register F-G Q => bad name
register F( Q => bad name
server é => bad name
server fé => bad name
notify é => bad name
listen fé => bad name
events é => bad name
publish fé "a" 1 => bad name
register é Q => bad name
register fé Q => bad name
server ｆ => bad name
server 1 b => bad name
publish 1 a b => bad name
register 1 # x => bad name
register 1 => bad name
server f  => bad value
server f g => bad value
server f f => bad value
server f é => bad value
notify f  => bad value
notify f f => bad value
listen f  => bad value
listen f f => bad value
events f  => bad value
events f f => bad value"#;

/// TYPE: missing, doubled, behind and before further spaces, with each of its faults.
const TYPES: &str = r#"register F => bad type empty
register F  => bad type empty
register F  Q => bad type empty
register F   => bad type empty
register F # => bad type macro
register F Q# => bad type macro
register F Q#Q => bad type macro
register F >QX# => bad type macro
register F zz# => bad type macro
register F é# => bad type macro
register F # x => bad type macro
register F x => bad type letter 0
register F q => bad type letter 0
register F f => bad type letter 0
register F F => bad type letter 0
register F X => bad type letter 0
register f X => bad type letter 0
register F $ => bad type letter 0
register F ! => bad type letter 0
register F 1 => bad type letter 0
register F "Q" => bad type letter 0
register F é => bad type letter 0
register F éQ => bad type letter 0
register F Qé => bad type letter 1
register F >é => bad type letter 1
register F Qq => bad type letter 1
register F Q> => bad type letter 1
register F Q$Q => bad type letter 1
register F Q$$ => bad type letter 1
register F Q$é => bad type letter 1
register F QB => bad type letter 1
register F Q,Q => bad type letter 1
register F >x => bad type letter 1
register F >QXé => bad type letter 3
register F QQ$X => bad type letter 2
register F > => bad type void
register F >Q => bad type void
register f >Q => bad type void
register F >QQ$ => bad type void
register F QX => bad type handle
register F QQXQ$ => bad type handle
register F >XX => bad type handles
register F QXX => bad type handles
register F >QXQX$ => bad type handles
register F >Q x => bad type void
register F Q x => bad value
register F Q  => bad value
register F Q Q => bad value
register F >QX$ >QX$ => bad value
register F Q é => bad value"#;

/// STRINGS: missing, doubled, among further spaces, of another form, one too many, with bytes over 127.
const STRINGS: &str = r#"publish f => bad value
publish f  => bad value
publish f 1 => bad value
publish f "a => bad value
publish f " => bad value
publish f  "a" 1 => bad value
publish f a 1 => bad value
publish f a,b 1 => bad value
publish f 'a 1 => bad value
publish f 5 1 => bad value
publish f TRUE 1 => bad value
publish f #N/A 1 => bad value
publish f =A1 1 => bad value
publish f "a 1 => bad value
publish f a" 1 => bad value
publish f "a"" 1 => bad value
publish f "a""b 1 => bad value
publish f "a"b 1 => bad value
publish f "a"b" 1 => bad value
publish f "a""b""" 1" => bad value
publish f "a"; "b" 1 => bad value
publish f , 1 => bad value
publish f ,"a" 1 => bad value
publish f "a", 1 => bad value
publish f "a",,"b" 1 => bad value
publish f "a", "b" 1 => bad value
publish f "a" ,"b" 1 => bad value
publish f "a","b 1 => bad value
publish f "a",b 1 => bad value
publish f "a",1 1 => bad value
publish f """","""," """ -5 => bad value
publish f f "a" 1 => bad value
publish f é 1 => bad value
publish f "é 1 => bad value
publish f é"a" 1 => bad value
publish f "a"é 1 => bad value
publish f “a” 1 => bad value
publish f "1","2","3","4","5","6","7","8","9","10","11","12","13","14","15","16","17" 0 => bad value"#;

/// VALUE: missing, doubled, among further spaces, of another form, out of range, with bytes over 127.
const VALUES: &str = r#"publish f "a" => bad value
publish f "a"  => bad value
publish f "a","b" => bad value
return 1:A1#1 => bad value
return 1:A1#1  => bad value
publish f "a"  1 => bad value
publish f "a" 1  => bad value
publish f "a" 1 1 => bad value
publish f "a" 1 2 => bad value
publish f "a" "b" "c" => bad value
publish f "a" "b"c => bad value
publish f "a" "b => bad value
publish f "a" b" => bad value
publish f "a" "a"b" => bad value
publish f "a" abc => bad value
publish f "a" 'abc => bad value
publish f "a" =1 => bad value
publish f "a" A1 => bad value
publish f "a" 01 => bad value
publish f "a" -0 => bad value
publish f "a" +1 => bad value
publish f "a" - => bad value
publish f "a" --1 => bad value
publish f "a" -01 => bad value
publish f "a" 1.5 => bad value
publish f "a" 1e3 => bad value
publish f "a" true => bad value
publish f "a" True => bad value
publish f "a" #n/a => bad value
publish f "a" #N/A! => bad value
publish f "a" #CIRC! => bad value
publish f "a" 1000000000000000 => bad value
publish f "a" -1000000000000000 => bad value
publish f "a" é => bad value
publish f "a" 1é => bad value
publish f "a" "é => bad value
publish f "a" ５ => bad value
return 1:A1#1  1 => bad value
return 1:A1#1 1  => bad value
return 1:A1#1 1 1 => bad value
return 1:A1#1 1 2 => bad value
return 1:A1#1 1:A1#1 => bad value
return 1:A1#1 x => bad value
return 1:A1#1 "a => bad value
return 1:A1#1 007 => bad value
return 1:A1#1 false => bad value
return 1:A1#1 #DIV/0 => bad value
return 1:A1#1 1000000000000000 => bad value
return 1:A1#1 -1000000000000000 => bad value
return 1:A1#1 é => bad value"#;

/// The numbers of a throttle and of a pull: missing, doubled, among further spaces, of another form, out of range.
const NUMBERS: &str = r#"throttle => bad value
throttle  => bad value
throttle  1 => bad value
throttle 1  => bad value
throttle 1 1 => bad value
throttle -2 => bad value
throttle 2147483648 => bad value
throttle -2147483648 => bad value
throttle 99999999999999999999 => bad value
throttle +1 => bad value
throttle 01 => bad value
throttle -01 => bad value
throttle -0 => bad value
throttle - 1 => bad value
throttle 1.0 => bad value
throttle "1" => bad value
throttle x => bad value
throttle force => bad value
throttle é => bad value
throttle 1é => bad value
throttle １ => bad value
pull => bad value
pull  => bad value
pull  0 => bad value
pull 0  => bad value
pull 0 0 => bad value
pull -1 => bad value
pull -0 => bad value
pull 00 => bad value
pull 01 => bad value
pull +1 => bad value
pull 1000000000000000 => bad value
pull 18446744073709551616 => bad value
pull now => bad value
pull Force => bad value
pull forced => bad value
pull force  => bad value
pull force x => bad value
pull force force => bad value
pull force 0 => bad value
pull 0 force => bad value
pull  force => bad value
pull é => bad value
pull 0é => bad value
pull forcé => bad value"#;

/// Second words: missing behind a space, doubled, among further spaces, of another form, where none may stand.
const KINDS: &str = r#"begin  => bad value
begin  all => bad value
begin all  => bad value
begin all x => bad value
begin all all => bad value
begin all rebuild => bad value
begin All => bad value
begin dirty => bad value
begin al => bad value
begin é => bad value
begin allé => bad value
calc  => bad value
calc  all => bad value
calc all  => bad value
calc all all => bad value
calc rebuild all => bad value
calc ALL => bad value
calc dirty => bad value
calc 1 => bad value
calc é => bad value
print  => bad value
print  csv => bad value
print csv  => bad value
print csv x => bad value
print csv csv => bad value
print CSV => bad value
print lines => bad value
print A1 => bad value
print é => bad value
settle  => bad value
settle x => bad value
settle settle => bad value
settle 1 => bad value
settle é => bad value
cancel  => bad value
cancel x => bad value
cancel cancel => bad value
cancel é => bad value"#;

/// HANDLE: missing, doubled, among further spaces, of another form, out of range, with bytes over 127.
const HANDLES: &str = r#"return => bad handle
return  => bad handle
return   => bad handle
return  1:A1#1 1 => bad handle
return 1: A1#1 1 => bad handle
return 1:A1 #1 1 => bad handle
return 1:A1# 1 1 => bad handle
return 1:A1#11:A1#1 1 => bad handle
return 1:A1#1,1:A1#1 1 => bad handle
return x 1 => bad handle
return x x => bad handle
return x => bad handle
return 1 1 => bad handle
return A1 1 => bad handle
return 1:A1 1 => bad handle
return A1#1 1 => bad handle
return :A1#1 1 => bad handle
return 1:#1 1 => bad handle
return 1:A1#x 1 => bad handle
return 1:A1#1x 1 => bad handle
return 1:A1#-1 1 => bad handle
return -1:A1#1 1 => bad handle
return +1:A1#1 1 => bad handle
return 01:A1#1 1 => bad handle
return 00:A1#1 1 => bad handle
return 1:A1#01 1 => bad handle
return 1:A01#1 1 => bad handle
return 1:a1#1 1 => bad handle
return 1:$A$1#1 1 => bad handle
return 1:Sheet1!A1#1 1 => bad handle
return 1:sheet2!A1#1 1 => bad handle
return 1:Sheet02!A1#1 1 => bad handle
return 1:Sheet65!A1#1 1 => bad handle
return 1:A1:B2#1 1 => bad handle
return 1:XFE1#1 1 => bad handle
return 1:A1048577#1 1 => bad handle
return 1:A0#1 1 => bad handle
return 1:A1#65536 1 => bad handle
return 1:A1#99999999999999999999 1 => bad handle
return 18446744073709551616:A1#1 1 => bad handle
return 18446744073709551616/1:A1#1 1 => bad handle
return 1/1:A1#1 1 => bad handle
return 0/1:A1#1 1 => bad handle
return 02/1:A1#1 1 => bad handle
return /1:A1#1 1 => bad handle
return 2//1:A1#1 1 => bad handle
return 2/2/1:A1#1 1 => bad handle
return é => bad handle
return é:A1#1 1 => bad handle
return 1:é1#1 1 => bad handle
return 1:A1#é 1 => bad handle
return 1:A1#1é 1 => bad handle
return １:A1#1 1 => bad handle"#;

#[test]
fn hostile_lines_have_one_reply_each(rt: HostRuntime) -> Result<(), Fail> {
    for (table, rows) in [
        (WORDS, 33),
        (CELLS, 70),
        (CONTENTS, 52),
        (NAMES, 61),
        (TYPES, 50),
        (STRINGS, 38),
        (VALUES, 50),
        (NUMBERS, 45),
        (KINDS, 38),
        (HANDLES, 53),
    ] {
        assert_eq!(rt; table.split('\n').count(), rows);
        assert_eq!(rt; first_wrong(rt.alloc(), table)?, None);
    }
    Ok(())
}
