//! The sessions of the folder `examples` at the top of the repository, each with what is stored beside it.

use super::program_tests::plays;
use std::test::Fail;

#[test]
fn each_example_is_answered_as_stored(rt: HostRuntime) -> Result<(), Fail> {
    let table = [
        // asynchronous.script
        (
            "register QUOTE >QX$\nregister SUM QQ\nregister double QQ$\nset A1 100\n\
             set A2 =QUOTE(A1)\nset A3 =QUOTE(A2+1)\nset A4 =DOUBLE(A3)\ncalc\nset A1 5\n\
             return 1:A2#1 150\nsettle\nreturn 1:A2#1 151\nreturn 2:A3#1 9\nreturn 7/1:A3#1 9\n\
             return 1:A3#1 \"late\"\nsettle\nprint\nset B1 =A3&\"!\"\ncalc\nset A1 200\ncalc\n\
             return 3:A2#1 #N/A\nsettle\nreturn 3:A3#1 4\nsettle\nprint\nset C1 =QUOTE(QUOTE(2))\n\
             set C2 =QUOTE(3,4)\ncalc\nreturn 4:C1#2 7\nsettle\nreturn 4:C1#1 9\nsettle\nprint\n",
            "ok\nbuiltin\nok\nok\nok\nok\nok\nbegun 1\nwaiting 1 count 1\n 1:A2#1 QUOTE(100)\n\
             busy 1\n0\nwaiting 1 count 1\n 1:A3#1 QUOTE(151)\n256\n256\n256\n0\n\
             done 1 cells 3\nA1=100\nA2=150\nA3=\"late\"\nA4=#VALUE!\nend\nok\nbegun 2\n\
             done 2 cells 1\nok\nbegun 3\nwaiting 3 count 1\n 3:A2#1 QUOTE(200)\n0\n\
             waiting 3 count 1\n 3:A3#1 QUOTE(#N/A)\n0\ndone 3 cells 4\nA1=200\nB1=\"4!\"\n\
             A2=#N/A\nA3=4\nA4=8\nend\nok\nok\nbegun 4\nwaiting 4 count 1\n 4:C1#2 QUOTE(2)\n0\n\
             waiting 4 count 1\n 4:C1#1 QUOTE(7)\n0\ndone 4 cells 2\nA1=200\nB1=\"4!\"\nC1=9\n\
             A2=#N/A\nC2=#VALUE!\nA3=4\nA4=8\nend\n",
        ),
        // bad_lines.script
        (
            "jump\nSet A1 1\nset  A1 1\nset XFE1 1\nset A1\nset A1 1000000000000000\nset A1 =1.5\n\
             set A1 =A1 A1\nset A1 =A1:XFD1048576\nset A1 =1000000000000000\nclear A1 B1\n\
             server 1\nregister 1f #\nregister F\nregister F Q#\nregister F X\nregister F >XX\n\
             register F >Q\nregister F QX\npublish f \"a\"\nthrottle 2147483648\npull now\n\
             begin dirty\nreturn 01:A1#1 x\nreturn 1:A1#1 \"a\nprint csv x\nset A1 1\n",
            "bad word\nbad word\nbad ref\nbad ref\nbad value\nbad value\nbad formula syntax 2\n\
             bad formula syntax 4\nbad formula range\nbad formula number\nbad value\nbad name\n\
             bad name\nbad type empty\nbad type macro\nbad type letter 0\nbad type handles\n\
             bad type void\nbad type handle\nbad value\nbad value\nbad value\nbad value\n\
             bad handle\nbad value\nbad value\nok\n",
        ),
        // cancel.script
        (
            "listen app\nregister SLOW >QX$\nset A1 =SLOW(2)+1\nbegin\nsettle\ncancel\n\
             return 1:A1#1 7\nprint\nevents app\nset B1 5\ncalc\nreturn 2:A1#1 7\nsettle\ncancel\n\
             print\nset A1 =SLOW(B1)\ncalc\nset B1 6\npull 0\ncalc\ncancel\nprint\nset B1 6\n\
             set A1 1\ncalc\nreturn 3:A1#1 9\nprint\nevents app\nevents app\nevents other\n\
             listen app\n",
            "ok\nok\nok\nbegun 1\nwaiting 1 count 1\n 1:A1#1 SLOW(2)\ncancelled 1\n256\nend\n\
             \x20cancelled 1\nend\nok\nbegun 2\nwaiting 2 count 1\n 2:A1#1 SLOW(2)\n0\n\
             done 2 cells 1\nidle\nA1=8\nB1=5\nend\nok\nbegun 3\nwaiting 3 count 1\n\
             \x203:A1#1 SLOW(5)\nbusy 3\nbusy 3\nbusy 3\nwaiting 3 count 1\n 3:A1#1 SLOW(5)\n\
             cancelled 3\nA1=8\nB1=5\nend\nok\nok\nbegun 4\ndone 4 cells 0\n256\nA1=1\nB1=6\nend\n\
             \x20ended 2\n cancelled 3\n ended 4\nend\nend\nno listener\nknown\n",
        ),
        // csv.script
        (
            "set A1 2\nset B1 'a,b\nset C1 =1/0\nset A2 say \"hi\"\nset B2 true\nset C2 =A3\n\
             set A3 =C2\nset B3 '\nset Sheet2!A1 plain text\ncalc\nprint csv\nprint\n",
            "ok\nok\nok\nok\nok\nok\nok\nok\nok\nbegun 1\ndone 1 cells 3\nA1,number,2\n\
             B1,text,\"a,b\"\nC1,error,#DIV/0!\nA2,text,\"say \"\"hi\"\"\"\nB2,bool,TRUE\n\
             C2,circular,#CIRC!\nA3,circular,#CIRC!\nB3,text,\nSheet2!A1,text,plain text\nend\n\
             A1=2\nB1=\"a,b\"\nC1=#DIV/0!\nA2=\"say \"\"hi\"\"\"\nB2=TRUE\nC2=#CIRC!\nA3=#CIRC!\n\
             B3=\"\"\nSheet2!A1=\"plain text\"\nend\n",
        ),
        // first.script
        (
            "set A1 2\nset A2 =A1+3\ncalc\nprint\n",
            "ok\nok\nbegun 1\ndone 1 cells 1\nA1=2\nA2=5\nend\n",
        ),
        // formulas.script
        (
            "set B1 1\nset B2 x\nset B4 5\nset A1 =SUM(B1:B4)\n\
             set A2 =IF(A1>5,\"high\",\"low\")&COUNTA(B1:B4)\n\
             set A3 =IFNA(RTD(\"feed\",\"\",\"px\"),B3)\nset A4 =INDEX(B1:B4,4,1)*-2\n\
             set Sheet2!A1 =Sheet1!A1=6\ncalc\nprint\nset B3 10\ncalc\nclear B2\nset A4 =1.5\n\
             set A5 =A6\nset A6 =A5+1\ncalc\nprint\n",
            "ok\nok\nok\nok\nok\nok\nok\nok\nbegun 1\ndone 1 cells 5\nA1=6\nB1=1\nA2=\"high3\"\n\
             B2=\"x\"\nA3=0\nA4=-10\nB4=5\nSheet2!A1=TRUE\nend\nok\nbegun 2\ndone 2 cells 5\nok\n\
             bad formula syntax 2\nok\nok\nbegun 3\ndone 3 cells 6\nA1=16\nB1=1\nA2=\"high3\"\n\
             A3=10\nB3=10\nA4=-10\nB4=5\nA5=#CIRC!\nA6=#CIRC!\nSheet2!A1=FALSE\nend\n",
        ),
        // real_time.script
        (
            "server feed\npublish feed \"px\" 10\nset A1 =RTD(\"feed\",\"\",\"px\")\ncalc\nprint\n\
             publish feed \"px\" 11\npull 0\nnotify feed\npull 0\ncalc\nprint\npull 500\n\
             notify feed\npull 1000\npull 2000\nthrottle -1\nnotify feed\npull 9000\npull force\n\
             set A2 =RTD(\"fx\",\"\",\"EUR\",\"LONDON\")&RTD(\"feed\",\"\",\"px\")\ncalc\nprint\n\
             server fx\nserver fx\npublish fx \"EUR\",\"LONDON\" \"open\"\ncalc\nprint\n\
             publish gold \"a\" 1\npublish feed \"px\" 12\nnotify feed\nthrottle 0\npull 9000\n\
             clear A2\ncalc\nprint\nnotify fx\npull 9000\n",
            "ok\nok\nok\nbegun 1\ndone 1 cells 1\nA1=10\nend\nok\nnothing\nok\npulled 1\nbegun 2\n\
             done 2 cells 1\nA1=11\nend\nnothing\nok\nearly 1000\npulled 0\nok\nok\nmanual\n\
             pulled 0\nok\nbegun 3\ndone 3 cells 1\nA1=11\nA2=#N/A\nend\nok\nknown\nok\nbegun 4\n\
             done 4 cells 2\nA1=11\nA2=\"open11\"\nend\nno server\nok\nok\nok\npulled 1\nok\n\
             begun 5\ndone 5 cells 1\nA1=12\nend\nok\npulled 0\n",
        ),
    ];
    for (script, want) in table {
        for piece in [1, 1000] {
            plays(&rt, rt.alloc(), script, piece, want)?;
        }
    }
    Ok(())
}
