use crate::replaying::replay;
use std::io::Cursor;
use std::test::Fail;

// Lists of calls, and the answer lines; the last line of a list has no LF.
const CASES: [(&str, &str); 4] = [
    // Before a session is made, and lines that fit no call.
    (
        "# a comment\n\
        \n\
        state\n\
        open 1 0\n\
        add 1\n\
        load -\n\
        restart 0\n\
        run longest 1\n\
        line 1\n\
        sheet 1\n\
        report met 1\n\
        head 7020636e6620322034\n\
        head -\n\
        head 41+20*5\n\
        new 2\n\
        state\n\
        open  2 0\n\
        open 2 0 \n\
        open 2 00\n\
        open 2 A\n\
        open 2\n\
        open 4294967296 0\n\
        open +2 0\n\
        open 02 0\n\
        opens 2 0\n\
        \x20state\n\
        state\r\n\
        \tstate\n\
        state\n\
        new 33554433\n\
        state",
        "error\n\
        error\n\
        error\n\
        error\n\
        error\n\
        error\n\
        error\n\
        error\n\
        error\n\
        head 2 4\n\
        fault text 10 at 0\n\
        fault text 10 at 0\n\
        ok\n\
        lines 0 n 0 assign 0\n\
        error\n\
        error\n\
        error\n\
        error\n\
        error\n\
        error\n\
        error\n\
        error\n\
        error\n\
        error\n\
        error\n\
        error\n\
        lines 0 n 0 assign 0\n\
        error\n\
        lines 0 n 0 assign 0\n",
    ),
    // Clauses, refused and taken.
    (
        "new 3\n\
        add 1\n\
        open 3 8\n\
        open 3 5\n\
        open 3 5\n\
        add\n\
        add 1 -1\n\
        add 4\n\
        add 0\n\
        add -0\n\
        add -2147483648\n\
        add 2147483648\n\
        add 3 -2 3\n\
        add -2 3\n\
        add 1\n\
        add 2\n\
        line 2\n\
        line 3\n\
        line 4\n\
        line 0\n\
        state\n\
        restart 8\n\
        restart 2\n\
        state",
        "ok\n\
        refused 5\n\
        refused 4\n\
        ok\n\
        refused 1\n\
        line 1\n\
        line none\n\
        refused 7\n\
        refused 7\n\
        error\n\
        refused 7\n\
        error\n\
        line 2\n\
        line 2\n\
        line 3\n\
        refused 8\n\
        given pos 4 neg 2\n\
        given pos 1 neg 0\n\
        refused 18\n\
        refused 18\n\
        lines 3 n 3 assign 5\n\
        refused 4\n\
        ok\n\
        lines 3 n 3 assign 2\n",
    ),
    // Texts.
    (
        "load -\n\
        new 1\n\
        load -\n\
        open 2 0\n\
        load 7020636e66203220310a3120332030\n\
        load 7020636e66203220322031203020322030\n\
        load 7020636e662032203120312030+20*3\n\
        load -+20*2\n\
        load +70*1\n\
        load 7\n\
        load\n\
        load - -\n\
        load 7A\n\
        load 20+20\n\
        load 20+2*1\n\
        load 20+20*-1\n\
        load 20*1+20",
        "error\n\
        ok\n\
        fault session 5 at 0 taken 0\n\
        ok\n\
        fault text 13 at 12 taken 0\n\
        fault book 8 at 16 taken 1\n\
        taken 1\n\
        fault text 10 at 2 taken 0\n\
        fault text 10 at 1 taken 0\n\
        error\n\
        error\n\
        error\n\
        error\n\
        error\n\
        error\n\
        error\n\
        error\n",
    ),
    // Runs, sheets and reports; a second session.
    (
        "new 4\n\
        run longest 0\n\
        open 1 0\n\
        run longest 1000001\n\
        run longest 4294967296\n\
        run const 0\n\
        add 1\n\
        run fewest 0\n\
        run revfewest 1\n\
        run longest 1\n\
        sheet 3\n\
        report met 0\n\
        report met 20\n\
        report spent 9\n\
        report full 10\n\
        report fault 13 12 19\n\
        report fault 13 12\n\
        report nobody 9\n\
        restart 0\n\
        add -1\n\
        run const 1\n\
        line 3\n\
        run const 0\n\
        sheet 20\n\
        sheet 22\n\
        new 0\n\
        report none 16\n\
        open 64 ffffffffffffffff\n\
        add 64\n\
        add\n\
        state",
        "ok\n\
        refused 5\n\
        ok\n\
        refused 17\n\
        error\n\
        met 0\n\
        line 1\n\
        spent 0\n\
        met 1\n\
        met 0\n\
        refused 19 aaaaaa\n\
        refused 20 \n\
        length 20 73205341544953464941424c450a76203120300a\n\
        refused 20 aaaaaaaaaaaaaaaaaa\n\
        length 10 7320554e4b4e4f574e0a\n\
        length 19 6320726566757365642031332061742031320a\n\
        error\n\
        error\n\
        ok\n\
        line 2\n\
        none 1\n\
        resolved 1 1 2 pos 0 neg 0\n\
        none 0\n\
        refused 20 aaaaaaaaaaaaaaaaaaaaaaaaaaaaaaaaaaaaaaaa\n\
        length 21 310a320a3120300a2d3120300a310a31203120320aaa\n\
        ok\n\
        length 16 7320554e5341544953464941424c450a\n\
        ok\n\
        refused 8\n\
        refused 8\n\
        lines 0 n 64 assign ffffffffffffffff\n",
    ),
];

#[test]
fn lists_are_played(rt: HostRuntime) -> Result<(), Fail> {
    for (list, answers) in CASES {
        let mut written = Vec::new(rt.alloc());
        assert_eq!(rt;
            replay(rt.alloc(), Cursor::new(list.as_bytes()), &mut written).is_ok(),
            true
        );
        assert!(rt; written.as_slice() == answers.as_bytes());
    }
    Ok(())
}
