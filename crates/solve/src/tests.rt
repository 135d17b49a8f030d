use crate::solving::answer;
use crate::streams::{Failure, converse};
use pages::report::MOST_REPORT;
use std::io;
use std::io::{Cursor, ErrorKind, Read, Write};
use std::test::Fail;

// Texts, and the bytes that are printed.
const CASES: [(&[u8], &str); 9] = [
    (b"p cnf 2 2\n1 2 0\n-1 0\n", "s SATISFIABLE\nv -1 2 0\n"),
    (b"p cnf 1 0", "s SATISFIABLE\nv -1 0\n"),
    (b"p cnf 1 1 0", "s UNSATISFIABLE\n"),
    (
        b"p cnf 2 4\n-1 -2 0\n1 -2 0\n-1 2 0\n1 2 0\n",
        "s UNSATISFIABLE\n",
    ),
    (b"p cnf 2 1\n1 3 0", "c refused 13 at 12\n"),
    (b"p cnf 2 2\n1 0\n2 0 -1", "c refused 15 at 18\n"),
    (b"p cnf 0 0", "c refused 2 at 0\n"),
    (b"p cnf 65 0", "c refused 11 at 6\n"),
    (b"", "c refused 10 at 0\n"),
];

#[test]
fn answers_are_printed(rt: HostRuntime) -> Result<(), Fail> {
    for (text, printed) in CASES {
        let mut buffer = [170; MOST_REPORT];
        let length = answer(text, &mut buffer);
        assert!(rt; &buffer[..length.min(MOST_REPORT)] == printed.as_bytes());
        assert!(rt; buffer[length.min(MOST_REPORT)..].iter().all(|b| *b == 170));
    }
    Ok(())
}

// Gives a part of a text, and then fails.
#[derive(Drop)]
struct BreaksOff {
    given: bool,
}

impl Read for BreaksOff {
    fn read(&mut self, buf: &mut [u8]) -> io::Result<usize> {
        if self.given || buf.is_empty() {
            return Err(io::Error::from(ErrorKind::Other));
        }
        self.given = true;
        buf[0] = b'p';
        Ok(1)
    }
}

// Takes one byte, and then fails.
#[derive(Drop)]
struct TakesOne {
    taken: usize,
}

impl Write for TakesOne {
    fn write(&mut self, buf: &[u8]) -> io::Result<usize> {
        if self.taken > 0 || buf.is_empty() {
            return Err(io::Error::from(ErrorKind::Other));
        }
        self.taken = 1;
        Ok(1)
    }

    fn flush(&mut self) -> io::Result<()> {
        Ok(())
    }
}

#[test]
fn streams_are_joined(rt: HostRuntime) -> Result<(), Fail> {
    let mut written = Vec::new(rt.alloc());
    let text: &[u8] = b"p cnf 1 1 1 0";
    assert_eq!(rt;
        converse(rt.alloc(), Cursor::new(text), &mut written),
        Ok(())
    );
    assert_eq!(rt; written.as_slice(), b"s SATISFIABLE\nv 1 0\n".as_slice());
    let mut unwritten = Vec::new(rt.alloc());
    let broken = BreaksOff { given: false };
    assert_eq!(rt;
        converse(rt.alloc(), broken, &mut unwritten),
        Err(Failure::Unread)
    );
    let told = b"c the input could not be read\ns UNKNOWN\n";
    assert_eq!(rt; unwritten.as_slice(), told.as_slice());
    let mut narrow = TakesOne { taken: 0 };
    assert_eq!(rt;
        converse(rt.alloc(), Cursor::new(text), &mut narrow),
        Err(Failure::Unwritten)
    );
    assert_eq!(rt; narrow.taken, 1);
    Ok(())
}
