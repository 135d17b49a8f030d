use crate::outcome::{Outcome, read_whole};
use limits::MOST_LITERALS;
use std::test::Fail;
use table::filled::Filled;
use table::search::position;
use text::faults::{ReadFault, TextFault};
use text::problem::line::head;
use text::reader::Reader;

// A text, and the clauses, the literals, the place of the last 0 and the refusal
// that it comes to.
type Case = (
    &'static [u8],
    u32,
    usize,
    Option<usize>,
    Option<(u8, usize)>,
);

const CASES: [Case; 24] = [
    (b"p cnf 2 2\n1 -2 0\n-1 0\n", 2, 3, Some(20), None),
    (b"c one\nc\np cnf 1 1 1 0", 1, 1, Some(20), None),
    (b"p\ncnf\n1\r\n1\t1 1 0", 1, 2, Some(15), None),
    (b"p cnf 0 0", 0, 0, None, None),
    (b"p cnf 0 1 0", 1, 0, Some(10), None),
    (b"p cnf 64 1 64 -64 0 \n", 1, 2, Some(18), None),
    (b"p cnf 2 1\n1 3 0", 0, 0, None, Some((13, 12))),
    (b"p cnf 2 2\n1 0\n2 0 -1", 2, 2, Some(16), Some((15, 18))),
    (b"p cnf 65 x", 0, 0, None, Some((11, 6))),
    (b"p\nc x", 0, 0, None, Some((10, 2))),
    (b"", 0, 0, None, Some((10, 0))),
    (b"c only a comment", 0, 0, None, Some((10, 16))),
    (b" c no comment", 0, 0, None, Some((10, 1))),
    (b"p cnf -1 0", 0, 0, None, Some((10, 6))),
    (b"p cnf 1 65537", 0, 0, None, Some((11, 8))),
    (b"p cnf 1 100000", 0, 0, None, Some((10, 8))),
    (b"p cnf 1 1\nc x\n1 0", 0, 0, None, Some((12, 10))),
    (b"p cnf 1 1 -0 0", 0, 0, None, Some((12, 10))),
    (b"p cnf 1 1 1\x00 0", 0, 0, None, Some((12, 10))),
    (b"p cnf 1 1 \xff 0", 0, 0, None, Some((12, 10))),
    (b"p cnf 1 1 1", 0, 0, None, Some((14, 11))),
    (b"p cnf 1 2 1 0", 1, 1, Some(12), Some((16, 13))),
    (b"p cnf 1 2 1 0 1", 1, 1, Some(12), Some((14, 15))),
    (b"p cnf 1 1 1 0 x", 1, 1, Some(12), Some((15, 14))),
];

#[test]
fn texts(rt: HostRuntime) {
    for (text, clauses, literals, last, refusal) in CASES {
        let want = Outcome {
            clauses,
            literals,
            last,
            refusal,
        };
        assert_eq!(rt; read_whole(text, 64), want);
    }
}

// A clause of 128 literals, and of 129: repeats count.
#[test]
fn long_clauses(rt: HostRuntime) -> Result<(), Fail> {
    let mut text = b"p cnf 1 1".to_vec(rt.alloc())?;
    for _ in 0..128 {
        text.extend_from_slice(b" 1")?;
    }
    let whole = Outcome {
        clauses: 0,
        literals: 0,
        last: None,
        refusal: Some((14, 265)),
    };
    assert_eq!(rt; read_whole(text.as_slice(), 64), whole);
    text.extend_from_slice(b" -1 0")?;
    let more = Outcome {
        clauses: 0,
        literals: 0,
        last: None,
        refusal: Some((6, 266)),
    };
    assert_eq!(rt; read_whole(text.as_slice(), 64), more);
    Ok(())
}

// After a refusal inside a clause no literals are given, the same is told again,
// and the lent places behind the literals keep what they held.
#[test]
fn unfinished_clauses(rt: HostRuntime) -> Result<(), Fail> {
    let mut places = [7; MOST_LITERALS];
    {
        let mut reader = Reader::new(b"p cnf 3 2 1 -2 3 0 2 x", 64, &mut places);
        assert!(rt; reader.clause().is_empty());
        assert_eq!(rt; reader.next_clause()?, Some(17));
        assert_eq!(rt; reader.clause(), [1, -2, 3].as_slice());
        for _ in 0..2 {
            let refused = Err(ReadFault::Text(TextFault::NotNumber { place: 21 }));
            assert_eq!(rt; reader.next_clause(), refused);
            assert!(rt; reader.clause().is_empty());
        }
    }
    assert_eq!(rt; &places[..4], [2, -2, 3, 7].as_slice());
    assert!(rt; places[4..].iter().all(|place| *place == 7));
    Ok(())
}

// The largest text, and one byte more.
#[test]
fn large_texts(rt: HostRuntime) -> Result<(), Fail> {
    let mut text = vec![in rt.alloc(); b' '; 1_048_564]?;
    text.extend_from_slice(b"p cnf 3 1 0\n")?;
    let whole = Outcome {
        clauses: 1,
        literals: 0,
        last: Some(1_048_574),
        refusal: None,
    };
    assert_eq!(rt; read_whole(text.as_slice(), 3), whole);
    assert_eq!(rt; head(text.as_slice()).is_ok(), true);
    text.push(b' ')?;
    let long = Outcome {
        clauses: 0,
        literals: 0,
        last: None,
        refusal: Some((9, 0)),
    };
    assert_eq!(rt; read_whole(text.as_slice(), 3), long);
    assert_eq!(rt; head(text.as_slice()).is_err(), true);
    Ok(())
}

// Three lent places take three literals, and keep what lies beyond them.
#[test]
fn lent_places(rt: HostRuntime) -> Result<(), Fail> {
    let mut lent = [7, 7, 7];
    {
        let mut literals = Filled::new(&mut lent);
        assert_eq!(rt; literals.push(-3)?, 0);
        assert_eq!(rt; literals.push(5)?, 1);
        assert_eq!(rt; literals.room(), 1);
        assert_eq!(rt; position(literals.as_slice(), &5), Some(1));
        assert_eq!(rt; position(literals.as_slice(), &7), None);
        assert_eq!(rt; literals.get(0), Some(-3));
        assert_eq!(rt; literals.get(2), None);
        assert_eq!(rt; literals.push(5)?, 2);
        assert!(rt; literals.push(1).is_err());
        assert_eq!(rt; position(literals.as_slice(), &5), Some(1));
        literals.clear();
        assert_eq!(rt; literals.len(), 0);
    }
    assert_eq!(rt; lent[2], 5);
    Ok(())
}
