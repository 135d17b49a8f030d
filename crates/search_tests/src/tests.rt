use crate::guiding::{Constant, MostBroken};
use clauses::clause::Clause;
use guides::fewest::FewestBroken;
use guides::guide::Guide;
use guides::longest::LongestFirst;
use lines::line::{Line, Origin};
use search::due::{Step, due};
use search::looking::{Seen, look};
use search::walking::oldest_broken;
use std::process::Abort;
use std::test::Fail;
use valuations::valuation::{Full, Partial};
use weighing::book::Book;
use weighing::weighing::weigh;

// (1 2), (-1 2), (1 -2), (-1 -2)
const ALL: [Clause; 4] = [
    Clause { pos: 3, neg: 0 },
    Clause { pos: 2, neg: 1 },
    Clause { pos: 1, neg: 2 },
    Clause { pos: 0, neg: 3 },
];

const ONE: Clause = Clause { pos: 1, neg: 0 };

const NOT_ONE: Clause = Clause { pos: 0, neg: 1 };

const TWO: Clause = Clause { pos: 2, neg: 0 };

const NOT_TWO: Clause = Clause { pos: 0, neg: 2 };

// What a step did, as the examples tell it.
#[derive(Clone, Copy, Debug, PartialEq)]
enum Doing {
    Flips(u32),
    Resolves(u32, u32, u32, Clause),
    Widens(u32, Clause),
    Accepts(u64),
    Gives,
}

fn doing_of(step: &Step) -> Doing {
    match step {
        Step::Flip(v) => Doing::Flips(*v),
        Step::Accept(assignment) => Doing::Accepts(assignment.word),
        Step::Write(line) => match line.origin() {
            Origin::Given => Doing::Gives,
            Origin::Widened { from } => Doing::Widens(from, line.clause()),
            Origin::Resolved {
                variable,
                first,
                second,
            } => Doing::Resolves(variable, first, second, line.clause()),
        },
    }
}

// What is due over these given clauses of two variables.
fn due_over<G: Guide>(clauses: &[Clause], word: u64, guide: &G, rt: &impl Abort) -> Doing {
    let mut lines = [Line::given(ONE); 8];
    assert!(rt; clauses.len() <= 8);
    for (line, clause) in lines.iter_mut().zip(clauses) {
        *line = Line::given(*clause);
    }
    let book = Book::new(&lines[..clauses.len()], 2).expect(rt, "a book");
    let mut assignment = Full { word };
    let step = due(&book, &mut assignment, guide);
    assert!(rt; assignment.word == word);
    doing_of(&step)
}

// The seven steps from both false, each made before the next: then the empty
// line is there.
#[test]
fn seven_steps(rt: HostRuntime) -> Result<(), Fail> {
    let mut lines = ALL.map(Line::given).to_vec(rt.alloc())?;
    let mut assignment = Full { word: 0 };
    let expected = [
        Doing::Resolves(1, 1, 2, TWO),
        Doing::Flips(2),
        Doing::Resolves(1, 3, 4, NOT_TWO),
        Doing::Resolves(2, 3, 1, ONE),
        Doing::Flips(1),
        Doing::Resolves(2, 4, 2, NOT_ONE),
        Doing::Resolves(2, 6, 5, Clause { pos: 0, neg: 0 }),
    ];
    for wanted in expected {
        let book = Book::new(lines.as_slice(), 2).ok_or("a book")?;
        assert_eq!(rt; look(&book, &assignment), Seen::Undecided);
        let step = due(&book, &mut assignment, &LongestFirst);
        assert_eq!(rt; doing_of(&step), wanted);
        match step {
            Step::Flip(v) => assignment.word ^= words::sets::one(v),
            Step::Write(line) => lines.push(line)?,
            Step::Accept(read) => assignment = read,
        }
    }
    let book = Book::new(lines.as_slice(), 2).ok_or("a book")?;
    assert_eq!(rt; look(&book, &assignment), Seen::Refuted);
    Ok(())
}

// Nothing is better under it, so it learns, bars, sweeps and reads off.
#[test]
fn constant_guide(rt: HostRuntime) {
    assert_eq!(rt;
        due_over(&[ONE, ALL[1]], 0, &Constant, &rt),
        Doing::Resolves(1, 1, 2, TWO)
    );
    assert_eq!(rt;
        due_over(&[ALL[3], ONE, TWO], 0, &Constant, &rt),
        Doing::Widens(2, ALL[0])
    );
    assert_eq!(rt;
        due_over(&[ALL[0], ALL[3], ONE, TWO], 0, &Constant, &rt),
        Doing::Resolves(1, 2, 3, NOT_TWO)
    );
    assert_eq!(rt;
        due_over(&[ALL[3], ONE, ALL[0]], 0, &Constant, &rt),
        Doing::Resolves(1, 1, 2, NOT_TWO)
    );
    assert_eq!(rt;
        due_over(&[NOT_ONE, ALL[1]], 1, &Constant, &rt),
        Doing::Accepts(2)
    );
}

// It flips to what breaks more, and comes to bar, sweep and reading off.
#[test]
fn reversed_guide(rt: HostRuntime) {
    assert_eq!(rt; due_over(&[ONE, TWO], 2, &MostBroken, &rt), Doing::Flips(2));
    assert_eq!(rt;
        due_over(&[ONE, TWO], 0, &MostBroken, &rt),
        Doing::Widens(1, ALL[0])
    );
    assert_eq!(rt;
        due_over(&[ALL[0], ONE, ALL[3]], 0, &MostBroken, &rt),
        Doing::Resolves(1, 2, 3, NOT_TWO)
    );
    assert_eq!(rt;
        due_over(&[NOT_ONE, ALL[1]], 1, &MostBroken, &rt),
        Doing::Accepts(2)
    );
}

// The best neighbour and not the first, the lowest variable among equals, and
// each guide as it ranks.
#[test]
fn flips(rt: HostRuntime) {
    assert_eq!(rt; due_over(&[ALL[0]], 0, &LongestFirst, &rt), Doing::Flips(1));
    assert_eq!(rt;
        due_over(&[ALL[0], TWO], 0, &FewestBroken, &rt),
        Doing::Flips(2)
    );
    let mixed = [ALL[0], ONE, ALL[1], NOT_TWO];
    assert_eq!(rt; due_over(&mixed, 0, &LongestFirst, &rt), Doing::Flips(2));
    assert_eq!(rt; due_over(&mixed, 0, &FewestBroken, &rt), Doing::Flips(1));
}

// No variable, no line, an empty line alone, and all 64 variables.
#[test]
fn edges(rt: HostRuntime) -> Result<(), Fail> {
    let mut none = Full { word: 0 };
    let no_lines = Book::new(&[], 64).ok_or("a book")?;
    assert_eq!(rt; look(&no_lines, &none), Seen::Met);
    let step = due(&no_lines, &mut none, &LongestFirst);
    assert_eq!(rt; doing_of(&step), Doing::Accepts(u64::MAX));
    let empty = [Line::given(Clause { pos: 0, neg: 0 })];
    let no_variables = Book::new(&empty, 0).ok_or("a book")?;
    assert_eq!(rt; look(&no_variables, &none), Seen::Refuted);
    let step = due(&no_variables, &mut none, &LongestFirst);
    assert_eq!(rt; doing_of(&step), Doing::Accepts(0));
    let top = Clause {
        pos: 1 << 63,
        neg: 0,
    };
    let lines = [Line::given(top)];
    let book = Book::new(&lines, 64).ok_or("a book")?;
    let step = due(&book, &mut none, &FewestBroken);
    assert_eq!(rt; doing_of(&step), Doing::Flips(64));
    assert_eq!(rt; oldest_broken(&book, &Partial { set: 0, word: 0 }), None);
    assert_eq!(rt; oldest_broken(&book, &none), Some(1));
    Ok(())
}

// A row entry by entry, up to a line of 64 literals; and which lines are a book.
#[test]
fn rows_and_books(rt: HostRuntime) -> Result<(), Fail> {
    let all = Clause {
        pos: u64::MAX,
        neg: 0,
    };
    let lines = [all, ONE, TWO, ALL[0], ALL[3]].map(Line::given);
    let counts = weigh(&Book::new(&lines, 64).ok_or("a book")?, &Full { word: 0 }).counts;
    assert_eq!(rt; counts[0] + counts[3] + counts[63], 0);
    assert_eq!(rt; counts[1], 2);
    assert_eq!(rt; counts[2], 1);
    assert_eq!(rt; counts[64], 1);
    assert!(rt; Book::new(&lines, 63).is_none());
    assert!(rt; Book::new(&lines, 65).is_none());
    let many = vec![in rt.alloc(); Line::given(ONE); 65_537]?;
    assert!(rt; Book::new(many.as_slice(), 1).is_none());
    let most = Book::new(&many.as_slice()[1..], 1).ok_or("a book")?;
    let counts = weigh(&most, &Full { word: 0 }).counts;
    assert_eq!(rt; counts[1], 65_536);
    assert_eq!(rt; look(&most, &Full { word: 1 }), Seen::Met);
    Ok(())
}
