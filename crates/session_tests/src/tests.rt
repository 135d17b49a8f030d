use answers::load::{LoadFault, LoadRefusal};
use answers::refusal::Refusal;
use answers::report::Report;
use answers::run::{Outcome, Ran};
use clauses::clause::Clause;
use guides::longest::LongestFirst;
use lines::line::Line;
use session::session::Session;
use std::test::Fail;
use text::faults::TextFault;

#[test]
fn seven_steps(rt: HostRuntime) -> Result<(), Fail> {
    let mut places = [Line::given(Clause { pos: 0, neg: 0 }); 9];
    let mut session = Session::new(&mut places);
    session.open(2, 0)?;
    assert_eq!(rt; session.add(&[1, 2])?, Some(1));
    assert_eq!(rt; session.add(&[-1, 2])?, Some(2));
    assert_eq!(rt; session.add(&[1, -2])?, Some(3));
    assert_eq!(rt; session.add(&[-1, -2])?, Some(4));
    assert_eq!(rt;
        session.run(&LongestFirst, 7)?,
        Ran {
            outcome: Outcome::NoneMeets,
            steps: 7
        }
    );
    assert_eq!(rt; session.lines(), 9);
    Ok(())
}

#[test]
fn six_and_one(rt: HostRuntime) -> Result<(), Fail> {
    let mut places = [Line::given(Clause { pos: 0, neg: 0 }); 9];
    let mut session = Session::new(&mut places);
    session.open(2, 0)?;
    assert_eq!(rt;
        session.load(b"p cnf 2 4\n1 2 0\n-1 2 0\n1 -2 0\n-1 -2 0\n")?,
        4
    );
    assert_eq!(rt;
        session.run(&LongestFirst, 6)?,
        Ran {
            outcome: Outcome::Spent,
            steps: 6
        }
    );
    assert_eq!(rt;
        session.run(&LongestFirst, 1)?,
        Ran {
            outcome: Outcome::NoneMeets,
            steps: 1
        }
    );
    Ok(())
}

#[test]
fn eight_places(rt: HostRuntime) -> Result<(), Fail> {
    let mut places = [Line::given(Clause { pos: 0, neg: 0 }); 8];
    let mut session = Session::new(&mut places);
    session.open(2, 0)?;
    assert_eq!(rt;
        session.load(b"p cnf 2 4\n1 2 0\n-1 2 0\n1 -2 0\n-1 -2 0\n")?,
        4
    );
    assert_eq!(rt;
        session.run(&LongestFirst, 7)?,
        Ran {
            outcome: Outcome::Full,
            steps: 6
        }
    );
    assert_eq!(rt; session.add(&[1, -1, 2])?, None);
    assert_eq!(rt; session.add(&[2, 1])?, Some(1));
    assert_eq!(rt; session.add(&[3]), Err(Refusal::NoLiteral));
    assert_eq!(rt; session.add(&[]), Err(Refusal::NoFreePlace));
    Ok(())
}

#[test]
fn texts(rt: HostRuntime) -> Result<(), Fail> {
    let mut places = [Line::given(Clause { pos: 0, neg: 0 }); 9];
    let mut session = Session::new(&mut places);
    let unopened = LoadRefusal {
        fault: LoadFault::NotOpen,
        taken: 0,
    };
    assert_eq!(rt; session.load(b""), Err(unopened));
    session.open(2, 0)?;
    let above = LoadRefusal {
        fault: LoadFault::Text(TextFault::AboveVariables { place: 12 }),
        taken: 0,
    };
    assert_eq!(rt; session.load(b"p cnf 2 1\n1 3 0"), Err(above));
    let more = LoadRefusal {
        fault: LoadFault::Text(TextFault::WordAfterClauses { place: 18 }),
        taken: 2,
    };
    assert_eq!(rt; session.load(b"p cnf 2 2\n1 0\n2 0 -1"), Err(more));
    assert_eq!(rt; session.lines(), 2);
    Ok(())
}

#[test]
fn empty_texts(rt: HostRuntime) -> Result<(), Fail> {
    let mut places = [Line::given(Clause { pos: 0, neg: 0 }); 2];
    let mut session = Session::new(&mut places);
    session.open(2, 0)?;
    assert_eq!(rt; session.load(b"p cnf 2 0")?, 0);
    assert_eq!(rt;
        session.run(&LongestFirst, 7)?,
        Ran {
            outcome: Outcome::Met,
            steps: 0
        }
    );
    assert_eq!(rt; session.load(b"p cnf 2 1 0")?, 1);
    assert_eq!(rt;
        session.run(&LongestFirst, 7)?,
        Ran {
            outcome: Outcome::NoneMeets,
            steps: 0
        }
    );
    assert_eq!(rt; session.open(2, 0), Err(Refusal::AlreadyOpen));
    assert_eq!(rt; session.restart(4), Err(Refusal::StartOutOfRange));
    Ok(())
}

#[test]
fn what_is_read(rt: HostRuntime) -> Result<(), Fail> {
    let mut places = [Line::given(Clause { pos: 0, neg: 0 }); 9];
    let mut session = Session::new(&mut places);
    assert_eq!(rt;
        (session.n(), session.lines(), session.assignment()),
        (0, 0, 0)
    );
    assert_eq!(rt; session.line(1), Err(Refusal::NotOpen));
    assert_eq!(rt; session.run(&LongestFirst, 1), Err(Refusal::NotOpen));
    assert_eq!(rt; session.open(0, 0), Err(Refusal::VariablesOutOfRange));
    assert_eq!(rt; session.open(65, 0), Err(Refusal::VariablesOutOfRange));
    assert_eq!(rt; session.open(320, 0), Err(Refusal::VariablesOutOfRange));
    assert_eq!(rt; session.open(2, 4), Err(Refusal::StartOutOfRange));
    session.open(2, 2)?;
    session.add(&[-1, 2, -1])?;
    session.add(&[-2])?;
    assert_eq!(rt;
        session.run(&LongestFirst, 1_000_001),
        Err(Refusal::BudgetTooLarge)
    );
    assert_eq!(rt;
        session.run(&LongestFirst, 1_000_000)?,
        Ran {
            outcome: Outcome::Met,
            steps: 1
        }
    );
    assert_eq!(rt;
        (session.n(), session.lines(), session.assignment()),
        (2, 2, 0)
    );
    assert_eq!(rt; session.line(1)?, Line::given(Clause { pos: 2, neg: 1 }));
    assert_eq!(rt; session.line(0), Err(Refusal::NoSuchLine));
    assert_eq!(rt; session.line(3), Err(Refusal::NoSuchLine));
    session.restart(3)?;
    assert_eq!(rt; (session.lines(), session.assignment()), (2, 3));
    Ok(())
}

// Every assignment of 64 variables is a start.
#[test]
fn most_variables(rt: HostRuntime) -> Result<(), Fail> {
    let mut places = [Line::given(Clause { pos: 0, neg: 0 }); 1];
    let mut session = Session::new(&mut places);
    session.open(64, u64::MAX)?;
    assert_eq!(rt; session.add(&[-64, -1])?, Some(1));
    assert_eq!(rt; session.add(&[i32::MIN]), Err(Refusal::NoLiteral));
    assert_eq!(rt;
        session.run(&LongestFirst, 9)?,
        Ran {
            outcome: Outcome::Met,
            steps: 1
        }
    );
    assert_eq!(rt; session.assignment(), u64::MAX - 1);
    Ok(())
}

// The sheet of the run on all four clauses of two variables.
const SHEET: &str = "2\n4\n1 2 0\n-1 2 0\n1 -2 0\n-1 -2 0\n\
    5\n1 1 2\n1 3 4\n2 3 1\n2 4 2\n2 6 5\n";

// The same, one step short, with the empty clause given.
const SHEET_GIVEN_LAST: &str = "2\n5\n1 2 0\n-1 2 0\n1 -2 0\n-1 -2 0\n0\n\
    4\n1 1 2\n1 3 4\n2 3 1\n2 4 2\n";

// All four clauses of two variables, run to an empty line.
fn refuted(session: &mut Session<'_>) -> Result<(), Fail> {
    session.open(2, 0)?;
    session.load(b"p cnf 2 4\n1 2 0\n-1 2 0\n1 -2 0\n-1 -2 0\n")?;
    session.run(&LongestFirst, 7)?;
    Ok(())
}

#[test]
fn sheet_of_the_four(rt: HostRuntime) -> Result<(), Fail> {
    let mut places = [Line::given(Clause { pos: 0, neg: 0 }); 9];
    let mut session = Session::new(&mut places);
    let mut buffer = [170; 66];
    assert_eq!(rt; session.sheet(&mut buffer), Err(Refusal::NotOpen));
    refuted(&mut session)?;
    assert_eq!(rt;
        session.sheet(&mut buffer[..63]),
        Err(Refusal::BufferTooShort)
    );
    assert!(rt; buffer.iter().all(|b| *b == 170));
    assert_eq!(rt; session.sheet(&mut buffer)?, 64);
    let (sheet, rest) = buffer.split_at(64);
    assert!(rt; sheet == SHEET.as_bytes());
    assert!(rt; rest == [170, 170].as_slice());
    Ok(())
}

// A given line after derived ones: these come last in the sheet, under other
// numbers. Before it there is no sheet.
#[test]
fn given_lines_first(rt: HostRuntime) -> Result<(), Fail> {
    let mut places = [Line::given(Clause { pos: 0, neg: 0 }); 9];
    let mut session = Session::new(&mut places);
    let mut buffer = [170; 80];
    session.open(2, 0)?;
    session.load(b"p cnf 2 4\n1 2 0\n-1 2 0\n1 -2 0\n-1 -2 0\n")?;
    session.run(&LongestFirst, 6)?;
    assert_eq!(rt; session.sheet(&mut buffer), Err(Refusal::NoEmptyLine));
    session.add(&[])?;
    let length = session.sheet(&mut buffer)?;
    assert!(rt; &buffer[..length.min(80)] == SHEET_GIVEN_LAST.as_bytes());
    Ok(())
}

#[test]
fn reports(rt: HostRuntime) -> Result<(), Fail> {
    let mut places = [Line::given(Clause { pos: 0, neg: 0 }); 9];
    let mut session = Session::new(&mut places);
    let mut buffer = [170; 30];
    let met = Report::Ended(Outcome::Met);
    assert_eq!(rt; session.report(met, &mut buffer)?, 18);
    assert!(rt; buffer.starts_with(b"s SATISFIABLE\nv 0\n"));
    session.open(2, 2)?;
    let mut short = [170; 22];
    assert_eq!(rt;
        session.report(met, &mut short),
        Err(Refusal::BufferTooShort)
    );
    assert!(rt; short.iter().all(|b| *b == 170));
    assert_eq!(rt; session.report(met, &mut buffer)?, 23);
    assert!(rt; buffer.starts_with(b"s SATISFIABLE\nv -1 2 0\n\xaa"));
    let fault = Report::Refused {
        number: 13,
        place: 12,
    };
    assert_eq!(rt; session.report(fault, &mut buffer)?, 19);
    assert!(rt; buffer.starts_with(b"c refused 13 at 12\n"));
    Ok(())
}
