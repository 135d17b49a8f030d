use clauses::clause::Clause;
use clauses::literal::{opposite, variable};
use clauses::value::Value;
use lines::book::number;
use lines::given::given_line;
use lines::line::{Line, Origin};
use lines::resolving::{Resolvent, clash_count, resolve};
use std::test::Fail;
use valuations::judging::{bar, is_broken, is_critical};
use valuations::valuation::{Full, Partial, Valuation};

// (1 2), (-1 2), (1 -2), (-1 -2)
const ALL: [Clause; 4] = [
    Clause { pos: 3, neg: 0 },
    Clause { pos: 2, neg: 1 },
    Clause { pos: 1, neg: 2 },
    Clause { pos: 0, neg: 3 },
];

#[test]
fn resolvents(rt: HostRuntime) {
    assert_eq!(rt; clash_count(&ALL[0], &ALL[1]), 1);
    assert_eq!(rt; clash_count(&ALL[0], &ALL[3]), 2);
    assert!(rt; resolve(&ALL[0], &ALL[3]).is_none());
    assert!(rt; resolve(&ALL[0], &ALL[0]).is_none());
    assert_eq!(rt;
        resolve(&ALL[0], &ALL[1]),
        Some(Resolvent {
            variable: 1,
            clause: Clause { pos: 2, neg: 0 },
        })
    );
}

#[test]
fn given_clauses(rt: HostRuntime) -> Result<(), Fail> {
    assert_eq!(rt; given_line(&[2, 1, 2], 2)?, Some(Line::given(ALL[0])));
    assert_eq!(rt; given_line(&[1, -1, 2], 2)?, None);
    assert_eq!(rt;
        given_line(&[], 1)?,
        Some(Line::given(Clause { pos: 0, neg: 0 }))
    );
    assert_eq!(rt;
        given_line(&[-64, 1], 64)?,
        Some(Line::given(Clause {
            pos: 1,
            neg: 1 << 63,
        }))
    );
    assert!(rt; given_line(&[1, 0], 2).is_err());
    assert!(rt; given_line(&[1, -1, 3], 2).is_err());
    assert!(rt; given_line(&[65], 64).is_err());
    assert!(rt; given_line(&[65], 4_000_000_000).is_err());
    assert!(rt; given_line(&[i32::MIN], 64).is_err());
    Ok(())
}

#[test]
fn literals_by_rising_variable(rt: HostRuntime) -> Result<(), Fail> {
    assert_eq!(rt; variable(-64, 64), Some(64));
    assert_eq!(rt; variable(i32::MIN, 2_147_483_648), Some(2_147_483_648));
    assert_eq!(rt; variable(0, 64), None);
    assert_eq!(rt; opposite(-5), Some(5));
    assert_eq!(rt; opposite(i32::MIN), None);
    let clause = Clause {
        pos: 1 << 63,
        neg: 5,
    };
    assert_eq!(rt; clause.length(), 3);
    assert!(rt; clause.holds(-3) & !clause.holds(3) & !clause.holds(0) & !clause.holds(i32::MIN));
    let mut rest = clause;
    for expected in [-1, -3, 64] {
        let Some((literal, others)) = rest.split_first() else {
            assert!(rt; false);
            return Ok(());
        };
        assert_eq!(rt; literal, expected);
        rest = others;
    }
    assert!(rt; rest.split_first().is_none());
    assert_eq!(rt;
        Clause {
            pos: u64::MAX,
            neg: 0,
        }
        .length(),
        64
    );
    Ok(())
}

#[test]
fn judged(rt: HostRuntime) {
    let none = Full { word: 0 };
    assert!(rt; is_broken(&none, &ALL[0]) & !is_broken(&none, &ALL[1]));
    assert!(rt; is_critical(&none, &ALL[1], -1) & !is_critical(&none, &ALL[1], 2));
    assert!(rt; !is_critical(&none, &ALL[3], -1) & !is_critical(&none, &ALL[3], -2));
    assert!(rt; is_broken(&none, &Clause { pos: 0, neg: 0 }));
    assert_eq!(rt; bar(&none, 2), ALL[0]);
    assert_eq!(rt; bar(&Full { word: 1 }, 1), Clause { pos: 0, neg: 1 });
    let first = Partial { set: 1, word: 0 };
    assert!(rt; !is_broken(&first, &ALL[0]));
    assert_eq!(rt; first.value(-1), Value::True);
    assert_eq!(rt; first.value(1), Value::False);
    assert_eq!(rt; first.value(2), Value::Unset);
    assert_eq!(rt; none.value(-64), Value::True);
    assert_eq!(rt; none.value(65), Value::Unset);
}

#[test]
fn numbered_lines(rt: HostRuntime) {
    let book = [
        Line::given(ALL[0]),
        Line::given(ALL[1]),
        Line::resolved(1, 1, 2, Clause { pos: 2, neg: 0 }),
        Line::widened(3, ALL[0]),
    ];
    assert_eq!(rt; number(&book, &ALL[0]), Some(1));
    assert_eq!(rt; number(&book, &Clause { pos: 2, neg: 0 }), Some(3));
    assert_eq!(rt; number(&book, &ALL[2]), None);
    assert_eq!(rt; book[3].origin(), Origin::Widened { from: 3 });
    assert!(rt; book[3] == Line::given(ALL[0]));
}
