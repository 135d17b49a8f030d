// A book's sheet as a page.
ghost use Rattle.std.specs.Prelude.{◌≡◌};
ghost use Rattle.clauses.specs.Words.{signs};
ghost use Rattle.clauses.specs.Clauses.{literals};
ghost use Rattle.lines.specs.Lines.{candidate_of, candidates};
ghost use Rattle.writing.specs.Pages.{Tells};
ghost use Rattle.pages.specs.Says.{count_items, clause_items, line_items, lines_items, part, renumbered, sheet_number};

use crate::numbering::Numbering;
use clauses::clause::Clause;
use lines::line::{Line, Origin};
use writing::page::Page;
use writing::written::Written;

// A number, and the end of the line.
fn write_count(k: u64, page: &mut Page<'_>)
    ensures tells { Tells (count_items k) page.old page.new }
{
    page.number(k);
    page.end();
}

// The literals of a clause by rising variable, and 0.
fn write_clause(clause: &Clause, page: &mut Page<'_>)
    ensures tells { Tells (clause_items (literals (signs clause.now))) page.old page.new }
{
    for literal in clause.literals() {
        page.signed(literal);
        page.space();
    }
    write_count(0, page);
}

// A line of the sheet; the numbers are those that lines have there.
fn write_line(line: &Line, numbers: &Numbering<'_>, page: &mut Page<'_>)
    ensures tells { Tells (line_items
        (renumbered (sheet_number (candidates numbers.now.lines.now)) (candidate_of line.now)))
        page.old page.new }
{
    match line.origin() {
        Origin::Given => write_clause(&line.clause(), page),
        Origin::Resolved {
            variable,
            first,
            second,
        } => {
            page.number(u64::from(variable));
            page.space();
            page.number(numbers.number(first));
            page.space();
            write_count(numbers.number(second), page);
        }
        Origin::Widened { from } => {
            page.number(0);
            page.space();
            page.number(numbers.number(from));
            page.space();
            write_clause(&line.clause(), page);
        }
    }
}

// The lines of one kind.
fn write_lines(lines: &[Line], given: bool, numbers: &Numbering<'_>, page: &mut Page<'_>)
    ensures tells { Tells (lines_items
        (part given (sheet_number (candidates numbers.now.lines.now)) (candidates lines.now)))
        page.old page.new }
{
    for line in lines {
        if line.is_given() == given {
            write_line(line, numbers, page);
        }
    }
}

// A book over the variables 1 to n.
#[derive(Clone, Copy)]
pub struct Sheet<'a> {
    pub lines: &'a [Line],
    pub n: u32,
}

impl Written for Sheet<'_> {
    ghost use Rattle.lines.specs.Lines.{candidates};
    ghost use Rattle.pages.specs.Says.{sheet_items};

    ghost items = { λ s. sheet_items s.n (candidates s.lines.now) };

    // The casts are exact: a length is no more than a `u64` tells.
    fn write(&self, page: &mut Page<'_>) {
        let numbers = Numbering::new(self.lines);
        let given = numbers.given();
        write_count(u64::from(self.n), page);
        write_count(given, page);
        write_lines(self.lines, true, &numbers, page);
        write_count(self.lines.len() as u64 - given, page);
        write_lines(self.lines, false, &numbers, page);
    }
}
