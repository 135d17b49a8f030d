// Learning: the second of the five steps.
ghost use Rattle.std.specs.Prelude.{◌≡◌, neg_ℤ, option_map, IfSome};
ghost use Rattle.words.specs.Bits.{first};
ghost use Rattle.clauses.specs.Clauses.{critical};
ghost use Rattle.clauses.specs.Values.{full, truths};
ghost use Rattle.clauses.specs.Words.{signs};
ghost use Rattle.lines.specs.Lines.{candidate_of};
ghost use Rattle.steps.specs.Writing.{learnt};
ghost use Rattle.weighing.specs.Books.{standing};
ghost use Rattle.search.specs.Laws.{KeepsTheFacts, IsBroken};

use crate::resolving::new_resolvent;
use clauses::clause::Clause;
use clauses::literal::opposite;
use lines::line::Line;
use valuations::judging::{is_broken, is_critical};
use valuations::valuation::Full;
use weighing::book::Book;

// Whether the clause is critical on the literal that says the contrary.
#[tactic(auto, using(crate::proofs::Learnt::uncritical_past_all))]
fn is_critical_against(assignment: &Full, clause: &Clause, literal: i32) -> bool
    ensures value { result
        ≡ critical (full assignment.now.word) (neg_ℤ literal) (signs clause.now) }
{
    match opposite(literal) {
        Some(contrary) => is_critical(assignment, clause, contrary),
        None => false,
    }
}

// The line to learn: for each broken line g from the oldest on, for each of its
// variables from the lowest on, each line h that is critical on the literal
// that g lacks there, again from the oldest on. The first of their resolvents
// that is new to the book.
pub fn learn(book: &Book<'_>, assignment: &Full) -> Option<Line>
    ensures value { option_map candidate_of result
        ≡ first (learnt (standing book.now) (truths book.now.n assignment.now.word)) }
    ensures keeps { IfSome result (KeepsTheFacts book.now.n book.now.lines.now) }
    ensures broken { IfSome result (IsBroken (truths book.now.n assignment.now.word)) }
{
    'search: {
        for g in 0..book.lines.len() {
            let broken = book.lines[g].clause();
            if !is_broken(assignment, &broken) {
                continue;
            }
            for literal in broken.literals() {
                for h in 0..book.lines.len() {
                    if !is_critical_against(assignment, &book.lines[h].clause(), literal) {
                        continue;
                    }
                    if let Some(line) = new_resolvent(book, g, h) {
                        break 'search Some(line);
                    }
                }
            }
        }
        None
    }
}
