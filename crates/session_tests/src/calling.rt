// A caller of a session. What it promises it has from the guarantee on the
// contract of its last call: the calls before it make a true history.
ghost use Rattle.std.specs.Prelude.{◌≡◌, true, IfOk, IfSome};
ghost use Rattle.clauses.specs.Values.{assigned, truths};
ghost use Rattle.clauses.specs.Literals.{met};

use answers::refusal::Refusal;
use answers::run::Outcome;
use guides::longest::LongestFirst;
use lines::line::Line;
use session::session::Session;

// An assignment of three variables that meets one clause, if the session finds
// it.
pub fn schedule(places: &mut [Line], clause: &[i32]) -> Result<Option<u64>, Refusal>
    ensures meets { IfOk result (λ found. IfSome found
        (λ word. met (assigned (truths 3 word)) clause.now ≡ true)) }
{
    let mut session = Session::new(places);
    session.open(3, 0)?;
    session.add(clause)?;
    let ran = session.run(&LongestFirst, 1000)?;
    match ran.outcome {
        Outcome::Met => Ok(Some(session.assignment())),
        _ => Ok(None),
    }
}
