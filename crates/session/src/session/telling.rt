// Writing what a session says into a lent buffer.
ghost use Rattle.std.specs.Prelude.{◌≡◌, ◌≤◌, length, IfOk, IsOk};
ghost use Rattle.std.specs.List.{list_any};
ghost use Rattle.clauses.specs.Clauses.{empty};
ghost use Rattle.lines.specs.Lines.{clause_of};
ghost use Rattle.pages.specs.Reports.{most_report};
ghost use Rattle.session.specs.Sessions.{state};
ghost use Rattle.session.specs.Pages.{sheet_told, report_told, stored, SheetRefutes};

use super::Session;
use answers::refusal::Refusal;
use answers::report::Report;
use lines::line::Line;
use pages::report::Reporting;
use pages::sheet::Sheet;
use writing::written::{Written, write};

// Whether some line is empty.
#[tactic(auto, using(crate::proofs::Pages::any_line))]
fn has_empty(lines: &[Line]) -> bool
    ensures value { result ≡ list_any (λ l. empty (clause_of l)) lines.now }
{
    lines.iter().any(|line| line.clause().is_empty())
}

// Writes a page into the front of a buffer.
fn store<T: Written>(page: &T, buffer: &mut [u8]) -> Result<usize, Refusal>
    ensures value { stored (T.items page.now) buffer.old ≡ (result, buffer.new) }
{
    match write(page, buffer) {
        Ok(length) => Ok(length),
        Err(_) => Err(Refusal::BufferTooShort),
    }
}

impl<'a> Session<'a> {
    // Writes the sheet of its book into the front of a buffer, and tells its
    // length in bytes; bytes after it stay, and a refusal changes none.
    #[tactic(auto, using(crate::proofs::Pages::any_line, crate::proofs::Pages::sheet_refutes))]
    pub fn sheet(&self, buffer: &mut [u8]) -> Result<usize, Refusal>
        ensures value { sheet_told (state self.now) buffer.old ≡ (result, buffer.new) }
        ensures refutes { IfOk result (λ _. SheetRefutes self.now) }
    {
        if self.n == 0 {
            return Err(Refusal::NotOpen);
        }
        if !has_empty(self.book.as_slice()) {
            return Err(Refusal::NoEmptyLine);
        }
        let sheet = Sheet {
            lines: self.book.as_slice(),
            n: self.n,
        };
        store(&sheet, buffer)
    }

    // Writes the report of an answer in the same way, with the assignment where
    // it was met. It tests nothing but the buffer's length.
    pub fn report(&self, report: Report, buffer: &mut [u8]) -> Result<usize, Refusal>
        ensures value { report_told report (state self.now) buffer.old ≡ (result, buffer.new) }
        ensures fits { most_report ≤ length buffer.old → IsOk result }
    {
        let reporting = Reporting {
            report,
            n: self.n,
            word: self.assignment.word,
        };
        store(&reporting, buffer)
    }
}
