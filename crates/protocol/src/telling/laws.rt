// A theorem is asked for where a contract names it, so it stands on a
// function; the function itself does nothing.
ghost use Rattle.protocol.specs.Telling.{AnAnswerIsItsLine, RefusalsDiffer, TextFaultsDiffer, FaultsDiffer};
ghost use Rattle.protocol.specs.Worked.{WorkedLines};

// Answers that differ have lines that differ, and refusals numbers.
pub fn an_answer_is_its_line()
    ensures told { AnAnswerIsItsLine }
    ensures refusals { RefusalsDiffer }
    ensures text_faults { TextFaultsDiffer }
    ensures faults { FaultsDiffer }
    ensures worked { WorkedLines }
{}
