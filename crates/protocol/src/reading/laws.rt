// Theorems on reading as a whole; the function itself does nothing.
ghost use Rattle.protocol.specs.Reading.{ALineIsItsCall};
ghost use Rattle.protocol.specs.Worked.{WorkedReadings};

// A line is read as a call just where its words say that call.
#[tactic(auto, using(crate::proofs::Saying::a_line_is_its_call, crate::proofs::Worked::worked_readings))]
pub fn a_line_is_its_call()
    ensures law { ALineIsItsCall }
    ensures worked { WorkedReadings }
{}
