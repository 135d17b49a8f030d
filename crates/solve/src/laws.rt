// A theorem is asked for where a contract names it, so it stands on a function,
// which itself does nothing.
ghost use Rattle.solve.specs.Worked.{AllWorked};

// All worked examples, those of sessions and below too, by computation.
pub fn examples_hold()
    ensures worked { AllWorked }
{}
