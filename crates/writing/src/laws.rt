// A theorem is asked for where a contract names it, so it stands on a
// function; the function itself does nothing.
ghost use Rattle.writing.specs.Told.{WordsAreTold, NumbersAreTold};

// The bytes of a page of words, or of numbers, tell them.
pub fn pages_tell()
    ensures words { WordsAreTold }
    ensures numbers { NumbersAreTold }
{}
