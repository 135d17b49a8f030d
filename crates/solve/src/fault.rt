// Why a text is refused, and what a refusal tells.
ghost use Rattle.solve.specs.Answers.{fault_refusal};

use answers::load::{LoadFault, LoadRefusal};
use answers::refusal::Refusal;
use text::faults::telling::Telling;
use text::faults::{Refuser, TextFault, Told};

#[derive(Clone, Copy, PartialEq, Eq, Debug)]
pub enum Fault {
    // The program's own: more bytes than it takes.
    TooMuchInput,
    // Before a session is opened.
    Head(TextFault),
    // By the session.
    Session(Refusal),
    // While it is loaded.
    Load(LoadFault),
}

impl From<TextFault> for Fault {
    ghost use Rattle.std.specs.Prelude.{◌≡◌};
    ghost use Rattle.solve.specs.declared.fault.Fault.TheVariants.{Head};

    ghost from_gives = { λ f r. r ≡ Head f };

    fn from(fault: TextFault) -> Fault {
        Fault::Head(fault)
    }
}

impl From<Refusal> for Fault {
    ghost use Rattle.std.specs.Prelude.{◌≡◌};
    ghost use Rattle.solve.specs.declared.fault.Fault.TheVariants.{Session};

    ghost from_gives = { λ f r. r ≡ Session f };

    fn from(refusal: Refusal) -> Fault {
        Fault::Session(refusal)
    }
}

impl From<LoadRefusal> for Fault {
    ghost use Rattle.std.specs.Prelude.{◌≡◌};
    ghost use Rattle.solve.specs.declared.fault.Fault.TheVariants.{Load};

    ghost from_gives = { λ f r. r ≡ Load f.fault };

    fn from(refusal: LoadRefusal) -> Fault {
        Fault::Load(refusal.fault)
    }
}

impl Telling for Fault {
    ghost refusal = { fault_refusal };

    fn told(&self) -> Told {
        match self {
            Fault::TooMuchInput => Told {
                refuser: Refuser::Session,
                number: 9,
                place: 0,
            },
            Fault::Head(fault) => fault.told(),
            Fault::Session(refusal) => refusal.told(),
            Fault::Load(fault) => fault.told(),
        }
    }
}
