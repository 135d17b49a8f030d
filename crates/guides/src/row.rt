// A row: how many lines are broken, counted by their lengths.
ghost use Rattle.guides.specs.Rows.{Fit};

use limits::LENGTHS;

// Entry k is the number of broken lines of length k.
#[derive(Clone, Copy, Debug)]
pub struct Row {
    pub counts: [u32; LENGTHS],
    pub ghost fit: { Fit counts },
}
