// The container. Its calls are in calls.rt.
ghost use Rattle.std.specs.Prelude.{◌≤◌, length};

pub mod calls;

// A stretch of the caller's places, filled from the front: the first `len`
// places hold the entries, the places beyond keep what the caller had there.
// No `Vec`: a session's memory is lent, and nothing below a program allocates.
#[derive(Drop)]
pub struct Filled<'a, T> {
    places: &'a mut [T],
    len: usize,
    ghost fits: { len ≤ length places.now },
}

// Every place holds an entry already.
#[derive(Clone, Copy, PartialEq, Eq, Debug)]
pub struct Full;
