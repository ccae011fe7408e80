// What follows a call of read or write.

ghost use Rattle.std.specs.Prelude.{◌≡◌};
ghost use Rattle.files.specs.Calls.{next_of};

use std::io::{self, ErrorKind};

#[derive(Clone, Copy, Debug, PartialEq, Eq)]
pub enum Next {
    // So many bytes more went through.
    On(usize),
    // A signal came before any byte went through: the call is made again.
    Again,
    // No call is to follow: so many bytes came in all, or nothing counts as read.
    Stop(Option<usize>),
}

// How many interrupted calls in a row are borne: the loops have to end also where each call is interrupted.
pub const BORNE: usize = 1000;

// What an answer leads to, where done bytes went through before and left interrupted calls are still borne.
#[tactic(auto, unfolding(crate::specs::Calls::next_of))]
pub fn after(called: io::Result<usize>, left: usize, done: usize) -> Next
    ensures { result ≡ next_of called left done }
{
    match called {
        Ok(0) => Next::Stop(Some(done)),
        Ok(n) => Next::On(n),
        Err(e) => match e.kind() {
            ErrorKind::Interrupted if left > 0 => Next::Again,
            _ => Next::Stop(None),
        },
    }
}
