//! Why no token was read.
ghost use Rattle.std.specs.Prelude.{◌≡◌};
ghost use Rattle.pj_lex.specs.declared.stuck.Stuck.TheVariants as stucks;

use std::alloc::AllocFailed;

/// Why no token was read.
#[derive(Clone, Copy)]
pub enum Stuck<'a> {
    /// A bad token, by the bytes from its offset to the end of the body.
    At(&'a [u8]),
    NoMemory,
}

impl<'a, T: Drop> From<AllocFailed<T>> for Stuck<'a> {
    ghost from_gives = { λ _ e. e ≡ stucks.NoMemory };

    fn from(_e: AllocFailed<T>) -> Stuck<'a> {
        Stuck::NoMemory
    }
}
