//! One of a fixed number of things that are numbered from 0: a truck, a pile.
ghost use Rattle.std.specs.Prelude.{◌≡◌, ◌<◌, ℕ, cond, nat_lt, Some, None};

use std::marker::Model;

/// The number of one of `N` things.
#[derive(Clone, Copy)]
pub(crate) struct OneOf<const N: usize> {
    at: usize,
}

impl<const N: usize> Model for OneOf<N> {
    ghost Value = { ℕ };

    ghost view = { λ one. one.at };

    ghost invariant = { λ one. one.at < N };

    ghost inverse = { λ at. record { at = at } };
}

impl<const N: usize> OneOf<N> {
    /// The one of that number, if there is one.
    pub(crate) fn of(number: u16) -> Option<OneOf<N>>
        ensures { result ≡ cond (nat_lt number N) (Some number) None }
    {
        let at = usize::from(number);
        if at < N { Some(OneOf { at }) } else { None }
    }

    /// Its number, which tells its place in an array of all of them.
    pub(crate) fn index(&self) -> usize
        ensures number { result ≡ self.now }
        ensures inside { result < N }
    {
        self.at
    }
}
