// What a collection holds: the number of drafts opened, the draft, and the entered formulas.
ghost use Rattle.std.specs.Prelude.{◌≡◌, true};
ghost use Rattle.checker.specs.Sound.{sound};

use checker::{Draft, Tables};
use std::marker::PhantomData;

/// A collection of formulas over an algebra of samples.
#[derive(Drop)]
pub struct Collection<A> {
    pub(crate) serials: u32,
    pub(crate) draft: Draft,
    pub(crate) tables: Tables,
    pub(crate) algebra: PhantomData<A>,
    ghost sound: { sound draft tables ≡ true },
}
