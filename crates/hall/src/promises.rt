//! What cells promise of images of these kinds, with this rule.
ghost use Rattle.hall.specs.Narrow.{narrow_then_few};
ghost use Rattle.hall.specs.Promises.{Promises, depths, trusted_heights};

use crate::setups::{Deep, Trusted};
use cell::laws;

/// Whatever is called, images of depths and of trusted heights are exact, keep their marks, mirror, and depend on
/// frames within reach alone.
pub fn promises_kept()
    ensures deep { Promises depths narrow_then_few }
    ensures trusted { Promises trusted_heights narrow_then_few }
{
    laws::promises_kept::<Deep>();
    laws::promises_kept::<Trusted>();
}
