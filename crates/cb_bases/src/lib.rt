//! The base of a semiring: a semiring with the same values, sum and numbers, whose product may be another.
//!
//! To read a text, or to write one, takes no product. So it is compiled over the bases alone, of which there are four, and
//! a matrix goes over to its semiring, or back, without a copy of its entries.
#![tactic(auto)]

use cb_semirings::operators::Operator;
use cb_semirings::{FullRange, MaxMin, MinPlus, OrAnd, PlusTimes, Semiring, WithProduct};

/// A semiring that has a base.
pub trait Based: Semiring {
    ghost use Rattle.cb_bases.specs.Bases.{IsBaseOf};

    /// A semiring that differs at most in its product.
    type Base: Semiring + Send + Sync;

    /// They differ at most in the product.
    ghost has_base: { IsBaseOf Self.Semiring.arithmetic Self.Base.arithmetic };
}

impl Based for PlusTimes {
    ghost use Rattle.std.proofs.Common.{refl};

    type Base = PlusTimes;

    ghost has_base = { refl };
}

impl Based for MinPlus {
    ghost use Rattle.std.proofs.Common.{refl};

    type Base = MinPlus;

    ghost has_base = { refl };
}

impl Based for OrAnd {
    ghost use Rattle.std.proofs.Common.{refl};

    type Base = OrAnd;

    ghost has_base = { refl };
}

impl Based for MaxMin {
    ghost use Rattle.std.proofs.Common.{refl};

    type Base = MaxMin;

    ghost has_base = { refl };
}

impl<S: FullRange + Send + Sync, P: Operator> Based for WithProduct<S, P> {
    ghost use Rattle.std.proofs.Common.{refl};

    type Base = S;

    ghost has_base = { refl };
}
