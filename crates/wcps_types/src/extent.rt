//! The domain of a value that is typed. That of a coverage stays in its signature.

ghost use Rattle.std.specs.Prelude.{◌≡◌, IfOk};
ghost use Rattle.arr_core.specs.Domains.{IsDomain};

use arr_core::{Axis, Domain};
use std::alloc::{AllocError, Global};
use std::marker::Model;

/// Where a domain stands.
#[derive(Drop)]
enum Held<'a> {
    /// With another owner.
    Lent(&'a Domain),
    /// Here.
    Own(Domain),
}

/// A domain, lent or its own.
#[derive(Drop)]
pub struct Extent<'a> {
    held: Held<'a>,
}

impl<'a> Model for Extent<'a> {
    ghost use Rattle.std.specs.Prelude.{List};
    ghost use Rattle.arr_core.specs.declared.domain.Axis.{Axis};
    ghost use Rattle.wcps_types.specs.Extents.{held_axes};

    ghost Value = { List Axis };

    ghost view = { λ e. held_axes e.held };
}

impl<'a> Extent<'a> {
    /// A domain that another owner keeps.
    pub fn lent(domain: &'a Domain) -> Extent<'a>
        ensures { result ≡ domain.now }
    {
        Extent {
            held: Held::Lent(domain),
        }
    }

    /// A domain that it keeps.
    pub fn own(domain: Domain) -> Extent<'a>
        ensures { result ≡ domain }
    {
        Extent {
            held: Held::Own(domain),
        }
    }

    /// The domain.
    pub fn domain(&self) -> &Domain
        ensures { result.now ≡ self.now }
    {
        match &self.held {
            Held::Lent(domain) => domain,
            Held::Own(domain) => domain,
        }
    }

    /// The axes, in order.
    pub fn axes(&self) -> &[Axis]
        ensures value { result.now ≡ self.now }
        ensures domain { IsDomain self.now }
    {
        self.domain().axes()
    }

    /// The domain for a new owner: a copy where it is lent.
    pub fn into_domain(self, alloc: Global) -> Result<Domain, AllocError>
        ensures { IfOk result (λ d. d ≡ self.entry) }
    {
        match self.held {
            Held::Lent(domain) => Ok(domain.copy(alloc)?),
            Held::Own(domain) => Ok(domain),
        }
    }
}
