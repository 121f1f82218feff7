//! The contexts of the policies.
ghost use Rattle.std.specs.Prelude.{◌≡◌};

use jo_ids::SiteId;

/// A site in a context: its number, in an order.
#[derive(Clone, Copy, PartialEq, Eq, PartialOrd, Ord, Hash)]
pub struct ContextSite {
    number: u32,
}

impl ContextSite {
    pub(crate) fn of(site: SiteId) -> ContextSite
        ensures { result.number ≡ site }
    {
        ContextSite {
            number: site.number(),
        }
    }

    pub(crate) fn id(self) -> SiteId
        ensures { result ≡ self.number }
    {
        SiteId::of(self.number)
    }
}

/// A context of at most two sites.
#[derive(Clone, Copy, PartialEq, Eq, PartialOrd, Ord, Hash)]
pub enum UpToTwo {
    NoSite,
    OneSite(ContextSite),
    TwoSites(ContextSite, ContextSite),
}
