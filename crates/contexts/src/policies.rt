//! The three policies.
ghost use Rattle.std.specs.Prelude.{◌≡◌, [], ◌∷◌, option_map};
ghost use Rattle.contexts.specs.SiteLists.{site_list};

use crate::Contexts;
use crate::sites::{ContextSite, UpToTwo};
use jo_ids::{ObjKey, SiteId, SiteList};

/// One context for all.
#[derive(Clone, Copy)]
pub struct NoContext;

/// Methods by the site that makes their receiver.
#[derive(Clone, Copy)]
pub struct Object1;

/// Methods by the site that makes their receiver and that of the object whose method made it, objects by the
/// latter.
#[derive(Clone, Copy)]
pub struct Object2;

impl Contexts for NoContext {
    type C = ();

    ghost use Rattle.contexts.specs.Policies.{insensitive, receiver_of};
    ghost use Rattle.contexts.specs.SiteLists.{no_site};
    ghost use Rattle.contexts.specs.ContextLaws.{insensitive_keeps, none_short, none_same, none_decided};

    ghost policy = { λ _. insensitive };

    ghost list = { no_site };

    ghost at_most_two = { none_short };

    ghost equal_lists = { none_same };

    ghost equality = { none_decided };

    ghost keeps_two = { λ _. insensitive_keeps };

    fn root(&self) {}

    fn enter(&self, caller: (), site: SiteId, receiver: Option<ObjKey<()>>)
        ensures { no_site result ≡
            insensitive.enter (no_site caller) site (option_map (receiver_of no_site) receiver) }
    {}

    fn heap(&self, _context: (), _site: SiteId) {}

    fn sites(&self, _context: ()) -> SiteList {
        no_sites()
    }
}

impl Contexts for Object1 {
    type C = Option<ContextSite>;

    ghost use Rattle.contexts.specs.Policies.{one_object_sensitive, receiver_of};
    ghost use Rattle.contexts.specs.SiteLists.{at_most_one};
    ghost use Rattle.contexts.specs.ContextLaws.{one_short, one_same, one_decided, one_keeps};

    ghost policy = { λ _. one_object_sensitive };

    ghost list = { at_most_one };

    ghost at_most_two = { one_short };

    ghost equal_lists = { one_same };

    ghost equality = { one_decided };

    ghost keeps_two = { λ _. one_keeps };

    fn root(&self) -> Option<ContextSite> {
        None
    }

    fn enter(
        &self,
        caller: Option<ContextSite>,
        site: SiteId,
        receiver: Option<ObjKey<Option<ContextSite>>>,
    ) -> Option<ContextSite>
        ensures { at_most_one result ≡
            one_object_sensitive.enter (at_most_one caller) site
            (option_map (receiver_of at_most_one) receiver) }
    {
        match receiver {
            None => caller,
            Some(object) => Some(ContextSite::of(object.site)),
        }
    }

    fn heap(&self, _context: Option<ContextSite>, _site: SiteId) -> Option<ContextSite> {
        None
    }

    fn sites(&self, context: Option<ContextSite>) -> SiteList {
        match context {
            None => no_sites(),
            Some(site) => one_site(site),
        }
    }
}

impl Contexts for Object2 {
    type C = UpToTwo;

    ghost use Rattle.contexts.specs.Policies.{two_object_sensitive, receiver_of};
    ghost use Rattle.contexts.specs.SiteLists.{at_most_two as up_to_two};
    ghost use Rattle.contexts.specs.ContextLaws.{two_short, two_same, two_decided, two_keep};

    ghost policy = { λ _. two_object_sensitive };

    ghost list = { up_to_two };

    ghost at_most_two = { two_short };

    ghost equal_lists = { two_same };

    ghost equality = { two_decided };

    ghost keeps_two = { λ _. two_keep };

    fn root(&self) -> UpToTwo {
        UpToTwo::NoSite
    }

    fn enter(&self, caller: UpToTwo, site: SiteId, receiver: Option<ObjKey<UpToTwo>>) -> UpToTwo
        ensures { up_to_two result ≡
            two_object_sensitive.enter (up_to_two caller) site
            (option_map (receiver_of up_to_two) receiver) }
    {
        let Some(object) = receiver else {
            return caller;
        };
        let site = ContextSite::of(object.site);
        match object.context {
            UpToTwo::NoSite => UpToTwo::OneSite(site),
            UpToTwo::OneSite(maker) | UpToTwo::TwoSites(maker, _) => UpToTwo::TwoSites(site, maker),
        }
    }

    fn heap(&self, context: UpToTwo, _site: SiteId) -> UpToTwo {
        match context {
            UpToTwo::NoSite => UpToTwo::NoSite,
            UpToTwo::OneSite(first) | UpToTwo::TwoSites(first, _) => UpToTwo::OneSite(first),
        }
    }

    fn sites(&self, context: UpToTwo) -> SiteList {
        match context {
            UpToTwo::NoSite => no_sites(),
            UpToTwo::OneSite(site) => one_site(site),
            UpToTwo::TwoSites(first, second) => SiteList {
                len: 2,
                first: first.id(),
                second: second.id(),
            },
        }
    }
}

fn no_sites() -> SiteList
    ensures { result ≡ site_list [] }
{
    SiteList {
        len: 0,
        first: SiteId::of(0),
        second: SiteId::of(0),
    }
}

fn one_site(site: ContextSite) -> SiteList
    ensures { result ≡ site_list (site.number ∷ []) }
{
    SiteList {
        len: 1,
        first: site.id(),
        second: SiteId::of(0),
    }
}
