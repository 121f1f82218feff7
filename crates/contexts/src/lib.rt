//! Context policies: in which contexts methods are analysed, and objects told apart.
#![tactic(auto)]

pub mod laws;
mod policies;
mod sites;
#[cfg(test)]
mod tests;

ghost use Rattle.std.specs.Prelude.{◌≡◌, ◌≤◌, ℕ, List, [], length, option_map};
ghost use Rattle.std.specs.Bool.{Decides};
ghost use Rattle.contexts.specs.Policies.{ContextPolicy, KeepsTwo, receiver_of};
ghost use Rattle.contexts.specs.SiteLists.{sites_in, site_list};

use jo_ids::{ObjKey, SiteId, SiteList};
pub use policies::{NoContext, Object1, Object2};
pub use sites::{ContextSite, UpToTwo};
use std::hash::Hash;

/// A context policy. Its contexts are seen as lists of at most two sites.
pub trait Contexts {
    /// A context of a method or of an object.
    type C: Copy + Ord + Hash;

    /// The policy over lists of sites.
    ghost policy: { Self → ContextPolicy };

    /// The sites of a context.
    ghost list: { Self.C → List ℕ };

    /// The context in which the program starts, which is that of its string constants and of the entry's array.
    fn root(&self) -> Self::C
        ensures { list result ≡ [] };

    /// The context of what is called at `site` by a method in the context `caller`. A receiver has its context as an
    /// object.
    fn enter(&self, caller: Self::C, site: SiteId, receiver: Option<ObjKey<Self::C>>) -> Self::C
        ensures { list result ≡
            (policy self.now).enter (list caller) site (option_map (receiver_of list) receiver) };

    /// The context of an object that is made at `site` by a method in that context.
    fn heap(&self, context: Self::C, site: SiteId) -> Self::C
        ensures { list result ≡ (policy self.now).heap (list context) site };

    /// The sites of the context, with the site 0 in the places that are not used.
    fn sites(&self, context: Self::C) -> SiteList
        ensures sites { sites_in result ≡ list context }
        ensures plain { result ≡ site_list (list context) };

    ghost at_most_two: { (context : Self.C) → length (list context) ≤ 2 };

    ghost equal_lists: { (a b : Self.C) → list a ≡ list b → a ≡ b };

    ghost equality: { (a b : Self.C) → Decides (Self.C.eq a b) (a ≡ b) };

    ghost keeps_two: { (contexts : Self) → KeepsTwo (policy contexts) };
}
