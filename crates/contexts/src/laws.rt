//! Laws of every context policy. Each function is empty: what it ensures is the law.
ghost use Rattle.std.specs.Prelude.{◌≡◌, ◌≤◌, ℕ, List, length};
ghost use Rattle.contexts.specs.Policies.{IsContext};
ghost use Rattle.contexts.specs.SiteLists.{site_list};

use crate::Contexts;

/// No context that a policy gives, by any calls and objects made, has more than two sites.
pub fn contexts_are_short<X: Contexts>()
    ensures { (contexts : X) (sites : List ℕ) → IsContext (X.policy contexts) sites → length sites ≤ 2 }
{}

/// Contexts that have the same `sites` are the same.
pub fn site_lists_tell_contexts_apart<X: Contexts>()
    ensures { (a b : X.C) → site_list (X.list a) ≡ site_list (X.list b) → a ≡ b }
{}
