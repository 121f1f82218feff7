//! Laws of control dependence. Each function is empty: what it ensures is the law.
ghost use Rattle.std.specs.Prelude.{◌≡◌};
ghost use Rattle.control_dep.specs.Ways.{HasOneSuccessorEach, IsClosed, Way, WayOut};

/// Any graph, with its exits, from which no edge leads, and a set of its nodes. Two nodes are one or they differ.
pub trait ChosenNodes {
    ghost use Rattle.std.specs.Prelude.{◌≡◌, ◌⊎◌, ◌≢◌};

    ghost leads: { Self → Self → Type 0 };

    ghost ends: { Self → Type 0 };

    ghost chosen: { Self → Type 0 };

    ghost ends_lead_nowhere: { (a b : Self) → ends a → leads a b → ⊥ };

    ghost compared: { (a b : Self) → (a ≡ b) ⊎ (a ≢ b) };
}

/// Take a set of nodes that are no exits and that has, with each of its nodes, all that control it. Where a way leads from a
/// node to a first node of the set, each node before has exactly one successor on it, no way leads to another first node of
/// the set, and none leads past the set to an exit.
pub fn next_node<N: ChosenNodes>()
    ensures one_successor { IsClosed N.leads N.ends N.chosen → (x n : N) (way : Way N.leads N.chosen x n) → HasOneSuccessorEach N.leads N.chosen x n way }
    ensures one_next { IsClosed N.leads N.ends N.chosen → (x n other : N) → Way N.leads N.chosen x n → Way N.leads N.chosen x other → other ≡ n }
    ensures no_way_out { IsClosed N.leads N.ends N.chosen → (x n out : N) → Way N.leads N.chosen x n → WayOut N.leads N.ends N.chosen x out → ⊥ }
{}
