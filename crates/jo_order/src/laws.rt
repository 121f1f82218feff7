//! Laws of the definitions. Each function is empty: what it ensures is the law.
ghost use Rattle.std.specs.Prelude.{◌≡◌, ℕ, List};
ghost use Rattle.jo_order.specs.Orders.{GiveOrder, OrderFaultOf};
ghost use Rattle.jo_order.specs.declared.OrderFault.{OrderFault};

/// Names and pairs have at most one fault, and none where they give an order.
pub fn one_fault()
    ensures fault { (names : List (List ℕ)) (pairs : List (ℕ × ℕ)) (f g : OrderFault)
        → OrderFaultOf names pairs f → OrderFaultOf names pairs g → f ≡ g }
    ensures order { (names : List (List ℕ)) (pairs : List (ℕ × ℕ)) (f : OrderFault)
        → GiveOrder names pairs → OrderFaultOf names pairs f → ⊥ }
{}
