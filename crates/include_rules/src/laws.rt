//! The laws of plans. No call of the program is here.

ghost use Rattle.include_rules.specs.Laws.{PlansComeOnce, OrdersFollowNames, CyclesHaveNoOrder};

/// A law: texts have one order or one cycle at most, and never both.
#[tactic(auto, using(crate::proofs::OnePlan::plans_come_once))]
pub fn plans_come_once()
    ensures { PlansComeOnce }
{}

/// A law: in an order each text stands once, behind all that it names.
#[tactic(auto, using(crate::proofs::Following::orders_follow_names))]
pub fn orders_follow_names()
    ensures { OrdersFollowNames }
{}

/// A law: each text of a cycle names the next, and the last the first; so texts with a cycle have no order at all.
#[tactic(auto, using(crate::proofs::Circling::cycles_have_no_order))]
pub fn cycles_have_no_order()
    ensures { CyclesHaveNoOrder }
{}
