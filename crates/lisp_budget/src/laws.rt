//! What a budget promises, as laws: each function's contract is a law, and its body is empty.

ghost use Rattle.lisp_budget.specs.Budget.{BudgetIsKept, FewAreKnown};

/// In no second, wherever it begins, more bytes were sent to a destination, or to all of them, than the budget allows.
pub fn budget_is_kept()
    ensures { BudgetIsKept }
{}

/// At most 4,096 destinations are known, whatever messages come.
pub fn few_are_known()
    ensures { FewAreKnown }
{}
