//! What selection comes to, in other words.
ghost use Rattle.vsd_itable.specs.Laws.{ExactAnswers, IsDeclaredUpward, IsMissingUnanswered, IsSelectedWhereImplemented, ListsUpward, NearestComeFirst, NoneAbstract, SelectsOne};

/// A call selects one method, or its slot is missing. The method is declared by the object's type or one above it. An interface
/// that the type or one above it has answers for itself; one that they don't have, and for which none of theirs may answer,
/// is missing; and where one answers and implements the method, something is selected. In a class that isn't abstract it
/// isn't abstract, where declarations are lawful.
pub fn selection_law()
    ensures one { SelectsOne }
    ensures upward { IsDeclaredUpward }
    ensures exact { ExactAnswers }
    ensures missing { IsMissingUnanswered }
    ensures selected { IsSelectedWhereImplemented }
    ensures concrete { NoneAbstract }
{}

/// The interfaces that a call looks at: those that the object's type, or one above it, reaches by naming and requiring, each
/// once; the type's own come first, and then those of its base in their order.
pub fn interfaces_upward_law()
    ensures listed { ListsUpward }
    ensures nearest { NearestComeFirst }
{}
