//! Each answer that was ever given agrees with whatever is learnt of its handles later. Each law is a function that does nothing and
//! ensures it.
ghost use Rattle.vsd_core.specs.Agreeing.{AnswersAgree, OwnAnswersAgree};

/// Each entry in the log of each caller agrees with all that any caller knows. Wherever the rule of the shared table holds, and each
/// step of each caller keeps it, the target of a call and the answer of a cast are the world's for each type that anyone knows the
/// handles to name, and a handle that a caller loaded names the type that it was loaded for.
pub fn answers_agree()
    ensures { AnswersAgree }
{}

/// Each entry in a caller's log agrees with all that the caller itself knows, between any two of its calls: what it learns of a handle
/// after an answer agrees with the answer. This needs nothing but the caller.
pub fn own_answers_agree()
    ensures { OwnAnswersAgree }
{}
