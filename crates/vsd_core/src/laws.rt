//! What holds of all callers at once, between any two steps. Each law is a function that does nothing and ensures it.
ghost use Rattle.vsd_core.specs.Protection.{ProtectedRowsStay};
ghost use Rattle.vsd_core.specs.CastRows.{CastRowsStay};

/// No row is given again while a caller protects it, and no word of it is stored meanwhile. Wherever the rule
/// of the shared table holds, and each step of each caller keeps it, a row that a pinned caller protects is
/// claimed, its words are those that the caller loaded, and no other caller's knowledge allows a store in it.
pub fn protected_rows_stay()
    ensures { ProtectedRowsStay }
{}

/// A cast row is rewritten only by the caller that made its version odd, and a hit's two words were written together. Wherever
/// the rule of the shared table holds, and each step of each caller keeps it, that caller's knowledge alone allows a store in the
/// row or its publication, and what it has stored since is in the row. A row in which nobody may store has an even version. While
/// the version is the even one that a look at the row loaded first, nobody may store there, and its two words are those that the
/// look loaded.
pub fn cast_rows_stay()
    ensures { CastRowsStay }
{}
