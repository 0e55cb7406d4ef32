//! What the text of answers rests on, and that it is the text by types.
ghost use Rattle.std.specs.Prelude.{◌≡◌, ℕ, List};
ghost use Rattle.vsd_terms.specs.declared.term.Term.{Term};
ghost use Rattle.vsd_ast.specs.declared.scripts.Script.{Script};
ghost use Rattle.vsd_answers.specs.Answers.{CanAnswer, World, answers_of};
ghost use Rattle.vsd_lines.specs.Lines.{AgreeOn, text_of};
ghost use Rattle.vsd_lines.specs.Said.{Agrees, IsScriptText};

/// The text of answers rests on the texts of the methods that are called and of the slots that are missing, and on no others:
/// so only those need to be made.
pub fn text_law()
    ensures { (script : Script) (tokens : List ℕ) (method other_method slot other_slot : ℕ → List ℕ) (answers : List (List ℕ))
        → AgreeOn tokens method other_method slot other_slot script.lanes answers
        → text_of script tokens method slot answers ≡ text_of script tokens other_method other_slot answers }
{}

/// What calls say and what is compatible, as relations on types alone.
pub trait Telling {
    // What a call says on an object of the first type, through a slot of an interface.
    ghost says: { Term → Term → ℕ → List ℕ → Type 0 };

    // The first type is compatible with the second.
    ghost fits: { Term → Term → Type 0 };
}

/// Where the lists of a world, the numbers of the roots' types and the tokens of the sites agree with what calls say and what is
/// compatible, the text of the answers that the lists give is the text by types, which names no list and no number.
pub fn said_law<T: Telling>()
    ensures { (w : World) (script : Script) (types tokens : List ℕ) (method slot : ℕ → List ℕ)
        → Agrees T.says T.fits script w types tokens method slot → CanAnswer w script types tokens
        → IsScriptText T.says T.fits script (text_of script tokens method slot (answers_of w script types tokens)) }
{}

/// A script has one text by types at most, where each call says one thing.
pub fn one_text_law<T: Telling>()
    ensures { (script : Script)
        → ((t interface : Term) (slot : ℕ) (a b : List ℕ) → T.says t interface slot a → T.says t interface slot b → a ≡ b)
        → (a b : List ℕ) → IsScriptText T.says T.fits script a → IsScriptText T.says T.fits script b → a ≡ b }
{}
