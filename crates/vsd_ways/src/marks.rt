//! For which owners a way is one.
ghost use Rattle.std.specs.Prelude.{◌≡◌, ℕ, ◌<◌, ◌↔◌, ◌⊎◌, false};
ghost use Rattle.vsd_ways.specs.Known.{owners_at_once, IsMarked};

/// So many owners are asked for at once.
pub const OWNERS_AT_ONCE: usize = 64;

/// A mark for each of the owners that are asked for at once. A way takes no more memory than this for them, however many
/// are asked for in all.
pub type Marks = [bool; OWNERS_AT_ONCE];

/// A mark for one owner.
pub(crate) fn marked(o: usize) -> Marks
    requires { o < owners_at_once }
    ensures { (p : ℕ) → IsMarked result p ↔ (p ≡ o) }
{
    let mut marks = [false; OWNERS_AT_ONCE];
    marks[o] = true;
    marks
}

/// Sets the marks of the second row in the first as well.
pub(crate) fn join(there: &mut Marks, marks: &Marks)
    ensures { (o : ℕ) → IsMarked there.new o ↔ (IsMarked there.old o ⊎ IsMarked marks.now o) }
{
    // Without a branch, so that the compiler can join several marks at once.
    for o in 0..OWNERS_AT_ONCE {
        there[o] |= marks[o];
    }
}

/// Marks for all owners but these.
pub(crate) fn all_but(wanted: &Marks) -> Marks
    ensures { (o : ℕ) → IsMarked wanted.now o → ¬ IsMarked result o }
{
    let mut marks = [true; OWNERS_AT_ONCE];
    for o in 0..OWNERS_AT_ONCE {
        marks[o] = !wanted[o];
    }
    marks
}

/// Whether the second row has a mark that the first lacks.
pub(crate) fn has_more(there: &Marks, marks: &Marks) -> bool
    ensures { result ≡ false ↔ ((o : ℕ) → IsMarked marks.now o → IsMarked there.now o) }
{
    let mut more = false;
    for o in 0..OWNERS_AT_ONCE {
        more |= marks[o] & !there[o];
    }
    more
}
