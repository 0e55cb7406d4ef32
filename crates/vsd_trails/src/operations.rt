//! What holds of the operations. Each law is a function that does nothing and ensures it.
ghost use Rattle.std.specs.Prelude.{◌≡◌, ◌↔◌, ◌⊎◌, true, ℕ, ◌+◌, ◌*◌, ◌<◌, List, [], ◌∷◌, Result, Ok, Err};
ghost use Rattle.vsd_words.specs.declared.handle.Handle.{Handle};
ghost use Rattle.vsd_words.specs.declared.cast_word.CastWord.{CastWord};
ghost use Rattle.vsd_rule.specs.declared.key.Key.{Key};
ghost use Rattle.vsd_rule.specs.declared.step.Act.TheVariants.{LoadCell};
ghost use Rattle.vsd_rule.specs.declared.step.Doing.TheVariants.{Nothing};
ghost use Rattle.vsd_trails.specs.declared.answers.Answer.{Answer};
ghost use Rattle.vsd_trails.specs.declared.answers.CastAnswer.{CastAnswer};
ghost use Rattle.vsd_trails.specs.declared.answers.Seen.{Seen};
ghost use Rattle.vsd_trails.specs.declared.answers.Unloaded.{Unloaded};
ghost use Rattle.vsd_trails.specs.Programs.{Fields, TrailStep, Runs};
ghost use Rattle.vsd_trails.specs.RowTrails.{pinning, unpinning, typing, sweeping};
ghost use Rattle.vsd_trails.specs.CallTrails.{by_walk, calling};
ghost use Rattle.vsd_trails.specs.CastTrails.{casting, is_hit};
ghost use Rattle.vsd_trails.specs.UnloadTrails.{binding, unloading};
ghost use Rattle.vsd_trails.specs.Operations.{called, cast_to, loaded, unloaded};
ghost use Rattle.vsd_trails.specs.Laws.{HasOneLog, AddsEntry, AddsNothing, TakesAtMost};
ghost use Rattle.vsd_trails.specs.CallPaths.{InTurn, PathTells, ShowsUnloaded, HoldsPair};
ghost use Rattle.vsd_trails.specs.CastPaths.{CastAnswerTells, HasNoHit, HoldsCast};
ghost use Rattle.vsd_trails.specs.Attempts.{TriesBucket, TriesByPath, SweepsAtEnd, PurgesCell, PurgesBucket};
ghost use Rattle.vsd_trails.specs.Following.{SetsResolve, RetiresRows, RaisesEpoch};
ghost use Rattle.vsd_rule.specs.Sizes.{LawfulSizes};

/// A list of steps has at most one log.
pub fn has_one_log()
    ensures { (k : Key) → HasOneLog k }
{}

/// A whole trail of an operation adds its one entry to a log in which nothing is unfinished.
pub fn adds_one_entry()
    ensures call { (k : Key) (site : ℕ) (h : Handle) → AddsEntry _ k (calling k site h) (called site h) }
    ensures cast { (k : Key) (source target : Handle) → AddsEntry _ k (casting k source target) (cast_to source target) }
    ensures load { (k : Key) (h : Handle) (number : ℕ) → AddsEntry _ k (binding h number) (loaded number) }
    ensures unload { (k : Key) (h : Handle) → AddsEntry _ k (unloading k h) (λ u. unloaded h) }
{}

/// A pin by itself, its end, a load of a handle word by itself and a sweep by itself add nothing.
pub fn adds_nothing()
    ensures pin { (k : Key) → AddsNothing _ k (pinning Nothing) }
    ensures unpin { (k : Key) → AddsNothing _ k unpinning }
    ensures learn { (k : Key) (h : Handle) → AddsNothing _ k (typing h) }
    ensures sweep { (k : Key) → AddsNothing _ k (sweeping k) }
{}

/// The most steps that each operation takes.
pub fn takes_few_steps()
    ensures call { (k : Key) (site : ℕ) (h : Handle) → TakesAtMost _ k (calling k site h) (52 + k.sizes.callers) }
    ensures cast { (k : Key) (source target : Handle) → TakesAtMost _ k (casting k source target) 39 }
    ensures load { (k : Key) (h : Handle) (number : ℕ) → TakesAtMost _ k (binding h number) 1 }
    ensures unload { (k : Key) (h : Handle) → TakesAtMost _ k (unloading k h) (5 + k.sizes.callers + 5 * (k.sizes.sites + k.sizes.buckets)) }
    ensures learn { (k : Key) (h : Handle) → TakesAtMost _ k (typing h) 1 }
    ensures sweep { (k : Key) → TakesAtMost _ k (sweeping k) (k.sizes.callers + 1) }
{}

/// What the answer of a call tells of its trail. By a stub: the cell's row has the handle, and the target is its. By a
/// bucket: the cell's row has not, the bucket's row has the handle and the token, and the target is its. By a walk, and
/// where the handle is unloaded: neither row holds the pair. A handle word is loaded by those two alone.
pub fn answer_tells()
    ensures path { (k : Key) (site : ℕ) (h : Handle) (f : Fields) (trail : List TrailStep) (a : Answer) →
        Runs k f (calling k site h) trail (Ok a) → PathTells k site h trail a.target a.path }
    ensures unloaded { (k : Key) (site : ℕ) (h : Handle) (f : Fields) (trail : List TrailStep) (u : Unloaded) →
        Runs k f (calling k site h) trail (Err u) → ShowsUnloaded h trail u × (HoldsPair k site h trail → ⊥) }
{}

/// What the answer of a cast tells of its trail. Without a walk: a probe of the region that was loaded is a hit, and its
/// cast word has the answer. With a walk, and where a handle is unloaded: no probe of the trail is a hit.
pub fn cast_tells()
    ensures answer { (k : Key) (source target : Handle) (f : Fields) (trail : List TrailStep) (a : CastAnswer) →
        Runs k f (casting k source target) trail (Ok a) → CastAnswerTells source target trail a.yes a.walked }
    ensures unloaded { (k : Key) (source target : Handle) (f : Fields) (trail : List TrailStep) (u : Unloaded) →
        Runs k f (casting k source target) trail (Err u) → HasNoHit source target trail × (ShowsUnloaded source trail u ⊎ ShowsUnloaded target trail u) }
{}

/// What a probe's hit is: both versions that it loaded are the same, even and not 0, and the row's source and target are
/// the pair's.
pub fn hits_exactly()
    ensures { (source target : Handle) (version : ℕ) (s : Handle) (w : CastWord) (again : ℕ) →
        is_hit source target version s w again ≡ true ↔ HoldsCast source target version s w again }
{}

/// What a call tries besides. A walk swaps its pair into the pair's bucket, but where limbo has no room or no row is given,
/// right after it loaded the handle word. A call that loaded Lookup and was answered tries to install its pair in the cell,
/// but where no row is given, right before its unpin. A walk that loaded Lookup does both, the one after the other.
pub fn tries_rows()
    ensures bucket { (k : Key) (site : ℕ) (h : Handle) (f : Fields) (trail : List TrailStep) (target : ℕ) (seen : Seen) →
        Runs k f (calling k site h) trail (by_walk target seen) → TriesBucket k site h target f trail }
    ensures cell { (k : Key) (site : ℕ) (h : Handle) (f : Fields) (trail : List TrailStep) (a : Answer) →
        InTurn trail ((LoadCell site, 0) ∷ []) → Runs k f (calling k site h) trail (Ok a) → TriesByPath k site h a.target f trail a.path }
{}

/// How a call and an unload end. With a row in limbo at the unpin, the last step frees the oldest or is the load of an epoch
/// word that blocks it.
pub fn sweeps_at_end()
    ensures call { (k : Key) (site : ℕ) (h : Handle) (f : Fields) (trail : List TrailStep) (answer : Result Answer Unloaded) →
        Runs k f (calling k site h) trail answer → SweepsAtEnd k f trail }
    ensures unload { (k : Key) (h : Handle) (f : Fields) (trail : List TrailStep) →
        Runs k f (unloading k h) trail tt → SweepsAtEnd k f trail }
{}

/// What an unload tries at each cell and each bucket: a load of it, or of the handle of the row that it names, shows that it
/// does not hold the handle, or limbo has no room, or one exchange or swap takes the row out.
pub fn purges_all()
    ensures cells { (k : Key) (h : Handle) (f : Fields) (trail : List TrailStep) (site : ℕ) →
        site < k.sizes.sites → Runs k f (unloading k h) trail tt → PurgesCell k h site f trail }
    ensures buckets { (k : Key) (h : Handle) (f : Fields) (trail : List TrailStep) (bucket : ℕ) →
        bucket < k.sizes.buckets → Runs k f (unloading k h) trail tt → PurgesBucket k h bucket f trail }
{}

/// When a call sets its cell to Resolve: right after each miss with which the token's count reaches the limit (`miss` of the
/// sizes, or more) while limbo has room for two rows, and nowhere else. A miss is one fetch and add on the counter of the
/// site's token, which finds how many were counted before.
pub fn sets_resolve()
    ensures { (k : Key) (site : ℕ) (h : Handle) (f : Fields) (trail : List TrailStep) (answer : Result Answer Unloaded) →
        LawfulSizes k.sizes → Runs k f (calling k site h) trail answer → SetsResolve k site trail }
{}

/// Which rows enter limbo: right after an exchange or a swap took a row out of its cell or bucket, that row, and no other.
pub fn retires_rows()
    ensures call { (k : Key) (site : ℕ) (h : Handle) (f : Fields) (trail : List TrailStep) (answer : Result Answer Unloaded) →
        Runs k f (calling k site h) trail answer → RetiresRows trail }
    ensures unload { (k : Key) (h : Handle) (f : Fields) (trail : List TrailStep) →
        Runs k f (unloading k h) trail tt → RetiresRows trail }
{}

/// When the epoch is raised: right after a row entered limbo at an epoch below 2^62, by one exchange from that epoch to the
/// next, and nowhere else.
pub fn raises_epoch()
    ensures call { (k : Key) (site : ℕ) (h : Handle) (f : Fields) (trail : List TrailStep) (answer : Result Answer Unloaded) →
        Runs k f (calling k site h) trail answer → RaisesEpoch trail }
    ensures unload { (k : Key) (h : Handle) (f : Fields) (trail : List TrailStep) →
        Runs k f (unloading k h) trail tt → RaisesEpoch trail }
{}
