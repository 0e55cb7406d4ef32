//! What holds of lanes. Each is a function that does nothing and ensures its law.
ghost use Rattle.std.specs.Prelude.{Bool, List};
ghost use Rattle.vsd_terms.specs.declared.term.Term.{Term};
ghost use Rattle.vsd_grammar.specs.Grammar.{Decides};
ghost use Rattle.vsd_grammar.specs.declared.token_class.TokenClass.{TokenClass};
ghost use Rattle.vsd_lanes.specs.Setting.{Setting};
ghost use Rattle.vsd_lanes.specs.Productions.{lane, load, unload, call, cast};
ghost use Rattle.vsd_lanes.specs.FirstReading.{ReadsAsItMakes};
ghost use Rattle.vsd_lanes.specs.Laws.{MeansItsItems, HasOpsOfItems, RefusesTheFirst};
ghost use Rattle.vsd_lanes.specs.Allowed.{NamesWhatLives, KeepsToRoom, HasNames, AddsRoots};
ghost use Rattle.vsd_lanes.specs.Naming.{NamesApart, NamesNoHost};
ghost use Rattle.vsd_lanes.specs.Objects.{CallsObjects};

/// A lane is read in one way, whatever follows it.
pub fn lanes_are_decided()
    ensures { (e : Setting) (roots : List Term) (F : TokenClass → Bool) → Decides _ (lane e roots) F }
{}

/// A lane's operations are those that are written, with repeats written out, and each could be made at its place. Where one
/// can't, the first that can't is refused, in whatever round it stands.
pub fn lanes_mean_their_items()
    ensures made { MeansItsItems }
    ensures ops { HasOpsOfItems }
    ensures first { RefusesTheFirst }
{}

/// What a lane's operations name is there and lives where it is used, at most 32 variables do, and there is room for all
/// operations.
pub fn lanes_use_what_lives()
    ensures live { NamesWhatLives }
    ensures few { KeepsToRoom }
    ensures names { HasNames }
    ensures roots { AddsRoots }
{}

/// A lane's variables have names of their own, none of which is that of a host before the lane, and each call is made on an
/// object of a class that isn't abstract: a host's type, or the one that its variable was loaded with last.
pub fn lanes_call_concrete_objects()
    ensures apart { NamesApart }
    ensures hosts { NamesNoHost }
    ensures calls { CallsObjects }
{}

/// Where an operation is first read it is refused as it would be in a later round, at the same token and for the same cause;
/// where it could be made, the lane goes on with what making it leaves.
pub fn operations_are_read_as_made()
    ensures loads { ReadsAsItMakes load }
    ensures unloads { ReadsAsItMakes unload }
    ensures calls { ReadsAsItMakes call }
    ensures casts { ReadsAsItMakes cast }
{}
