// What the sheet of a recipe promises of its image, for every kind of level and every selecting rule.
#![tactic(auto)]

ghost use Rattle.promise.specs.Morphology.{MorphologyLaw, ChainLaw};
ghost use Rattle.promise.specs.Selection.{SelectionLaw};
ghost use Rattle.promise.specs.Limits.{Limits};
ghost use Rattle.promise.specs.Laws.{MarksLaw, ReachLaw, MirrorLaw, MirrorStepsLaw};

use level::Level;
use rule::Rule;

// Erosion is a greatest lower bound, dilation is adjoint to it, and opening and closing settle.
pub fn morphology_holds<L: Level>()
    ensures { MorphologyLaw L.Level.kind }
{}

// Every chain of opens and closes by one element settles.
pub fn chains_settle<L: Level>()
    ensures { ChainLaw L.Level.kind }
{}

// A selected pixel is the rounded value of every best window.
pub fn best_is_selected<L: Level, R: Rule>()
    ensures { SelectionLaw L.Level.kind R.Rule.criterion }
{}

// Every mark on the sheet of an admitted recipe is true of its image, and so on the stack after every record.
pub fn marks_hold<L: Level, R: Rule>()
    ensures { MarksLaw L.Level.kind R.Rule.criterion }
{}

// A pixel of the image depends on the frame within the sheet's reach alone.
pub fn reach_holds<L: Level, R: Rule>()
    ensures { ReachLaw L.Level.kind R.Rule.criterion }
{}

// The mirror of an admitted recipe makes of the negative the negative of the image.
pub fn mirror_negates<L: Level, R: Rule>()
    ensures recipes { MirrorLaw L.Level.kind R.Rule.criterion }
    ensures steps { MirrorStepsLaw L.Level.kind R.Rule.criterion }
{}

// Marks that the sheet leaves out are false: no open off the centre has W, no chain of two elements S, no dilation B,
// no selection K, on some frame.
pub fn limits_hold()
    ensures { Limits }
{}
