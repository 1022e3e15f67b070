// What every history of a cell keeps, for every kind of level and every selecting rule.
ghost use Rattle.cell.specs.Histories.{Setting};
ghost use Rattle.cell.specs.Laws.{ImageLaw, MarkLaw, MirrorLaw, ReachLaw};

use crate::setup::Setup;

// An image taken is the image that the recipe last installed makes of the frame last laid, in however many steps.
pub fn image_kept<S: Setup>()
    ensures { (s : Setting) → ImageLaw S.Pixel.Level.kind S.Selector.Rule.criterion s }
{}

// Every image taken keeps every mark on its sheet, also against the images of all other frames of its size.
pub fn marks_kept<S: Setup>()
    ensures { (s : Setting) → MarkLaw S.Pixel.Level.kind S.Selector.Rule.criterion s }
{}

// The same calls on a second new cell, recipes mirrored and frames negated, get the mirrored answers.
pub fn mirror_kept<S: Setup>()
    ensures { (s : Setting) → MirrorLaw S.Pixel.Level.kind S.Selector.Rule.criterion s }
{}

// Images taken under one recipe agree wherever their frames agree within the sheet's reach.
pub fn reach_kept<S: Setup>()
    ensures { (s s' : Setting) → ReachLaw S.Pixel.Level.kind S.Selector.Rule.criterion s s' }
{}

// The four together.
pub fn promises_kept<S: Setup>()
    ensures image { (s : Setting) → ImageLaw S.Pixel.Level.kind S.Selector.Rule.criterion s }
    ensures marks { (s : Setting) → MarkLaw S.Pixel.Level.kind S.Selector.Rule.criterion s }
    ensures mirror { (s : Setting) → MirrorLaw S.Pixel.Level.kind S.Selector.Rule.criterion s }
    ensures reach { (s s' : Setting) → ReachLaw S.Pixel.Level.kind S.Selector.Rule.criterion s s' }
{
    image_kept::<S>();
    marks_kept::<S>();
    mirror_kept::<S>();
    reach_kept::<S>();
}
