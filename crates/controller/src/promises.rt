// What the images of calls keep, for every kind of level and every selecting rule.
ghost use Rattle.cell.specs.Histories.{Setting};
ghost use Rattle.controller.specs.Promises.{RunsMarked, RunsMirrored, RunsReach};

use cell::laws;
use cell::setup::Setup;

/// Every image keeps the marks on its recipe's sheet, mirrors, and depends on the frame within reach alone.
pub fn promises_kept<S: Setup>()
    ensures marks { (s : Setting) → RunsMarked S.Pixel.Level.kind S.Selector.Rule.criterion s }
    ensures mirror { (s : Setting) → RunsMirrored S.Pixel.Level.kind S.Selector.Rule.criterion s }
    ensures reach { (s s' : Setting) → RunsReach S.Pixel.Level.kind S.Selector.Rule.criterion s s' }
{
    laws::marks_kept::<S>();
    laws::mirror_kept::<S>();
    laws::reach_kept::<S>();
}
