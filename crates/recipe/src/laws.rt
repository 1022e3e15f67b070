// Laws of admission, for every recipe of any bytes.
ghost use Rattle.recipe.specs.Laws.{AdmissionLaw, MirrorLaw, BoundsLaw, SettlesLaw};

// A recipe is admitted exactly when no refusal's condition holds; else the first in the order of checks is answered.
pub fn admission_holds()
    ensures { AdmissionLaw }
{}

// Mirroring twice gives the recipe back, and the mirrored recipe is answered alike, with B and D exchanged.
pub fn mirror_holds()
    ensures { MirrorLaw }
{}

// A sheet has 1 to 4 planes and a reach of at most 252.
pub fn bounds_hold()
    ensures { BoundsLaw }
{}

// S stands exactly on chains of opens and closes by one element.
pub fn settling_holds()
    ensures { SettlesLaw }
{}
