//! The kinds and the rule, put together for cells.
use crate::confidences::Confidence;
use crate::depths::Depth;
use crate::narrow::NarrowThenFew;
use cell::setup::Of;
use level::Pair;

/// Depths.
pub type Deep = Of<Depth, NarrowThenFew>;

/// Heights, each beside what speaks for it.
pub type Trusted = Of<Pair<Confidence, i16>, NarrowThenFew>;
