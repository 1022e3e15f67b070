// The twelve steps of recipes.
ghost use Rattle.std.specs.Prelude.{◌≡◌, Some};
ghost use Rattle.recipe.specs.Steps.{mirror_step};
ghost use Rattle.recipe.specs.Names.{name_of};

use crate::element::Element;
use std::fmt;

// One step; those that look around each place hold the element they look through.
#[derive(Clone, Copy)]
pub enum Step {
    Frame,
    Negate,
    Erode(Element),
    Dilate(Element),
    Open(Element),
    Close(Element),
    Meet,
    Join,
    MeanLow,
    MeanHigh,
    SelectLow(Element),
    SelectHigh(Element),
}

impl fmt::Display for Step {
    ghost output = { λ step. Some (name_of step) };

    fn fmt<W: fmt::Write>(&self, f: &mut fmt::Formatter<W>) -> fmt::Result {
        f.write_str(self.name())
    }
}

impl Step {
    // The name that listings print.
    pub fn name(self) -> &'static str
        ensures { result.now ≡ name_of self }
    {
        match self {
            Step::Frame => "frame",
            Step::Negate => "negate",
            Step::Erode(_) => "erode",
            Step::Dilate(_) => "dilate",
            Step::Open(_) => "open",
            Step::Close(_) => "close",
            Step::Meet => "meet",
            Step::Join => "join",
            Step::MeanLow => "mean-low",
            Step::MeanHigh => "mean-high",
            Step::SelectLow(_) => "select-low",
            Step::SelectHigh(_) => "select-high",
        }
    }

    // The dual step: low for high and high for low.
    pub fn mirrored(self) -> Step
        ensures { result ≡ mirror_step self }
    {
        match self {
            Step::Frame => Step::Frame,
            Step::Negate => Step::Negate,
            Step::Erode(e) => Step::Dilate(e),
            Step::Dilate(e) => Step::Erode(e),
            Step::Open(e) => Step::Close(e),
            Step::Close(e) => Step::Open(e),
            Step::Meet => Step::Join,
            Step::Join => Step::Meet,
            Step::MeanLow => Step::MeanHigh,
            Step::MeanHigh => Step::MeanLow,
            Step::SelectLow(e) => Step::SelectHigh(e),
            Step::SelectHigh(e) => Step::SelectLow(e),
        }
    }
}
