// What is known of one plane on the stack, and of a recipe's last plane.
ghost use Rattle.std.specs.Prelude.{◌≡◌};
ghost use Rattle.recipe.specs.Steps.{negation, folding, filtering, selecting, bounding, averaging};
ghost use Rattle.recipe.specs.Sheets.{frame_entry, after, of_two, longer as extended, settles as settled, marks_of};

use crate::element::Element;
use level::side::Side;

// Of which elements a plane is a chain: the frame, or an open or close by N of a chain of N.
#[derive(Clone, Copy)]
pub enum Chain {
    OfAny,
    Of(Element),
    Broken,
}

// One plane's reach, marks and chain; S is told by the chain.
#[derive(Clone, Copy)]
pub struct Entry {
    pub reach: u8,
    pub below: bool,
    pub above: bool,
    pub keeps: bool,
    pub turns: bool,
    pub within: bool,
    pub chain: Chain,
}

// B below the frame, D above it, K order kept, T order turned, S settles, W within.
#[derive(Clone, Copy)]
pub struct Marks {
    pub below: bool,
    pub above: bool,
    pub keeps: bool,
    pub turns: bool,
    pub settles: bool,
    pub within: bool,
}

// The admission sheet: the greatest depth of the stack, and reach and marks of the last plane.
#[derive(Clone, Copy)]
pub struct Sheet {
    pub planes: usize,
    pub reach: u8,
    pub marks: Marks,
}

impl Chain {
    // The chain after an open or a close.
    fn longer(self, element: Element) -> Chain
        ensures { result ≡ extended element self }
    {
        match self {
            Chain::OfAny => Chain::Of(element),
            Chain::Of(other) if other == element => Chain::Of(element),
            Chain::Of(_) | Chain::Broken => Chain::Broken,
        }
    }

    // Whether the plane is a chain of some element.
    fn settles(self) -> bool
        ensures { result ≡ settled self }
    {
        !matches!(self, Chain::Broken)
    }
}

impl Entry {
    // The entry of the laid frame.
    pub fn frame() -> Entry
        ensures { result ≡ frame_entry }
    {
        Entry {
            reach: 0,
            below: true,
            above: true,
            keeps: true,
            turns: false,
            within: true,
            chain: Chain::OfAny,
        }
    }

    // The entry of the plane negated.
    pub fn negated(self) -> Entry
        ensures { result ≡ after negation self }
    {
        Entry {
            reach: self.reach,
            below: false,
            above: false,
            keeps: self.turns,
            turns: self.keeps,
            within: false,
            chain: Chain::Broken,
        }
    }

    // The entry of the plane eroded (low) or dilated (high).
    pub fn folded(self, side: Side, element: Element) -> Entry
        ensures { result ≡ after (folding side element) self }
    {
        let centre = element.has_centre();
        Entry {
            reach: self.reach.saturating_add(element.radius()),
            below: (side == Side::Low) & self.below & centre,
            above: (side == Side::High) & self.above & centre,
            keeps: self.keeps,
            turns: self.turns,
            within: self.within & centre,
            chain: Chain::Broken,
        }
    }

    // The entry of the plane opened (low) or closed (high).
    pub fn filtered(self, side: Side, element: Element) -> Entry
        ensures { result ≡ after (filtering side element) self }
    {
        Entry {
            reach: self.reach.saturating_add(2 * element.radius()),
            below: (side == Side::Low) & self.below,
            above: (side == Side::High) & self.above,
            keeps: self.keeps,
            turns: self.turns,
            within: self.within & element.has_centre(),
            chain: self.chain.longer(element),
        }
    }

    // The entry of the plane after a selection.
    pub fn selected(self, side: Side, element: Element) -> Entry
        ensures { result ≡ after (selecting side element) self }
    {
        let reach = self.reach.saturating_add(2 * element.radius());
        Entry {
            reach,
            below: false,
            above: false,
            keeps: false,
            turns: false,
            within: self.within,
            chain: Chain::Broken,
        }
    }

    // The entry of the meet (low) or join (high) of two planes.
    pub fn bounded(self, side: Side, upper: Entry) -> Entry
        ensures { result ≡ of_two (bounding side) self upper }
    {
        let mut entry = self.averaged(side, upper);
        match side {
            Side::Low => entry.below = self.below | upper.below,
            Side::High => entry.above = self.above | upper.above,
        }
        entry
    }

    // The entry of the mean of two planes.
    pub fn averaged(self, side: Side, upper: Entry) -> Entry
        ensures { result ≡ of_two (averaging side) self upper }
    {
        Entry {
            reach: self.reach.max(upper.reach),
            below: self.below & upper.below,
            above: self.above & upper.above,
            keeps: self.keeps & upper.keeps,
            turns: self.turns & upper.turns,
            within: self.within & upper.within,
            chain: Chain::Broken,
        }
    }

    // The marks that the sheet shows.
    pub fn marks(self) -> Marks
        ensures { result ≡ marks_of self }
    {
        Marks {
            below: self.below,
            above: self.above,
            keeps: self.keeps,
            turns: self.turns,
            settles: self.chain.settles(),
            within: self.within,
        }
    }
}
