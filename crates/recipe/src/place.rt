// Steps placed on the table.
ghost use Rattle.std.specs.Prelude.{◌≡◌, ◌<◌, ◌≤◌, true, false, length, Ok, Err};
ghost use Rattle.recipe.specs.Steps.{Change, Merge, form, change, merge, wants, adds, reads_ranks};
ghost use Rattle.recipe.specs.Sheets.{after, of_two, sheet_of};
ghost use Rattle.recipe.specs.Plans.{nothing, placed, grown};
ghost use Rattle.recipe.specs.Tables.{progress};
ghost use Rattle.recipe.specs.Answers.{left_answer};

use crate::entry::{Entry, Sheet};
use crate::fault::PlanFault;
use crate::step::Step;
use crate::table::Table;
use level::side::Side;

impl Step {
    // How many planes the step wants on the stack.
    pub fn wanted(self) -> usize
        ensures { result ≡ wants (form self) }
    {
        match self {
            Step::Frame => 0,
            Step::Meet | Step::Join | Step::MeanLow | Step::MeanHigh => 2,
            _ => 1,
        }
    }

    // Whether the step puts one plane more on the stack.
    pub fn adds_plane(self) -> bool
        ensures { result ≡ adds (form self) }
    {
        matches!(self, Step::Frame)
    }

    // Whether the step averages or selects, and so wants ranks.
    pub fn wants_ranks(self) -> bool
        ensures { result ≡ reads_ranks (form self) }
    {
        matches!(
            self,
            Step::MeanLow | Step::MeanHigh | Step::SelectLow(_) | Step::SelectHigh(_)
        )
    }
}

impl Entry {
    // The entry after a step that changes its plane.
    fn changed(self, step: Step) -> Entry
        ensures { (c : Change) → form step ≡ change c → result ≡ after c self }
    {
        match step {
            Step::Negate => self.negated(),
            Step::Erode(element) => self.folded(Side::Low, element),
            Step::Dilate(element) => self.folded(Side::High, element),
            Step::Open(element) => self.filtered(Side::Low, element),
            Step::Close(element) => self.filtered(Side::High, element),
            Step::SelectLow(element) => self.selected(Side::Low, element),
            Step::SelectHigh(element) => self.selected(Side::High, element),
            _ => self,
        }
    }

    // The entry of one plane made of this one and the one above it.
    fn merged(self, upper: Entry, step: Step) -> Entry
        ensures { (m : Merge) → form step ≡ merge m → result ≡ of_two m self upper }
    {
        match step {
            Step::Meet => self.bounded(Side::Low, upper),
            Step::Join => self.bounded(Side::High, upper),
            Step::MeanLow => self.averaged(Side::Low, upper),
            Step::MeanHigh => self.averaged(Side::High, upper),
            _ => self,
        }
    }
}

impl Table {
    // The table of an empty stack.
    pub fn new() -> Table
        ensures { progress result ≡ nothing }
    {
        Table {
            entries: [Entry::frame(); 4],
            depth: 0,
            planes: 0,
        }
    }

    // Places the step of the record of this index, or says why it cannot be placed and changes nothing.
    pub fn place(&mut self, step: Step, ranked: bool, index: usize) -> Result<(), PlanFault>
        ensures answer { left_answer (progress self.new) result ≡ placed ranked index step (progress self.old) }
        ensures refused { elim result [ Ok u ↦ Unit {0} | Err e ↦ self.new ≡ self.old ] }
    {
        if step.wants_ranks() & !ranked {
            return Err(PlanFault::Unranked(index));
        }
        if self.depth < step.wanted() {
            return Err(PlanFault::TooFewPlanes(index));
        }
        if step.adds_plane() & (self.depth >= 4) {
            return Err(PlanFault::FifthPlane(index));
        }
        self.grow(step);
        Ok(())
    }

    // Changes the entries as the step changes the planes.
    fn grow(&mut self, step: Step)
        requires planes { wants (form step) ≤ self.old.depth }
        requires room { adds (form step) ≡ true → self.old.depth < 4 }
        ensures { progress self.new ≡ grown step (progress self.old) }
    {
        let depth = self.depth;
        match step {
            Step::Frame => {
                self.entries[depth] = Entry::frame();
                self.depth = depth + 1;
            }
            Step::Meet | Step::Join | Step::MeanLow | Step::MeanHigh => {
                self.entries[depth - 2] = self.entries[depth - 2].merged(
                    self.entries[depth - 1],
                    step,
                );
                self.depth = depth - 1;
            }
            _ => self.entries[depth - 1] = self.entries[depth - 1].changed(step),
        }
        self.planes = self.planes.max(self.depth);
    }

    // The sheet of the stack as it stands.
    pub fn sheet(&self) -> Sheet
        ensures { result ≡ sheet_of (progress self.now).planes (progress self.now).entries }
    {
        let top = if self.depth == 0 {
            Entry::frame()
        } else {
            self.entries[self.depth - 1]
        };
        Sheet {
            planes: self.planes,
            reach: top.reach,
            marks: top.marks(),
        }
    }
}
