// A cell with the slip of its open run: calls can be put to it in any order, and no slip is lost.
ghost use Rattle.std.specs.Prelude.{◌≡◌, [], map, length, is_some, None, IsErr};
ghost use Rattle.cell.specs.Histories.{Admit, Lay, Steps, Take, Clear, setting};
ghost use Rattle.cell.specs.Cells.{admit_answer, step_answer};
ghost use Rattle.desk.specs.Desks.{After, ComesAbout, Tidy, Told, plain_answer, image_answer};

use crate::spare;
use crate::spare::Spare;
use cell::calls::{Cell, Slip, Stepped};
use cell::fault::CellFault;
use cell::setup::Setup;
use recipe::entry::Sheet;

// A tidy desk has a slip exactly while a run is open.
pub struct Desk<'a, S: Setup> {
    pub cell: Cell<'a, S>,
    pub slip: Option<Slip>,
}

impl<'a, S: Setup> Desk<'a, S> {
    // A desk with a new cell.
    pub fn new(width: usize, height: usize, block: &'a mut [S::Pixel]) -> Self
        ensures { After S.Pixel.Level.kind S.Pixel.Level.meaning S.Selector.Rule.criterion result (setting width height (length block.old)) [] }
    {
        Desk {
            cell: Cell::new(width, height, block),
            slip: None,
        }
    }

    // Installs a recipe, and answers its sheet.
    pub fn admit(&mut self, bytes: &[u8]) -> Result<Sheet, CellFault>
        requires { Tidy S.Pixel.Level.kind S.Pixel.Level.meaning S.Selector.Rule.criterion self.old }
        ensures { ComesAbout S.Pixel.Level.kind S.Pixel.Level.meaning S.Selector.Rule.criterion self.old self.new (Admit bytes.now) (admit_answer result) }
    {
        self.cell.admit(bytes)
    }

    // Lays a frame, and keeps the slip.
    pub fn lay(&mut self, frame: &[S::Pixel]) -> Result<(), CellFault>
        requires { Tidy S.Pixel.Level.kind S.Pixel.Level.meaning S.Selector.Rule.criterion self.old }
        ensures { ComesAbout S.Pixel.Level.kind S.Pixel.Level.meaning S.Selector.Rule.criterion self.old self.new (Lay (map S.Pixel.Level.meaning frame.now)) (plain_answer result) }
    {
        let slip = self.cell.lay(frame)?;
        match self.slip.replace(slip) {
            None => Ok(()),
            // While a run is open no frame is laid.
            Some(_slip) => unreachable(),
        }
    }

    // Does records of the recipe.
    pub fn step(&mut self, count: usize) -> Result<Stepped, CellFault>
        requires { Tidy S.Pixel.Level.kind S.Pixel.Level.meaning S.Selector.Rule.criterion self.old }
        ensures { ComesAbout S.Pixel.Level.kind S.Pixel.Level.meaning S.Selector.Rule.criterion self.old self.new (Steps count) (step_answer result) }
    {
        self.cell.step(count)
    }

    // Takes the image; where no slip is at hand, with one of a second cell.
    pub fn take(&mut self, out: &mut [S::Pixel]) -> Result<(), CellFault>
        requires { Tidy S.Pixel.Level.kind S.Pixel.Level.meaning S.Selector.Rule.criterion self.old }
        ensures { ComesAbout S.Pixel.Level.kind S.Pixel.Level.meaning S.Selector.Rule.criterion self.old self.new (Take (length out.old)) (image_answer result (map S.Pixel.Level.meaning out.new)) }
    {
        self.with_slip(&mut |cell, slip| cell.take(slip, out))
    }

    // Clears the run; where no slip is at hand, with one of a second cell.
    pub fn clear(&mut self) -> Result<(), CellFault>
        requires { Tidy S.Pixel.Level.kind S.Pixel.Level.meaning S.Selector.Rule.criterion self.old }
        ensures { ComesAbout S.Pixel.Level.kind S.Pixel.Level.meaning S.Selector.Rule.criterion self.old self.new Clear (plain_answer result) }
    {
        self.with_slip(&mut |cell, slip| cell.clear(slip))
    }

    // Makes a call with the slip of the open run; where none is open, with one of a second cell.
    fn with_slip<F: FnMut(&mut Cell<'a, S>, Slip) -> Result<(), (CellFault, Slip)>>(
        &mut self,
        call: &mut F,
    ) -> Result<(), CellFault>
        requires callable { (c : _) (s : _) → F.pre call.old c s }
        requires refused { (self.old.slip ≡ None) → (c : _) (s : _) (r : _) (d : _) (f : F) → c.now ≡ self.old.cell → F.step call.old c s r d f → IsErr r }
        ensures { (c : _) × (s : _) × (r : _) × (d : _) × (c.now ≡ self.old.cell) × (d.now ≡ self.new.cell) × F.step call.old c s r d call.new × Told r result (is_some self.old.slip) (is_some self.new.slip) }
    {
        let Some(slip) = self.slip.take() else {
            let mut block = [false; 3];
            let Spare { mut cell, slip } = spare::lay(&mut block);
            return spare::refused(&mut cell, call(&mut self.cell, slip));
        };
        match call(&mut self.cell, slip) {
            Ok(()) => Ok(()),
            Err((fault, slip)) => {
                self.slip = Some(slip);
                Err(fault)
            }
        }
    }
}
