// The cell and its calls.
ghost use Rattle.std.specs.Prelude.{◌≡◌, ◌+◌, ◌*◌, ◌<◌, ◌≤◌, true, [], map, length, Ok, Err};
ghost use Rattle.cell.specs.Cells.{Happens, LayLeaves, RefusalKeeps, SlipBack, SlipDue, Stands, StepLeaves, admit_answer, clear_answer, lay_answer, step_answer, take_answer};
ghost use Rattle.cell.specs.Histories.{Admit, Clear, Lay, Steps, Take, setting};
ghost use Rattle.cell.specs.Rasters.{Got, Put};
ghost use Rattle.cell.specs.Shows.{Housed, Worked};
ghost use Rattle.steps.specs.Planes.{size_of};

use crate::fault::CellFault;
use crate::run::Run;
use crate::setup::Setup;
use level::Level;
use recipe::entry::Sheet;
use recipe::plan::Plan;
use rule::Rule;
use steps::apply::apply_step;
use steps::extent::Extent;

// What must be spent by an accepted take or clear. Only `lay` makes one, and one that is not spent cannot be let go.
pub struct Slip {
    spent: bool,
}

impl Drop for Slip {
    fn drop(self)
        requires { self.spent ≡ true }
    {
        let Slip { spent: _ } = self;
    }
}

// The records that a step has done, and those that are left.
#[derive(Clone, Copy)]
pub struct Stepped {
    pub done: usize,
    pub left: usize,
}

// Where an open cell stands: without a recipe, with one, or in a run.
#[derive(Clone, Copy)]
pub enum Phase {
    Bare,
    Ready(Plan),
    Running(Run),
}

// What a cell that is not shut has: the size of its frames, and where it stands.
#[derive(Clone, Copy)]
pub struct Open {
    pub extent: Extent,
    pub phase: Phase,
}

// A cell over a lent block: the frame's plane, the recipe's stack planes, the scratch plane. It is open, or shut for good.
#[derive(Drop)]
pub struct Cell<'a, S: Setup> {
    open: Option<Open>,
    block: &'a mut [S::Pixel],
}

impl<'a, S: Setup> Cell<'a, S> {
    // A cell for frames of a size; it is shut where the size or the block will not do.
    pub fn new(width: usize, height: usize, block: &'a mut [S::Pixel]) -> Self
        ensures behind { Stands S.Pixel.Level.kind S.Pixel.Level.meaning S.Selector.Rule.criterion result (setting width height (length block.old)) [] }
        ensures same { result.block.ghost_name ≡ block.entry.ghost_name }
        ensures block { result.block.now ≡ block.old }
    {
        let open = match Extent::new(width, height) {
            Some(extent) if block.len() >= 3 * extent.places() => Some(Open {
                extent,
                phase: Phase::Bare,
            }),
            _ => None,
        };
        Cell { open, block }
    }

    // Installs a recipe in place of the last, and answers its sheet.
    pub fn admit(&mut self, bytes: &[u8]) -> Result<Sheet, CellFault>
        ensures happens { Happens S.Pixel.Level.kind S.Pixel.Level.meaning S.Selector.Rule.criterion self.old self.new (Admit bytes.now) (admit_answer result) }
        ensures same { self.new.block.ghost_name ≡ self.old.block.ghost_name }
        ensures block { self.new.block.now ≡ self.old.block.now }
        ensures refused { RefusalKeeps result self.old self.new }
    {
        let Some(open) = self.open else {
            return Err(CellFault::Shut);
        };
        if let Phase::Running(_) = open.phase {
            return Err(CellFault::RunOpen);
        }
        let plan = Plan::check(bytes, S::Pixel::ranked())?;
        if self.block.len() < (plan.sheet.planes + 2) * open.extent.places() {
            return Err(CellFault::SmallBlock);
        }
        self.open = Some(Open {
            phase: Phase::Ready(plan),
            ..open
        });
        Ok(plan.sheet)
    }

    // Copies a frame in, and opens a run.
    pub fn lay(&mut self, frame: &[S::Pixel]) -> Result<Slip, CellFault>
        ensures happens { Happens S.Pixel.Level.kind S.Pixel.Level.meaning S.Selector.Rule.criterion self.old self.new (Lay (map S.Pixel.Level.meaning frame.now)) (lay_answer result) }
        ensures same { self.new.block.ghost_name ≡ self.old.block.ghost_name }
        ensures block { LayLeaves result frame.now self.old.block.now self.new.block.now }
        ensures refused { RefusalKeeps result self.old self.new }
        ensures slip { SlipDue result }
    {
        let Some(open) = self.open else {
            return Err(CellFault::Shut);
        };
        match open.phase {
            Phase::Bare => Err(CellFault::NoRecipe),
            Phase::Running(_) => Err(CellFault::RunOpen),
            Phase::Ready(plan) => {
                if frame.len() != open.extent.places() {
                    return Err(CellFault::WrongLength);
                }
                // No history leads here: the block of an open cell is longer.
                if self.block.len() < frame.len() {
                    return Err(CellFault::Shut);
                }
                put(self.block, frame);
                self.open = Some(Open {
                    phase: Phase::Running(Run::start(plan)),
                    ..open
                });
                Ok(Slip { spent: false })
            }
        }
    }

    // Does records of the recipe, as many as are asked for and left.
    pub fn step(&mut self, count: usize) -> Result<Stepped, CellFault>
        ensures happens { Happens S.Pixel.Level.kind S.Pixel.Level.meaning S.Selector.Rule.criterion self.old self.new (Steps count) (step_answer result) }
        ensures same { self.new.block.ghost_name ≡ self.old.block.ghost_name }
        ensures block { StepLeaves self.old self.new.block.now }
        ensures refused { RefusalKeeps result self.old self.new }
    {
        let Some(open) = self.open else {
            return Err(CellFault::Shut);
        };
        let Phase::Running(run) = open.phase else {
            return Err(CellFault::NoRun);
        };
        let extent = open.extent;
        // No history leads here: the recipe that runs was admitted for this block and these levels.
        if (self.block.len() < (run.plan.sheet.planes + 2) * extent.places())
            | (run.plan.ranked & !S::Pixel::ranked())
        {
            return Err(CellFault::Shut);
        }
        let left = run.plan.count - run.done;
        let done = count.min(left);
        let after = work::<S::Pixel, S::Selector>(self.block, extent, run, done);
        self.open = Some(Open {
            phase: Phase::Running(after),
            ..open
        });
        Ok(Stepped {
            done,
            left: left - done,
        })
    }

    // Copies levels of the block out.
    fn read(&self, at: usize, out: &mut [S::Pixel])
        requires { at + length out.old ≤ length self.now.block.now }
        ensures { Got at self.now.block.now out.new }
    {
        get(self.block, at, out);
    }

    // Copies the finished plane to the output, and ends the run.
    pub fn take(&mut self, mut slip: Slip, out: &mut [S::Pixel]) -> Result<(), (CellFault, Slip)>
        ensures happens { Happens S.Pixel.Level.kind S.Pixel.Level.meaning S.Selector.Rule.criterion self.old self.new (Take (length out.old)) (take_answer result (map S.Pixel.Level.meaning out.new)) }
        ensures same { self.new.block.ghost_name ≡ self.old.block.ghost_name }
        ensures block { self.new.block.now ≡ self.old.block.now }
        ensures refused { SlipBack result slip self.old self.new }
        ensures output { elim result [ Ok u ↦ Unit {0} | Err e ↦ out.new ≡ out.old ] }
    {
        let Some(open) = self.open else {
            return Err((CellFault::Shut, slip));
        };
        let Phase::Running(run) = open.phase else {
            return Err((CellFault::NoRun, slip));
        };
        let places = open.extent.places();
        if run.done < run.plan.count {
            return Err((CellFault::RecordsLeft, slip));
        }
        if out.len() != places {
            return Err((CellFault::WrongLength, slip));
        }
        // No history leads here: the recipe that runs was admitted for this block.
        if self.block.len() < (run.plan.sheet.planes + 2) * places {
            return Err((CellFault::Shut, slip));
        }
        self.read(run.depth * places, out);
        slip.spent = true;
        self.open = Some(Open {
            phase: Phase::Ready(run.plan),
            ..open
        });
        Ok(())
    }

    // Ends the run.
    pub fn clear(&mut self, mut slip: Slip) -> Result<(), (CellFault, Slip)>
        ensures happens { Happens S.Pixel.Level.kind S.Pixel.Level.meaning S.Selector.Rule.criterion self.old self.new Clear (clear_answer result) }
        ensures same { self.new.block.ghost_name ≡ self.old.block.ghost_name }
        ensures block { self.new.block.now ≡ self.old.block.now }
        ensures refused { SlipBack result slip self.old self.new }
    {
        let Some(open) = self.open else {
            return Err((CellFault::Shut, slip));
        };
        let Phase::Running(ended) = open.phase else {
            return Err((CellFault::NoRun, slip));
        };
        slip.spent = true;
        self.open = Some(Open {
            phase: Phase::Ready(ended.plan),
            ..open
        });
        Ok(())
    }
}

// Writes a frame in front of the block.
fn put<L: Level>(block: &mut [L], frame: &[L])
    requires { length frame.now ≤ length block.old }
    ensures { Put frame.now block.old block.new }
{
    for i in 0..frame.len() {
        block[i] = frame[i];
    }
}

// Copies levels of the block out.
fn get<L: Level>(block: &[L], at: usize, out: &mut [L])
    requires { at + length out.old ≤ length block.now }
    ensures { Got at block.now out.new }
{
    for i in 0..out.len() {
        out[i] = block[at + i];
    }
}

// Does the next record.
fn next<L: Level, R: Rule>(block: &mut [L], extent: Extent, run: Run) -> Run
    requires left { run.done < run.plan.count }
    requires housed { Housed L.Level.kind (size_of extent) run.plan (length block.old) }
    ensures { Worked L.Level.kind L.Level.meaning R.Rule.criterion (size_of extent) 1 run result block.old block.new }
{
    apply_step::<L, R>(block, extent, run.plan.sheet.planes, run.depth, run.step());
    run.advanced()
}

// Does the next records.
fn work<L: Level, R: Rule>(block: &mut [L], extent: Extent, run: Run, count: usize) -> Run
    requires left { run.done + count ≤ run.plan.count }
    requires housed { Housed L.Level.kind (size_of extent) run.plan (length block.old) }
    ensures { Worked L.Level.kind L.Level.meaning R.Rule.criterion (size_of extent) count run result block.old block.new }
{
    let mut now = run;
    for _ in 0..count {
        now = next::<L, R>(block, extent, now);
    }
    now
}
