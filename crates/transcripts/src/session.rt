// A cell made, and its lines served; a whole script.
ghost use Rattle.std.specs.Prelude.{◌≡◌, ℕ, ◌+◌, List, [], map, length, drop, IfOk, OnOk, vec_items, string_bytes, codes};
ghost use Rattle.cell.specs.Histories.{setting};
ghost use Rattle.transcripts.specs.declared.reply.Trouble.TheVariants.{TooLong};
ghost use Rattle.transcripts.specs.Scripts.{Prints, ServedAs, ToldOf, criterion_of};
ghost use Rattle.transcripts.specs.Texts.{unserved_text};
ghost use Rattle.transcripts.specs.Transcripts.{Bare, Celled, Headed, Lines, Missed, Served, Session};

use crate::line::Start;
use crate::put::blank;
use crate::reply::{LineTrouble, Trouble};
use crate::serve::Serving;
use crate::teller::Teller;
use cell::laws::promises_kept;
use cell::setup::{Of, Setup};
use commands::command::{KindName, RuleName};
use desk::desk::Desk;
use desk::spare;
use level::{Labels, Level, Pair};
use rule::{LeastRange, LeastVariance, Rule};
use spelling::written::Written;
use std::alloc::{AllocError, Global};

impl<T: Teller> Serving<'_, T> {
    // The lines after one that asks for more levels than can be had.
    fn unmade(&mut self, start: Start) -> Result<Option<Start>, T::Fault>
        ensures lines { self.new.lines.now ≡ self.old.lines.now }
        ensures same { self.new.teller.ghost_name ≡ self.old.teller.ghost_name }
        ensures served { IfOk result (λ next. (text : List ℕ) × T.tells self.old.teller.now self.new.teller.now text × Headed (Lines T.Words.cut (Served T.misses Bare) tt (start.line + 1) (map vec_items (drop start.line self.old.lines.now))) (unserved_text start.line TooLong) text next) }
    {
        let line = start.line;
        let trouble = Trouble::TooLong;
        self.teller.tell(LineTrouble { line, trouble })?;
        self.bare_lines(start.line)
    }

    // The lines after one that asks for a cell, for whose block there is no memory.
    fn missed(&mut self, start: Start, want: AllocError) -> Result<Option<Start>, T::Fault>
        ensures lines { self.new.lines.now ≡ self.old.lines.now }
        ensures same { self.new.teller.ghost_name ≡ self.old.teller.ghost_name }
        ensures served { IfOk result (λ next. (text : List ℕ) × T.tells self.old.teller.now self.new.teller.now text × Missed T.Words.cut T.misses start (map vec_items (drop start.line self.old.lines.now)) text next) }
    {
        self.teller.miss(start.line, want)?;
        self.bare_lines(start.line)
    }

    // The lines after one that asks for a cell over this block; a run that is open at their end is cleared.
    fn celled<S: Setup>(
        &mut self,
        start: Start,
        block: &mut [S::Pixel],
    ) -> Result<Option<Start>, T::Fault>
    where
        S::Pixel: Written,
        ensures lines { self.new.lines.now ≡ self.old.lines.now }
        ensures same { self.new.teller.ghost_name ≡ self.old.teller.ghost_name }
        ensures served { IfOk result (λ next. (text : List ℕ) × T.tells self.old.teller.now self.new.teller.now text × Headed (Lines T.Words.cut (Served T.misses (Celled S.Pixel.Level.kind S.Pixel.Level.meaning S.Selector.Rule.criterion S.Pixel.Written.spells S.Pixel.Written.text (setting start.making.width start.making.height (length block.old)))) [] (start.line + 1) (map vec_items (drop start.line self.old.lines.now))) (codes "made\n") text next) }
    {
        promises_kept::<S>();
        let width = start.making.width;
        self.teller.tell("made\n")?;
        let mut desk: Desk<S> = Desk::new(width, start.making.height, block);
        let served = self.celled_lines::<S>(&mut desk, width, start.line);
        let Desk { mut cell, slip } = desk;
        if let Some(slip) = slip {
            spare::finish(&mut cell, slip);
        }
        served
    }

    // The lines after one that asks for a cell.
    fn session<S: Setup>(&mut self, start: Start) -> Result<Option<Start>, T::Fault>
    where
        S::Pixel: Written,
        ensures lines { self.new.lines.now ≡ self.old.lines.now }
        ensures same { self.new.teller.ghost_name ≡ self.old.teller.ghost_name }
        ensures served { IfOk result (λ next. (text : List ℕ) × T.tells self.old.teller.now self.new.teller.now text × Session T.Words.cut T.misses S.Pixel.Level.kind S.Pixel.Level.meaning S.Selector.Rule.criterion S.Pixel.Written.spells S.Pixel.Written.text start (map vec_items (drop start.line self.old.lines.now)) text next) }
    {
        match blank::<S::Pixel>(self.heap, start.making.levels) {
            Ok(Some(mut block)) => self.celled::<S>(start, &mut block),
            Ok(None) => self.unmade(start),
            Err(want) => self.missed(start, want),
        }
    }

    // The lines of a cell with the kind of level that is asked for.
    fn with_rule<R: Rule>(&mut self, start: Start) -> Result<Option<Start>, T::Fault>
        ensures lines { self.new.lines.now ≡ self.old.lines.now }
        ensures same { self.new.teller.ghost_name ≡ self.old.teller.ghost_name }
        ensures served { IfOk result (λ next. (text : List ℕ) × T.tells self.old.teller.now self.new.teller.now text × ServedAs T.Words.cut T.misses start.making.kind R.Rule.criterion start (map vec_items (drop start.line self.old.lines.now)) text next) }
    {
        match start.making.kind {
            KindName::Grey => self.session::<Of<u8, R>>(start),
            KindName::Height => self.session::<Of<i16, R>>(start),
            KindName::Mask => self.session::<Of<bool, R>>(start),
            KindName::Labels => self.session::<Of<Labels, R>>(start),
            KindName::GreyLabels => self.session::<Of<Pair<u8, Labels>, R>>(start),
        }
    }

    // The lines of a cell with the rule that is asked for.
    fn from_start(&mut self, start: Start) -> Result<Option<Start>, T::Fault>
        ensures lines { self.new.lines.now ≡ self.old.lines.now }
        ensures same { self.new.teller.ghost_name ≡ self.old.teller.ghost_name }
        ensures served { IfOk result (λ next. (text : List ℕ) × T.tells self.old.teller.now self.new.teller.now text × ServedAs T.Words.cut T.misses start.making.kind (criterion_of start.making.rule) start (map vec_items (drop start.line self.old.lines.now)) text next) }
    {
        match start.making.rule {
            RuleName::Variance => self.with_rule::<LeastVariance>(start),
            RuleName::Range => self.with_rule::<LeastRange>(start),
        }
    }

    // All of the script's lines.
    fn run(&mut self) -> Result<(), T::Fault>
        ensures same { self.new.teller.ghost_name ≡ self.old.teller.ghost_name }
        ensures served { OnOk result ((text : List ℕ) × T.tells self.old.teller.now self.new.teller.now text × ToldOf T.Words.cut T.misses (map vec_items self.old.lines.now) text) }
    {
        let mut next = self.bare_lines(0)?;
        while let Some(start) = next {
            let served = self.from_start(start)?;
            next = served;
        }
        Ok(())
    }
}

// Tells the answers to a script of these lines, each line's before the next is served.
pub fn serve<T: Teller>(heap: Global, lines: &[Vec<u8>], teller: &mut T) -> Result<(), T::Fault>
    ensures { OnOk result ((text : List ℕ) × T.tells teller.old teller.new text × ToldOf T.Words.cut T.misses (map vec_items lines.now) text) }
{
    let mut serving = Serving {
        heap,
        lines,
        teller,
    };
    serving.run()
}

// What a script of these lines prints.
pub fn transcript(heap: Global, lines: &[Vec<u8>]) -> Result<String, AllocError>
    ensures { IfOk result (λ text. Prints (map vec_items lines.now) (string_bytes text)) }
{
    let mut text = String::new(heap);
    serve(heap, lines, &mut text)?;
    Ok(text)
}
