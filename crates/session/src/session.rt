ghost use Rattle.std.specs.Prelude.{◌≡◌, [], IfOk, Some, None, MatchResult};
ghost use Rattle.session.specs.Sessions.{Kept, Performed, Regridded, Relent, Reopened, Shows, Zeros};
ghost use Rattle.script.specs.declared.command.Kind.TheVariants.{Cents};

use crate::answer::Answer;
use crate::calls::{changed, opened, ruled, stored};
use crate::lent::Lent;
use crate::posting::Posting;
use crate::refusal::Refusal;
use crate::report::Report;
use grid::{Layout, Outcome};
use script::{Change, Command, Expected, Filling, Kind, Marked, Opening, What};
use std::alloc::Global;

/// An answer that shows a grid: merging says yes, and any other change ok.
fn shown(change: &Change, layout: Layout) -> Answer
    ensures { Shows result (Some layout) }
{
    match change {
        Change::Merge(_, _) => Answer::Yes(layout),
        _ => Answer::Grid(layout),
    }
}

/// What a script has done so far: the lent cells, the open grid, and what was posted since.
#[derive(Drop)]
pub(crate) struct Session {
    heap: Global,
    lent: Lent,
    grid: Option<Layout>,
    posted: Vec<Posting>,
}

impl Session {
    /// No cells are lent and no grid is open.
    pub(crate) fn new(heap: Global) -> Session
        ensures cells { Zeros 0 Cents result.lent }
        ensures grid { result.grid ≡ None }
        ensures posted { result.posted.items ≡ [] }
    {
        Session {
            heap,
            lent: Lent::Cents(Vec::new(heap)),
            grid: None,
            posted: Vec::new(heap),
        }
    }

    /// Performs a command; one that is refused changes nothing.
    pub(crate) fn perform(&mut self, command: Command) -> Result<Answer, Refusal>
        ensures { MatchResult result (λ told. Performed command self.old self.new told) (λ _. Kept self.old self.new) }
    {
        match command {
            Command::Lend(count, kind) => self.lend(count, kind),
            Command::Open(opening) => self.open(opening),
            Command::Change(change) => self.change(change),
            Command::Fill(filling) => self.fill(filling),
            Command::Read(index) => self.read(index),
            Command::Rule(ruling) => ruled(ruling),
            Command::Info(storing) => stored(&storing),
            Command::Cells => self.cells(),
            Command::Report => self.report(),
        }
    }

    /// The open grid.
    fn grid(&self) -> Result<Layout, What>
        ensures { IfOk result (λ layout. self.now.grid ≡ Some layout) }
    {
        self.grid.ok_or(What::Grid)
    }

    /// Lends new cells in place of the old ones.
    fn lend(&mut self, count: Marked<usize>, kind: Kind) -> Result<Answer, Refusal>
        ensures { MatchResult result (λ told. Relent count.value kind self.old self.new) (λ _. Kept self.old self.new) }
    {
        let column = count.column;
        let what = What::CellMemory(count.value);
        self.lent = Lent::new(self.heap, count.value, kind).map_err(|_| Expected { column, what })?;
        self.posted.clear();
        Ok(Answer::Done)
    }

    /// Opens a grid in place of the old one.
    fn open(&mut self, opening: Opening) -> Result<Answer, Refusal>
        ensures { MatchResult result (λ told. Reopened self.old self.new told) (λ _. Kept self.old self.new) }
    {
        let layout = opened(&opening)?;
        self.grid = Some(layout);
        self.posted.clear();
        Ok(Answer::Grid(layout))
    }

    /// Changes the open grid, and notes the change.
    fn change(&mut self, change: Change) -> Result<Answer, Refusal>
        ensures { MatchResult result (λ told. Regridded self.old self.new told) (λ _. Kept self.old self.new) }
    {
        let before = self.grid()?;
        // The note's place is had first, so that a change is never made and not noted.
        self.posted.reserve(1)?;
        let mut layout = before;
        match changed(&mut layout, &change)? {
            Outcome::No => Ok(Answer::No(before)),
            Outcome::Done => {
                self.grid = Some(layout);
                let answer = shown(&change, layout);
                let _ = self.posted.push(Posting::Changed(change));
                Ok(answer)
            }
        }
    }

    /// Fills the open grid or a selection of it, and notes what was posted.
    fn fill(&mut self, filling: Filling) -> Result<Answer, Refusal>
        ensures { MatchResult result (λ told. self.new.grid ≡ self.old.grid) (λ _. Kept self.old self.new) }
    {
        let layout = self.grid()?;
        // The note's place is had first, so that a filling is never done and not noted.
        self.posted.reserve(1)?;
        self.lent.fill(&layout, &filling)?;
        Posting::note(&mut self.posted, filling, &layout);
        Ok(Answer::Done)
    }

    /// Reads one cell of the open grid.
    fn read(&self, index: Vec<usize>) -> Result<Answer, Refusal> {
        let layout = self.grid()?;
        Ok(Answer::Found(self.lent.read(&layout, index.as_slice())?))
    }

    /// Every lent cell.
    fn cells(&self) -> Result<Answer, Refusal> {
        Ok(Answer::Cells(self.lent.copied(self.heap)?))
    }

    /// What stands where, and what was posted.
    fn report(&self) -> Result<Answer, Refusal> {
        let report = Report::new(self.heap, &self.lent, self.grid, self.posted.as_slice())?;
        Ok(Answer::Report(report))
    }
}
