//! Functions that take steps, questions, acts and calls from the words of a line.

ghost use Rattle.std.specs.Prelude.{map};
ghost use Rattle.nd_array_core.specs.ArrayMeaning.{meaning_of};
ghost use Rattle.nd_text.specs.LinesAndWords.{words_of};
ghost use Rattle.nd_read.specs.ScriptCalls.{asked_step, asking, acting, acting_both, asked_call, boxed};
ghost use Rattle.nd_read.specs.ScriptReading.{call_in, start_in};
ghost use Rattle.nd_read.specs.LineReaders.{Gives, IsRead, step_at, slashed_at, path_at, question_at, act_at, acts_at, call_at, begins_step, step_may_lack, question_may_lack, act_may_lack, acts_may_lack, call_may_lack, start_may_lack};

use crate::reader::Held;
use crate::reader::read_errors::LineFault;
use crate::reader::words_of_line::Line;
use crate::script_call_types::{Act, Call, Question, Step};
use nd_array_core::Array;
use nd_shape_and_slice::IxDyn;
use nd_text::Keyword;
use std::alloc::Global;

impl<'a> Line<'a> {
    #[tactic(auto, unfolding(crate::specs::LineReaders::named_at, crate::specs::LineReaders::map_read, crate::specs::LineReaders::both_at), using(crate::proofs::ItemReadingLoop::item_words))]
    fn step(&mut self, alloc: Global) -> Result<Step, LineFault>
        ensures { IsRead (step_may_lack self.old) asked_step result self.new (step_at self.old) }
    {
        match self.keyword()? {
            Keyword::Cut => Ok(Step::SliceAxis(self.read()?, self.read()?)),
            Keyword::Slice => Ok(Step::Slice(self.list(alloc)?)),
            Keyword::Collapse => Ok(Step::Collapse(self.read()?, self.read()?)),
            Keyword::Index => Ok(Step::IndexAxis(self.read()?, self.read()?)),
            Keyword::Permute => Ok(Step::Permute(self.list(alloc)?)),
            Keyword::Reverse => Ok(Step::Reverse),
            Keyword::SwapAxes => Ok(Step::SwapAxes(self.read()?, self.read()?)),
            Keyword::Invert => Ok(Step::Invert(self.read()?)),
            Keyword::Insert => Ok(Step::InsertAxis(self.read()?)),
            Keyword::Remove => Ok(Step::RemoveAxis(self.read()?)),
            Keyword::Squeeze => Ok(Step::Squeeze),
            Keyword::Diag => Ok(Step::Diag),
            Keyword::Broadcast => Ok(Step::Broadcast(self.list(alloc)?)),
            _ => Err(LineFault::Bad),
        }
    }

    /// Takes a step of a path and the slash after it from the line, and returns the step.
    #[tactic(auto, unfolding(crate::specs::LineReaders::map_read, crate::specs::LineReaders::both_at))]
    fn leg(&mut self, alloc: Global) -> Result<Step, LineFault>
        ensures { IsRead (step_may_lack self.old) asked_step result self.new (slashed_at step_at self.old) }
    {
        let step = self.step(alloc)?;
        self.slash()?;
        Ok(step)
    }

    /// Takes the steps of a path from the line, each with the slash after it, and returns them. It takes at most `most`
    /// steps.
    fn path(&mut self, alloc: Global, most: usize) -> Result<Vec<Step>, LineFault>
        ensures { IsRead (begins_step self.old) (λ x. map asked_step x.items) result self.new (path_at most self.old) }
    {
        // Most paths have one step or none.
        let mut steps = Vec::with_capacity(alloc, usize::from(self.begins_step()))?;
        for _ in 0..most {
            if !self.begins_step() {
                break;
            }
            steps.push(self.leg(alloc)?)?;
        }
        Ok(steps)
    }

    #[tactic(auto, unfolding(crate::specs::LineReaders::named_at, crate::specs::LineReaders::map_read, crate::specs::LineReaders::both_at), using(crate::proofs::ItemReadingLoop::item_words))]
    fn question(&mut self, alloc: Global) -> Result<Question<i64, Held>, LineFault>
        ensures { IsRead (question_may_lack self.old) (asking (boxed meaning_of)) result self.new (question_at self.old) }
    {
        match self.keyword()? {
            Keyword::Shape => Ok(Question::Shape),
            Keyword::Elements => Ok(Question::Elements),
            Keyword::Get => Ok(Question::Get(self.list(alloc)?)),
            Keyword::First => Ok(Question::First),
            Keyword::Last => Ok(Question::Last),
            Keyword::Equal => Ok(Question::EqualTo(self.boxed(alloc)?)),
            Keyword::Count => Ok(Question::Count(self.read()?)),
            Keyword::Reshape => {
                let order = self.read()?;
                Ok(Question::ToShape(self.list(alloc)?, order))
            }
            _ => Err(LineFault::Bad),
        }
    }

    #[tactic(auto, unfolding(crate::specs::LineReaders::named_at, crate::specs::LineReaders::map_read, crate::specs::LineReaders::both_at), using(crate::proofs::ItemReadingLoop::item_words))]
    fn act(&mut self, alloc: Global) -> Result<Act<i64, Held>, LineFault>
        ensures { IsRead (act_may_lack self.old) (acting (boxed meaning_of)) result self.new (act_at self.old) }
    {
        match self.keyword()? {
            Keyword::Fill => Ok(Act::Fill(self.read()?)),
            Keyword::Assign => Ok(Act::Assign(self.boxed(alloc)?)),
            Keyword::Set => Ok(Act::Set(self.list(alloc)?, self.read()?)),
            Keyword::Swap => Ok(Act::Swap(self.list(alloc)?, self.list(alloc)?)),
            _ => Err(LineFault::Bad),
        }
    }

    /// Takes an act, a slash and another act from the line, and returns the two acts.
    #[tactic(auto, unfolding(crate::specs::LineReaders::map_read, crate::specs::LineReaders::both_at))]
    fn acts(&mut self, alloc: Global) -> Result<(Act<i64, Held>, Act<i64, Held>), LineFault>
        ensures { IsRead (acts_may_lack self.old) (acting_both (boxed meaning_of)) result self.new (acts_at self.old) }
    {
        let first = self.act(alloc)?;
        self.slash()?;
        Ok((first, self.act(alloc)?))
    }

    #[tactic(auto, unfolding(crate::specs::LineReaders::named_at, crate::specs::LineReaders::map_read, crate::specs::LineReaders::both_at), using(crate::proofs::ItemReadingLoop::item_words))]
    fn call(&mut self, alloc: Global, most: usize) -> Result<Call<i64, Held>, LineFault>
        ensures { IsRead (call_may_lack self.old) (asked_call (boxed meaning_of)) result self.new (call_at most self.old) }
    {
        match self.keyword()? {
            Keyword::Keep => Ok(Call::Keep(self.step(alloc)?)),
            Keyword::Ask => Ok(Call::Ask(self.path(alloc, most)?, self.question(alloc)?)),
            Keyword::Write => Ok(Call::Write(self.path(alloc, most)?, self.act(alloc)?)),
            Keyword::Split => {
                let (axis, index) = (self.read()?, self.read()?);
                let (first, second) = self.acts(alloc)?;
                Ok(Call::SplitWrite(axis, index, first, second))
            }
            Keyword::Select => Ok(Call::Select(self.read()?, self.list(alloc)?)),
            Keyword::RemoveIndex => Ok(Call::RemoveIndex(self.read()?, self.read()?)),
            Keyword::Reshape => {
                let order = self.read()?;
                Ok(Call::Reshape(self.list(alloc)?, order))
            }
            Keyword::Append => Ok(Call::Append(self.read()?, self.boxed(alloc)?)),
            Keyword::Push => Ok(Call::Push(self.read()?, self.boxed(alloc)?)),
            Keyword::Reserve => Ok(Call::Reserve(self.read()?, self.read()?)),
            Keyword::Concat => Ok(Call::Concatenate(self.read()?, self.arrays(alloc)?)),
            Keyword::Stack => Ok(Call::Stack(self.read()?, self.arrays(alloc)?)),
            _ => Err(LineFault::Bad),
        }
    }
}

/// Reads a step from the front of a line, and returns the step and the rest of the line.
///
/// # Errors
///
/// Fails with `LineFault::Bad` if the first words of the line write no step, and with `LineFault::Memory` if memory for
/// a list of the step is refused.
pub fn split_step(alloc: Global, line: &[u8]) -> Result<(Step, &[u8]), LineFault>
    ensures { Gives (step_may_lack (words_of line.now)) (λ x. (asked_step x.0, words_of x.1.now)) result (step_at (words_of line.now)) }
{
    let mut words = Line::new(line);
    let step = words.step(alloc)?;
    Ok((step, words.rest()))
}

/// Returns the call that a line writes. Fails with `LineFault::Bad` if it writes none, or if words are left after the
/// call.
#[tactic(auto, unfolding(crate::specs::LineReaders::call_of))]
pub fn call(alloc: Global, line: &[u8]) -> Result<Call<i64, Held>, LineFault>
    ensures { Gives (call_may_lack (words_of line.now)) (asked_call (boxed meaning_of)) result (call_in line.now) }
{
    let mut words = Line::new(line);
    let call = words.call(alloc, line.len())?;
    words.end(call)
}

/// Returns the array that the first line of a script writes after the word `start`. Fails with `LineFault::Bad` if it
/// writes none, or if words are left after the array.
#[tactic(auto, unfolding(crate::specs::LineReaders::start_of, crate::specs::LineReaders::named_at))]
pub fn start(alloc: Global, line: &[u8]) -> Result<Array<i64, IxDyn>, LineFault>
    ensures { Gives (start_may_lack (words_of line.now)) meaning_of result (start_in line.now) }
{
    let mut words = Line::new(line);
    match words.keyword()? {
        Keyword::Start => {}
        _ => return Err(LineFault::Bad),
    }
    let array = words.array(alloc)?;
    words.end(array)
}
