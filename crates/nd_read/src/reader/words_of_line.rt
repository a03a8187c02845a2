//! The words of a line that are not read yet, and functions that take words, numbers, lists and arrays from their
//! front.

ghost use Rattle.std.specs.Prelude.{◌≡◌, false, ◌<◌, ◌≤◌, ℕ, List, Option, length, map};
ghost use Rattle.nd_shape_and_slice.specs.ShapesAndIndexOrders.{HasCheckedSize, size_of};
ghost use Rattle.nd_array_core.specs.ArrayMeaning.{meaning_of};
ghost use Rattle.nd_read.specs.ScriptCalls.{boxed};
ghost use Rattle.nd_read.specs.LineGrammar.{array_of};
ghost use Rattle.nd_text.specs.DecimalNumerals.{nat_of, int_of};
ghost use Rattle.nd_text.specs.LinesAndWords.{words_of};
ghost use Rattle.nd_read.specs.LineReaders.{Gives, IsRead, TakesWords, word_at, first_as, many_at, counted_at, slice_end_of, slice_at, slice_element_at, order_at, lengths_at, parts_at, array_at, many_arrays, arrays_at, checked_size, keyword_at, slash_at, begins_step, read_to_end, many_may_lack, list_may_lack, array_may_lack};

use crate::reader::Held;
use crate::reader::read_errors::LineFault;
use nd_array_core::Array;
use nd_shape_and_slice::{IxDyn, MAX_AXES, Order, Slice, SliceInfoElem, size_of_shape_checked};
use nd_text::Keyword;
use nd_text::lines_and_words::{has_words, is_wordless, split_word};
use nd_text::number_reading::{int_of_word, split_int, split_number};
use std::alloc::Global;
use std::marker::Model;

/// The words of a line that are not read yet.
#[derive(Drop)]
pub struct Line<'a> {
    rest: &'a [u8],
}

impl<'a> Model for Line<'a> {
    ghost use Rattle.std.specs.Prelude.{ℕ, List};
    ghost use Rattle.nd_text.specs.LinesAndWords.{words_of};

    ghost Value = { List (List ℕ) };

    ghost view = { λ line. words_of line.rest.now };
}

/// A value that is read from words, and takes no memory.
pub trait Item: Copy {
    ghost read_at: { List (List ℕ) → Option (Self × List (List ℕ)) };

    /// Takes the words of a value from the front of the line, and returns the value. Fails with `LineFault::Bad` if
    /// they write none.
    fn read(line: &mut Line<'_>) -> Result<Self, LineFault>
        ensures { IsRead false (λ x. x) result line.new (read_at line.old) };
}

/// The lengths of an array, and its elements in row-major order.
type Parts = (Vec<usize>, Vec<i64>);

impl<'a> Line<'a> {
    pub fn new(line: &'a [u8]) -> Line<'a>
        ensures { result ≡ words_of line.now }
    {
        Line { rest: line }
    }

    /// Returns the part of the line that is not read yet.
    pub fn rest(&self) -> &'a [u8]
        ensures { words_of result.now ≡ self.now }
    {
        self.rest
    }

    /// Takes the first word from the line, and returns it. Fails with `LineFault::Bad` if there is none.
    fn word(&mut self) -> Result<&'a [u8], LineFault>
        ensures { IsRead false (λ word. word.now) result self.new (word_at self.old) }
    {
        match split_word(self.rest) {
            Some((word, rest)) => {
                self.rest = rest;
                Ok(word)
            }
            None => Err(LineFault::Bad),
        }
    }

    /// Takes the first word from the line, and returns the keyword that it names. Fails with `LineFault::Bad` if there
    /// is no word.
    pub fn keyword(&mut self) -> Result<Keyword, LineFault>
        ensures { IsRead false (λ x. x) result self.new (keyword_at self.old) }
    {
        Ok(Keyword::of(self.word()?))
    }

    /// Returns whether the first word of the line begins a step.
    pub fn begins_step(&self) -> bool
        ensures { result ≡ begins_step self.now }
    {
        match split_word(self.rest) {
            Some((first, _)) => Keyword::of(first).is_step(),
            None => false,
        }
    }

    #[tactic(auto, unfolding(crate::specs::LineReaders::named_at))]
    pub fn slash(&mut self) -> Result<(), LineFault>
        ensures { IsRead false (λ x. x) result self.new (slash_at self.old) }
    {
        match self.keyword()? {
            Keyword::Slash => Ok(()),
            _ => Err(LineFault::Bad),
        }
    }

    /// Returns `value`, which was read from the line, if no word is left. Fails with `LineFault::Bad` if one is left.
    pub fn end<T: Drop>(&self, value: T) -> Result<T, LineFault>
        ensures { Gives false (λ x. x) result (read_to_end (value, self.now)) }
    {
        if is_wordless(self.rest) {
            Ok(value)
        } else {
            Err(LineFault::Bad)
        }
    }

    /// Takes the words of a value from the front of the line, and returns the value. Fails with `LineFault::Bad` if
    /// they write none.
    pub fn read<I: Item>(&mut self) -> Result<I, LineFault>
        ensures { IsRead false (λ x. x) result self.new (I.read_at self.old) }
    {
        I::read(self)
    }

    /// Takes `count` values from the line, and returns them. Fails with `LineFault::Bad`, and takes no memory, if the
    /// line has fewer than `count` words.
    fn items<I: Item>(&mut self, alloc: Global, count: usize) -> Result<Vec<I>, LineFault>
        requires { TakesWords I.read_at }
        ensures read { IsRead (many_may_lack count self.old) (λ x. x.items) result self.new (many_at I.read_at count self.old) }
        ensures few { length self.old < count → result ≡ Err LineFault.Bad }
    {
        if !has_words(self.rest, count) {
            return Err(LineFault::Bad);
        }
        let mut items = Vec::with_capacity(alloc, count)?;
        for _ in 0..count {
            items.push(self.read::<I>()?)?;
        }
        Ok(items)
    }

    /// Takes a count from the line, and then as many values, and returns these.
    #[tactic(auto, unfolding(crate::specs::LineReaders::counted_at))]
    pub fn list<I: Item>(&mut self, alloc: Global) -> Result<Vec<I>, LineFault>
        requires { TakesWords I.read_at }
        ensures { IsRead (list_may_lack self.old) (λ x. x.items) result self.new (counted_at I.read_at self.old) }
    {
        let count = self.read::<usize>()?;
        self.items(alloc, count)
    }

    /// Takes the lengths of an array from the line, and returns them: a count, which must be at most 32, and as many
    /// lengths.
    #[tactic(auto, unfolding(crate::specs::LineReaders::lengths_at))]
    fn lengths(&mut self, alloc: Global) -> Result<Vec<usize>, LineFault>
        ensures { IsRead (array_may_lack self.old) (λ x. x.items) result self.new (lengths_at self.old) }
    {
        let count = self.read::<usize>()?;
        if count > MAX_AXES {
            return Err(LineFault::Bad);
        }
        self.items(alloc, count)
    }

    /// Takes the lengths of an array from the line, and then as many elements as its shape has, and returns both.
    #[tactic(auto, unfolding(crate::specs::LineReaders::parts_at))]
    fn parts(&mut self, alloc: Global) -> Result<Parts, LineFault>
        ensures { IsRead (array_may_lack self.old) (λ x. (x.0.items, x.1.items)) result self.new (parts_at self.old) }
    {
        let lengths = self.lengths(alloc)?;
        let size = checked_size(&lengths)?;
        let elements = self.items::<i64>(alloc, size)?;
        Ok((lengths, elements))
    }

    /// Takes an array from the line, as `array` does, and returns it in a box. It is a function of its own so that
    /// lines without an array don't pay for its locals.
    #[inline(never)]
    pub fn boxed(&mut self, alloc: Global) -> Result<Held, LineFault>
        ensures { IsRead (array_may_lack self.old) (λ x. meaning_of x.value) result self.new (array_at self.old) }
    {
        Ok(Box::new(alloc, self.array(alloc)?)?)
    }

    /// Takes `count` arrays from the line, and returns them in boxes. Fails with `LineFault::Bad`, and takes no memory,
    /// if the line has fewer than `count` words.
    fn boxes(&mut self, alloc: Global, count: usize) -> Result<Vec<Held>, LineFault>
        ensures read { IsRead (many_may_lack count self.old) (λ x. map (boxed meaning_of) x.items) result self.new (many_arrays count self.old) }
        ensures few { length self.old < count → result ≡ Err LineFault.Bad }
    {
        if !has_words(self.rest, count) {
            return Err(LineFault::Bad);
        }
        let mut arrays = Vec::with_capacity(alloc, count)?;
        for _ in 0..count {
            arrays.push(self.boxed(alloc)?)?;
        }
        Ok(arrays)
    }

    /// Takes a count from the line, and then as many arrays, and returns these in boxes.
    #[tactic(auto, unfolding(crate::specs::LineReaders::counted_at))]
    pub fn arrays(&mut self, alloc: Global) -> Result<Vec<Held>, LineFault>
        ensures { IsRead (list_may_lack self.old) (λ x. map (boxed meaning_of) x.items) result self.new (arrays_at self.old) }
    {
        let count = self.read::<usize>()?;
        self.boxes(alloc, count)
    }

    /// Takes an array from the line, and returns it: the lengths are written first, and then the elements in row-major
    /// order.
    #[tactic(auto, unfolding(crate::specs::LineReaders::map_read))]
    pub fn array(&mut self, alloc: Global) -> Result<Array<i64, IxDyn>, LineFault>
        ensures { IsRead (array_may_lack self.old) (λ x. meaning_of x) result self.new (array_at self.old) }
    {
        let (lengths, elements) = self.parts(alloc)?;
        Ok(array_of(&lengths, elements))
    }
}

fn checked_size(lengths: &[usize]) -> Result<usize, LineFault>
    ensures { Gives false (λ x. x) result (checked_size lengths.now) }
{
    size_of_shape_checked(lengths).map_err(|_| LineFault::Bad)
}

/// Returns an array of shape `lengths` that has `elements` in row-major order. There must be as many elements as the
/// shape has.
fn array_of(lengths: &[usize], elements: Vec<i64>) -> Array<i64, IxDyn>
    requires checked { HasCheckedSize lengths.now }
    requires few { length lengths.now ≤ MAX_AXES }
    requires full { length elements.items ≡ size_of lengths.now }
    ensures { meaning_of result ≡ array_of lengths.now elements.items }
{
    match Array::from_shape_vec(IxDyn::new(lengths), elements) {
        Ok(array) => array,
        Err(_) => unreachable!(),
    }
}

impl Item for usize {
    ghost read_at = { first_as nat_of };

    fn read(line: &mut Line<'_>) -> Result<usize, LineFault> {
        let (number, rest) = split_number(line.rest).ok_or(LineFault::Bad)?;
        line.rest = rest;
        Ok(number)
    }
}

impl Item for i64 {
    ghost read_at = { first_as int_of };

    fn read(line: &mut Line<'_>) -> Result<i64, LineFault> {
        let (number, rest) = split_int(line.rest).ok_or(LineFault::Bad)?;
        line.rest = rest;
        Ok(number)
    }
}

impl Item for isize {
    ghost read_at = { first_as int_of };

    fn read(line: &mut Line<'_>) -> Result<isize, LineFault> {
        Ok(line.read::<i64>()? as isize)
    }
}

/// An end of a slice, which is a number, or `_` for an end that isn't given.
impl Item for Option<isize> {
    ghost read_at = { first_as slice_end_of };

    fn read(line: &mut Line<'_>) -> Result<Option<isize>, LineFault> {
        let word = line.word()?;
        if word == b"_".as_slice() {
            return Ok(None);
        }
        Ok(Some(int_of_word(word).ok_or(LineFault::Bad)? as isize))
    }
}

impl Item for Slice {
    ghost read_at = { slice_at };

    #[tactic(auto, unfolding(crate::specs::LineReaders::map_read, crate::specs::LineReaders::both_at))]
    fn read(line: &mut Line<'_>) -> Result<Slice, LineFault> {
        Ok(Slice::new(line.read()?, line.read()?, line.read()?))
    }
}

impl Item for SliceInfoElem {
    ghost read_at = { slice_element_at };

    #[tactic(auto, unfolding(crate::specs::LineReaders::named_at, crate::specs::LineReaders::map_read))]
    fn read(line: &mut Line<'_>) -> Result<SliceInfoElem, LineFault> {
        match line.keyword()? {
            Keyword::Part => {
                let Slice { start, end, step } = line.read()?;
                Ok(SliceInfoElem::Slice { start, end, step })
            }
            Keyword::Coordinate => Ok(SliceInfoElem::Index(line.read()?)),
            Keyword::New => Ok(SliceInfoElem::NewAxis),
            _ => Err(LineFault::Bad),
        }
    }
}

impl Item for Order {
    ghost read_at = { order_at };

    #[tactic(auto, unfolding(crate::specs::LineReaders::named_at))]
    fn read(line: &mut Line<'_>) -> Result<Order, LineFault> {
        match line.keyword()? {
            Keyword::Row => Ok(Order::RowMajor),
            Keyword::Column => Ok(Order::ColumnMajor),
            _ => Err(LineFault::Bad),
        }
    }
}
