//! The stack of values. A frame's locals come onto it as zeros. So that a call costs little, however many they are,
//! cells that are zero already aren't written again.

ghost use Rattle.std.specs.Prelude.{◌≡◌, ◌+◌, ◌-◌, ◌*◌, ◌<◌, ◌≤◌, [], ◌∷◌, ◌++◌, length, take, drop, replicate, reverse, false, Some, slice_get, slice_set, vec_capacity, IfOk};
ghost use Rattle.wasm_interp.specs.ValueCells.{AreClean, AreUnmarked, Cleaned, cleared, put_at};

use std::alloc::{AllocError, Global};
use std::marker::Model;

/// How many cells have one mark. With fewer a call looks at more marks, with more it writes more cells.
const RUN: usize = 64;

/// How many marks are looked at as one.
const GROUP: usize = 32;

/// A stack with room for 65,536 values, which takes no memory once it is made. The values are the first `top` cells;
/// those above hold what was left there. The mark of a run of cells says whether one of them may be other than zero.
#[derive(Drop)]
pub struct Values {
    cells: Vec<u64>,
    top: usize,
    marks: [bool; 1024],
}

impl Model for Values {
    ghost use Rattle.std.specs.Prelude.{ℕ, List, reverse, take, vec_capacity};
    ghost use Rattle.wasm_interp.specs.ValueCells.{AreValues};

    ghost Value = { List ℕ };

    ghost view = { λ s. reverse (take s.top s.cells.items) };

    ghost invariant = { λ s. AreValues s.cells.items s.top s.marks (vec_capacity s.cells) };
}

/// Writes a cell, which is there or is the next.
#[inline(always)]
fn put(cells: &mut Vec<u64>, at: usize, x: u64)
    requires there { at ≤ length cells.old.items }
    requires room { at < vec_capacity cells.old }
    ensures items { cells.new.items ≡ put_at cells.old.items at x }
    ensures capacity { vec_capacity cells.old ≤ vec_capacity cells.new }
{
    if at < cells.len() {
        cells[at] = x;
    } else {
        match cells.push(x) {
            Ok(()) => {}
            Err(_) => unreachable!(),
        }
    }
}

/// Makes so many cells, where there are fewer.
fn grow(cells: &mut Vec<u64>, count: usize)
    requires { count ≤ vec_capacity cells.old }
    ensures items { cells.new.items ≡ cells.old.items ++ replicate (count - length cells.old.items) 0 }
    ensures capacity { vec_capacity cells.old ≤ vec_capacity cells.new }
{
    let held = cells.len();
    for _k in held..count {
        match cells.push(0) {
            Ok(()) => {}
            Err(_) => unreachable!(),
        }
    }
}

/// Zeros in place of these cells.
fn clear(cells: &mut [u64], from: usize, to: usize)
    requires { to ≤ length cells.old }
    ensures { cells.new ≡ cleared cells.old from (to - from) }
{
    for k in from..to {
        cells[k] = 0;
    }
}

/// Zeros in place of these runs.
#[inline(never)]
fn clean(cells: &mut [u64], marks: &mut [bool], first: usize, last: usize)
    requires marks { last ≤ length marks.old }
    requires cells { last * 64 ≤ length cells.old }
    requires clean { AreClean cells.old marks.old }
    ensures cleaned { Cleaned cells.old cells.new marks.new (first * 64) (last * 64) }
    ensures marks { length marks.new ≡ length marks.old }
{
    for run in first..last {
        if marks[run] {
            clear(cells, run * RUN, run * RUN + RUN);
            marks[run] = false;
        }
    }
}

/// Whether a mark of this group is set. The loop has no exit, so many are looked at by one instruction.
#[inline(always)]
fn is_marked(marks: &[bool], group: usize) -> bool
    requires { group * 32 + 32 ≤ length marks.now }
    ensures { result ≡ false → AreUnmarked marks.now (group * 32) (group * 32 + 32) }
{
    let mut any = false;
    for k in group * GROUP..group * GROUP + GROUP {
        if marks[k] {
            any = true;
        }
    }
    any
}

/// Zeros in place of these runs, of which those of a group without a mark are passed over together.
#[inline(never)]
fn clean_groups(cells: &mut [u64], marks: &mut [bool], first: usize, last: usize)
    requires marks { length marks.old ≡ 1024 }
    requires within { last ≤ 1024 }
    requires cells { last * 64 ≤ length cells.old }
    requires clean { AreClean cells.old marks.old }
    ensures cleaned { Cleaned cells.old cells.new marks.new (first * 64) (last * 64) }
    ensures marks { length marks.new ≡ length marks.old }
{
    for group in first / GROUP..last.div_ceil(GROUP) {
        if is_marked(marks, group) {
            let from = first.max(group * GROUP);
            let to = last.min(group * GROUP + GROUP);
            clean(cells, marks, from, to);
        }
    }
}

/// Zeros in place of these runs, which mostly are none.
#[inline(always)]
fn clean_runs(cells: &mut [u64], marks: &mut [bool], first: usize, last: usize)
    requires marks { length marks.old ≡ 1024 }
    requires within { last ≤ 1024 }
    requires cells { last * 64 ≤ length cells.old }
    requires clean { AreClean cells.old marks.old }
    ensures cleaned { Cleaned cells.old cells.new marks.new (first * 64) (last * 64) }
    ensures marks { length marks.new ≡ length marks.old }
{
    if first < last {
        clean_groups(cells, marks, first, last);
    }
}

impl Values {
    /// An empty stack, with all the memory that it ever takes, 512 KiB and its marks.
    pub fn new(alloc: Global) -> Result<Self, AllocError>
        ensures { IfOk result (λ s. s ≡ []) }
    {
        let cells = Vec::with_capacity(alloc, 65_536)?;
        Ok(Values {
            cells,
            top: 0,
            marks: [false; 1024],
        })
    }

    /// How many values there are.
    #[inline(always)]
    pub fn len(&self) -> usize
        ensures { result ≡ length self.now }
    {
        self.top
    }

    /// One more value, on top.
    #[inline(always)]
    pub fn push(&mut self, x: u64)
        requires { length self.old < 65536 }
        ensures { self.new ≡ x ∷ self.old }
    {
        put(&mut self.cells, self.top, x);
        self.marks[self.top / RUN] = true;
        self.top += 1;
    }

    /// Takes the topmost value off.
    #[inline(always)]
    pub fn pop(&mut self) -> u64
        requires { 0 < length self.old }
        ensures { self.old ≡ result ∷ self.new }
    {
        self.top -= 1;
        self.cells[self.top]
    }

    /// Another value in place of the topmost.
    #[inline(always)]
    pub fn replace(&mut self, x: u64)
        requires { 0 < length self.old }
        ensures { self.new ≡ x ∷ drop 1 self.old }
    {
        let place = self.top - 1;
        self.cells[place] = x;
        self.marks[place / RUN] = true;
    }

    /// The value with so many above it.
    #[inline(always)]
    pub fn get(&self, below: usize) -> u64
        requires { below < length self.now }
        ensures { slice_get self.now below ≡ Some result }
    {
        self.cells[self.top - 1 - below]
    }

    /// The value with so many below it.
    #[inline(always)]
    pub fn at(&self, height: usize) -> u64
        requires { height < length self.now }
        ensures { slice_get (reverse self.now) height ≡ Some result }
    {
        self.cells[height]
    }

    /// Another value in place of the one with so many below it.
    #[inline(always)]
    pub fn set_at(&mut self, height: usize, x: u64)
        requires { height < length self.old }
        ensures { self.new ≡ reverse (slice_set (reverse self.old) height x) }
    {
        self.cells[height] = x;
        self.marks[height / RUN] = true;
    }

    /// Drops so many of the topmost values.
    #[inline(always)]
    pub fn cut(&mut self, count: usize)
        requires { count ≤ length self.old }
        ensures { self.new ≡ drop count self.old }
    {
        self.top -= count;
    }

    /// Keeps at most one value, and below it only the lowest.
    #[inline(always)]
    pub fn unwind(&mut self, keep: u32, height: usize)
        requires few { keep ≤ 1 }
        requires within { keep + height ≤ length self.old }
        ensures { self.new ≡ take keep self.old ++ drop (length self.old - height) self.old }
    {
        let count = self.len() - height;
        if keep == 0 {
            self.cut(count);
        } else {
            let x = self.get(0);
            self.cut(count - 1);
            self.replace(x);
        }
    }

    /// So many zeros more. Beside the rest of the run at the top only marked runs are written, and each was marked by a
    /// value that was pushed or set since.
    pub fn put_zeros(&mut self, count: u64)
        requires { length self.old + count ≤ 65536 }
        ensures { self.new ≡ replicate count 0 ++ self.old }
    {
        let end = self.top + count as usize;
        let first = self.top.div_ceil(RUN);
        let last = end.div_ceil(RUN);
        grow(&mut self.cells, last * RUN);
        let cells = self.cells.as_mut_slice();
        clear(cells, self.top, end.min(first * RUN));
        clean_runs(cells, &mut self.marks, first, last);
        self.top = end;
    }
}
