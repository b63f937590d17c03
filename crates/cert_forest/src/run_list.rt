//! Lists of runs.
ghost use Rattle.std.specs.Prelude.{◌≡◌, ◌↔◌, ◌≤◌, ◌<◌, ◌^◌, ◌++◌, ◌∷◌, [], Some, IsTrue, OnOk, OnErr, MatchOption, Contains, length, get_or, slice_get, slice_range};
ghost use Rattle.std.specs.Iterator.{YieldsFirstRef, item_count};

use std::alloc::{AllocError, Global};
use std::marker::Model;
use tso_machine::Label;

/// Runs in order, each by its labels. They lie flat: the labels of all runs one after another, and where each run ends.
#[derive(Drop)]
pub struct Runs {
    labels: Vec<Label>,
    ends: Vec<usize>,
}

impl Model for Runs {
    ghost use Rattle.std.specs.Prelude.{List, length};
    ghost use Rattle.tso_machine.specs.declared.label.Label.{Label};
    ghost use Rattle.cert_forest.specs.FlatRuns.{runs_from, AreEnds};

    ghost Value = { List (List Label) };

    ghost view = { λ r. runs_from 0 r.ends.items r.labels.items };

    ghost invariant = { λ r. AreEnds 0 r.ends.items (length r.labels.items) };
}

impl Runs {
    /// No run.
    pub fn new(alloc: Global) -> Runs
        ensures { result ≡ [] }
    {
        Runs {
            labels: Vec::new(alloc),
            ends: Vec::new(alloc),
        }
    }

    /// How many runs there are.
    pub fn len(&self) -> usize
        ensures value { result ≡ length self.now }
        ensures few { length self.now < 2 ^ 64 }
    {
        self.ends.len()
    }

    /// The labels of the run of this number, from 0.
    pub fn get(&self, number: usize) -> Option<&[Label]>
        ensures { MatchOption result (length self.now ≤ number) (λ labels. slice_get self.now number ≡ Some labels.now) }
    {
        match self.ends.get(number) {
            Some(end) => Some(part(&self.labels, start_of(&self.ends, number), *end)),
            None => None,
        }
    }

    /// The number of the run with these labels, from 0.
    pub fn position(&self, labels: &[Label]) -> Option<usize>
        ensures { MatchOption result (¬ Contains self.now labels.now) (λ number. slice_get self.now number ≡ Some labels.now) }
    {
        for number in 0..self.len() {
            if self.has_at(number, labels) {
                return Some(number);
            }
        }
        None
    }

    /// Whether the run of this number has these labels.
    fn has_at(&self, number: usize, labels: &[Label]) -> bool
        requires { number < length self.now }
        ensures { IsTrue result ↔ (slice_get self.now number ≡ Some labels.now) }
    {
        match self.get(number) {
            Some(run) => are_same(run, labels),
            None => unreachable!(),
        }
    }

    /// Puts a run after the others. Where there is no memory for it, the runs stay as they are.
    pub fn push(&mut self, labels: &[Label]) -> Result<(), AllocError>
        ensures ok { OnOk result (self.new ≡ self.old ++ labels.now ∷ []) }
        ensures err { OnErr result (self.new ≡ self.old) }
    {
        let start = self.labels.len();
        self.labels.extend_from_slice(labels)?;
        if self.ends.push(self.labels.len()).is_err() {
            self.labels.truncate(start);
            return Err(AllocError);
        }
        Ok(())
    }

    /// Gives back the memory that no run takes.
    pub fn shrink_to_fit(&mut self)
        ensures { self.new ≡ self.old }
    {
        self.labels.shrink_to_fit();
        self.ends.shrink_to_fit();
    }

    /// The labels of each run, in order.
    pub fn iter(&self) -> RunIter<'_>
        ensures { result ≡ self.now }
    {
        RunIter {
            labels: &self.labels,
            start: 0,
            ends: &self.ends,
        }
    }
}

/// The runs that are still to come, in order.
#[derive(Drop)]
pub struct RunIter<'a> {
    /// Those of all runs.
    labels: &'a [Label],
    /// Where the next run begins.
    start: usize,
    /// Where each run that is still to come ends.
    ends: &'a [usize],
}

impl<'a> Model for RunIter<'a> {
    ghost use Rattle.std.specs.Prelude.{List, length};
    ghost use Rattle.tso_machine.specs.declared.label.Label.{Label};
    ghost use Rattle.cert_forest.specs.FlatRuns.{runs_from, AreEnds};

    ghost Value = { List (List Label) };

    ghost view = { λ i. runs_from i.start i.ends.now i.labels.now };

    ghost invariant = { λ i. AreEnds i.start i.ends.now (length i.labels.now) };
}

impl<'a> Iterator for RunIter<'a> {
    type Item = &'a [Label];

    ghost next_gives = { YieldsFirstRef (λ rest. rest) };

    ghost remaining = { item_count (λ rest. rest) };

    fn next(&mut self) -> Option<&'a [Label]> {
        match self.ends.split_first() {
            Some((end, others)) => {
                let run = part(self.labels, self.start, *end);
                self.start = *end;
                self.ends = others;
                Some(run)
            }
            None => None,
        }
    }
}

impl<'a> IntoIterator for &'a Runs {
    type Item = &'a [Label];

    type IntoIter = RunIter<'a>;

    ghost into_iter_gives = { λ runs it. it ≡ runs.now };

    fn into_iter(self) -> RunIter<'a> {
        self.iter()
    }
}

/// Where the run of this number begins.
fn start_of(ends: &[usize], number: usize) -> usize
    requires { number ≤ length ends.now }
    ensures { result ≡ get_or (0 ∷ ends.now) number result }
{
    match number.checked_sub(1) {
        Some(before) => ends[before],
        None => 0,
    }
}

/// The labels from one place to before another.
fn part(labels: &[Label], start: usize, end: usize) -> &[Label]
    requires ascend { start ≤ end }
    requires within { end ≤ length labels.now }
    ensures { result.now ≡ slice_range labels.now start end }
{
    &labels[start..end]
}

/// Whether the two are the same steps.
fn are_same(run: &[Label], labels: &[Label]) -> bool
    ensures { IsTrue result ↔ (run.now ≡ labels.now) }
{
    run == labels
}
