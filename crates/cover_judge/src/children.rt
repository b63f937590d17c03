//! The children of nodes in cover trees, each judged at the sketch after its choice, which is taken back.
ghost use Rattle.std.specs.Prelude.{◌≡◌, ◌<◌, ◌≤◌, OnOk, IfErr, length, take, drop};
ghost use Rattle.cert_forest.specs.Nodes.{first_tree};
ghost use Rattle.cover_judge.specs.Choices.{CanChoose, CanChooseEach};
ghost use Rattle.cover_judge.specs.ChoiceLists.{choices_in};
ghost use Rattle.cover_judge.specs.Judged.{IfWrong, IsBelow, IsValidAfter, IsWrongAt, AreValidAfter, IsWrongChild, AreValidFor, IsWrongFor};
ghost use Rattle.cover_judge.specs.RuleValues.{AreListsBy};
ghost use Rattle.tree_laws.specs.CoverTrees.{sketch_with};

use crate::choice_mark::{choose, take_back};
use crate::choices::{Choices, so_many_choices};
use crate::cover::CoverJudge;
use crate::fault::NodeFault;
use cert_forest::Walk;
use rowless_sketches::RowlessSketch;
use tree_laws::{Choice, OpenChoice};

impl CoverJudge<'_> {
    /// Judges the children of a node, which come first in the walk: one for each choice of what the rule leaves open.
    #[cycle(judge)]
    pub(crate) fn judge_children(
        &self,
        next: OpenChoice,
        count: u32,
        walk: &mut Walk<'_>,
        sketch: &mut RowlessSketch,
    ) -> Result<(), NodeFault>
        requires many { count ≤ length walk.old }
        requires lists { AreListsBy self.now.rule sketch.old.program self.now.lists.now }
        ensures kept { sketch.new ≡ sketch.old }
        ensures after { OnOk result (walk.new ≡ drop count walk.old) }
        ensures valid { OnOk result (AreValidFor self.now.rule self.now.shown.now self.now.outcomes.now sketch.old next (take count walk.old)) }
        ensures wrong { IfErr result (IfWrong (IsWrongFor self.now.rule self.now.shown.now self.now.outcomes.now sketch.old next (take count walk.old))) }
    {
        let choices = so_many_choices(self.alloc, self.rule, self.lists, next, count, sketch)?;
        self.judge_each(&choices, walk, sketch)
    }

    /// Judges trees in order, each at the sketch after its choice: they come first in the walk.
    #[cycle(judge)]
    fn judge_each(
        &self,
        choices: &Choices,
        walk: &mut Walk<'_>,
        sketch: &mut RowlessSketch,
    ) -> Result<(), NodeFault>
        requires can { CanChooseEach sketch.old (choices_in choices.now) }
        requires lists { AreListsBy self.now.rule sketch.old.program self.now.lists.now }
        requires as_many { length (choices_in choices.now) ≤ length walk.old }
        ensures kept { sketch.new ≡ sketch.old }
        ensures after { OnOk result (walk.new ≡ drop (length (choices_in choices.now)) walk.old) }
        ensures valid { OnOk result (AreValidAfter self.now.rule self.now.shown.now self.now.outcomes.now sketch.old (take (length (choices_in choices.now)) walk.old) (choices_in choices.now)) }
        ensures wrong { IfErr result (IfWrong (IsBelow (IsWrongChild self.now.rule self.now.shown.now self.now.outcomes.now sketch.old (take (length (choices_in choices.now)) walk.old) (choices_in choices.now)))) }
    {
        for number in 0..choices.len() {
            match self.judge_after(choices.at(number), walk, sketch) {
                Ok(()) => {}
                Err(fault) => return Err(fault.from_parent(number)),
            }
        }
        Ok(())
    }

    /// Judges the first tree of a walk at the sketch after a choice.
    #[cycle(judge)]
    fn judge_after(
        &self,
        choice: Choice,
        walk: &mut Walk<'_>,
        sketch: &mut RowlessSketch,
    ) -> Result<(), NodeFault>
        requires can { CanChoose sketch.old choice }
        requires lists { AreListsBy self.now.rule sketch.old.program self.now.lists.now }
        requires some { 0 < length walk.old }
        ensures kept { sketch.new ≡ sketch.old }
        ensures after { OnOk result (walk.new ≡ drop 1 walk.old) }
        ensures valid { OnOk result (IsValidAfter self.now.rule self.now.shown.now self.now.outcomes.now sketch.old (first_tree walk.old) (sketch_with sketch.old.chosen choice)) }
        ensures wrong { IfErr result (IfWrong (IsWrongAt self.now.rule self.now.shown.now self.now.outcomes.now sketch.old (first_tree walk.old) (sketch_with sketch.old.chosen choice))) }
    {
        let mark = choose(sketch, choice)?;
        let judged = self.judge(walk, sketch);
        take_back(sketch, mark);
        judged
    }
}
