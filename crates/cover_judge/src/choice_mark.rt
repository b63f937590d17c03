//! Choices in a sketch without rows, made and taken back.
ghost use Rattle.std.specs.Prelude.{◌≡◌, IfOk, OnOk, OnErr};
ghost use Rattle.rowless_sketches.specs.ProgramSketches.{ProgramSketch, with_chosen};
ghost use Rattle.tree_laws.specs.declared.choice.Choice as the_choice;
ghost use Rattle.tree_laws.specs.CoverTrees.{sketch_with};
ghost use Rattle.cover_judge.specs.Choices.{CanChoose};
ghost use Rattle.cover_judge.specs.ChoiceMarks.{IsChoiceMarkOf};

use rowless_sketches::{RowlessSketch, ValueMark};
use std::alloc::AllocError;
use tree_laws::{Choice, event_of};

/// What takes a choice back.
#[derive(Drop)]
pub(crate) enum ChoiceMark {
    Value(ValueMark),
    Source,
    Order,
}

/// Makes a choice in the sketch.
pub(crate) fn choose(sketch: &mut RowlessSketch, choice: Choice) -> Result<ChoiceMark, AllocError>
    requires { CanChoose sketch.old choice }
    ensures ok { OnOk result (sketch.new ≡ with_chosen sketch.old (sketch_with sketch.old.chosen choice)) }
    ensures mark { IfOk result (λ mark. IsChoiceMarkOf mark sketch.old choice) }
    ensures err { OnErr result (sketch.new ≡ sketch.old) }
{
    match choice {
        Choice::Value(thread, value) => {
            let mark = sketch.give_value(thread, value)?;
            Ok(ChoiceMark::Value(mark))
        }
        Choice::Source(read, source) => {
            sketch.choose_source(event_of(read), source)?;
            Ok(ChoiceMark::Source)
        }
        Choice::Order(first, second) => {
            sketch.choose_order(event_of(first), event_of(second))?;
            Ok(ChoiceMark::Order)
        }
    }
}

/// Takes the choice back that was made last.
pub(crate) fn take_back(sketch: &mut RowlessSketch, mark: ChoiceMark)
    requires { (earlier : ProgramSketch) × (choice : the_choice.Choice) × IsChoiceMarkOf mark earlier choice × (sketch.old ≡ with_chosen earlier (sketch_with earlier.chosen choice)) }
    ensures { (earlier : ProgramSketch) (choice : the_choice.Choice) → IsChoiceMarkOf mark earlier choice → sketch.old ≡ with_chosen earlier (sketch_with earlier.chosen choice) → sketch.new ≡ earlier }
{
    match mark {
        ChoiceMark::Value(mark) => sketch.take_back(mark),
        ChoiceMark::Source => sketch.drop_source(),
        ChoiceMark::Order => sketch.drop_order(),
    }
}
