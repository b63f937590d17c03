//! Laws of litmus texts and cost files: each function's contract is a theorem, and calling it does nothing.
ghost use Rattle.litmus_text.specs.Laws.{PrintedPartsAreRead, CanonicalTextIsRead};
ghost use Rattle.litmus_text.specs.Example.{StoreBufferingIsWritten};
ghost use Rattle.litmus_text.specs.TextLaws.{ATextStandsForOneTest, ATextIsOfOneProgram, ATextIsOfOneFencedProgram, ATextGivesOneListOfCosts, TheCostsAreOneList, TheNamesServeTheCondition, AConditionsAnswerCostsNoMore};

/// A text that is written from parts that can be printed is read as those parts.
pub fn printed_parts_are_read()
    ensures { PrintedPartsAreRead }
{}

/// The canonical text of what a litmus text stands for, with fences in a set of its gaps, is read as that fenced program,
/// with the same name, names and condition.
pub fn canonical_text_is_read()
    ensures { CanonicalTextIsRead }
{}

/// The canonical text of store buffering with an MFENCE in each of its gaps.
pub fn store_buffering_is_written()
    ensures { StoreBufferingIsWritten }
{}

/// A litmus text stands for one test: one name, one program, one condition, one list of observed places, the same labels.
/// So what is read of it within the limits of a program, or within those of a fenced one, is that test.
pub fn a_litmus_text_stands_for_one_test()
    ensures test { ATextStandsForOneTest }
    ensures program { ATextIsOfOneProgram }
    ensures fenced { ATextIsOfOneFencedProgram }
{}

/// A cost text gives the gaps of a program one list of costs and one of ties, and so does a text that may be missing.
pub fn a_cost_text_gives_one_list_of_costs()
    ensures text { ATextGivesOneListOfCosts }
    ensures given { TheCostsAreOneList }
{}

/// A set of gaps that serves for the values that a litmus text names serves for the truth of its condition. So the answer
/// for the condition never costs more.
pub fn a_condition_costs_no_more()
    ensures serves { TheNamesServeTheCondition }
    ensures costs { AConditionsAnswerCostsNoMore }
{}
