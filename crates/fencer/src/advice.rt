//! What is said to people of texts that have no answer, on standard error.

use answers::Texts;
use messages::{Message, Source, costs_message, file_or_input, litmus_message};
use placed_text::TextFault;
use std::alloc::{AllocError, Global};

/// Why a litmus text or a text of costs, of files of these names, has no answer.
pub(crate) fn text_fault_advice(
    alloc: Global,
    named: (&str, Option<&str>),
    texts: &Texts,
    fault: TextFault,
) -> Result<Message, AllocError> {
    let (litmus, cost_file) = named;
    let name = file_or_input(litmus);
    match fault {
        TextFault::Read(why) => litmus_message(alloc, Source::new(name, &texts.litmus), why),
        TextFault::CostText(why) => {
            let costs = texts.costs.as_deref().unwrap_or(b"");
            let source = Source::new(cost_file.unwrap_or(""), costs);
            costs_message(alloc, source, why, &texts.litmus)
        }
        TextFault::Workers | TextFault::OutOfMemory => {
            let text = format!(in alloc; "{fault}")?;
            Message::of_file(alloc, name, text.as_str())
        }
    }
}
