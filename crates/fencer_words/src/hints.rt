//! Options that a command lacks and others take.

use crate::form::Form;
use crate::words::choice_names;
use std::alloc::{AllocError, Global};

/// That an option is one of other commands, for the first option of a command that is; it is empty where there is none.
pub fn option_hint(alloc: Global, words: &[String]) -> Result<String, AllocError> {
    let [name, rest @ ..] = words else {
        return Ok(String::new(alloc));
    };
    for word in rest {
        if let Some(option) = option_of(word.as_str()) {
            let others = other_takers(alloc, name.as_str(), option)?;
            if !others.is_empty() {
                return format!(in alloc; "`--{option}` is an option of {others}");
            }
        }
    }
    Ok(String::new(alloc))
}

/// The name of the option that an argument is.
fn option_of(word: &str) -> Option<&str> {
    let option = word.strip_prefix("--")?;
    match option.split_once('=') {
        Some((name, _)) => Some(name),
        None => Some(option),
    }
}

/// The commands that take an option, as they stand in a sentence; it is empty where the command of this name is one of them,
/// or there is no such command.
fn other_takers(alloc: Global, name: &str, option: &str) -> Result<String, AllocError> {
    let mut takers = Vec::new(alloc);
    let mut lacks = false;
    for form in Form::all() {
        if takes(alloc, *form, option)? {
            takers.push(form.name())?;
        } else if form.name() == name {
            lacks = true;
        }
    }
    if lacks {
        listed(alloc, takers.as_slice())
    } else {
        Ok(String::new(alloc))
    }
}

/// Whether the command of a form takes the option of this name.
fn takes(alloc: Global, form: Form, option: &str) -> Result<bool, AllocError> {
    let command = form.command(alloc, choice_names())?;
    let mut arguments = command.get_arguments().iter();
    Ok(arguments.any(|argument| argument.get_long() == Some(option)))
}

/// Names with commas between them, and `and` before the last one.
fn listed(alloc: Global, names: &[&str]) -> Result<String, AllocError> {
    let mut text = String::new(alloc);
    for (index, name) in names.iter().enumerate() {
        if index > 0 {
            let is_last = index.saturating_add(1) == names.len();
            text.push_str(if is_last { " and " } else { ", " })?;
        }
        text.push_str(name)?;
    }
    Ok(text)
}
