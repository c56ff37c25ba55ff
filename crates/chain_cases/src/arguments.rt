// Parses command lines of the program `qimg`, and answers the layers (images of a chain) that they give.
use crate::copies::word_of;
use cases::{Trouble, joined};
use qimg_chain::arguments::{Arguments, LayerArgument, Opening, parse};
use std::alloc::Global;

// Appends a layer: its format and path, and the names and paths of its extra files.
fn tell_layer(alloc: Global, text: &mut String, layer: &LayerArgument) -> Result<(), Trouble> {
    joined(text, word_of(layer.format))?;
    joined(text, layer.path.as_str())?;
    for (name, path) in &layer.extras {
        let file = format!(in alloc; "with {name} at {path}")?;
        joined(text, file.as_str())?;
    }
    Ok(joined(text, "/")?)
}

// Returns how the images are opened, and the layers, each followed by `/`.
fn told(alloc: Global, arguments: &Arguments) -> Result<String, Trouble> {
    let mut text = String::new(alloc);
    let access = match arguments.opening {
        Opening::ReadOnly => "reading /",
        Opening::Writable => "writing /",
        Opening::ForCommit => "committing /",
    };
    joined(&mut text, access)?;
    for layer in &arguments.layers {
        tell_layer(alloc, &mut text, layer)?;
    }
    Ok(text)
}

/// Parses `words` as the program's arguments, and returns their text, or `none` if the list is empty.
///
/// # Errors
///
/// - `Trouble::Refused` if the words aren't valid arguments, or memory runs out.
pub fn asked_for(alloc: Global, words: &[&str]) -> Result<String, Trouble> {
    match parse(alloc, words)? {
        None => Ok("none".to_string(alloc)?),
        Some(arguments) => told(alloc, &arguments),
    }
}
