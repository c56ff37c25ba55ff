//! Parses the arguments of the program `qimg`: the images of a chain (an image and its backing chain), and their further files (VMDK
//! extents).
ghost use Rattle.std.specs.Prelude.{◌≡◌, ◌+◌, ◌*◌, ◌<◌, ◌≤◌, ◌∷◌, length, map, flat_map, codes, MatchOption, IfSome, IfOk, IfErr, IsOkUnless};
ghost use Rattle.imago_access.specs.declared.format.Format.{Format};
ghost use Rattle.qimg_chain.specs.Arguments.{words_from, extra_of, layer_of, format_word, layer_words, opening_words, Says, WhyNotRead, SayNoLayers, AskForNone, AreNoFile, IsExtras, IsLayer, IsOpening};

use imago_access::Format;
use imago_storage::Fault;
use std::alloc::Global;

/// One image of a chain in the arguments.
#[derive(Debug, Drop)]
pub struct LayerArgument {
    /// The format of the image file.
    pub format: Format,
    /// The path of the image file.
    pub path: String,
    /// The further files of the image (VMDK extents), each with its name and its path.
    pub extras: Vec<(String, String)>,
}

/// The images of a chain that are opened for writing. All others are opened read-only.
#[derive(Clone, Copy, Debug, PartialEq, Eq)]
pub enum Opening {
    /// The top image.
    Writable,
    /// No image: the argument `-r`.
    ReadOnly,
    /// The top image and the one below it: the argument `-c`.
    ForCommit,
}

/// The parsed arguments.
#[derive(Debug, Drop)]
pub struct Arguments {
    /// The images that are opened for writing.
    pub opening: Opening,
    /// The images of the chain, the top first. The list isn't empty.
    pub layers: Vec<LayerArgument>,
}

/// Returns the images that are opened for writing, from the first argument.
fn opening_of(word: &str) -> Opening
    ensures { IsOpening word.now result }
{
    match word {
        "-r" => Opening::ReadOnly,
        "-c" => Opening::ForCommit,
        _ => Opening::Writable,
    }
}

/// Returns the number of arguments for an opening.
fn word_count(opening: Opening) -> usize
    ensures { result ≡ length (opening_words opening) }
{
    match opening {
        Opening::Writable => 0,
        Opening::ReadOnly | Opening::ForCommit => 1,
    }
}

/// Returns the format for an argument, or `None` if it isn't one of a format.
fn format_of(word: &str) -> Option<Format>
    ensures { MatchOption result ((f : Format) → word.now ≡ format_word f → ⊥) (λ f. word.now ≡ format_word f) }
{
    match word {
        "raw" => Some(Format::Raw),
        "qcow2" => Some(Format::Qcow2),
        "vmdk" => Some(Format::Vmdk),
        _ => None,
    }
}

/// Returns the name and the path of the further file at index `at` of the arguments, if one is there.
fn file_at<'a>(words: &[&'a str], at: usize) -> Option<(&'a str, &'a str)>
    requires inside { at ≤ length words.now }
    ensures within_words { IfSome result (λ r. at + 3 ≤ length words.now) }
    ensures file { MatchOption result (AreNoFile (words_from at words.now))
        (λ r. words_from at words.now ≡ codes "file" ∷ r.0.now ∷ r.1.now ∷ words_from (at + 3) words.now) }
{
    if words.len() - at < 3 {
        return None;
    }
    match words[at] {
        "file" => Some((words[at + 1], words[at + 2])),
        _ => None,
    }
}

/// Returns the further files at index `at` of the arguments. Each has three arguments.
fn parse_extras(alloc: Global, words: &[&str], at: usize) -> Result<Vec<(String, String)>, Fault>
    requires inside { at ≤ length words.now }
    ensures within_words { IfOk result (λ r. at + 3 * length r.items ≤ length words.now) }
    ensures taken { IfOk result (λ r. IsExtras (words_from at words.now) (map extra_of r.items)
        (words_from (at + 3 * length r.items) words.now)) }
    ensures err { IsOkUnless result Fault.Memory }
{
    let mut extras = Vec::new(alloc);
    'files: while let Some((name, path)) = file_at(words, at + 3 * extras.len()) {
        let name = String::from_str(alloc, name)?;
        let path = String::from_str(alloc, path)?;
        extras.push((name, path))?;
    }
    Ok(extras)
}

/// Returns the layer at index `at` of the arguments, with its further files.
fn parse_layer(alloc: Global, words: &[&str], at: usize) -> Result<LayerArgument, Fault>
    requires inside { at < length words.now }
    ensures within_words { IfOk result (λ r. at + 2 + 3 * length r.extras.items ≤ length words.now) }
    ensures ok { IfOk result (λ r. IsLayer (words_from at words.now) (layer_of r)
        (words_from (at + 2 + 3 * length r.extras.items) words.now)) }
    ensures err { IfErr result (SayNoLayers (words_from at words.now)) }
{
    if words.len() - at < 2 {
        return Err(Fault::BadArgument);
    }
    let Some(format) = format_of(words[at]) else {
        return Err(Fault::BadArgument);
    };
    let path = String::from_str(alloc, words[at + 1])?;
    let extras = parse_extras(alloc, words, at + 2)?;
    Ok(LayerArgument {
        format,
        path,
        extras,
    })
}

/// Returns the layers that the arguments from index `from` on specify. At least one is required.
fn parse_layers(alloc: Global, words: &[&str], from: usize) -> Result<Vec<LayerArgument>, Fault>
    requires inside { from ≤ length words.now }
    ensures ok { IfOk result (λ r. words_from from words.now ≡ flat_map layer_words (map layer_of r.items)) }
    ensures nonempty { IfOk result (λ r. 0 < length r.items) }
    ensures err { IfErr result (AskForNone (words_from from words.now)) }
{
    let mut layers = Vec::new(alloc);
    let mut at = from;
    'layers: while at < words.len() {
        let layer = parse_layer(alloc, words, at)?;
        at += 2 + 3 * layer.extras.len();
        layers.push(layer)?;
    }
    if layers.is_empty() {
        return Err(Fault::BadArgument);
    }
    Ok(layers)
}

/// Parses the arguments of the program, without the program's name. Returns `None` if the list is empty.
///
/// The arguments are `[-r | -c] LAYER ..`, the top first. A LAYER is `raw PATH`, `qcow2 PATH` or `vmdk PATH`, followed by any number of
/// `file NAME PATH`. With `-r` the top is opened read-only. With `-c` the image below it is opened for writing, too.
///
/// # Errors
///
/// - `Fault::BadArgument` if the arguments have another form.
/// - `Fault::Memory` if memory runs out.
pub fn parse(alloc: Global, words: &[&str]) -> Result<Option<Arguments>, Fault>
    ensures ok { IfOk result (Says (words_from 0 words.now)) }
    ensures err { IfErr result (WhyNotRead (words_from 0 words.now)) }
{
    if words.is_empty() {
        return Ok(None);
    }
    let opening = opening_of(words[0]);
    let layers = parse_layers(alloc, words, word_count(opening))?;
    Ok(Some(Arguments { opening, layers }))
}
