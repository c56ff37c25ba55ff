// Creates qcow2 images over files of a case, by their builder.
use crate::files::NamedFiles;
use crate::stops::{Looked, replayed, stops};
use access_calls::mode_of;
use cases::{Trouble, number, ok, size};
use imago_access::FormatCreateBuilder;
use imago_storage::Storage;
use qcow2_image::{Qcow2, Qcow2CreateBuilder};
use std::alloc::Global;

// Configures a builder: `SIZE [clusters N] [width N] [mode MODE] [over NAME as FORMAT]`.
fn configured<S: Storage>(
    alloc: Global,
    image: S,
    words: &[&str],
) -> Result<Qcow2CreateBuilder<S>, Trouble> {
    let [bytes, options @ ..] = words else {
        return Err(Trouble::NoCall);
    };
    let mut builder = Qcow2::create_builder(image).size(number(bytes)?);
    let mut below = None;
    for pair in options.chunks(2) {
        let [word, value] = pair else {
            return Err(Trouble::NoCall);
        };
        match *word {
            "clusters" => builder = builder.cluster_size(size(value)?),
            "width" => builder = builder.refcount_width(size(value)?),
            "mode" => builder = builder.preallocate(mode_of(value)?),
            "over" => below = Some(*value),
            "as" => {
                let Some(name) = below else {
                    return Err(Trouble::NoCall);
                };
                let format = Some(value.to_string(alloc)?);
                builder = builder.backing(name.to_string(alloc)?, format);
            }
            _ => return Err(Trouble::NoCall),
        }
    }
    Ok(builder)
}

/// Creates an image over a file, and replaces the file with it.
///
/// # Errors
///
/// - `Trouble::NoCall` if the arguments aren't a size and options, or the case has no such file.
/// - `Trouble::Refused` if the creation fails. The file keeps its bytes.
pub fn create(
    alloc: Global,
    files: &mut NamedFiles<'_>,
    name: &str,
    words: &[&str],
) -> Result<String, Trouble> {
    let image = files.open_logged_alone(alloc, name)?;
    let made = configured(alloc, image, words)?.create(alloc)?;
    let bytes = replayed(alloc, made.requests(), name, files)?;
    files.replace(name, bytes)?;
    Ok(ok(alloc)?)
}

/// Creates an image over a copy of a file, and reports the crash images of the creation as `stops` does.
///
/// # Errors
///
/// The errors of `create` and `stops`.
pub fn create_stops(
    alloc: Global,
    files: &mut NamedFiles<'_>,
    name: &str,
    (offset, length): (&str, &str),
    words: &[&str],
) -> Result<String, Trouble> {
    let looked = Looked {
        offset: number(offset)?,
        length: number(length)?,
        is_counted: true,
    };
    let image = files.open_logged_alone(alloc, name)?;
    let made = configured(alloc, image, words)?.create(alloc)?;
    stops(alloc, made.requests(), 0, looked, &["qcow2", name], files)
}
