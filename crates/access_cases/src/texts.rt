// The texts that a script prints for answers.
use imago_storage::PreallocateMode;

/// Returns the text of the mode of the last resize, if any.
pub fn mode(mode: Option<PreallocateMode>) -> &'static str {
    match mode {
        None => "nothing",
        Some(PreallocateMode::None) => "none",
        Some(PreallocateMode::Zero) => "zero",
        Some(PreallocateMode::Allocate) => "allocate",
        Some(PreallocateMode::WriteData) => "data",
    }
}
