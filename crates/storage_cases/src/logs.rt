// The calls of a log.
use crate::calls::{Answer, buffer};
use cases::{Trouble, joined, runs};
use imago_storage::{LogStorage, Request, Storage, StorageExt};
use std::alloc::{AllocError, Global};

/// Returns the crash image after the first `k` requests.
pub fn stop<S: Storage>(log: &mut LogStorage<S>, k: usize) -> Result<Answer, Trouble> {
    if k > log.requests().len() {
        return Err(Trouble::NoCall);
    }
    Ok(Answer::Bytes(log.stop_at(k)?))
}

/// Returns whether the crash image after all requests has the bytes of the storage.
pub fn in_step<S: Storage>(alloc: Global, log: &mut LogStorage<S>) -> Result<Answer, Trouble> {
    let last = log.requests().len();
    let file = log.stop_at(last)?;
    let mut bytes = buffer(alloc, log.size())?;
    log.read(alloc, &mut bytes, 0)?;
    Ok(Answer::Flag(bytes.as_slice() == file.as_slice()))
}

fn text(alloc: Global, request: &Request) -> Result<String, AllocError> {
    match request {
        Request::Write { offset, bytes } => {
            let bytes = runs(alloc, bytes)?;
            format!(in alloc; "write {offset} {bytes};")
        }
        Request::Zeroes { offset, length } => format!(in alloc; "zeroes {offset} {length};"),
        Request::Resize { size } => format!(in alloc; "resize {size};"),
    }
}

/// Returns the requests that the log has kept, the oldest first.
pub fn requests<S: Storage>(alloc: Global, log: &LogStorage<S>) -> Result<Answer, Trouble> {
    let mut told = String::new(alloc);
    for request in log.requests().iter() {
        joined(&mut told, text(alloc, request)?.as_str())?;
    }
    if told.is_empty() {
        joined(&mut told, "nothing")?;
    }
    Ok(Answer::Text(told))
}
