// Answers lines of a script about the file of an open image: its bytes, its requests and its crash images (the file after a crash between
// two requests).
use crate::judging::{Verdict, judge};
use crate::opened::{Disk, Open, is_addressable};
use crate::texts::{leaks_text, numbers_text};
use cases::{Trouble, joined, number, runs, size};
use imago_storage::{Request, StorageExt};
use qcow2_alloc::ImageFile;
use qcow2_metadata::RefBlock;
use qcow2_types::HostCluster;
use std::alloc::Global;

/// The maximum number of bytes of one read.
const MOST: usize = 1_048_576;

// Returns the text of a change. A write of whole clusters of 512 bytes is printed by their numbers, any other write by its range.
fn request_text(alloc: Global, request: &Request) -> Result<String, Trouble> {
    match request {
        Request::Write { offset, bytes } => {
            let length = bytes.len();
            let cluster = offset / 512;
            if offset % 512 > 0 || length % 512 > 0 {
                return Ok(format!(in alloc; "{offset}:{length}")?);
            }
            if length == 512 {
                return Ok(cluster.to_string(alloc)?);
            }
            let count = length / 512;
            Ok(format!(in alloc; "{cluster}+{count}")?)
        }
        Request::Zeroes { offset, length } => { Ok(format!(in alloc; "zeroes:{offset}:{length}")?) }
        Request::Resize { size } => Ok(format!(in alloc; "resize:{size}")?),
    }
}

// Loads the block that a file has in a cluster.
fn block_of<'a>(
    alloc: Global,
    file: &mut ImageFile<Disk<'a>>,
    cluster: HostCluster,
) -> Result<RefBlock, Trouble> {
    if !is_addressable(cluster, file.header.cluster_bits()) {
        return Err(Trouble::NoCall);
    }
    Ok(RefBlock::load(alloc, &mut file.image, &file.header, cluster)?)
}

impl<'a> Open<'a> {
    // Returns the changes of the file since the last call.
    fn written(&mut self) -> Result<String, Trouble> {
        let mut text = String::new(self.alloc);
        let requests = self.file.image.requests();
        for request in requests.iter().skip(self.told) {
            let word = request_text(self.alloc, request)?;
            joined(&mut text, word.as_str())?;
        }
        self.told = requests.len();
        if text.is_empty() {
            joined(&mut text, "nothing")?;
        }
        Ok(text)
    }

    // Returns the crash image after `k` changes.
    fn stop(&mut self, k: usize) -> Result<Vec<u8>, Trouble> {
        if k > self.file.image.requests().len() {
            return Err(Trouble::NoCall);
        }
        Ok(self.file.image.stop_at(k)?)
    }

    // Checks each crash image that wasn't checked yet.
    fn stops(&mut self) -> Result<String, Trouble> {
        let last = self.file.image.requests().len();
        for k in self.judged..last.saturating_add(1) {
            let bytes = self.stop(k)?;
            if let Err(fault) = judge(self.alloc, bytes)? {
                return Ok(format!(in self.alloc; "{fault} at stop {k}")?);
            }
        }
        self.judged = last;
        Ok("sound".to_string(self.alloc)?)
    }

    // Returns the checker's verdict on the last crash image.
    fn last_verdict(&mut self) -> Result<Verdict, Trouble> {
        let last = self.file.image.requests().len();
        let bytes = self.stop(last)?;
        judge(self.alloc, bytes)
    }

    // Returns the clusters that leak in the last crash image, or their number.
    pub fn leaks(&mut self, is_count: bool) -> Result<String, Trouble> {
        match self.last_verdict()? {
            Ok(leaks) if is_count => Ok(leaks.len().to_string(self.alloc)?),
            Ok(leaks) => Ok(leaks_text(self.alloc, &leaks)?),
            Err(fault) => Ok(fault.to_string(self.alloc)?),
        }
    }

    fn bytes_at(&mut self, offset: u64, count: usize) -> Result<Vec<u8>, Trouble> {
        if count > MOST {
            return Err(Trouble::NoCall);
        }
        let mut bytes = vec![in self.alloc; 0u8; count]?;
        self.file.image.read(self.alloc, &mut bytes, offset)?;
        Ok(bytes)
    }

    fn word_at(&mut self, offset: u64) -> Result<u64, Trouble> {
        let mut bytes = [0u8; 8];
        self.file.image.read(self.alloc, &mut bytes, offset)?;
        Ok(u64::from_be_bytes(bytes))
    }

    // Returns the block with a cluster's refcount, if any, by the header and the refcount table of the file.
    fn block_in_file(&mut self, cluster: u64) -> Result<Option<RefBlock>, Trouble> {
        let offset = self.word_at(48)?;
        let per_block = self.file.header.rb_entries() as u64;
        let place = offset.wrapping_add((cluster / per_block).wrapping_mul(8));
        let block = HostCluster(self.word_at(place)? / 512);
        if block.0 == 0 || self.file.header.cluster_bits() != 9 {
            return Ok(None);
        }
        Ok(Some(block_of(self.alloc, &mut self.file, block)?))
    }

    // Returns a cluster's refcount in the file.
    fn counted(&mut self, cluster: u64) -> Result<u64, Trouble> {
        let bits = self.file.header.rb_bits();
        match self.block_in_file(cluster)? {
            Some(block) => {
                let index = HostCluster(cluster).rb_index(bits);
                if index >= block.entries() {
                    return Err(Trouble::NoCall);
                }
                Ok(block.get(index))
            }
            None => Ok(0),
        }
    }

    // Returns the text of the refcounts of consecutive clusters in the file.
    fn counted_text(&mut self, first: u64, count: u64) -> Result<String, Trouble> {
        let mut counts = Vec::new(self.alloc);
        for step in 0..count {
            let counter = self.counted(first.wrapping_add(step))?;
            counts.push(counter)?;
        }
        Ok(numbers_text(self.alloc, &counts)?)
    }

    /// Answers a line about the file.
    pub fn look_at_file(&mut self, words: &[&str]) -> Result<String, Trouble> {
        let alloc = self.alloc;
        match words {
            ["written"] => self.written(),
            ["stops"] => self.stops(),
            ["leaks"] => self.leaks(false),
            ["leaked"] => self.leaks(true),
            ["word_in_file", offset] => Ok(self.word_at(number(offset)?)?.to_string(alloc)?),
            ["bytes_in_file", offset, count] => {
                let bytes = self.bytes_at(number(offset)?, size(count)?)?;
                Ok(runs(alloc, &bytes)?)
            }
            ["counted", first, count] => self.counted_text(number(first)?, number(count)?),
            _ => Err(Trouble::NoCall),
        }
    }
}
