//! A file in memory.
ghost use Rattle.std.specs.Prelude.{◌≡◌, ◌+◌, ◌<◌, ◌≤◌, ◌^◌, true, false, [], length, take, drop, IfOk, OnErr, string_bytes};
ghost use Rattle.trau_files.specs.Disk.{GivesOctets, written_at};
ghost use Rattle.memory_folder.specs.Memory.{leads};

use std::alloc::Global;
use std::io;
use std::io::ErrorKind;
use std::marker::Model;

// No file has so many octets.
const FILE_LIMIT: usize = 1 << 63;

/// A file in memory: its name and its octets.
#[derive(Drop)]
pub struct MemoryFile {
    name: String,
    octets: Vec<u8>,
}

impl Model for MemoryFile {
    ghost use Rattle.std.specs.Prelude.{◌<◌, ◌^◌, string_bytes, vec_len};
    ghost use Rattle.memory_folder.specs.Memory.{StoredFile};

    ghost Value = { StoredFile };

    ghost view = { λ f. record { name = string_bytes f.name; octets = f.octets.items } };

    ghost invariant = { λ f. vec_len f.octets < 2 ^ 63 };
}

impl MemoryFile {
    /// An empty file with this name.
    pub fn new(alloc: Global, name: String) -> MemoryFile
        ensures { result ≡ record { name = string_bytes name; octets = [] } }
    {
        MemoryFile {
            name,
            octets: Vec::new(alloc),
        }
    }

    /// Whether this name leads to the file.
    pub fn has_name(&self, name: &str) -> bool
        ensures { result ≡ leads name.now self.now }
    {
        self.name.as_str() == name
    }

    /// Removes all octets.
    pub fn empty(&mut self)
        ensures { self.new ≡ record self.old { octets = [] } }
    {
        self.octets.clear();
    }

    /// Copies octets from octet `at` on to the start of `buf`, as many as there are and fit. Returns how many.
    pub fn read(&self, at: u64, buf: &mut [u8]) -> usize
        ensures bound { result ≤ length buf.new }
        ensures octets { GivesOctets (drop at self.now.octets) (drop (at + result) self.now.octets) result buf.new }
        ensures small { length self.now.octets < 2 ^ 63 }
        ensures within { at + result < 2 ^ 64 }
    {
        let start = (at as usize).min(self.octets.len());
        let rest = &self.octets[start..];
        let count = rest.len().min(buf.len());
        buf[..count].copy_from_slice(&rest[..count]);
        count
    }

    /// Writes a prefix of `bytes` over the octets from octet `at` on; at the file's end, all of them after it. Returns
    /// how many. A write past the end is refused.
    pub fn write(&mut self, at: u64, bytes: &[u8]) -> io::Result<usize>
        ensures bound { IfOk result (λ n. n ≤ length bytes.now) }
        ensures octets { IfOk result (λ n. self.new ≡ record self.old { octets = written_at self.old.octets at (take n bytes.now) }) }
        ensures within { IfOk result (λ n. at + n < 2 ^ 63) }
        ensures failed { OnErr result (self.new ≡ self.old) }
        ensures small { length self.old.octets < 2 ^ 63 }
        ensures small_after { length self.new.octets < 2 ^ 63 }
    {
        let at = at as usize;
        let length = self.octets.len();
        if at > length || bytes.len() >= FILE_LIMIT - length {
            return Err(io::Error::from(ErrorKind::InvalidInput));
        }
        if at == length {
            self.octets.extend_from_slice(bytes)?;
            return Ok(bytes.len());
        }
        let count = bytes.len().min(length - at);
        self.octets[at..at + count].copy_from_slice(&bytes[..count]);
        Ok(count)
    }
}
