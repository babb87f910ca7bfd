//! A heap over a keeper of two areas, on a disk in memory.
ghost use Rattle.std.specs.Prelude.{IfOk};
ghost use Rattle.ode_keep.specs.ShortValues.{HasShortValues};

use crate::classes::{one_class, with_fields};
use ode_areas::Areas;
use ode_codec::{Activation, Entry};
use ode_gate::read_header;
use ode_heap::{Heap, HeapError, ObjectHead};
use ode_host::{Host, MemHost, Plan};
use ode_keep::{Batch, MAX_CHANGES, MAX_VALUE, StartError};
use ode_types::Classes;
use ode_value::{Class, Key, List, Value};
use std::alloc::{AllocError, Global};

/// A record as it is kept.
pub struct Stored {
    pub key: Key,
    pub bytes: &'static [u8],
}

const SLOT: &[u8] = b"\xA5ODEBASE1\0\0\0\x01\0\0\0\x01\0\0\0\0\0\0\0\x01\
    \0\0\0\0\0\0\x10\0\0\0\0\0\0\0\0\x40\
    \0\0\0\0\0\0\x10\x40\0\0\0\0\x02\0\x10\0";

// The key of a record and the length of its value, 45.
const HEAD: &[u8] = b"\x01\0\0\0\0\0\0\0\0\0\0\0\0\0\0\0\0\0\x2D";

fn patch(image: &mut [u8], at: usize, bytes: &[u8]) {
    for (i, byte) in bytes.iter().enumerate() {
        if let Some(place) = image.get_mut(at.saturating_add(i)) {
            *place = *byte;
        }
    }
}

// A new file: one slot is open; the record of the counters is all zeros, and behind it stands a gate that is shut.
fn new_file(alloc: Global) -> Result<Vec<u8>, AllocError> {
    let mut image = vec![in alloc; 0; 4161]?;
    patch(&mut image, 0, SLOT);
    patch(&mut image, 4096, HEAD);
    Ok(image)
}

// A disk with a new file, whose calls of these numbers fail.
fn disk(alloc: Global, failing: &[u64]) -> Result<MemHost, AllocError> {
    let image = new_file(alloc)?;
    let disk_fails = failing.to_vec(alloc)?;
    let plan = Plan {
        disk_fails,
        print_fails: Vec::new(alloc),
        stop: None,
    };
    MemHost::new(alloc, image, plan)
}

fn start(alloc: Global, host: &mut MemHost) -> Result<Areas, StartError> {
    host.sync()?;
    let Ok(header) = read_header(host, &mut [0; 57]) else {
        return Err(StartError::DiskFault);
    };
    if header.layout != 1 {
        return Err(StartError::DiskFault);
    }
    Areas::start(alloc, host, &header)
}

// The changes that put these records.
fn putting(alloc: Global, rows: &[Stored]) -> Result<Batch, AllocError>
    ensures { IfOk result (λ batch. HasShortValues batch) }
{
    let mut batch = Batch::new(alloc);
    for row in rows {
        if row.bytes.len() <= MAX_VALUE {
            batch.put(row.key, List::from_slice(alloc, row.bytes)?)?;
        }
    }
    Ok(batch)
}

/// A database and the disk that it lies on.
#[derive(Drop)]
pub struct Database {
    alloc: Global,
    heap: Heap<Areas>,
    host: MemHost,
}

impl Database {
    /// A new one, on a disk whose calls of these numbers fail.
    pub fn new(alloc: Global, failing: &[u64]) -> Result<Database, AllocError> {
        let mut host = disk(alloc, failing)?;
        match start(alloc, &mut host) {
            Ok(keeper) => Ok(Database {
                alloc,
                heap: Heap::new(keeper),
                host,
            }),
            Err(_) => Err(AllocError),
        }
    }

    /// Whether it may be used.
    pub fn is_live(&self) -> bool {
        self.heap.live::<MemHost>()
    }

    /// Puts these records.
    pub fn put(&mut self, rows: &[Stored]) -> Result<(), HeapError> {
        let batch = putting(self.alloc, rows)?;
        if !self.heap.live::<MemHost>() || batch.len() > MAX_CHANGES {
            return Err(HeapError::Memory);
        }
        self.heap.stage(&mut self.host, &batch)
    }

    /// The next numbers of objects, transactions and entries.
    pub fn counters(&mut self) -> Result<(u64, u64, u64), HeapError> {
        if !self.heap.live::<MemHost>() {
            return Err(HeapError::Memory);
        }
        let counters = self.heap.counters(self.alloc, &mut self.host)?;
        Ok((
            counters.next_number,
            counters.next_transaction,
            counters.next_entry,
        ))
    }

    /// An object's class and its versions.
    pub fn object(&mut self, id: u64) -> Result<Option<ObjectHead>, HeapError> {
        if !self.heap.live::<MemHost>() {
            return Err(HeapError::Memory);
        }
        self.heap.load_object(self.alloc, &mut self.host, id)
    }

    fn version_of(
        &mut self,
        id: u64,
        number: u32,
        class: &Class,
    ) -> Result<Option<List<Value>>, HeapError> {
        if !self.heap.live::<MemHost>() {
            return Err(HeapError::Memory);
        }
        self.heap
            .load_version(self.alloc, &mut self.host, id, number, class)
    }

    /// The fields of a version of an object whose class has fields of these sorts.
    pub fn version(
        &mut self,
        id: u64,
        number: u32,
        letters: &[u8],
    ) -> Result<Option<List<Value>>, HeapError> {
        let class = with_fields(self.alloc, letters)?;
        self.version_of(id, number, &class)
    }

    /// An object's activations, by the one class that has a trigger.
    pub fn activations(&mut self, id: u64) -> Result<List<Activation>, HeapError> {
        let classes = one_class(self.alloc)?;
        self.activations_by(id, &classes)
    }

    /// An object's activations, by these classes.
    pub fn activations_by(
        &mut self,
        id: u64,
        classes: &Classes,
    ) -> Result<List<Activation>, HeapError> {
        if !self.heap.live::<MemHost>() {
            return Err(HeapError::Memory);
        }
        self.heap
            .activations_of(self.alloc, &mut self.host, id, classes)
    }

    /// The first object at or above a number.
    pub fn object_from(&mut self, id: u64) -> Result<Option<u64>, HeapError> {
        if !self.heap.live::<MemHost>() {
            return Err(HeapError::Memory);
        }
        self.heap.object_from(&mut self.host, id)
    }

    /// The first entry at or above a number.
    pub fn entry_from(&mut self, number: u64) -> Result<Option<(u64, Entry)>, HeapError> {
        if !self.heap.live::<MemHost>() {
            return Err(HeapError::Memory);
        }
        self.heap.entry_from(self.alloc, &mut self.host, number)
    }

    /// How many entries wait.
    pub fn queued(&mut self) -> Result<u32, HeapError> {
        if !self.heap.live::<MemHost>() {
            return Err(HeapError::Memory);
        }
        self.heap.queued(&mut self.host)
    }
}
