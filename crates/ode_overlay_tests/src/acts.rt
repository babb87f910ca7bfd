//! Acts on an overlay, and what each answers.
use ode_areas::Areas;
use ode_codec::Entry;
use ode_heap::{Heap, ObjectHead};
use ode_host::MemHost;
use ode_overlay::{Overlay, OverlayError};
use ode_types::{Classes, Running};
use ode_value::{List, OdeText, Ref, Value};
use ode_versions::VersionList;
use std::alloc::{AllocError, Global};

/// An act.
pub enum Act {
    Create(i64),
    /// Many objects, up to the first that isn't made.
    CreateMany(u32),
    Touch(u64),
    Write(Ref, i64),
    /// Sets a slot that isn't there.
    WriteSlot(Ref, u16),
    /// An object whose fields are so many texts of 1,978 bytes.
    CreateLong(u32),
    /// An activation with a text of so many bytes.
    ActivateLong(u64, usize),
    Read(Ref),
    Derive(Ref),
    Drop(Ref),
    Remove(u64),
    Activate(u64, u16),
    Deactivate(u64, u64),
    /// Each activation of an object that is on comes to the next state.
    Step(u64),
    /// The states of an object's activations, and which are on, as digits.
    Acts(u64),
    /// The numbers of an object's versions and its last number, as digits.
    Object(u64),
    Collect(bool),
    CollectMany(u32),
    Touched(usize),
    Grown,
    Rewind,
}

/// What it answers.
#[derive(Debug, Drop, PartialEq)]
pub enum Answer {
    Done,
    Number(u64),
    Int(i64),
    Truth(bool),
    Version(Ref),
    None,
    Fails(OverlayError),
}

/// Where acts are done.
#[derive(Drop)]
pub struct Scene {
    pub classes: Classes,
    pub heap: Heap<Areas>,
    pub host: MemHost,
    pub overlay: Overlay,
    pub alloc: Global,
}

fn done(answered: Result<(), OverlayError>) -> Answer {
    match answered {
        Ok(()) => Answer::Done,
        Err(error) => Answer::Fails(error),
    }
}

fn number(answered: Result<u64, OverlayError>) -> Answer {
    match answered {
        Ok(number) => Answer::Number(number),
        Err(error) => Answer::Fails(error),
    }
}

fn truth(answered: Result<bool, OverlayError>) -> Answer {
    match answered {
        Ok(truth) => Answer::Truth(truth),
        Err(error) => Answer::Fails(error),
    }
}

fn value(answered: Result<Value, OverlayError>) -> Answer {
    match answered {
        Ok(Value::Int(n)) => Answer::Int(n),
        Ok(_) => Answer::None,
        Err(error) => Answer::Fails(error),
    }
}

fn version(answered: Result<Ref, OverlayError>) -> Answer {
    match answered {
        Ok(version) => Answer::Version(version),
        Err(error) => Answer::Fails(error),
    }
}

fn one(alloc: Global, value: Value) -> Result<List<Value>, AllocError> {
    let mut fields = List::new(alloc);
    fields.push(value)?;
    Ok(fields)
}

fn entry(alloc: Global) -> Entry {
    Entry {
        object: 1,
        class: 1,
        trigger: 0,
        generation: 1,
        args: List::new(alloc),
    }
}

fn maps(alloc: Global) -> Result<List<u32>, AllocError> {
    let mut maps = List::new(alloc);
    maps.push(0)?;
    Ok(maps)
}

fn long_text(alloc: Global, length: usize) -> Result<Value, AllocError> {
    let bytes = vec![in alloc; 97; length]?;
    match OdeText::new(alloc, bytes.as_slice()) {
        Ok(text) => Ok(Value::Text(text)),
        Err(_) => Err(AllocError),
    }
}

fn long_texts(alloc: Global, count: u32, length: usize) -> Result<List<Value>, AllocError> {
    let mut texts = List::new(alloc);
    for _ in 0..count {
        texts.push(long_text(alloc, length)?)?;
    }
    Ok(texts)
}

// The activations with those that are on in the next state.
fn next_states(alloc: Global, acts: List<Running>) -> Result<List<Running>, AllocError> {
    let mut stepped = List::new(alloc);
    for act in acts.into_vec() {
        let state = act.state.wrapping_add(1);
        stepped.push(Running { state, ..act })?;
    }
    Ok(stepped)
}

fn digits_of_acts(acts: &[Running]) -> u64 {
    let mut digits: u64 = 0;
    for act in acts {
        let act = u64::from(act.state) * 10 + u64::from(act.on);
        digits = digits.wrapping_mul(100).wrapping_add(act);
    }
    digits
}

fn digits_of_versions(list: &VersionList) -> u64 {
    let mut digits: u64 = 0;
    for version in list.versions.as_slice() {
        digits = digits
            .wrapping_mul(10)
            .wrapping_add(u64::from(version.number));
    }
    digits.wrapping_mul(10).wrapping_add(u64::from(list.last))
}

fn object(found: Result<Option<ObjectHead>, OverlayError>) -> Answer {
    match found {
        Ok(None) => Answer::None,
        Ok(Some(head)) => Answer::Number(digits_of_versions(&head.versions)),
        Err(error) => Answer::Fails(error),
    }
}

impl Scene {
    fn create(&mut self, n: i64) -> Result<u64, OverlayError> {
        let fields = one(self.alloc, Value::Int(n))?;
        self.overlay
            .create(&self.classes, &mut self.heap, &mut self.host, 1, fields)
    }

    fn create_many(&mut self, count: u32) -> Result<u64, OverlayError> {
        let mut last = 0;
        for _ in 0..count {
            last = self.create(0)?;
        }
        Ok(last)
    }

    fn create_long(&mut self, count: u32) -> Result<u64, OverlayError> {
        let fields = long_texts(self.alloc, count, 1978)?;
        self.overlay
            .create(&self.classes, &mut self.heap, &mut self.host, 1, fields)
    }

    fn activate_with(
        &mut self,
        id: u64,
        trigger: u16,
        args: List<Value>,
    ) -> Result<u64, OverlayError> {
        if !self.heap.live::<MemHost>() {
            return Err(OverlayError::Memory);
        }
        self.overlay.activate(
            &self.classes,
            &mut self.heap,
            &mut self.host,
            id,
            1,
            trigger,
            args,
        )
    }

    fn activate_long(&mut self, id: u64, length: usize) -> Result<u64, OverlayError> {
        let args = long_texts(self.alloc, 1, length)?;
        self.activate_with(id, 0, args)
    }

    fn deactivate(&mut self, id: u64, n: u64) -> Answer {
        if !self.heap.live::<MemHost>() {
            return Answer::None;
        }
        done(
            self.overlay
                .deactivate(&self.classes, &mut self.heap, &mut self.host, id, n),
        )
    }

    fn activations(&mut self, id: u64) -> Result<List<Running>, OverlayError> {
        let maps = maps(self.alloc)?;
        if !self.heap.live::<MemHost>() {
            return Err(OverlayError::Memory);
        }
        self.overlay
            .acts(&self.classes, &mut self.heap, &mut self.host, id, &maps)
    }

    fn put(&mut self, id: u64, acts: List<Running>) -> Result<(), OverlayError> {
        if !self.heap.live::<MemHost>() {
            return Err(OverlayError::Memory);
        }
        self.overlay
            .put_acts(&self.classes, &mut self.heap, &mut self.host, id, acts)
    }

    fn step(&mut self, id: u64) -> Result<(), OverlayError> {
        let acts = self.activations(id)?;
        let stepped = next_states(self.alloc, acts)?;
        self.put(id, stepped)
    }

    fn acts(&mut self, id: u64) -> Answer {
        match self.activations(id) {
            Ok(acts) => Answer::Number(digits_of_acts(acts.as_slice())),
            Err(error) => Answer::Fails(error),
        }
    }

    fn object(&mut self, id: u64) -> Answer {
        if !self.heap.live::<MemHost>() {
            return Answer::None;
        }
        object(
            self.overlay
                .object(&self.classes, &mut self.heap, &mut self.host, id),
        )
    }

    fn touch(&mut self, id: u64) -> Answer {
        if !self.heap.live::<MemHost>() {
            return Answer::None;
        }
        truth(
            self.overlay
                .touch(&self.classes, &mut self.heap, &mut self.host, id),
        )
    }

    fn touched(&self, at: usize) -> Answer {
        match self.overlay.touched(at) {
            Some(id) => Answer::Number(id),
            None => Answer::None,
        }
    }

    fn write(&mut self, r: Ref, slot: u16, n: i64) -> Answer {
        if !self.heap.live::<MemHost>() {
            return Answer::None;
        }
        let v = Value::Int(n);
        done(
            self.overlay
                .write(&self.classes, &mut self.heap, &mut self.host, r, slot, v),
        )
    }

    fn read(&mut self, r: Ref) -> Answer {
        if !self.heap.live::<MemHost>() {
            return Answer::None;
        }
        value(
            self.overlay
                .read(&self.classes, &mut self.heap, &mut self.host, r, 0),
        )
    }

    fn derive(&mut self, r: Ref) -> Answer {
        if !self.heap.live::<MemHost>() {
            return Answer::None;
        }
        version(
            self.overlay
                .derive(&self.classes, &mut self.heap, &mut self.host, r),
        )
    }

    fn drop_version(&mut self, r: Ref) -> Answer {
        if !self.heap.live::<MemHost>() {
            return Answer::None;
        }
        done(
            self.overlay
                .drop_version(&self.classes, &mut self.heap, &mut self.host, r),
        )
    }

    fn remove(&mut self, id: u64) -> Answer {
        if !self.heap.live::<MemHost>() {
            return Answer::None;
        }
        done(
            self.overlay
                .remove(&self.classes, &mut self.heap, &mut self.host, id),
        )
    }

    // Collects an entry so many times, and answers as the last time.
    fn collect(&mut self, count: u32, keep: bool) -> Result<bool, OverlayError> {
        let mut last = true;
        for _ in 0..count {
            last = self.overlay.collect(entry(self.alloc), keep)?;
        }
        Ok(last)
    }

    fn grown(&mut self) -> Answer {
        match self
            .overlay
            .grown(&self.classes, &mut self.heap, &mut self.host)
        {
            Ok(n) => Answer::Int(n),
            Err(error) => Answer::Fails(error),
        }
    }

    fn rewind(&mut self) -> Answer {
        done(
            self.overlay
                .rewind(&self.classes, &mut self.heap, &mut self.host),
        )
    }

    /// What an act answers.
    pub fn act(&mut self, act: &Act) -> Answer {
        match *act {
            Act::Create(n) => number(self.create(n)),
            Act::CreateMany(count) => number(self.create_many(count)),
            Act::CreateLong(count) => number(self.create_long(count)),
            Act::Touch(id) => self.touch(id),
            Act::Touched(at) => self.touched(at),
            Act::Write(r, n) => self.write(r, 0, n),
            Act::WriteSlot(r, slot) => self.write(r, slot, 0),
            Act::Read(r) => self.read(r),
            Act::Derive(r) => self.derive(r),
            Act::Drop(r) => self.drop_version(r),
            Act::Remove(id) => self.remove(id),
            Act::Object(id) => self.object(id),
            Act::Activate(id, trigger) => {
                number(self.activate_with(id, trigger, List::new(self.alloc)))
            }
            Act::ActivateLong(id, length) => number(self.activate_long(id, length)),
            Act::Deactivate(id, n) => self.deactivate(id, n),
            Act::Step(id) => done(self.step(id)),
            Act::Acts(id) => self.acts(id),
            Act::Collect(keep) => truth(self.collect(1, keep)),
            Act::CollectMany(count) => truth(self.collect(count, true)),
            Act::Grown => self.grown(),
            Act::Rewind => self.rewind(),
        }
    }
}
