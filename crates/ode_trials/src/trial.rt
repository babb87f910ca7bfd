//! Calls of `ode` in memory.
use crate::amiss::{Amiss, agree, is_so};
use ode_host::{MemHost, MemSource, Plan, Status, Torn};
use ode_top::run_ode;
use std::alloc::{AllocError, Global};

/// What a test without memory says.
pub const MEMORY: &str = "no memory";

/// What a call answered, and its host.
#[derive(Drop)]
pub struct Trial {
    pub status: Status,
    pub host: MemHost,
}

impl Trial {
    /// It printed this text and ended so, and no call of its host found no memory.
    pub fn is(&self, alloc: Global, text: &str, status: Status, name: &str) -> Result<(), Amiss> {
        agree(alloc, self.text(), text, name)?;
        agree(alloc, self.status, status, name)?;
        agree(alloc, self.host.refused(), 0, name)
    }

    /// The same of a text that is too long to be shown.
    pub fn is_long(
        &self,
        alloc: Global,
        text: &str,
        status: Status,
        name: &str,
    ) -> Result<(), Amiss> {
        is_so(alloc, self.host.text() == text.as_bytes(), name)?;
        agree(alloc, self.status, status, name)
    }

    /// It left this image.
    pub fn leaves(&self, alloc: Global, image: &[u8], name: &str) -> Result<(), Amiss> {
        agree(alloc, self.host.image(), image, name)
    }

    /// What it printed.
    pub fn text(&self) -> &str {
        str::from_utf8(self.host.text()).unwrap_or("bytes that are no text")
    }

    /// The image that it left.
    pub fn image(&self, alloc: Global) -> Result<Vec<u8>, AllocError> {
        self.host.image().to_vec(alloc)
    }

    /// The image that its stop leaves.
    pub fn after_stop(self, alloc: Global) -> Result<Vec<u8>, AllocError> {
        let after = self.host.after_stop()?;
        after.image().to_vec(alloc)
    }
}

/// A script, what a run of it prints, and how that ends.
#[derive(Clone, Copy)]
pub struct Case<'a> {
    pub name: &'a str,
    pub script: &'a str,
    pub text: &'a str,
    pub status: Status,
}

/// A plan by which no call fails.
pub fn smooth(alloc: Global) -> Plan {
    Plan {
        disk_fails: Vec::new(alloc),
        print_fails: Vec::new(alloc),
        stop: None,
    }
}

/// A plan by which the disk calls and the prints of these numbers fail.
pub fn failing(alloc: Global, disk: &[u64], print: &[u64]) -> Result<Plan, AllocError> {
    Ok(Plan {
        disk_fails: disk.to_vec(alloc)?,
        print_fails: print.to_vec(alloc)?,
        stop: None,
    })
}

/// A plan with a stop at this call.
pub fn stopping(alloc: Global, at: u64, torn: Torn) -> Plan {
    Plan {
        disk_fails: Vec::new(alloc),
        print_fails: Vec::new(alloc),
        stop: Some((at, torn)),
    }
}

/// These words as a call has them.
pub fn words_of(alloc: Global, words: &[&str]) -> Result<Vec<String>, AllocError> {
    let mut all = Vec::new(alloc);
    for word in words {
        let word = String::from_str(alloc, word)?;
        all.push(word)?;
    }
    Ok(all)
}

/// A script that comes in chunks of at most so many bytes, and whose reads of these numbers fail.
pub fn source(
    alloc: Global,
    script: &str,
    fails: &[u64],
    most: u32,
) -> Result<MemSource, AllocError> {
    let bytes = script.as_bytes().to_vec(alloc)?;
    let fails = fails.to_vec(alloc)?;
    Ok(MemSource::new(bytes, fails, most.max(1)))
}

/// A call with these words on an image.
pub fn call(
    alloc: Global,
    words: &[&str],
    mut script: MemSource,
    image: &[u8],
    plan: Plan,
) -> Result<Trial, AllocError> {
    let image = image.to_vec(alloc)?;
    let mut host = MemHost::new(alloc, image, plan)?;
    let words = words_of(alloc, words)?;
    let status = run_ode(alloc, &words, &mut script, &mut host);
    Ok(Trial { status, host })
}

/// `init` on an image.
pub fn init(alloc: Global, image: &[u8], plan: Plan) -> Result<Trial, AllocError> {
    let script = source(alloc, "", &[], 1)?;
    call(alloc, &["init", "f"], script, image, plan)
}

/// The file that `init` makes.
pub fn new_file(alloc: Global) -> Result<Vec<u8>, AllocError> {
    let made = init(alloc, &[], smooth(alloc))?;
    made.image(alloc)
}

/// A run of this script on an image, by this plan.
pub fn run_by(alloc: Global, image: &[u8], script: &str, plan: Plan) -> Result<Trial, AllocError> {
    let script = source(alloc, script, &[], 4096)?;
    call(alloc, &["run", "f"], script, image, plan)
}

/// A run of this script on an image.
pub fn run(alloc: Global, image: &[u8], script: &str) -> Result<Trial, AllocError> {
    run_by(alloc, image, script, smooth(alloc))
}

/// A run of this script on an image, with a stop at this call.
pub fn run_stopped(
    alloc: Global,
    image: &[u8],
    script: &str,
    at: u64,
    torn: Torn,
) -> Result<Trial, AllocError> {
    run_by(alloc, image, script, stopping(alloc, at, torn))
}

/// The image that a stop at this call leaves of a run of the case's script, which is as the case says.
pub fn stopped_image(
    alloc: Global,
    image: &[u8],
    case: &Case,
    at: u64,
    torn: Torn,
) -> Result<Vec<u8>, Amiss> {
    let ran = run_stopped(alloc, image, case.script, at, torn)?;
    ran.is(alloc, case.text, case.status, case.name)?;
    Ok(ran.after_stop(alloc)?)
}

/// How many calls of its host a run of this script makes, which ends with `Ok`.
pub fn calls_of(alloc: Global, image: &[u8], script: &str) -> Result<u64, AllocError> {
    for at in 0..1000u64 {
        let ran = run_stopped(alloc, image, script, at, Torn::Whole)?;
        if ran.status == Status::Ok {
            return Ok(at);
        }
    }
    Ok(0)
}

/// A run of the case's script on an image, which is as the case says.
pub fn run_case(alloc: Global, image: &[u8], case: &Case) -> Result<Trial, Amiss> {
    let ran = run(alloc, image, case.script)?;
    ran.is(alloc, case.text, case.status, case.name)?;
    Ok(ran)
}

/// The same, and it leaves the image as it was.
pub fn stays(alloc: Global, image: &[u8], case: &Case) -> Result<(), Amiss> {
    let ran = run_case(alloc, image, case)?;
    ran.leaves(alloc, image, case.name)
}

/// A class, an object of it, and its field.
pub const FIRST: &str = "class P { int n; }; pnew P(n = 5); show #1.n;";

/// What it prints on a new file.
pub const FIRST_TEXT: &str =
    "class P\ntx 1 committed\nnew #1\ntx 2 committed\nvalue 5\ntx 3 committed\n";
