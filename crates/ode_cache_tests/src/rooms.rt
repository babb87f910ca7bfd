//! A run prints the same and leaves the same file, whatever room its keeper has in memory.
ghost use Rattle.std.specs.Prelude.{IsTrue};
ghost use Rattle.std.specs.Option.{IfSome};
ghost use Rattle.ode_pagemap.specs.Holding.{is_live};
ghost use Rattle.ode_schema.specs.Parts.{AreAligned, AreFit};
ghost use Rattle.ode_transact.specs.Resting.{resting_parts};

use ode_gate::{PAGES, SLOT_LEN, read_header};
use ode_gen::{TextSource, gen_script};
use ode_host::{MemHost, Plan, Status};
use ode_make::initialise;
use ode_opened::{Opened, RUN_FORMAT};
use ode_opening_records::{Base, open_records};
use ode_pagemap::PageMap;
use ode_trace::run_script;
use std::alloc::Global;
use std::process::Abort;

// What a test without memory says.
const MEMORY: &str = "no memory";

// The number of the script.
const NUMBER: u32 = 200;

// How many pages a program has room for.
const MANY: u32 = 64;

// A disk without bytes, on which no call fails.
fn empty_disk(rt: &impl Abort, alloc: Global) -> MemHost {
    let plan = Plan {
        disk_fails: Vec::new(alloc),
        print_fails: Vec::new(alloc),
        stop: None,
    };
    MemHost::new(alloc, Vec::new(alloc), plan).expect(rt, MEMORY)
}

// Opens what stands on a disk by a keeper with room for so many pages. None where the file isn't opened.
fn open(alloc: Global, host: &mut MemHost, cache: u32) -> Option<Opened<PageMap>>
    ensures live { IfSome result (λ o. IsTrue (is_live o.keeper)) }
    ensures fit { IfSome result (λ o. AreFit (resting_parts o)) }
    ensures aligned { IfSome result (λ o. AreAligned (resting_parts o)) }
{
    let header = read_header(host, &mut [0; SLOT_LEN]).ok()?;
    if header.layout != PAGES {
        return None;
    }
    let mut keeper = PageMap::start(alloc, host, &header, cache).ok()?;
    let Ok(base) = open_records(alloc, &mut keeper, host, false) else {
        return None;
    };
    let Base {
        classes,
        tables,
        alphabets,
        maps,
        bytes,
    } = base;
    Some(Opened {
        keeper,
        classes,
        tables,
        alphabets,
        maps,
        bytes,
        format: RUN_FORMAT,
    })
}

// Runs the script over what stands on a disk.
fn run_over(alloc: Global, host: &mut MemHost, cache: u32) -> Option<Status> {
    let opened = open(alloc, host, cache)?;
    let script = gen_script(alloc, NUMBER).ok()?;
    let mut source = TextSource::new(script);
    run_script(alloc, &mut source, host, opened).ok()
}

// The disk behind a run over a new file.
fn ran_with(rt: &impl Abort, alloc: Global, cache: u32) -> MemHost {
    let mut host = empty_disk(rt, alloc);
    assert!(rt; initialise(&mut host).is_ok(), "a new file");
    assert_eq!(rt;
        run_over(alloc, &mut host, cache),
        Some(Status::Ok),
        "a run with {cache}"
    );
    host
}

// It prints and leaves the same as one with room for many pages.
fn is_the_same(rt: &impl Abort, alloc: Global, cache: u32) {
    let few = ran_with(rt, alloc, cache);
    let many = ran_with(rt, alloc, MANY);
    assert!(rt; few.text() == many.text(), "the text with {cache}");
    assert!(rt; few.image() == many.image(), "the file with {cache}");
}

#[test]
fn one_page_of_room_is_enough(rt: HostRuntime) {
    is_the_same(&rt, rt.alloc(), 1);
}
