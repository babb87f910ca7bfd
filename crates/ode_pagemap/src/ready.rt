//! What a keeper knows of its file changes with a commit, or not at all.
ghost use Rattle.std.specs.Prelude.{◌≡◌, ◌≤◌, ◌<◌, ◌↔◌, length, reverse, IfOk, IsTrue, MatchOption, OnErr, OnOk};
ghost use Rattle.std.specs.List.{AllByRecursion};
ghost use Rattle.std.specs.Option.{IfSome};
ghost use Rattle.ode_journal.specs.Appends.{room_of};
ghost use Rattle.ode_keep.specs.Entries.{HasRisingKeys};
ghost use Rattle.ode_paging.specs.Images.{IsShortImage};
ghost use Rattle.ode_paging.specs.Making.{all_pointed};
ghost use Rattle.ode_paging.specs.Overlays.{laid};
ghost use Rattle.ode_pagemap.specs.Ready.{CountsFor, need_for};
ghost use Rattle.ode_pagemap.specs.Reserving.{HaveImages, ImageList, bared};
ghost use Rattle.ode_pagemap.specs.Steps.{images_after};

use crate::checkpoint::Checkpoint;
use crate::reserving::{bare, lay_over, reserve_images};
use ode_gate::MAX_PAGES;
use ode_journal::{FRAME_BYTES, Frame, Journal};
use ode_paging::{Images, MAX_IMAGES, Move, Opened, payload_length};
use std::alloc::{AllocError, Global};
use std::mem::replace;

/// What a commit writes: a frame, and before it a checkpoint where one is due.
#[derive(Drop)]
pub(crate) struct Ready {
    pub(crate) frame: Frame,
    pub(crate) due: Option<Checkpoint>,
}

// Whether a frame of these images fits the rest of a journal.
fn fits(journal: &Journal, over: &Images) -> bool
    requires few { length over.now ≤ MAX_IMAGES }
    requires short { AllByRecursion IsShortImage over.now }
    ensures { IsTrue result ↔ (need_for over.now ≤ room_of journal.now) }
{
    let need = u64::from(payload_length(over)) + FRAME_BYTES as u64;
    need <= journal.end.saturating_sub(journal.at)
}

// Takes the memory for these images and moves, and makes the moves. The pages that get images are noted.
fn reserve(
    alloc: Global,
    opened: &mut Opened,
    added: &mut Vec<u32>,
    moves: &[Move],
    over: &Images,
) -> Result<(), AllocError>
    requires { HasRisingKeys moves.now }
    ensures ok { OnOk result (opened.new ≡ record opened.old { images = opened.new.images; index = all_pointed moves.now opened.old.index }) }
    ensures room { OnOk result (HaveImages over.now opened.new.images) }
    ensures same { OnOk result (laid over.now opened.new.images ≡ laid over.now opened.old.images) }
    ensures err { OnErr result (opened.new ≡ record opened.old { images = opened.new.images }) }
    ensures back { (old : ImageList) → bared (reverse added.old.items) opened.old.images ≡ old
        → bared (reverse added.new.items) opened.new.images ≡ old }
{
    reserve_images(alloc, &mut opened.images, added, over)?;
    opened.index.move_all(alloc, moves)
}

// Makes these moves, and lays the images over the others. Where there is no memory nothing changes.
fn lay_all(
    alloc: Global,
    opened: &mut Opened,
    moves: &[Move],
    over: Images,
) -> Result<(), AllocError>
    requires { HasRisingKeys moves.now }
    ensures ok { OnOk result (opened.new ≡ record opened.old { images = laid over opened.old.images; index = all_pointed moves.now opened.old.index }) }
    ensures err { OnErr result (opened.new ≡ opened.old) }
{
    let mut added = Vec::new(alloc);
    if let Err(error) = reserve(alloc, opened, &mut added, moves, &over) {
        bare(&mut opened.images, &mut added);
        return Err(error);
    }
    lay_over(&mut opened.images, over);
    Ok(())
}

// Makes these moves, and has these images alone, since the others go into a checkpoint. It answers this.
fn begin_anew(
    alloc: Global,
    opened: &mut Opened,
    moves: &[Move],
    over: Images,
) -> Result<Checkpoint, AllocError>
    requires { HasRisingKeys moves.now }
    ensures ok { OnOk result (opened.new ≡ record opened.old { images = over; index = all_pointed moves.now opened.old.index }) }
    ensures due { IfOk result (λ c. CountsFor opened.old c) }
    ensures err { OnErr result (opened.new ≡ opened.old) }
{
    if opened.count > MAX_PAGES {
        return Err(AllocError);
    }
    opened.index.move_all(alloc, moves)?;
    Ok(Checkpoint {
        images: replace(&mut opened.images, over),
        count: opened.count,
    })
}

/// Makes these moves, and takes these images in. It answers the checkpoint that is due before a frame of them, and none
/// where this fits the journal. Where there is no memory nothing changes.
pub(crate) fn take_over(
    alloc: Global,
    opened: &mut Opened,
    moves: &[Move],
    over: Images,
) -> Result<Option<Checkpoint>, AllocError>
    requires rising { HasRisingKeys moves.now }
    requires few { length over ≤ MAX_IMAGES }
    requires short { AllByRecursion IsShortImage over }
    ensures ok { IfOk result (λ due. opened.new
        ≡ record opened.old { images = images_after due over opened.old.images; index = all_pointed moves.now opened.old.index }) }
    ensures due { IfOk result (λ due. IfSome due (λ c. CountsFor opened.old c)) }
    ensures room { IfOk result (λ due. MatchOption due (need_for over ≤ room_of opened.old.journal)
        (λ _. room_of opened.old.journal < need_for over)) }
    ensures err { OnErr result (opened.new ≡ opened.old) }
{
    if fits(&opened.journal, &over) {
        lay_all(alloc, opened, moves, over)?;
        return Ok(None);
    }
    Ok(Some(begin_anew(alloc, opened, moves, over)?))
}
