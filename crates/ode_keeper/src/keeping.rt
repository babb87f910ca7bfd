//! The keeper of either layout keeps records, as the one of its own layout does.

use crate::keeper::Keeper;
use ode_areas::Areas;
use ode_host::Host;
use ode_keep::{Batch, Keep, KeepError, Rows};
use ode_pagemap::PageMap;
use ode_value::{Key, List};

impl<H: Host> Keep<H> for Keeper {
    ghost use Rattle.ode_keeper.specs.Files.{FileMeans};
    ghost use Rattle.ode_keeper.specs.Holding.{KeeperHolds, is_live, most};
    ghost use Rattle.ode_keeper.specs.Laws.{one_map_law, rising_law, stands_law, stays_law};

    ghost holds = { KeeperHolds };

    ghost means = { FileMeans };

    ghost live = { is_live };

    ghost most = { most };

    ghost stands = { λ keeper host entries h. stands_law keeper (H.view host) entries h };

    ghost stays = { λ keeper old new entries h still. stays_law keeper (H.view old) (H.view new) entries h still };

    ghost rising = { rising_law };

    ghost one_map = { one_map_law };

    fn live(&self) -> bool {
        match self {
            Keeper::Areas(areas) => <Areas as Keep<H>>::live(areas),
            Keeper::Pages(pages) => <PageMap as Keep<H>>::live(pages),
        }
    }

    fn get(&mut self, host: &mut H, key: Key) -> Result<Option<List<u8>>, KeepError> {
        match self {
            Keeper::Areas(areas) => areas.get(host, key),
            Keeper::Pages(pages) => PageMap::get(pages, host, key),
        }
    }

    fn keys_from(&mut self, host: &mut H, key: Key) -> Result<Option<Key>, KeepError> {
        match self {
            Keeper::Areas(areas) => areas.keys_from(host, key),
            Keeper::Pages(pages) => PageMap::keys_from(pages, host, key),
        }
    }

    fn rows_from(&mut self, host: &mut H, key: Key) -> Result<Rows, KeepError> {
        match self {
            Keeper::Areas(areas) => areas.rows_from(host, key),
            Keeper::Pages(pages) => PageMap::rows_from(pages, host, key),
        }
    }

    fn queued(&mut self, host: &mut H) -> Result<u64, KeepError> {
        match self {
            Keeper::Areas(areas) => areas.queued(host),
            Keeper::Pages(pages) => PageMap::queued(pages, host),
        }
    }

    fn commit(&mut self, host: &mut H, batch: &Batch) -> Result<(), KeepError> {
        match self {
            Keeper::Areas(areas) => areas.commit(host, batch),
            Keeper::Pages(pages) => pages.commit(host, batch),
        }
    }
}
