//! What the lines of a script have said so far.

ghost use Rattle.std.specs.Prelude.{◌≡◌, IsTrue, ◌↔◌, IfOk, OnOk, None, []};
ghost use Rattle.script.specs.Said.{Said, with_line, MayFollow};
ghost use Rattle.script.specs.Scripts.{script_from, GivesUnlessMemory};

use crate::draft_config::{config_of, networks_of, specs_of, with_settings};
use crate::event::{Events, ScriptEvent};
use crate::fault::ScriptFault;
use crate::line::Line;
use crate::pool::PoolLine;
use crate::read::Script;
use crate::setting::Setting;
use ras_module::{Address, Boxed, Name};
use std::alloc::{AllocError, Global};
use std::marker::Model;

/// The pools that a zone has at most.
const MOST_POOLS: usize = 16;

/// The zone, the settings, the pools and the events of the lines so far.
#[derive(Drop)]
pub struct Draft {
    zone: Option<(Boxed<Name>, Address)>,
    settings: Vec<Setting>,
    pools: Vec<PoolLine>,
    events: Vec<ScriptEvent>,
}

impl Model for Draft {
    ghost use Rattle.script.specs.Said.{Said};

    ghost Value = { Said };

    ghost view = { λ d. record {
      zone = d.zone;
      settings = d.settings.items;
      pools = d.pools.items;
      events = d.events.items;
    } };
}

impl Draft {
    /// What no line has said, with room for this count of events.
    pub fn with_room(alloc: Global, events: usize) -> Result<Draft, AllocError>
        ensures { IfOk result (λ draft. draft
            ≡ record { zone = None; settings = []; pools = []; events = [] }) }
    {
        Ok(Draft {
            zone: None,
            settings: Vec::new(alloc),
            pools: Vec::new(alloc),
            events: Vec::with_capacity(alloc, events)?,
        })
    }

    /// Whether this line may come next: behind an event no line names the zone, sets something or
    /// has a pool, and there are at most 16 pools.
    pub fn takes(&self, line: &Line) -> bool
        ensures { IsTrue result ↔ MayFollow self.now line.now }
    {
        match line {
            Line::Blank | Line::At(_) => true,
            Line::Zone(..) | Line::Set(_) => self.events.is_empty(),
            Line::Pool(_) => self.events.is_empty() && self.pools.len() < MOST_POOLS,
        }
    }

    /// Adds what a line says.
    pub fn add(&mut self, line: Line) -> Result<(), AllocError>
        ensures { OnOk result (self.new ≡ with_line self.old line) }
    {
        match line {
            Line::Blank => {}
            Line::Zone(name, address) => self.zone = Some((name, address)),
            Line::Set(setting) => self.settings.push(setting)?,
            Line::Pool(pool) => self.pools.push(pool)?,
            Line::At(event) => self.events.push(event)?,
        }
        Ok(())
    }

    /// The script that the lines make.
    pub fn into_script(self, alloc: Global) -> Result<Script, ScriptFault>
        ensures { GivesUnlessMemory
            (script_from self.zone self.settings self.pools self.events) result }
    {
        let Draft {
            zone,
            settings,
            pools,
            events,
        } = self;
        let Some((name, address)) = zone else {
            return Err(ScriptFault::NoZone);
        };
        let Some(config) = config_of(name.into_inner(), address, networks_of(alloc, &pools)?) else {
            return Err(ScriptFault::NoDefaultPool);
        };
        let config = with_settings(config, &settings);
        let pools = specs_of(alloc, config.parts().limit, &pools)?;
        Ok(Script {
            config,
            pools,
            events: Events::from_vec(events),
        })
    }
}
