//! On which servers it stands what differs between two volumes.
ghost use Rattle.std.specs.Prelude.{◌≡◌, ◌↔◌, ℕ, true, All, IfOk, OnOk};
ghost use Rattle.sl_history.specs.Placing.{byte_server, name_server, object_server};
ghost use Rattle.sl_plain.specs.declared.names.Place.{Place};
ghost use Rattle.sl_wiring.specs.Given.{HasOneMore};
ghost use Rattle.sl_wiring.specs.Standing.{AddsServers, AreServersOf};

use crate::places::{byte_server, name_server, object_server};
use sl_defs::{NoMemory, Setup};
use sl_plain::{Place, Volume};
use std::alloc::Global;

/// Adds a server to those that are there, if it isn't among them.
fn add(servers: &mut Vec<u64>, server: u64) -> Result<(), NoMemory>
    ensures { OnOk result (HasOneMore servers.old.items servers.new.items server) }
{
    if servers.contains(&server) {
        return Ok(());
    }
    match servers.push(server) {
        Ok(()) => Ok(()),
        Err(_) => Err(NoMemory),
    }
}

/// Adds the servers of these objects' attributes.
fn add_objects(servers: &mut Vec<u64>, setup: Setup, objects: &[u64]) -> Result<(), NoMemory>
    ensures { OnOk result (AddsServers servers.old.items servers.new.items (λ f. object_server setup f) objects.now) }
{
    for fileid in objects {
        add(servers, object_server(setup, *fileid))?;
    }
    Ok(())
}

/// Adds the servers of these names.
fn add_names(servers: &mut Vec<u64>, setup: Setup, names: &[Place]) -> Result<(), NoMemory>
    ensures { OnOk result (AddsServers servers.old.items servers.new.items (λ (p : Place). name_server setup p.dir p.name.items) names.now) }
{
    for place in names {
        add(
            servers,
            name_server(setup, place.dir, place.name.as_slice()),
        )?;
    }
    Ok(())
}

/// Adds the servers of these bytes, each by its file and offset.
fn add_bytes(servers: &mut Vec<u64>, setup: Setup, bytes: &[(u64, u64)]) -> Result<(), NoMemory>
    ensures { OnOk result (AddsServers servers.old.items servers.new.items (λ (b : ℕ × ℕ). byte_server setup b.0 b.1) bytes.now) }
{
    for place in bytes {
        let (fileid, offset) = *place;
        add(servers, byte_server(setup, fileid, offset))?;
    }
    Ok(())
}

/// The servers of all cells and stable bytes that differ between two volumes, each once.
pub fn changed_servers(
    alloc: Global,
    setup: Setup,
    before: &Volume,
    after: &Volume,
) -> Result<Vec<u64>, NoMemory>
    ensures { IfOk result (λ servers. AreServersOf setup before.now after.now servers.items) }
{
    let differences = before.differences(alloc, after)?;
    let mut servers = Vec::new(alloc);
    add_objects(&mut servers, setup, differences.objects.as_slice())?;
    add_names(&mut servers, setup, differences.names.as_slice())?;
    add_bytes(&mut servers, setup, differences.bytes.as_slice())?;
    Ok(servers)
}

/// Whether all of these servers are this one.
pub fn are_all(servers: &[u64], server: u64) -> bool
    ensures { (result ≡ true) ↔ All (λ other. other ≡ server) servers.now }
{
    for other in servers {
        if *other != server {
            return false;
        }
    }
    true
}
