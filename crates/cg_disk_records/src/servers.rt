//! Members in bytes.

ghost use Rattle.std.specs.Prelude.{◌≡◌, ◌++◌, OnOk, OnErr};
ghost use Rattle.cg_base.specs.Fronts.{KeepsFront};
ghost use Rattle.cg_codec.specs.Fields.{list};
ghost use Rattle.cg_codec.specs.Taking.{unread_of, Takes};
ghost use Rattle.cg_disk_records.specs.Checkpoint.{spelled_server};
ghost use Rattle.cg_disk_records.specs.Reading.{server_reading, servers_reading, members_reading};

use cg_base::{NoMemory, ReplicaId};
use cg_codec::{CodecFault, Fields, put_u8, put_u32, put_u64};
use cg_members::{Members, Server, ServerSet};
use cg_records::{take_id_above, take_number, take_set, take_weight};

#[tactic(auto, unfolding(crate::specs::Reading::members_reading))]
pub(crate) fn take_members(fields: &mut Fields<'_>) -> Result<Members, CodecFault>
    ensures { Takes (λ m. m) members_reading (unread_of fields.old) (unread_of fields.new) result }
{
    let mut after = *fields;
    let servers = take_servers(&mut after)?;
    let left = take_set(&mut after)?;
    *fields = after;
    Ok(Members::of(servers, left))
}

#[tactic(auto, unfolding(crate::specs::Reading::servers_reading))]
fn take_servers(fields: &mut Fields<'_>) -> Result<ServerSet, CodecFault>
    ensures { Takes (λ s. s) servers_reading (unread_of fields.old) (unread_of fields.new) result }
{
    let mut after = *fields;
    let count = after.take_count(32)?;
    let mut servers = ServerSet::empty();
    let mut last = 0;
    'servers: for _ in 0..count {
        let server = take_server(&mut after, last)?;
        servers.put(server.id, server.line, server.weight);
        last = server.id.get();
    }
    *fields = after;
    Ok(servers)
}

#[tactic(auto, unfolding(crate::specs::Reading::server_reading))]
fn take_server(fields: &mut Fields<'_>, last: u8) -> Result<Server, CodecFault>
    ensures { Takes (λ s. s) (server_reading last) (unread_of fields.old) (unread_of fields.new) result }
{
    let mut after = *fields;
    let id = take_id_above(&mut after, last)?;
    let line = take_number(&mut after)?;
    let weight = take_weight(&mut after)?;
    *fields = after;
    Ok(Server { id, line, weight })
}

/// Puts servers at the end.
pub(crate) fn put_servers(out: &mut Vec<u8>, servers: &ServerSet) -> Result<(), NoMemory>
    ensures ok { OnOk result (out.new.items ≡ out.old.items ++ list spelled_server servers.now) }
    ensures err { OnErr result (out.new.items ≡ out.old.items) }
{
    let before = out.len();
    let put = write_servers(out, servers);
    if put.is_err() {
        out.truncate(before);
    }
    put
}

fn write_servers(out: &mut Vec<u8>, servers: &ServerSet) -> Result<(), NoMemory>
    ensures ok { OnOk result (out.new.items ≡ out.old.items ++ list spelled_server servers.now) }
    ensures err { OnErr result (KeepsFront out.old.items out.new.items) }
{
    put_u32(out, u32::from(servers.ids().count()))?;
    for server in servers.iter() {
        write_server(out, server)?;
    }
    Ok(())
}

#[tactic(auto, unfolding(crate::specs::Checkpoint::spelled_server))]
fn write_server(out: &mut Vec<u8>, server: Server) -> Result<(), NoMemory>
    ensures ok { OnOk result (out.new.items ≡ out.old.items ++ spelled_server server) }
    ensures err { OnErr result (KeepsFront out.old.items out.new.items) }
{
    put_u8(out, server.id.get())?;
    put_u64(out, server.line)?;
    put_u8(out, server.weight)
}
