//! Members in the bytes of the older format.

ghost use Rattle.std.specs.Prelude.{◌≡◌, ◌++◌, OnOk};
ghost use Rattle.cg_codec.specs.Fields.{list};
ghost use Rattle.cg_codec.specs.Taking.{unread_of, Takes};
ghost use Rattle.cg_older.specs.Bytes.{spelled_old_server};
ghost use Rattle.cg_older.specs.Reading.{old_server_reading, old_servers_reading, old_members_reading};

use cg_base::NoMemory;
use cg_codec::{CodecFault, Fields, put_u8, put_u32, put_u64};
use cg_members::{Members, Server, ServerSet};
use cg_records::{take_id_above, take_number, take_set};

#[tactic(auto, unfolding(crate::specs::Reading::old_members_reading))]
pub(crate) fn take_old_members(fields: &mut Fields<'_>) -> Result<Members, CodecFault>
    ensures { Takes (λ m. m) old_members_reading (unread_of fields.old) (unread_of fields.new) result }
{
    let mut after = *fields;
    let servers = take_old_servers(&mut after)?;
    let left = take_set(&mut after)?;
    *fields = after;
    Ok(Members::of(servers, left))
}

#[tactic(auto, unfolding(crate::specs::Reading::old_servers_reading))]
fn take_old_servers(fields: &mut Fields<'_>) -> Result<ServerSet, CodecFault>
    ensures { Takes (λ s. s) old_servers_reading (unread_of fields.old) (unread_of fields.new) result }
{
    let mut after = *fields;
    let count = after.take_count(32)?;
    let mut servers = ServerSet::empty();
    let mut last = 0;
    'servers: for _ in 0..count {
        let server = take_old_server(&mut after, last)?;
        servers.put(server.id, server.line, server.weight);
        last = server.id.get();
    }
    *fields = after;
    Ok(servers)
}

#[tactic(auto, unfolding(crate::specs::Reading::old_server_reading))]
fn take_old_server(fields: &mut Fields<'_>, last: u8) -> Result<Server, CodecFault>
    ensures { Takes (λ s. s) (old_server_reading last) (unread_of fields.old) (unread_of fields.new) result }
{
    let mut after = *fields;
    let id = take_id_above(&mut after, last)?;
    let line = take_number(&mut after)?;
    *fields = after;
    Ok(Server {
        id,
        line,
        weight: 1,
    })
}

/// Puts servers at the end, without their weights.
pub(crate) fn put_old_servers(out: &mut Vec<u8>, servers: &ServerSet) -> Result<(), NoMemory>
    ensures { OnOk result (out.new.items ≡ out.old.items ++ list spelled_old_server servers.now) }
{
    put_u32(out, u32::from(servers.ids().count()))?;
    for server in servers.iter() {
        put_old_server(out, server)?;
    }
    Ok(())
}

#[tactic(auto, unfolding(crate::specs::Bytes::spelled_old_server))]
fn put_old_server(out: &mut Vec<u8>, server: Server) -> Result<(), NoMemory>
    ensures { OnOk result (out.new.items ≡ out.old.items ++ spelled_old_server server) }
{
    put_u8(out, server.id.get())?;
    put_u64(out, server.line)
}
