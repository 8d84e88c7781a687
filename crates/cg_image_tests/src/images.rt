use cg_base::{Bytes, IdSet, NoMemory, ReplicaId, WeightSet, put_shown};
use cg_disk::ModelDisk;
use cg_engine::{Engine, Started};
use cg_image::{Inspected, image_bytes, inspect};
use std::alloc::Global;
use std::test::Fail;

// side A of a disk of the older format with the checkpoint of a new replica, the only server: the record's parts are its
// generation, the last primary component, the attempt, that of yellow and the actions made, how far the greens reach,
// and the servers; nothing stands in the database, and no actions are kept
const OLD_HEAD: &[u8] = b"CGRUITY1\x01\0\0\0\x68\0\0\0\0\0\0\0\x01";

const OLD_PRIM: &[u8] = b"\0\0\0\0\0\0\0\0\0\0\0\0\0\0\0\0\0\0\0\x01\x01";

const OLD_ATTEMPT: &[u8] = b"\0\0\0\0\0\0\0\0\0\0\0\0\0\0\0\0\0\0\0\0\0\0";

const OLD_GREENS: &[u8] = b"\0\0\0\0\0\0\0\0\0\0\0\0\0\0\0\0\0\0\0\0";

const OLD_SERVERS: &[u8] = b"\0\0\0\x01\x01\0\0\0\0\0\0\0\0\0\0\0\0";

const OLD_REST: &[u8] = b"\0\0\0\0\0\0\0\0\0\0\0\0\0\0\0\0\0";

// its image: both sides behind their lengths, B without a record
fn old_image(alloc: Global) -> Result<Vec<u8>, NoMemory> {
    let mut image = Vec::new(alloc);
    image.extend_from_slice(b"\x01\0\0\0\0\0\0\0\x76")?;
    image.extend_from_slice(OLD_HEAD)?;
    image.extend_from_slice(OLD_PRIM)?;
    image.extend_from_slice(OLD_ATTEMPT)?;
    image.extend_from_slice(OLD_GREENS)?;
    image.extend_from_slice(OLD_SERVERS)?;
    image.extend_from_slice(OLD_REST)?;
    image.extend_from_slice(b"\0\0\0\0\0\0\0\x09CGRUITY1\0")?;
    Ok(image)
}

// the image of the disk of a new replica, the only server
fn new_image(alloc: Global) -> Result<Bytes, Fail> {
    let one = ReplicaId::known(1);
    let mut set = IdSet::empty();
    set.add(one);
    let servers = WeightSet::of(&set);
    let disk = ModelDisk::new(alloc);
    let Started::Running { engine } = Engine::start(alloc, disk, one, &servers) else {
        return Err("no engine")?;
    };
    let disk = engine.stop().into_disk().image(b"")?;
    if disk.calls() != 7 {
        return Err("other calls")?;
    }
    Ok(image_bytes(alloc, one, disk)?)
}

// what is seen, as text
fn seen(alloc: Global, bytes: &[u8]) -> Result<Vec<u8>, NoMemory> {
    let mut text = Vec::new(alloc);
    match inspect(alloc, bytes)? {
        Inspected::NotAnImage => text.extend_from_slice(b"not an image")?,
        Inspected::NotAStore => text.extend_from_slice(b"not a store")?,
        Inspected::Holds(entry) => {
            let put = put_shown(&mut text, &entry);
            drop(entry);
            put?;
        }
    }
    Ok(text)
}

// whether this is seen
fn shows(alloc: Global, bytes: &[u8], expected: &[u8]) -> Result<bool, NoMemory> {
    let text = seen(alloc, bytes)?;
    Ok(text.as_slice() == expected)
}

#[test]
fn the_image_of_a_new_replica_shows_it(rt: HostRuntime) -> Result<(), Fail> {
    let image = new_image(rt.alloc())?;
    let text = b"1 NonPrim - g0 w0 p0@0{1} a0 v- y- r[] o[] x{} b0\ngreens 1 []\ndb 1\n";
    assert!(rt; shows(rt.alloc(), image.as_slice(), text)?);
    Ok(())
}

#[test]
fn an_image_of_the_older_format_shows_it(rt: HostRuntime) -> Result<(), Fail> {
    let image = old_image(rt.alloc())?;
    let text = b"1 NonPrim - g0 w0 p0@0{1} a0 v- y- r[] o[] x{} b0\ngreens 1 []\ndb 1\n";
    assert!(rt; shows(rt.alloc(), &image, text)?);
    Ok(())
}

#[test]
fn without_its_last_byte_it_is_no_image(rt: HostRuntime) -> Result<(), Fail> {
    let mut image = new_image(rt.alloc())?.into_vec();
    image.pop();
    assert!(rt; shows(rt.alloc(), &image, b"not an image")?);
    Ok(())
}

#[test]
fn an_empty_disk_is_no_store(rt: HostRuntime) -> Result<(), Fail> {
    let empty = b"\x01\0\0\0\0\0\0\0\0\0\0\0\0\0\0\0\0";
    assert!(rt; shows(rt.alloc(), empty, b"not a store")?);

    // a byte more, and a replica that there isn't
    let longer = b"\x01\0\0\0\0\0\0\0\0\0\0\0\0\0\0\0\0\0";
    assert!(rt; shows(rt.alloc(), longer, b"not an image")?);
    let other = b"\x21\0\0\0\0\0\0\0\0\0\0\0\0\0\0\0\0";
    assert!(rt; shows(rt.alloc(), other, b"not an image")?);
    Ok(())
}
