//! What bytes are an image of.
ghost use Rattle.std.specs.Prelude.{◌≡◌, Some, None, MatchOption};
ghost use Rattle.cg_image.specs.Images.{side_in, image_in};

use cg_base::ReplicaId;

/// A replica, and the bytes of both sides of its disk.
#[derive(Clone, Copy)]
pub(crate) struct ImageParts<'a> {
    pub(crate) id: ReplicaId,
    pub(crate) a: &'a [u8],
    pub(crate) b: &'a [u8],
}

// A side behind its length, and the bytes behind it.
fn side_in(bytes: &[u8]) -> Option<(&[u8], &[u8])>
    ensures { MatchOption result (side_in bytes.now ≡ None) (λ s. side_in bytes.now ≡ Some (s.0.now, s.1.now)) }
{
    if bytes.len() < 8 {
        return None;
    }
    let (size, rest) = bytes.split_at(8);
    let size = u64::from_be_bytes([
        size[0], size[1], size[2], size[3], size[4], size[5], size[6], size[7],
    ]);
    if (rest.len() as u64) < size {
        return None;
    }
    Some(rest.split_at(size as usize))
}

/// The replica and the sides, where the bytes are an image.
pub(crate) fn image_in(bytes: &[u8]) -> Option<ImageParts>
    ensures { MatchOption result (image_in bytes.now ≡ None) (λ p. image_in bytes.now ≡
        Some (record { id = p.id; image = record { a = p.a.now; b = p.b.now } })) }
{
    let [first, bytes @ ..] = bytes else {
        return None;
    };
    let id = ReplicaId::new(*first)?;
    let (a, bytes) = side_in(bytes)?;
    let (b, bytes) = side_in(bytes)?;
    if !bytes.is_empty() {
        return None;
    }
    Some(ImageParts { id, a, b })
}
