ghost use Rattle.std.specs.Prelude.{◌≡◌, ℕ, suc, Bool, List, length, take, slice_get, IfSome, Some, Result};
ghost use Rattle.cg_client.specs.Replica.{Held};
ghost use Rattle.cg_codec.specs.Laws.{IsField, IsWhole, IsFrontOfNoOther};
ghost use Rattle.cg_disk_records.specs.Stored.{stored_of};
ghost use Rattle.cg_disk_records.specs.Agreeing.{Agrees};
ghost use Rattle.cg_join.specs.Limits.{IsPiece};
ghost use Rattle.cg_join.specs.Bytes.{spelled_piece};
ghost use Rattle.cg_join.specs.Reading.{piece_reading};
ghost use Rattle.cg_join.specs.declared.errors.JoinErr.{JoinErr};
ghost use Rattle.cg_join.specs.declared.piece.PieceContent.{PieceContent};
ghost use Rattle.cg_client.specs.Joined.{joiner_content, piece_count};
ghost use Rattle.cg_join.specs.Snapshot.{Snapshot, parts_of, piece_at, bytes_at};
ghost use Rattle.cg_join.specs.Taking.{Takes};
ghost use Rattle.cg_join.specs.Handing.{Proceeds};

use cg_action::actions_are_exact;
use cg_disk_records::{lists_are_exact, parts_are_exact};

/// Pieces are exactly their spellings: each one within the limits is read again as it was spelled, what is read is one
/// within the limits, spelled so, and no spelling is the front of another one's.
pub fn pieces_are_exact()
    ensures field { IsField IsPiece spelled_piece piece_reading }
    ensures whole { IsWhole IsPiece spelled_piece piece_reading }
    ensures apart { IsFrontOfNoOther IsPiece spelled_piece }
{
    actions_are_exact();
    lists_are_exact();
    parts_are_exact();
}

/// A snapshot has a piece for its head, for each kept green action, for each entry, and for its end.
pub fn snapshots_are_counted()
    ensures { (h : Held) → length (parts_of h) ≡ piece_count h }
{}

/// Where what a replica holds agrees, what a joiner holds to which its snapshot came does, too.
pub fn joiners_agree()
    ensures { (id : ℕ) (h : Held) → Agrees (stored_of h) → Agrees (joiner_content id h) }
{}

/// A joiner that has taken the first pieces of a snapshot takes the next one, unless memory is refused.
pub fn snapshots_are_taken()
    ensures { (s : Snapshot) (n : ℕ) (bytes : List ℕ) (new : List PieceContent) (r : Result Bool JoinErr) →
        bytes_at s (suc n) ≡ Some bytes → IfSome (slice_get s.parts n) (λ part. IsPiece (piece_at s (suc n) part)) →
        Takes s.name (take n s.parts) new bytes r → Proceeds s n new r }
{
    pieces_are_exact();
}
