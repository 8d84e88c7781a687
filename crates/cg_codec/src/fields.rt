//! A reader of fields.

ghost use Rattle.std.specs.Prelude.{◌≡◌, ◌+◌, ◌^◌, ◌<◌, length, true, false, MatchOption};
ghost use Rattle.std.specs.Str.{is_utf8};
ghost use Rattle.cg_codec.specs.Laws.{AreBytes};

use crate::CodecFault;
use std::str::from_utf8;

// the text that these bytes are
fn text_of(bytes: &[u8]) -> Option<&str>
    ensures { MatchOption result (is_utf8 bytes.now ≡ false) (λ text. (is_utf8 bytes.now ≡ true)
        × (text.now ≡ bytes.now)) }
{
    match from_utf8(bytes) {
        Ok(text) => Some(text),
        Err(_) => None,
    }
}

// a slice of bytes is seen as bytes
fn are_bytes(bytes: &[u8])
    ensures { AreBytes bytes.now }
{}

/// A reader of the fields that bytes hold, from the left. It can be copied, to come back to an offset.
#[derive(Clone, Copy, Debug)]
pub struct Fields<'a> {
    rest: &'a [u8],
    at: usize,
    ghost within: { at + length rest.now < 2 ^ 64 },
}

impl<'a> Fields<'a> {
    ghost use Rattle.std.specs.Prelude.{◌≤◌, take};
    ghost use Rattle.cg_codec.specs.Reading.{take_u8, byte_between, take_u32, take_u64, take_i64, take_truth, take_count, take_text, behind};
    ghost use Rattle.cg_codec.specs.Laws.{AreBytes};
    ghost use Rattle.cg_codec.specs.Taking.{unread_of, Takes, Ends};

    /// The fields of all these bytes.
    pub fn new(bytes: &'a [u8]) -> Fields<'a>
        ensures { unread_of result ≡ record { at = 0; bytes = bytes.now } }
    {
        Fields { rest: bytes, at: 0 }
    }

    /// Takes one byte.
    #[tactic(auto, unfolding(crate::specs::Reading::take_u8))]
    #[inline(always)]
    pub fn take_u8(&mut self) -> Result<u8, CodecFault>
        ensures { Takes (λ x. x) take_u8 (unread_of self.old) (unread_of self.new) result }
    {
        match self.rest {
            [] => Err(self.short()),
            [byte, rest @ ..] => {
                self.rest = rest;
                self.at += 1;
                Ok(*byte)
            }
        }
    }

    /// Takes one byte, from `low` to `high`. Another one is `Bad`.
    #[tactic(auto, unfolding(crate::specs::Reading::byte_between))]
    #[inline(always)]
    pub fn take_between(&mut self, low: u8, high: u8) -> Result<u8, CodecFault>
        ensures { Takes (λ x. x) (byte_between low high) (unread_of self.old) (unread_of self.new) result }
    {
        let mut after = *self;
        let byte = after.take_u8()?;
        if byte < low || high < byte {
            return Err(self.bad());
        }
        *self = after;
        Ok(byte)
    }

    /// Takes a number of four bytes.
    #[tactic(auto, unfolding(crate::specs::Reading::take_u32))]
    #[inline(always)]
    pub fn take_u32(&mut self) -> Result<u32, CodecFault>
        ensures { Takes (λ x. x) take_u32 (unread_of self.old) (unread_of self.new) result }
    {
        if self.rest.len() < 4 {
            return Err(self.short());
        }
        let front = self.skip(4);
        Ok(u32::from_be_bytes([front[0], front[1], front[2], front[3]]))
    }

    /// Takes a number of eight bytes.
    #[tactic(auto, unfolding(crate::specs::Reading::take_u64))]
    #[inline(always)]
    pub fn take_u64(&mut self) -> Result<u64, CodecFault>
        ensures { Takes (λ x. x) take_u64 (unread_of self.old) (unread_of self.new) result }
    {
        if self.rest.len() < 8 {
            return Err(self.short());
        }
        let front = self.skip(8);
        Ok(u64::from_be_bytes([
            front[0], front[1], front[2], front[3], front[4], front[5], front[6], front[7],
        ]))
    }

    /// Takes a number of eight bytes that is the two's complement of a number with a sign.
    #[tactic(auto, unfolding(crate::specs::Reading::take_i64))]
    pub fn take_i64(&mut self) -> Result<i64, CodecFault>
        ensures { Takes (λ x. x) take_i64 (unread_of self.old) (unread_of self.new) result }
    {
        let number = self.take_u64()?;
        Ok(number.cast_signed())
    }

    /// Takes a truth value: a byte that is 1 or 0.
    #[tactic(auto, unfolding(crate::specs::Reading::take_truth))]
    pub fn take_truth(&mut self) -> Result<bool, CodecFault>
        ensures { Takes (λ x. x) take_truth (unread_of self.old) (unread_of self.new) result }
    {
        let mut after = *self;
        let byte = after.take_u8()?;
        if byte > 1 {
            return Err(self.bad());
        }
        *self = after;
        Ok(byte == 1)
    }

    /// Takes the number of items of a list, in four bytes. A number above `max` is `Bad`.
    #[tactic(auto, unfolding(crate::specs::Reading::take_count))]
    #[inline(always)]
    pub fn take_count(&mut self, max: u32) -> Result<u32, CodecFault>
        ensures { Takes (λ x. x) (take_count max) (unread_of self.old) (unread_of self.new) result }
    {
        let mut after = *self;
        let count = after.take_u32()?;
        if count > max {
            return Err(self.bad());
        }
        *self = after;
        Ok(count)
    }

    /// Takes a text of at most `max` bytes: their number in four bytes, and UTF-8.
    /// A number above `max` is `Bad`, whether or not so many bytes follow.
    #[tactic(auto, unfolding(crate::specs::Reading::take_text))]
    pub fn take_text(&mut self, max: u32) -> Result<&'a str, CodecFault>
        ensures { Takes (λ t. t.now) (take_text max) (unread_of self.old) (unread_of self.new) result }
    {
        let mut after = *self;
        let count = after.take_count(max)?;
        if after.rest.len() < count as usize {
            return Err(self.short());
        }
        match text_of(after.skip(count as usize)) {
            Some(text) => {
                *self = after;
                Ok(text)
            }
            None => Err(self.bad()),
        }
    }

    /// What is left are bytes. It does nothing.
    pub fn are_bytes(&self)
        ensures { AreBytes (unread_of self.now).bytes }
    {
        are_bytes(self.rest);
    }

    /// Says that nothing is left to read.
    pub fn finish(&self) -> Result<(), CodecFault>
        ensures { Ends (unread_of self.now) result }
    {
        if self.rest.is_empty() {
            Ok(())
        } else {
            Err(CodecFault::Rest { at: self.at as u64 })
        }
    }

    /// How many bytes are left to read.
    pub fn left(&self) -> usize
        ensures { result ≡ length (unread_of self.now).bytes }
    {
        self.rest.len()
    }

    /// The next bytes, behind which the reader then stands.
    #[inline(always)]
    pub fn skip(&mut self, count: usize) -> &'a [u8]
        requires { count ≤ length (unread_of self.old).bytes }
        ensures front { result.now ≡ take count (unread_of self.old).bytes }
        ensures left { unread_of self.new ≡ behind count (unread_of self.old) }
    {
        let (front, rest) = self.rest.split_at(count);
        self.rest = rest;
        self.at += count;
        front
    }

    #[inline(always)]
    fn short(&self) -> CodecFault
        ensures { result ≡ CodecFault.Short (unread_of self.now).at }
    {
        CodecFault::Short { at: self.at as u64 }
    }

    /// The fault that the field that begins here has no such value.
    #[inline(always)]
    pub fn bad(&self) -> CodecFault
        ensures { result ≡ CodecFault.Bad (unread_of self.now).at }
    {
        CodecFault::Bad { at: self.at as u64 }
    }
}
