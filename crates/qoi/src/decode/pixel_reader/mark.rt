//! Points in images, from which a caller's decoding goes on.
ghost use Rattle.std.specs.Prelude.{◌≡◌, ℕ, ◌-◌, ◌<◌, ◌≤◌, List, ◌++◌, length, drop, Some, Ok, Err, IsOk, IfOk};
ghost use Rattle.qoi.specs.DecoderState.{DecoderState};
ghost use Rattle.qoi.specs.Decoded.{HasHeader};
ghost use Rattle.qoi.specs.declared.error.Error.{Error};
ghost use Rattle.qoi.specs.pieces.Mark.{MarkState, mark_of, reader_at, marked_left, MarksGiven, MarksRows};
ghost use Rattle.qoi.specs.pieces.Unread.{IsRestOf};
ghost use Rattle.qoi.specs.pieces.PixelReader.{unread_bytes, HasGiven, HasRows};

use crate::decode::Decoder;
use crate::decode::pixel_reader::PixelReader;
use crate::decode::pixel_reader::unread::Unread;
use crate::decode::reader::Bytes;
use crate::error::{Error, Result};
use crate::header::Header;
use crate::types::Channels;
use std::marker::Model;

/// A point in the image of a slice's file, from which a `PixelReader` goes on, as often as you
/// like. It has some 5 KB, holds no part of the slice, and needn't be dropped before it.
///
/// A contract sees how many bytes of the slice stand before the point, and the reader's state but
/// for what is ahead.
///
/// ```
/// let mark = pixels.mark(file);
/// let mut once = mark.resume(file)?;
/// let mut again = mark.resume(file)?;
/// ```
#[derive(Drop)]
pub struct Mark {
    at: usize,
    header: Header,
    channels: Channels,
    unread: Unread,
    refused: bool,
}

impl Model for Mark {
    ghost Value = { MarkState };

    ghost view = { λ m. record {
      at = m.at;
      header = m.header;
      channels = m.channels;
      unread = m.unread;
      refused = m.refused;
    } };

    ghost invariant = { λ m. IsRestOf m.header m.channels m.refused m.unread };
}

impl<'a> PixelReader<Bytes<'a>> {
    /// A mark of the point where the reader stands in `file`, which is the whole slice that it
    /// reads: in another one the mark stands as far from the end as the reader does from that of
    /// its own. The mark counts from the front, so `resume` also takes a slice that begins with
    /// this one.
    #[tactic(auto, unfolding(crate::specs::pieces::Mark::marked_left, crate::specs::pieces::PixelReader::unread_bytes))]
    pub fn mark(&self, file: &[u8]) -> Mark
        ensures state { result ≡ mark_of (length file.now - length self.now.reader) self.now }
        // If the slice is that of the file, of which some decoder was made, the mark says what was
        // read of the image.
        ensures given { (d e : DecoderState (List ℕ)) (bytes given : List ℕ)
            → HasHeader e (Some file.now) (Some bytes)
            → HasGiven d (Some bytes) (Some self.now.reader) given self.now
            → MarksGiven d bytes given result }
        ensures rows { (d e : DecoderState (List ℕ)) (bytes : List ℕ) (stride k : ℕ)
            → HasHeader e (Some file.now) (Some bytes)
            → HasRows d (Some bytes) (Some self.now.reader) stride k self.now
            → MarksRows d bytes stride k result }
        // It says so of the file with anything appended, too.
        ensures given_then { (d e : DecoderState (List ℕ)) (bytes given more : List ℕ)
            → HasHeader e (Some file.now) (Some bytes)
            → HasGiven d (Some bytes) (Some self.now.reader) given self.now
            → MarksGiven d (bytes ++ more) given result }
        ensures rows_then { (d e : DecoderState (List ℕ)) (bytes more : List ℕ) (stride k : ℕ)
            → HasHeader e (Some file.now) (Some bytes)
            → HasRows d (Some bytes) (Some self.now.reader) stride k self.now
            → MarksRows d (bytes ++ more) stride k result }
        ensures left { marked_left result ≡ unread_bytes self.now }
    {
        Mark {
            at: file.len().saturating_sub(self.decoder.reader.0.len()),
            header: self.decoder.header,
            channels: self.decoder.channels,
            unread: self.unread.copied(),
            refused: self.refused,
        }
    }
}

impl Mark {
    /// How many raw bytes of the image are unread behind the mark.
    #[tactic(auto, unfolding(crate::specs::pieces::Mark::marked_left))]
    pub fn left(&self) -> usize
        ensures { result ≡ marked_left self.now }
    {
        self.unread.left()
    }

    /// A reader that goes on from the mark in the slice that was marked, or in one that begins with
    /// it. In another slice it may be refused, or read other bytes, of which `read` then promises
    /// only how many come.
    ///
    /// `UnexpectedBufferEnd` if the slice ends before the mark.
    #[tactic(auto, unfolding(crate::specs::pieces::Mark::marked_left, crate::specs::pieces::PixelReader::unread_bytes))]
    pub fn resume<'a>(&self, file: &'a [u8]) -> Result<PixelReader<Bytes<'a>>>
        // The reader that was marked, with the bytes of the slice behind the mark ahead.
        ensures same { self.now.at ≤ length file.entry.now
            → result ≡ Ok (reader_at self.now (drop self.now.at file.entry.now)) }
        ensures refused { length file.entry.now < self.now.at
            → result ≡ Err Error.UnexpectedBufferEnd }
        // If the slice is that of the file, of which some decoder can be made, what was read before
        // the mark was read by this reader.
        ensures given { (d e : DecoderState (List ℕ)) (bytes given : List ℕ)
            → HasHeader e (Some file.entry.now) (Some bytes) → MarksGiven d bytes given self.now
            → IfOk result (λ p. HasGiven d (Some bytes) (Some p.reader) given p) }
        ensures rows { (d e : DecoderState (List ℕ)) (bytes : List ℕ) (stride k : ℕ)
            → HasHeader e (Some file.entry.now) (Some bytes) → MarksRows d bytes stride k self.now
            → IfOk result (λ p. HasRows d (Some bytes) (Some p.reader) stride k p) }
        ensures accepts { (d e : DecoderState (List ℕ)) (bytes given : List ℕ)
            → HasHeader e (Some file.entry.now) (Some bytes) → MarksGiven d bytes given self.now
            → IsOk result }
        ensures left { IfOk result (λ p. unread_bytes p ≡ marked_left self.now) }
    {
        if file.len() < self.at {
            return Err(Error::UnexpectedBufferEnd);
        }
        let (_, rest) = file.split_at(self.at);
        Ok(PixelReader {
            decoder: Decoder {
                reader: Bytes(rest),
                header: self.header,
                channels: self.channels,
            },
            unread: self.unread.copied(),
            refused: self.refused,
        })
    }
}
