//! A proved encoder and decoder for the QOI image format (QOI specification 1.0): a port of the
//! Rust crate `qoi` 0.4.1 by Ivan Smirnov, copyright 2022, whose names, error texts and behaviour
//! it follows, under the same licences (`LICENSE-MIT`, `LICENSE-APACHE`). From its code come the
//! product in `hash_index` and the form of some short bodies.
//!
//! Raw bytes are the pixels row by row, three or four bytes a pixel: red, green, blue and, if there
//! are four, alpha.
//!
//! - [`encode_to_vec`] and [`decode_to_vec`] go from raw bytes to a file and back;
//!   [`encode_to_buf`] and [`decode_to_buf`] do so in buffers and allocate nothing.
//! - [`Encoder`] also takes a color space and a style, and writes to a `std::io::Write`.
//! - [`Decoder`] also decodes into three or four channels, reads from a `std::io::BufRead` or,
//!   more slowly, a `std::io::Read`, and gives what follows a file. [`Reader`] is the bound for all
//!   that it reads from: [`Bytes`] of a slice, [`Buffered`], any `Read`.
//! - [`PixelReader`], of `Decoder::into_pixels`, and [`PixelWriter`] decode and encode images that
//!   needn't fit into memory, piece by piece.
//! - [`RowIndex`] reads the image of a file in memory from any row on; a [`Mark`] is one point in it,
//!   from which a `PixelReader` goes on as often as you like.
//! - A function of [`laws`] does nothing: its contract states a fact, for a caller's proof.
//! - [`decode_header`] looks at the first fourteen bytes alone; [`encode_max_len`] is the most
//!   bytes that an encoded image can have.
//!
//! ```
//! let file = encode_to_vec(alloc, &pixels, width, height)?;
//! let (header, decoded) = decode_to_vec(alloc, &file)?;
//! ```
//!
//! From one file to another, in constant memory:
//!
//! ```
//! let mut pixels = Decoder::from_buf_read(reader)?.into_pixels();
//! let mut copy = PixelWriter::new(alloc, *pixels.header(), Style::Reference, writer)?;
//! pixels.copy_to(&mut copy)?;
//! let writer = copy.finish()?;
//! ```
#![tactic(auto)]

mod chunk;
#[doc(hidden)]
pub mod consts;
mod copying;
mod decode;
mod encode;
mod error;
mod header;
pub mod laws;
mod packed;
#[doc(hidden)]
pub mod parts;
mod pixel;
mod types;
mod utils;
mod writers;

pub use crate::decode::{
    Buffered, Bytes, Decoder, Mark, PixelReader, Reader, RowIndex, decode_header, decode_to_buf,
    decode_to_vec,
};
pub use crate::encode::{Encoder, PixelWriter, encode_max_len, encode_to_buf, encode_to_vec};
pub use crate::error::{Error, Result};
pub use crate::header::Header;
pub use crate::types::{Channels, ColorSpace, Style};
