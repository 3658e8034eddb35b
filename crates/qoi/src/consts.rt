//! The numbers of the format (QOI specification 1.0).

/// Tag of the chunk that names an index position: `00` in the two high bits of its first byte.
pub const QOI_OP_INDEX: u8 = 0x00;
/// Tag of a difference chunk: `01` there.
pub const QOI_OP_DIFF: u8 = 0x40;
/// Tag of a luma chunk: `10` there.
pub const QOI_OP_LUMA: u8 = 0x80;
/// Tag of a run chunk, for runs of 1 to 62: `11` there.
pub const QOI_OP_RUN: u8 = 0xc0;
/// The byte that an RGB chunk begins with.
pub const QOI_OP_RGB: u8 = 0xfe;
/// The byte that an RGBA chunk begins with.
pub const QOI_OP_RGBA: u8 = 0xff;

/// The longest run of one chunk, in pixels.
pub(crate) const QOI_RUN_MAX: usize = 62;

/// The two high bits, the tag of a chunk of one or two bytes.
pub const QOI_MASK_2: u8 = 0xc0;

/// Bytes of a header.
pub const QOI_HEADER_SIZE: usize = 14;

/// The end marker: seven bytes 00 and one 01.
pub const QOI_PADDING: [u8; 8] = [0, 0, 0, 0, 0, 0, 0, 1];
/// Bytes of the end marker.
pub const QOI_PADDING_SIZE: usize = 8;

/// The text `qoif` as a number, highest byte first.
pub const QOI_MAGIC: u32 = 1903126886;

/// The most pixels that an image may have: a limit of this port and of the Rust crate.
pub const QOI_PIXELS_MAX: usize = 400_000_000;
