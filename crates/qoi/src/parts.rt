//! The crate's internal items that contracts name, and what callers who read and write chunks
//! themselves need: `read_chunk` (no decoder takes its chunks by it), `Pixel`, `repeats`. Readers
//! stand in the crate's root, too.
pub use crate::chunk::{Chunk, read_chunk};
pub use crate::decode::{Buffered, Bytes, Reader, Reader as PieceReader};
pub use crate::encode::repeats::repeats;
pub use crate::pixel::{Pixel, SupportedChannels};
pub use crate::writers::{BytesMut, GenericWriter, Writer};
