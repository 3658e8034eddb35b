//! Laws on reading: bytes have one verdict, and files are read as they were put together.
ghost use Rattle.std.specs.Prelude.{◌≡◌, ℕ, ◌+◌, ◌-◌, ◌*◌, ◌<◌, ◌≤◌, ◌⊎◌, List, [], ◌∷◌, ◌++◌, length, take, drop, slice_index, slice_index_or, Ok, Err, Option, Some};
ghost use Rattle.qoi.specs.declared.types.Style.{Style};
ghost use Rattle.qoi.specs.Qoi.{Error, Header, Channels, ColorSpace, Chunk, AreBytes, IsFile, file, file_pixels, default_header, header_bytes, pixel_count, IsValid, header_of, header_size, channels_number, pixels_max};
ghost use Rattle.qoi.specs.Raw.{output, without_fourth, image_byte_count};
ghost use Rattle.qoi.specs.Encoded.{IsFileOf, IsReadBack, image_file, image_header};
ghost use Rattle.qoi.specs.Tiles.{HasTile, HasPicture, AreFrames, ArePictures};
ghost use Rattle.qoi.specs.Verdicts.{IsWhole, IsCut, IsWrong, AreCut};
ghost use Rattle.qoi.specs.Decoding.{DecodesFile, IsNoFile};
ghost use Rattle.qoi.specs.Decoded.{HasHeader, HasDecoded, HasRefusedFile};
ghost use Rattle.qoi.specs.EncoderState.{EncoderState};
ghost use Rattle.qoi.specs.Sent.{SendsFile};
ghost use Rattle.qoi.specs.DecoderState.{DecoderState};
ghost use Rattle.qoi.specs.Reading.{IsImage, StandsAhead, SaysWhy};
ghost use Rattle.qoi.specs.Images.{front_image, front_rest, file_image, file_image_in, file_rest, BeginsWithFile, HasFrontFile};

/// At most one verdict holds of any bytes, with one chunk list.
pub fn verdict_is_one()
    ensures whole { (n : ℕ) (bytes : List ℕ) (cs ds : List Chunk) (x y : List ℕ)
        → IsWhole n bytes cs x → IsWhole n bytes ds y → (cs ≡ ds) × (x ≡ y) }
    ensures cut { (n : ℕ) (bytes : List ℕ) (cs ds : List Chunk) (x y : List ℕ)
        → IsCut n bytes cs x → IsCut n bytes ds y → (cs ≡ ds) × (x ≡ y) }
    ensures wrong { (n : ℕ) (bytes : List ℕ) (cs ds : List Chunk) (eight other x y : List ℕ)
        → IsWrong n bytes cs eight x → IsWrong n bytes ds other y → (cs ≡ ds) × (eight ≡ other)
        × (x ≡ y) }
    ensures whole_not_cut { (n : ℕ) (bytes : List ℕ) (cs ds : List Chunk) (x part : List ℕ)
        → IsWhole n bytes cs x → IsCut n bytes ds part → ⊥ }
    ensures whole_not_wrong { (n : ℕ) (bytes : List ℕ) (cs ds : List Chunk) (x eight rest : List ℕ)
        → IsWhole n bytes cs x → IsWrong n bytes ds eight rest → ⊥ }
    ensures cut_not_wrong { (n : ℕ) (bytes : List ℕ) (cs ds : List Chunk) (part eight rest : List ℕ)
        → IsCut n bytes cs part → IsWrong n bytes ds eight rest → ⊥ }
{}

/// Some verdict holds of any bytes.
pub fn verdict_is_some()
    ensures { (n : ℕ) (bytes : List ℕ) → AreBytes bytes
        → ((cs : List Chunk) × (rest : List ℕ) × IsWhole n bytes cs rest)
        ⊎ (AreCut n bytes
        ⊎ ((cs : List Chunk) × (eight rest : List ℕ) × IsWrong n bytes cs eight rest)) }
{}

/// A valid header's fourteen bytes are read as that header, whatever follows them; and bytes that
/// are read as a header begin with that header's bytes, and it is valid.
pub fn header_both_ways()
    ensures size { (h : Header) → length (header_bytes h) ≡ header_size }
    ensures read { (h : Header) (rest : List ℕ) → IsValid h
        → header_of (header_bytes h ++ rest) ≡ Ok h }
    ensures only { (bytes : List ℕ) (h : Header) → AreBytes bytes → header_of bytes ≡ Ok h
        → (bytes ≡ header_bytes h ++ drop header_size bytes) × IsValid h }
{}

/// No file begins another: the same bytes are one file and what follows it.
pub fn no_file_begins_another()
    ensures { (h k : Header) (cs ds : List Chunk) (x y : List ℕ) → IsFile h cs → IsFile k ds
        → file h cs ++ x ≡ file k ds ++ y → (h ≡ k) × (cs ≡ ds) × (x ≡ y) }
{}

/// A file's header is read, and what follows the header is whole; conversely, a header and whole
/// bytes after it are a file and what follows it. A file's pixels in its own channels are what is
/// decoded.
pub fn files_are_read()
    ensures read { (h : Header) (cs : List Chunk) (bytes rest : List ℕ) → IsFile h cs
        → bytes ≡ file h cs ++ rest
        → (header_of bytes ≡ Ok h) × IsWhole (pixel_count h) (drop header_size bytes) cs rest }
    ensures only { (h : Header) (cs : List Chunk) (bytes rest : List ℕ) → AreBytes bytes
        → header_of bytes ≡ Ok h
        → IsWhole (pixel_count h) (drop header_size bytes) cs rest → IsFile h cs
        × (bytes ≡ file h cs ++ rest) }
    ensures decoded { (h : Header) (cs : List Chunk) (bytes rest : List ℕ) → IsFile h cs
        → bytes ≡ file h cs ++ rest
        → DecodesFile bytes h rest
        (output (channels_number h.channels) (channels_number h.channels) (file_pixels h cs)) }
    ensures begins { (h : Header) (cs : List Chunk) (rest : List ℕ) → IsFile h cs
        → (header_of (file h cs ++ rest) ≡ Ok h)
        × StandsAhead h (drop header_size (file h cs ++ rest))
        × (file_rest (file h cs ++ rest) ≡ rest) }
    ensures stands { (d : DecoderState (List ℕ)) (bytes : List ℕ)
        → HasHeader d (Some bytes) (Some d.reader) → StandsAhead d.header d.reader
        → BeginsWithFile bytes }
    ensures front { (d : DecoderState (List ℕ)) (bytes : List ℕ)
        → HasHeader d (Some bytes) (Some d.reader) → StandsAhead d.header d.reader
        → HasFrontFile d.header (length (front_rest d.header d.reader)) bytes }
    ensures front_decoded { (d : DecoderState (List ℕ)) (bytes rest out : List ℕ)
        → HasHeader d (Some bytes) (Some d.reader)
        → HasDecoded d (Some d.reader) (Some rest) out
        → HasFrontFile d.header (length rest) bytes }
    ensures ahead { (h : Header) (n : ℕ) (bytes : List ℕ) → HasFrontFile h n bytes
        → (header_of bytes ≡ Ok h) × StandsAhead h (drop header_size bytes)
        × (length (front_rest h (drop header_size bytes)) ≡ n) }
{}

/// Bytes in memory are no file if their header is refused, or if what follows it is cut or wrong;
/// and conversely.
pub fn refusals_say_why()
    ensures header { (bytes : List ℕ) (e : Error) → header_of bytes ≡ Err e → IsNoFile bytes e }
    ensures ahead { (d : DecoderState (List ℕ)) (bytes : List ℕ) (e : Error)
        → HasHeader d (Some bytes) (Some d.reader) → SaysWhy d.header d.reader e
        → IsNoFile bytes e }
    ensures only { (bytes : List ℕ) (e : Error) (h : Header) → IsNoFile bytes e
        → header_of bytes ≡ Ok h → SaysWhy h (drop header_size bytes) e }
    ensures refused { (bytes : List ℕ) (e : Error) → IsNoFile bytes e → HasRefusedFile bytes e }
{}

/// What was decoded from bytes is decoded from them whatever is appended, and that is left, too.
pub fn files_may_be_followed()
    ensures decoded { (bytes more : List ℕ) (h : Header) (rest out : List ℕ)
        → DecodesFile bytes h rest out → DecodesFile (bytes ++ more) h (rest ++ more) out }
    ensures header { (bytes more : List ℕ) (h : Header) (rest out : List ℕ)
        → DecodesFile bytes h rest out → header_of (bytes ++ more) ≡ Ok h }
    ensures image { (bytes more : List ℕ) (h : Header) (rest out : List ℕ)
        → DecodesFile bytes h rest out → file_image (bytes ++ more) ≡ out }
    ensures rest { (bytes more : List ℕ) (h : Header) (rest out : List ℕ)
        → DecodesFile bytes h rest out → file_rest (bytes ++ more) ≡ file_rest bytes ++ more }
{}

/// The image that bytes begin with, and what follows it, are functions of the bytes; likewise those
/// of a file. In the file's own channels, and in three, the image is what one expects.
pub fn images_are_functions()
    ensures ahead { (channels : Channels) (h : Header) (bytes rest out : List ℕ)
        → IsImage channels bytes h rest out
        → (out ≡ front_image channels h bytes) × (rest ≡ front_rest h bytes) }
    ensures file { (bytes : List ℕ) (h : Header) (rest out : List ℕ) → DecodesFile bytes h rest out
        → (out ≡ file_image bytes) × (rest ≡ file_rest bytes) }
    ensures decoded { (bytes : List ℕ) (h : Header) (rest out : List ℕ)
        → DecodesFile bytes h rest out → DecodesFile bytes h rest out × (out ≡ file_image bytes)
        × (rest ≡ file_rest bytes) × StandsAhead h (drop header_size bytes) }
    ensures own { (bytes : List ℕ) (h : Header) → header_of bytes ≡ Ok h
        → file_image_in h.channels bytes ≡ file_image bytes }
    ensures three { (bytes : List ℕ) (h : Header) → header_of bytes ≡ Ok h
        → file_image_in Channels.Rgb bytes ≡ without_fourth (file_image_in Channels.Rgba bytes) }
{}

/// A piece of an image stands behind the bytes that were read before. So two images are the same in
/// front of a byte in which their pieces differ, if what was read of both before is the same.
pub fn pieces_that_come()
    ensures byte { (image given buf : List ℕ) (size k : ℕ)
        → take size buf ≡ take size (drop (length given) image) → k < length (take size buf)
        → slice_index image (length given + k) ≡ slice_index (take size buf) k }
    ensures before { (one other given here there : List ℕ) (size k : ℕ)
        → given ≡ take (length given) one → given ≡ take (length given) other
        → take size here ≡ take size (drop (length given) one)
        → take size there ≡ take size (drop (length given) other)
        → take k (take size here) ≡ take k (take size there) → k < length (take size here)
        → take (length given + k) one ≡ take (length given + k) other }
{}

/// Raw bytes of a valid header's image, as decoding gives them, are accepted by an encoder with its
/// width and height, and get its header, in sRGB.
#[tactic(auto, using(crate::proofs::format::HeaderBytes::encoded_again))]
pub fn images_are_accepted()
    ensures { (h : Header) (raw : List ℕ) → IsValid h → length raw ≡ image_byte_count h
        → image_header raw h.width h.height ≡ Ok (record h { colorspace = ColorSpace.Srgb }) }
{}

/// Raw bytes of the right number are accepted by an encoder, and get the header of their size.
#[tactic(auto, using(crate::proofs::format::HeaderBytes::size_accepted))]
pub fn sizes_are_accepted()
    ensures { (raw : List ℕ) (width height : ℕ) (channels : Channels) → 1 ≤ width * height
        → width * height ≤ pixels_max
        → length raw ≡ width * height * channels_number channels
        → image_header raw width height ≡ Ok (record {
          width = width;
          height = height;
          channels = channels;
          colorspace = ColorSpace.Srgb;
        }) }
{}

/// An image that an encoder accepts is read back from its file, whatever follows it.
pub fn image_files_are_read()
    ensures image { (style : Style) (h : Header) (raw : List ℕ) (width height : ℕ) → AreBytes raw
        → image_header raw width height ≡ Ok h → file_image (image_file style h raw) ≡ raw }
    ensures all { (style : Style) (h : Header) (raw : List ℕ) (width height : ℕ) → AreBytes raw
        → image_header raw width height ≡ Ok h → IsReadBack h raw (image_file style h raw) }
{}

/// The file of an image in style `Tight` is no longer than its file in any other style.
pub fn tight_is_no_longer()
    ensures { (style : Style) (h : Header) (raw bytes : List ℕ) → IsFileOf style h raw bytes
        → length (image_file Style.Tight h raw) ≤ length bytes }
{}

/// A file after other bytes, of any origin, is a tile there, tiles stay whatever is appended, and
/// the image of a tile is read at its offset.
pub fn tiles_stay()
    ensures put { (style : Style) (h : Header) (raw bytes old new : List ℕ)
        → IsFileOf style h raw bytes → new ≡ old ++ bytes → HasTile new (length old) raw }
    ensures put_file { (bytes : List ℕ) (h : Header) (rest raw old new : List ℕ)
        → DecodesFile bytes h rest raw → new ≡ old ++ bytes → HasTile new (length old) raw }
    ensures kept { (tile old new more : List ℕ) (offset : ℕ) → new ≡ old ++ more
        → HasTile old offset tile → HasTile new offset tile }
    ensures read { (bytes raw : List ℕ) (offset : ℕ) → HasTile bytes offset raw
        → file_image (drop offset bytes) ≡ raw }
    ensures within { (bytes raw : List ℕ) (offset : ℕ) → HasTile bytes offset raw
        → offset ≤ length bytes }
{}

/// A store of frames: none, one more that was sent behind them, and the last one cut off.
pub fn frames_stay()
    ensures none { AreFrames [] [] [] }
    ensures put { (e : EncoderState) (n : ℕ) (before after : Option (List ℕ))
        (raw old new offsets more : List ℕ) (images : List (List ℕ)) → SendsFile e before after n
        → before ≡ Some old → after ≡ Some new → AreFrames old offsets images → raw ≡ e.raw
        → more ≡ offsets ++ length old ∷ [] → AreFrames new more (images ++ raw ∷ []) }
    ensures last { (bytes offsets fewer new last : List ℕ) (images : List (List ℕ)) (at : ℕ)
        → AreFrames bytes offsets (images ++ last ∷ []) → offsets ≡ fewer ++ at ∷ []
        → new ≡ take at bytes → AreFrames new fewer images }
{}

/// Each frame of a store is read at its offset.
#[tactic(auto, using(crate::proofs::decoding::Frames::frame_laws))]
pub fn frames_are_read()
    ensures read { (bytes offsets : List ℕ) (images : List (List ℕ)) (k : ℕ)
        → AreFrames bytes offsets images → k < length offsets
        → file_image (drop (slice_index offsets k) bytes) ≡ slice_index_or images k [] }
    ensures within { (bytes offsets : List ℕ) (images : List (List ℕ)) (k : ℕ)
        → AreFrames bytes offsets images → k < length offsets
        → slice_index offsets k ≤ length bytes }
    ensures stands { (bytes offsets : List ℕ) (images : List (List ℕ)) (k : ℕ)
        → AreFrames bytes offsets images → k < length offsets
        → BeginsWithFile (drop (slice_index offsets k) bytes) }
    ensures count { (bytes offsets : List ℕ) (images : List (List ℕ))
        → AreFrames bytes offsets images → length images ≡ length offsets }
{}

/// A file behind frames is one more. The frames in front of bytes are these and no others, if no
/// file follows: the same bytes, offsets and images.
#[tactic(auto, using(crate::proofs::decoding::Frames::frame_laws))]
pub fn frames_are_found()
    ensures found { (bytes offsets more : List ℕ) (images : List (List ℕ)) (at end : ℕ)
        → AreFrames (take at bytes) offsets images → BeginsWithFile (drop at bytes)
        → at ≤ length bytes → end ≡ length bytes - length (file_rest (drop at bytes))
        → more ≡ offsets ++ at ∷ []
        → AreFrames (take end bytes) more (images ++ file_image (drop at bytes) ∷ []) }
    ensures one { (bytes front rest new offsets ends : List ℕ) (at : ℕ)
        (images found : List (List ℕ)) → AreFrames front offsets images → bytes ≡ front ++ rest
        → (BeginsWithFile rest → ⊥) → AreFrames (take at bytes) ends found
        → (BeginsWithFile (drop at bytes) → ⊥) → new ≡ take at bytes → AreFrames new ends images }
    ensures same_bytes { (bytes front rest offsets ends : List ℕ) (at : ℕ)
        (images found : List (List ℕ)) → AreFrames front offsets images → bytes ≡ front ++ rest
        → (BeginsWithFile rest → ⊥) → AreFrames (take at bytes) ends found
        → (BeginsWithFile (drop at bytes) → ⊥) → take at bytes ≡ front }
    ensures same_offsets { (bytes front rest offsets ends : List ℕ) (at : ℕ)
        (images found : List (List ℕ)) → AreFrames front offsets images → bytes ≡ front ++ rest
        → (BeginsWithFile rest → ⊥) → AreFrames (take at bytes) ends found
        → (BeginsWithFile (drop at bytes) → ⊥) → ends ≡ offsets }
    ensures same_images { (bytes front rest offsets ends : List ℕ) (at : ℕ)
        (images found : List (List ℕ)) → AreFrames front offsets images → bytes ≡ front ++ rest
        → (BeginsWithFile rest → ⊥) → AreFrames (take at bytes) ends found
        → (BeginsWithFile (drop at bytes) → ⊥) → found ≡ images }
{}

/// A file after other bytes, of any origin, is a picture there, with its header, and pictures stay
/// whatever is appended.
pub fn pictures_stay()
    ensures put { (style : Style) (h : Header) (raw bytes old new : List ℕ)
        → IsFileOf style h raw bytes → new ≡ old ++ bytes → HasPicture new (length old) h raw }
    ensures put_file { (bytes : List ℕ) (h : Header) (rest raw old new : List ℕ)
        → DecodesFile bytes h rest raw → new ≡ old ++ bytes → HasPicture new (length old) h raw }
    ensures kept { (raw old new more : List ℕ) (offset : ℕ) (h : Header) → new ≡ old ++ more
        → HasPicture old offset h raw → HasPicture new offset h raw }
{}

/// A store of pictures: none, one more that was sent behind them, and the last one cut off. Frames
/// are pictures, and pictures are frames.
pub fn stores_stay()
    ensures none { ArePictures [] [] [] [] }
    ensures put { (e : EncoderState) (n : ℕ) (before after : Option (List ℕ))
        (raw old new offsets more : List ℕ) (headers : List Header) (images : List (List ℕ))
        → SendsFile e before after n → before ≡ Some old → after ≡ Some new
        → ArePictures old offsets headers images → raw ≡ e.raw
        → more ≡ offsets ++ length old ∷ []
        → ArePictures new more (headers ++ e.header ∷ []) (images ++ raw ∷ []) }
    ensures last { (bytes offsets fewer new last : List ℕ) (headers : List Header) (h : Header)
        (images : List (List ℕ)) (at : ℕ)
        → ArePictures bytes offsets (headers ++ h ∷ []) (images ++ last ∷ [])
        → offsets ≡ fewer ++ at ∷ [] → new ≡ take at bytes
        → ArePictures new fewer headers images }
    ensures frames { (bytes offsets : List ℕ) (headers : List Header) (images : List (List ℕ))
        → ArePictures bytes offsets headers images → AreFrames bytes offsets images }
    ensures pictures { (bytes offsets : List ℕ) (images : List (List ℕ))
        → AreFrames bytes offsets images
        → (headers : List Header) × ArePictures bytes offsets headers images }
{}

/// Each picture of a store is read at its offset.
#[tactic(auto, using(crate::proofs::decoding::Frames::picture_laws))]
pub fn pictures_are_read()
    ensures header { (bytes offsets : List ℕ) (headers : List Header) (images : List (List ℕ))
        (k : ℕ) → ArePictures bytes offsets headers images → k < length offsets
        → header_of (drop (slice_index offsets k) bytes)
        ≡ Ok (slice_index_or headers k default_header) }
    ensures read { (bytes offsets : List ℕ) (headers : List Header) (images : List (List ℕ)) (k : ℕ)
        → ArePictures bytes offsets headers images → k < length offsets
        → file_image (drop (slice_index offsets k) bytes) ≡ slice_index_or images k [] }
    ensures within { (bytes offsets : List ℕ) (headers : List Header) (images : List (List ℕ))
        (k : ℕ) → ArePictures bytes offsets headers images → k < length offsets
        → slice_index offsets k ≤ length bytes }
    ensures stands { (bytes offsets : List ℕ) (headers : List Header) (images : List (List ℕ))
        (k : ℕ) → ArePictures bytes offsets headers images → k < length offsets
        → BeginsWithFile (drop (slice_index offsets k) bytes) }
    ensures count { (bytes offsets : List ℕ) (headers : List Header) (images : List (List ℕ))
        → ArePictures bytes offsets headers images → length images ≡ length offsets }
    ensures heads { (bytes offsets : List ℕ) (headers : List Header) (images : List (List ℕ))
        → ArePictures bytes offsets headers images → length headers ≡ length offsets }
{}
