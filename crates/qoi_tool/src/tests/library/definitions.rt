//! Small examples of definitions of the format and of decoding, for numbers, orders and sides that
//! no law fixes, and of the law on frames that are found. The prover computes them.
ghost use Rattle.std.specs.Prelude.{◌≡◌, ℕ, List, ◌++◌, [], ◌∷◌, length, take, drop, replicate, codes, Ok, Err, Some, true, false};
ghost use Rattle.qoi.specs.declared.error.Error.{Error};
ghost use Rattle.qoi.specs.declared.types.Channels.{Channels};
ghost use Rattle.qoi.specs.declared.types.ColorSpace.{ColorSpace};
ghost use Rattle.qoi.specs.declared.chunk.Chunk.TheVariants.{Place, Diff, Luma, Run, Rgb, Rgba};
ghost use Rattle.qoi.specs.Qoi.{AreBytes, IsChunk, Reaches, bytes_of, chunk_bytes, chunk_max, default_header, end_marker, file, file_pixels, hash, header_bytes, header_of, IsValid, magic_bytes, marker_size, meaning, pixel, pixel_count, rgba, tried_header};
ghost use Rattle.qoi.specs.Errors.{IsIoError, IsReaderFault, IsErrorOfCut, IsErrorOfWrong};
ghost use Rattle.qoi.specs.Raw.{IsChannels, without_fourth, output, pixels_of, byte_count, image_byte_count, HasImageLength, capped_byte_count, HasChannels};
ghost use Rattle.qoi.specs.Verdicts.{IsWhole, IsCut, IsWrong};
ghost use Rattle.qoi.specs.Decoding.{least_byte_count, RefusesBuffer, RefusesBytes, RefusesTaken, RefusesTakenHeader};
ghost use Rattle.qoi.specs.DecoderState.{output_byte_count, TakesAtMost};
ghost use Rattle.qoi.specs.Encoded.{max_len, IsFileLength};
ghost use Rattle.qoi.specs.Regular.{Covers, Regular};
ghost use Rattle.qoi.specs.ErrorText.{printed};
ghost use Rattle.qoi.specs.Images.{BeginsWithFile};
ghost use Rattle.qoi.specs.Tiles.{AreFrames};

use qoi::laws::reading::frames_are_found;

/// The least and the greatest numbers in bytes and chunks, the lengths of the longest chunk and of
/// the end marker, regular lists, and pixels that begin with an image.
#[tactic(auto, unfolding(qoi::specs::Qoi::blank, qoi::specs::Qoi::hash))]
pub fn chunk_examples()
    ensures bytes { AreBytes (0 ∷ 255 ∷ []) }
    ensures no_byte { AreBytes (256 ∷ []) → ⊥ }
    ensures greatest_place { IsChunk (Place 63) }
    ensures no_place { IsChunk (Place 64) → ⊥ }
    ensures least_diff { IsChunk (Diff 0x40) }
    ensures greatest_diff { IsChunk (Diff 0x7f) }
    ensures no_diff { IsChunk (Diff 0x3f) → ⊥ }
    ensures no_diff_above { IsChunk (Diff 0x80) → ⊥ }
    ensures least_luma { IsChunk (Luma 0x80 0) }
    ensures greatest_luma { IsChunk (Luma 0xbf 255) }
    ensures no_luma { IsChunk (Luma 0x7f 0) → ⊥ }
    ensures no_luma_above { IsChunk (Luma 0xc0 0) → ⊥ }
    ensures no_second_byte { IsChunk (Luma 0x80 256) → ⊥ }
    ensures least_run { IsChunk (Run 1) }
    ensures greatest_run { IsChunk (Run 62) }
    ensures no_run { IsChunk (Run 0) → ⊥ }
    ensures no_run_above { IsChunk (Run 63) → ⊥ }
    ensures greatest_rgb { IsChunk (Rgb 255 255 255) }
    ensures no_red { IsChunk (Rgb 256 0 0) → ⊥ }
    ensures no_green { IsChunk (Rgb 0 256 0) → ⊥ }
    ensures no_blue { IsChunk (Rgb 0 0 256) → ⊥ }
    ensures greatest_rgba { IsChunk (Rgba 255 255 255 255) }
    ensures no_alpha { IsChunk (Rgba 0 0 0 256) → ⊥ }
    ensures longest_chunk { length (bytes_of (Rgba 1 2 3 4)) ≡ chunk_max }
    ensures marker_length { length end_marker ≡ marker_size }
    ensures named_there { Regular (Place 0 ∷ []) }
    ensures named_elsewhere { Regular (Place 1 ∷ []) → ⊥ }
    ensures begins { Covers (pixel 1 2 3 4 ∷ []) (Rgba 1 2 3 4 ∷ Rgba 5 6 7 8 ∷ []) }
    ensures begins_not { Covers (pixel 1 2 3 4 ∷ []) [] → ⊥ }
{}

/// What small lists of chunks mean, their bytes, and which numbers of pixels they reach.
#[tactic(auto, unfolding(qoi::specs::Qoi::start, qoi::specs::Qoi::blank, qoi::specs::Qoi::hash, qoi::specs::Qoi::after_diff, qoi::specs::Qoi::after_luma))]
pub fn worked_examples()
    ensures runs_bytes { chunk_bytes (Run 62 ∷ Run 1 ∷ Rgb 11 22 33 ∷ [])
        ≡ 0xfd ∷ 0xc0 ∷ 0xfe ∷ 0x0b ∷ 0x16 ∷ 0x21 ∷ [] }
    ensures runs_mean { meaning (Run 62 ∷ Run 1 ∷ Rgb 11 22 33 ∷ [])
        ≡ replicate 63 (pixel 0 0 0 255) ++ pixel 11 22 33 255 ∷ [] }
    ensures diff_wraps { meaning (Diff 0x47 ∷ []) ≡ pixel 254 255 1 255 ∷ [] }
    ensures diff_is_added { meaning (Rgba 10 20 30 40 ∷ Diff 0x47 ∷ [])
        ≡ pixel 10 20 30 40 ∷ pixel 8 19 31 40 ∷ [] }
    ensures luma_bytes { chunk_bytes (Diff 0x47 ∷ Luma 0xa0 0x7b ∷ []) ≡ 0x47 ∷ 0xa0 ∷ 0x7b ∷ [] }
    ensures luma_is_added { meaning (Rgba 10 20 30 40 ∷ Luma 0xa0 0x7b ∷ [])
        ≡ pixel 10 20 30 40 ∷ pixel 9 20 33 40 ∷ [] }
    ensures luma_least { meaning (Luma 0x80 0x88 ∷ []) ≡ pixel 224 224 224 255 ∷ [] }
    ensures luma_greatest { meaning (Luma 0xbf 0xff ∷ []) ≡ pixel 38 31 38 255 ∷ [] }
    ensures rgb_keeps_alpha { meaning (Rgba 1 2 3 4 ∷ Rgb 5 6 7 ∷ [])
        ≡ pixel 1 2 3 4 ∷ pixel 5 6 7 4 ∷ [] }
    ensures run_is_seen { meaning (Run 1 ∷ Rgb 101 102 103 ∷ Place 0x35 ∷ [])
        ≡ pixel 0 0 0 255 ∷ pixel 101 102 103 255 ∷ pixel 0 0 0 255 ∷ [] }
    ensures empty_place_is_seen { meaning (Rgba 64 0 0 0 ∷ Place 0x11 ∷ Place 0 ∷ [])
        ≡ pixel 64 0 0 0 ∷ pixel 0 0 0 0 ∷ pixel 0 0 0 0 ∷ [] }
    ensures last_seen_is_held { meaning (Run 1 ∷ Rgb 1 99 2 ∷ Rgb 1 2 3 ∷ Place 53 ∷ [])
        ≡ pixel 0 0 0 255 ∷ pixel 1 99 2 255 ∷ pixel 1 2 3 255 ∷ pixel 1 99 2 255 ∷ [] }
    ensures place_means_rgba { meaning (Rgba 101 102 103 104 ∷ Rgba 1 2 3 4 ∷ Place 0x36 ∷ [])
        ≡ pixel 101 102 103 104 ∷ pixel 1 2 3 4 ∷ pixel 101 102 103 104 ∷ [] }
    ensures place_bytes { chunk_bytes (Rgba 101 102 103 104 ∷ Rgba 1 2 3 4 ∷ Place 0x36 ∷ [])
        ≡ 0xff ∷ 0x65 ∷ 0x66 ∷ 0x67 ∷ 0x68 ∷ 0xff ∷ 0x01 ∷ 0x02 ∷ 0x03 ∷ 0x04 ∷ 0x36 ∷ [] }
    ensures hash_black { hash (pixel 0 0 0 255) ≡ 53 }
    ensures hash_rgba { hash (pixel 101 102 103 104) ≡ 54 }
    ensures hash_high { hash (pixel 251 252 253 255) ≡ 61 }
    ensures long_run_reaches { Reaches 4 (Run 62 ∷ []) }
    ensures too_few_pixels { Reaches 2 (Run 1 ∷ []) → ⊥ }
    ensures no_chunk_past_the_end { Reaches 1 (Run 1 ∷ Run 1 ∷ []) → ⊥ }
{}

/// Bytes that are read as a header, or refused, and a file.
#[tactic(auto, unfolding(qoi::specs::Qoi::start))]
pub fn file_examples()
    ensures largest_is_read { header_of (magic_bytes ++ 0 ∷ 0 ∷ 0x4e ∷ 0x20 ∷ 0 ∷ 0 ∷ 0x4e ∷ 0x20
        ∷ 4 ∷ 1 ∷ [])
        ≡ tried_header 20000 20000 Channels.Rgba ColorSpace.Linear }
    ensures most { header_of (magic_bytes ++ 0x17 ∷ 0xd7 ∷ 0x84 ∷ 0 ∷ 0 ∷ 0 ∷ 0 ∷ 1 ∷ 3 ∷ 0 ∷ [])
        ≡ Ok (record default_header { width = 400000000 }) }
    ensures one_too_many { header_of (magic_bytes ++ 0x17 ∷ 0xd7 ∷ 0x84 ∷ 1 ∷ 0 ∷ 0 ∷ 0 ∷ 1 ∷ 3
        ∷ 0 ∷ [])
        ≡ Err (Error.InvalidImageDimensions 400000001 1) }
    ensures length_first { header_of (replicate 13 0) ≡ Err Error.UnexpectedBufferEnd }
    ensures channels_second { header_of (0x71 ∷ 0x6f ∷ 0x69 ∷ 0x67 ∷ replicate 8 0 ++ 5 ∷ 2 ∷ [])
        ≡ Err (Error.InvalidChannels 5) }
    ensures color_space_third { header_of (0x71 ∷ 0x6f ∷ 0x69 ∷ 0x67 ∷ replicate 8 0 ++ 3 ∷ 2 ∷ [])
        ≡ Err (Error.InvalidColorSpace 2) }
    ensures magic_fourth { header_of (0x71 ∷ 0x6f ∷ 0x69 ∷ 0x67 ∷ replicate 8 0 ++ 3 ∷ 0 ∷ [])
        ≡ Err (Error.InvalidMagic 1903126887) }
    ensures file_of_one_pixel { file default_header (Rgb 11 121 231 ∷ [])
        ≡ header_bytes default_header
        ++ 0xfe ∷ 11 ∷ 121 ∷ 231 ∷ 0 ∷ 0 ∷ 0 ∷ 0 ∷ 0 ∷ 0 ∷ 0 ∷ 1 ∷ [] }
    ensures long_run_is_shortened { file_pixels (record default_header { width = 4 }) (Run 62 ∷ [])
        ≡ replicate 4 (pixel 0 0 0 255) }
{}

/// Raw bytes and their pixels.
pub fn raw_examples()
    ensures opaque_pixel { rgba (1 ∷ 2 ∷ 3 ∷ []) ≡ pixel 1 2 3 255 }
    ensures whole_pixel { rgba (1 ∷ 2 ∷ 3 ∷ 4 ∷ []) ≡ pixel 1 2 3 4 }
    ensures pixels_of_three { pixels_of 3 (1 ∷ 2 ∷ 3 ∷ 4 ∷ 5 ∷ 6 ∷ 7 ∷ [])
        ≡ pixel 1 2 3 255 ∷ pixel 4 5 6 255 ∷ [] }
    ensures pixels_of_four { pixels_of 4 (1 ∷ 2 ∷ 3 ∷ 4 ∷ 5 ∷ 6 ∷ 7 ∷ 8 ∷ [])
        ≡ pixel 1 2 3 4 ∷ pixel 5 6 7 8 ∷ [] }
    ensures fourths { without_fourth (1 ∷ 2 ∷ 3 ∷ 4 ∷ 5 ∷ 6 ∷ 7 ∷ 8 ∷ [])
        ≡ 1 ∷ 2 ∷ 3 ∷ 5 ∷ 6 ∷ 7 ∷ [] }
    ensures three_channels { IsChannels 3 }
    ensures four_channels { IsChannels 4 }
    ensures two_channels { IsChannels 2 → ⊥ }
    ensures five_channels { IsChannels 5 → ⊥ }
    ensures has_four { HasChannels (pixel 1 2 3 4 ∷ []) 4 }
    ensures has_three { HasChannels (pixel 1 2 3 255 ∷ []) 3 }
    ensures has_not_three { HasChannels (pixel 1 2 3 254 ∷ []) 3 → ⊥ }
    ensures length_is { HasImageLength 3 (1 ∷ 2 ∷ 3 ∷ []) }
    ensures length_is_not { HasImageLength 4 (1 ∷ 2 ∷ 3 ∷ []) → ⊥ }
    ensures length_is_less { HasImageLength 2 (1 ∷ 2 ∷ []) → ⊥ }
    ensures three_as_three { output 3 3 (pixel 1 2 3 4 ∷ []) ≡ 1 ∷ 2 ∷ 3 ∷ [] }
    ensures three_as_four { output 3 4 (pixel 1 2 3 4 ∷ []) ≡ 1 ∷ 2 ∷ 3 ∷ 255 ∷ [] }
    ensures four_as_four { output 4 4 (pixel 1 2 3 4 ∷ []) ≡ 1 ∷ 2 ∷ 3 ∷ 4 ∷ [] }
    ensures four_as_three { output 4 3 (pixel 1 2 3 4 ∷ []) ≡ 1 ∷ 2 ∷ 3 ∷ [] }
{}

/// Numbers of bytes, and the headers of images.
pub fn size_examples()
    ensures default_is { default_header
        ≡ record { width = 1; height = 1; channels = Channels.Rgb; colorspace = ColorSpace.Srgb } }
    ensures header_fields { header_bytes (record default_header { width = 258; height = 3 })
        ≡ 0x71 ∷ 0x6f ∷ 0x69 ∷ 0x66 ∷ 0 ∷ 0 ∷ 1 ∷ 2 ∷ 0 ∷ 0 ∷ 0 ∷ 3 ∷ 3 ∷ 0 ∷ [] }
    ensures one_pixel_is_valid { IsValid default_header }
    ensures no_pixel_is_not { IsValid (record default_header { height = 0 }) → ⊥ }
    ensures most_pixels_are_valid { IsValid (record default_header { width = 400000000 }) }
    ensures one_more_is_not { IsValid (record default_header { width = 400000001 }) → ⊥ }
    ensures larger_is_not_made { tried_header 400000001 1 Channels.Rgba ColorSpace.Linear
        ≡ Err (Error.InvalidImageDimensions 400000001 1) }
    ensures empty_is_not_made { tried_header 0 5 Channels.Rgba ColorSpace.Linear
        ≡ Err (Error.InvalidImageDimensions 0 5) }
    ensures bytes_in_four { byte_count (record default_header { width = 2; height = 3 }) 4 ≡ 24 }
    ensures image_bytes { image_byte_count (record default_header { width = 2; height = 3 }) ≡ 18 }
    ensures capped_bytes { capped_byte_count
        (record default_header { width = 4294967295; height = 4294967295 })
        ≡ 18446744073709551615 }
    ensures uncapped { capped_byte_count (record default_header { width = 2; height = 3 }) ≡ 18 }
    ensures uncapped_pixels { pixel_count
        (record default_header { width = 4294967295; height = 4294967295 })
        ≡ 18446744065119617025 }
    ensures longest_file { max_len 2 3 4 ≡ 52 }
    ensures longest_without_channels { max_len 1 1 0 ≡ 23 }
    ensures longest_without_pixels { max_len 0 5 3 ≡ 22 }
    ensures longest_of_all { max_len 20000 20000 4 ≡ 2000000022 }
    ensures capped_file { max_len 4294967295 4294967295 4 ≡ 18446744073709551615 }
    ensures uncapped_file { max_len 4294967295 4294967295 0 ≡ 18446744065119617047 }
    ensures shortest_file { IsFileLength default_header 23 }
    ensures too_short_file { IsFileLength default_header 22 → ⊥ }
    ensures longest_of_one { IsFileLength default_header 26 }
    ensures too_long_file { IsFileLength default_header 27 → ⊥ }
    ensures least_of_one_run { least_byte_count 62 ≡ 9 }
    ensures least_of_two_runs { least_byte_count 63 ≡ 10 }
    ensures buffer_too_small { RefusesBuffer 2 3 (Error.OutputBufferTooSmall 2 3) }
    ensures buffer_is_enough { RefusesBuffer 3 3 (Error.OutputBufferTooSmall 3 3) → ⊥ }
{}

/// What errors print.
pub fn text_examples()
    ensures magic { printed (Error.InvalidMagic 1903126887)
        ≡ Some (codes "invalid magic: expected 1903126886, got [113, 111, 105, 103]") }
    ensures channels { printed (Error.InvalidChannels 5)
        ≡ Some (codes "invalid number of channels: 5") }
    ensures color_space { printed (Error.InvalidColorSpace 2)
        ≡ Some (codes "invalid color space: 2 (expected 0 or 1)") }
    ensures dimensions { printed (Error.InvalidImageDimensions 0 5)
        ≡ Some (codes "invalid image dimensions: 0x5") }
    ensures image_length { printed (Error.InvalidImageLength 7 2 1)
        ≡ Some (codes "invalid image length: 7 bytes for 2x1") }
    ensures buffer { printed (Error.OutputBufferTooSmall 25 26)
        ≡ Some (codes "output buffer size too small: 25 (required: 26)") }
    ensures buffer_end { printed Error.UnexpectedBufferEnd
        ≡ Some (codes "unexpected input buffer end while decoding") }
    ensures padding { printed Error.InvalidPadding
        ≡ Some (codes "invalid padding (stream end marker mismatch)") }
    ensures memory { printed Error.OutOfMemory ≡ Some (codes "out of memory") }
{}

/// Verdicts on bytes after a header, such as a run of 1 and the end marker, and the refusals of
/// bytes.
pub fn verdict_examples()
    ensures whole { IsWhole 1 (0xc0 ∷ 0 ∷ 0 ∷ 0 ∷ 0 ∷ 0 ∷ 0 ∷ 0 ∷ 1 ∷ 7 ∷ []) (Run 1 ∷ [])
        (7 ∷ []) }
    ensures cut_in_marker { IsCut 1 (0xc0 ∷ replicate 7 0) (Run 1 ∷ []) (replicate 7 0) }
    ensures cut_in_chunk { IsCut 2 (0xc0 ∷ 0xfe ∷ 1 ∷ 2 ∷ []) (Run 1 ∷ []) (0xfe ∷ 1 ∷ 2 ∷ []) }
    ensures eight_are_not_cut { IsCut 1 (0xc0 ∷ replicate 8 0) (Run 1 ∷ []) (replicate 8 0) → ⊥ }
    ensures wrong { IsWrong 1 (0xc0 ∷ replicate 8 0 ++ 7 ∷ []) (Run 1 ∷ []) (replicate 8 0)
        (7 ∷ []) }
    ensures refuses_cut { RefusesBytes 1 [] Error.UnexpectedBufferEnd }
    ensures refuses_wrong { RefusesBytes 1 (0xc0 ∷ replicate 8 0) Error.InvalidPadding }
    ensures refuses_no_other { RefusesBytes 1 [] Error.OutOfMemory → ⊥ }
    ensures taken_cut { (e : Error) → IsIoError e → RefusesTaken 1 [] e }
    ensures taken_whole { (e : Error) → IsIoError e → RefusesTaken 1 (0xc0 ∷ end_marker) e → ⊥ }
    ensures taken_wrong { RefusesTaken 1 (0xc0 ∷ replicate 8 0) Error.InvalidPadding }
    ensures taken_past_wrong { RefusesTaken 1 (0xc0 ∷ replicate 9 0) Error.InvalidPadding → ⊥ }
    ensures marker_cut { RefusesBytes 0 (replicate 7 0) Error.UnexpectedBufferEnd }
    ensures marker_not_cut { RefusesBytes 0 (replicate 8 0) Error.UnexpectedBufferEnd → ⊥ }
    ensures marker_wrong { RefusesBytes 0 (replicate 8 0 ++ 7 ∷ []) Error.InvalidPadding }
    ensures taken_marker_cut { (e : Error) → IsIoError e → RefusesTaken 0 (replicate 7 0) e }
    ensures taken_marker_wrong { RefusesTaken 0 (replicate 8 0) Error.InvalidPadding }
    ensures taken_header_cut { (e : Error) → IsIoError e → RefusesTakenHeader (replicate 13 0) e }
    ensures taken_header_whole { (e : Error) → IsIoError e
        → RefusesTakenHeader (replicate 14 0) e → ⊥ }
    ensures taken_header { RefusesTakenHeader (replicate 14 0) (Error.InvalidChannels 0) }
    ensures taken_past_header { RefusesTakenHeader (replicate 15 0) (Error.InvalidChannels 0) → ⊥ }
{}

/// Which errors are those of a fault, of cut bytes and of wrong ones, in memory (`true`) and on a
/// stream.
pub fn error_examples()
    ensures other { IsIoError Error.OutOfMemory → ⊥ }
    ensures fault_in_memory { (e : Error) → IsReaderFault true e → ⊥ }
    ensures fault { (e : Error) → IsIoError e → IsReaderFault false e }
    ensures no_fault { IsReaderFault false Error.OutOfMemory → ⊥ }
    ensures cut_in_memory { IsErrorOfCut true Error.UnexpectedBufferEnd }
    ensures not_cut_in_memory { IsErrorOfCut true Error.InvalidPadding → ⊥ }
    ensures cut { (e : Error) → IsIoError e → IsErrorOfCut false e }
    ensures not_cut { IsErrorOfCut false Error.UnexpectedBufferEnd → ⊥ }
    ensures wrong_in_memory { IsErrorOfWrong true Error.InvalidPadding }
    ensures not_wrong_in_memory { IsErrorOfWrong true Error.UnexpectedBufferEnd → ⊥ }
    ensures wrong { IsErrorOfWrong false Error.InvalidPadding }
    ensures wrong_or_fault { (e : Error) → IsIoError e → IsErrorOfWrong false e }
    ensures not_wrong { IsErrorOfWrong false Error.UnexpectedBufferEnd → ⊥ }
{}

/// How many bytes a decoder gives for one pixel, and at most takes.
pub fn decoder_examples()
    ensures four { (reader : ℕ) → output_byte_count
        (record { reader = reader; header = default_header; channels = Channels.Rgba })
        ≡ 4 }
    ensures within { TakesAtMost 13 (Some (replicate 13 0)) (Some []) }
    ensures beyond { TakesAtMost 13 (Some (replicate 14 0)) (Some []) → ⊥ }
{}

/// Two files, of 23 and 26 bytes, and another byte: whatever frames are found there are these two.
pub fn frame_examples()
    ensures { (bytes ends : List ℕ) (found : List (List ℕ)) (at : ℕ)
        → bytes ≡ (file default_header (Run 1 ∷ [])
        ++ file default_header (Rgb 11 121 231 ∷ [])) ++ 7 ∷ []
        → AreFrames (take at bytes) ends found → (BeginsWithFile (drop at bytes) → ⊥)
        → (take at bytes ≡ file default_header (Run 1 ∷ [])
        ++ file default_header (Rgb 11 121 231 ∷ [])) × (ends ≡ 0 ∷ 23 ∷ [])
        × (found ≡ (0 ∷ 0 ∷ 0 ∷ []) ∷ (11 ∷ 121 ∷ 231 ∷ []) ∷ []) }
{
    frames_are_found();
}
