//! Laws of the chunk list that is written for an image. They compute whole images and files, so
//! they import types and variants besides the definitions.
ghost use Rattle.std.specs.Prelude.{◌≡◌, ◌↔◌, ℕ, ◌+◌, ◌*◌, ◌<◌, ◌≤◌, List, [], ◌∷◌, ◌++◌, length, replicate};
ghost use Rattle.std.specs.List.{AllByRecursion};
ghost use Rattle.qoi.specs.Qoi.{Chunk, Header, Channels, Place, Run, Rgb, Rgba, RgbaPixel, IsPixel, Past, default_header, pixel, seen, start, AreBytes, IsValid, chunk_bytes, file, meaning};
ghost use Rattle.qoi.specs.WrittenList.{written_list};
ghost use Rattle.qoi.specs.Encoded.{max_len, image_file, IsFileLength, IsFileOf};
ghost use Rattle.qoi.specs.Raw.{IsChannels, image_byte_count, output, pixels_of, HasChannels};
ghost use Rattle.qoi.specs.Regular.{Covers, Regular};
ghost use Rattle.qoi.specs.Shortest.{floor, slack};
ghost use Rattle.qoi.specs.Tight.{first_and_fresh, IsTightChoice, floor0};
ghost use Rattle.qoi.specs.Written.{WrittenBy, Written};
ghost use Rattle.qoi.specs.Styles.{Style, Reference, Places, Tight, in_style, WrittenIn};

/// An image has exactly one written list in each style: `written_list`.
pub fn written_is_one()
    ensures list { (style : Style) (image : List RgbaPixel) → AllByRecursion IsPixel image
        → WrittenIn style image (written_list style image) }
    ensures one { (style : Style) (image : List RgbaPixel) (cs ds : List Chunk)
        → WrittenIn style image cs → WrittenIn style image ds → cs ≡ ds }
{}

/// In style `Reference` the written list is that of `Written`; in style `Places` it is that list
/// with some runs of 1 replaced, and as long; in style `Tight` it is the list of the tight choices.
pub fn styles_are_written()
    ensures reference { (image : List RgbaPixel) (cs : List Chunk) → Written image cs
        ↔ WrittenIn Reference image cs }
    ensures places { (image : List RgbaPixel) (cs : List Chunk) → Written image cs
        → WrittenIn Places image (in_style Places cs) }
    ensures as_long { (image : List RgbaPixel) (cs ds : List Chunk) → Written image cs
        → WrittenIn Places image ds → length (chunk_bytes ds) ≡ length (chunk_bytes cs) }
    ensures tight { (image : List RgbaPixel) (cs : List Chunk) → WrittenBy IsTightChoice image cs
        ↔ WrittenIn Tight image cs }
{}

/// The pixels of raw bytes, three or four bytes each, meet `IsPixel`. They are opaque if three
/// bytes make one, and they give the bytes back.
pub fn bytes_are_pixels()
    ensures pixels { (channels : ℕ) (bytes : List ℕ) → IsChannels channels
        → AllByRecursion (λ b. b < 256) bytes
        → AllByRecursion IsPixel (pixels_of channels bytes) }
    ensures channels { (channels : ℕ) (bytes : List ℕ) → IsChannels channels
        → HasChannels (pixels_of channels bytes) channels }
    ensures count { (channels n : ℕ) (bytes : List ℕ) → IsChannels channels
        → length bytes ≡ channels * n
        → length (pixels_of channels bytes) ≡ n }
    ensures back { (channels n : ℕ) (bytes : List ℕ) → IsChannels channels
        → length bytes ≡ channels * n
        → output channels channels (pixels_of channels bytes) ≡ bytes }
{}

/// Raw bytes of a valid header's image have a file in each style: `image_file`.
pub fn images_have_files()
    ensures { (style : Style) (h : Header) (raw : List ℕ) → IsValid h
        → length raw ≡ image_byte_count h → AreBytes raw
        → IsFileOf style h raw (image_file style h raw) }
{}

/// No regular list whose pixels begin with those of an image has fewer bytes than the image's
/// floor. Neither the length of its runs nor what it gives past the image matters.
#[tactic(auto, using(crate::proofs::shortness::Lower::lower))]
pub fn none_is_shorter()
    ensures { (image : List RgbaPixel) (cs : List Chunk) → Covers image cs → Regular cs
        → floor image ≤ length (chunk_bytes cs) }
{}

/// The written list has at most the bytes of the floor and the slack.
pub fn written_is_short()
    ensures { (style : Style) (image : List RgbaPixel) (channels : ℕ) (cs : List Chunk)
        → HasChannels image channels → WrittenIn style image cs
        → length (chunk_bytes cs) ≤ floor image + slack image channels }
{}

/// An index position holds the same whether every pixel is put at its position, or only the first
/// one and each that differs from the pixel before it.
#[tactic(auto, using(crate::proofs::encoding::styles::TightChoice::seen_first_and_fresh))]
pub fn repeats_put_nothing()
    ensures { (past : Past) (i : ℕ) → seen (first_and_fresh past) i ≡ seen past i }
{}

/// In style `Tight` transparent black may be given by an index position where no pixel was put. No
/// chunk list at all whose pixels begin with those of an image has fewer bytes than the written
/// list.
pub fn tight_is_shortest()
    ensures exact { (image : List RgbaPixel) (cs : List Chunk) → WrittenIn Tight image cs
        → length (chunk_bytes cs) ≡ floor0 image }
    ensures shortest { (image : List RgbaPixel) (cs others : List Chunk) → WrittenIn Tight image cs
        → Covers image others → length (chunk_bytes cs) ≤ length (chunk_bytes others) }
    ensures floors { (image : List RgbaPixel) → floor0 image ≤ floor image }
{}

/// The slack is reached. Opaque black, a color and opaque black again are written in 9 bytes in
/// three channels and in 11 in four, and a regular list that names the index position of opaque
/// black has 6 and 7.
#[tactic(auto, using(crate::proofs::shortness::Reached::written_rgb, crate::proofs::shortness::Reached::written_rgba), unfolding(crate::specs::Qoi::start, crate::specs::Qoi::blank, crate::specs::Qoi::hash))]
pub fn slack_is_reached()
    ensures written_rgb { Written (start ∷ pixel 101 102 103 255 ∷ start ∷ [])
        (Run 1 ∷ Rgb 101 102 103 ∷ Rgb 0 0 0 ∷ []) }
    ensures regular_rgb { Regular (Run 1 ∷ Rgb 101 102 103 ∷ Place 53 ∷ []) }
    ensures meaning_rgb { meaning (Run 1 ∷ Rgb 101 102 103 ∷ Place 53 ∷ [])
        ≡ start ∷ pixel 101 102 103 255 ∷ start ∷ [] }
    ensures longer_rgb { length (chunk_bytes (Run 1 ∷ Rgb 101 102 103 ∷ Rgb 0 0 0 ∷ []))
        ≡ length (chunk_bytes (Run 1 ∷ Rgb 101 102 103 ∷ Place 53 ∷ [])) + 3 }
    ensures written_rgba { Written (start ∷ pixel 101 102 103 104 ∷ start ∷ [])
        (Run 1 ∷ Rgba 101 102 103 104 ∷ Rgba 0 0 0 255 ∷ []) }
    ensures regular_rgba { Regular (Run 1 ∷ Rgba 101 102 103 104 ∷ Place 53 ∷ []) }
    ensures meaning_rgba { meaning (Run 1 ∷ Rgba 101 102 103 104 ∷ Place 53 ∷ [])
        ≡ start ∷ pixel 101 102 103 104 ∷ start ∷ [] }
    ensures longer_rgba { length (chunk_bytes (Run 1 ∷ Rgba 101 102 103 104 ∷ Rgba 0 0 0 255 ∷ []))
        ≡ length (chunk_bytes (Run 1 ∷ Rgba 101 102 103 104 ∷ Place 53 ∷ [])) + 4 }
{}

/// Of 63 repeats 62 are the first run, and the one that is left the second; not the other way
/// round.
pub fn full_runs_come_first()
    ensures full_first { Written (replicate 63 (start)) (Run 62 ∷ Run 1 ∷ []) }
    ensures rest_first { Written (replicate 63 (start)) (Run 1 ∷ Run 62 ∷ []) → ⊥ }
{}

/// The file of an image has as many bytes as `IsFileLength` says, in each style.
pub fn files_have_their_length()
    ensures { (style : Style) (h : Header) (raw bytes : List ℕ) → IsFileOf style h raw bytes
        → IsFileLength h (length bytes) }
{}

/// The greatest length of a file is reached: one pixel that is written in full, in three channels
/// and in four.
#[tactic(auto, using(crate::proofs::shortness::Reached::one_rgb, crate::proofs::shortness::Reached::one_rgba))]
pub fn greatest_length_is_reached()
    ensures written_rgb { Written (pixel 11 121 231 255 ∷ []) (Rgb 11 121 231 ∷ []) }
    ensures length_rgb { length (file default_header (Rgb 11 121 231 ∷ [])) ≡ max_len 1 1 3 }
    ensures written_rgba { Written (pixel 11 121 231 55 ∷ []) (Rgba 11 121 231 55 ∷ []) }
    ensures length_rgba { length
        (file (record default_header { channels = Channels.Rgba }) (Rgba 11 121 231 55 ∷ []))
        ≡ max_len 1 1 4 }
{}
