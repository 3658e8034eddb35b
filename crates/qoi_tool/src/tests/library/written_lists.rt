//! Small examples of definitions of what is written, for what no law fixes. The prover computes them.
ghost use Rattle.std.specs.Prelude.{◌≡◌, ℕ, ◌++◌, [], ◌∷◌, replicate, Err, Some, Option, List, map, None};
ghost use Rattle.qoi.specs.declared.error.Error.{Error};
ghost use Rattle.qoi.specs.declared.types.Channels.{Channels};
ghost use Rattle.qoi.specs.declared.types.ColorSpace.{ColorSpace};
ghost use Rattle.qoi.specs.declared.chunk.Chunk.TheVariants.{Place, Run, Rgb, Rgba};
ghost use Rattle.qoi.specs.Qoi.{default_header, hash, pixel, tried_header, RgbaPixel, blank, start};
ghost use Rattle.qoi.specs.Runs.{IsCount};
ghost use Rattle.qoi.specs.Written.{fresh, noted};
ghost use Rattle.qoi.specs.Writers.{AppendsBeginning, StandsAfter};
ghost use Rattle.qoi.specs.Encoded.{image_file, image_header, OpensBlack};
ghost use Rattle.qoi.specs.Sent.{SendsSomeFile};
ghost use Rattle.std.specs.List.{range_with_len};
ghost use Rattle.qoi.specs.declared.types.Style.TheVariants.{Places, Reference};
ghost use Rattle.qoi.specs.declared.types.Style.{Style};
ghost use Rattle.qoi.specs.Shortest.{floor, slack};
ghost use Rattle.qoi.specs.Tight.{floor0, least_unseen};
ghost use Rattle.qoi.specs.Styles.{in_style};

/// The headers of raw bytes, and images that open with opaque black.
#[tactic(auto, unfolding(qoi::specs::Qoi::start, qoi::specs::Qoi::pixel_eq))]
pub fn image_examples()
    ensures three_bytes_a_pixel { image_header (replicate 6 0) 2 1
        ≡ tried_header 2 1 Channels.Rgb ColorSpace.Srgb }
    ensures four_bytes_a_pixel { image_header (replicate 8 0) 1 2
        ≡ tried_header 1 2 Channels.Rgba ColorSpace.Srgb }
    ensures no_whole_number { image_header (replicate 7 0) 2 1
        ≡ Err (Error.InvalidImageLength 7 2 1) }
    ensures no_bytes { image_header [] 1 1 ≡ Err (Error.InvalidChannels 0) }
    ensures five_bytes { image_header (replicate 5 0) 1 1 ≡ Err (Error.InvalidChannels 5) }
    ensures capped_channels { image_header (replicate 300 0) 1 1 ≡ Err (Error.InvalidChannels 255) }
    ensures uncapped_channels { image_header (replicate 254 0) 1 1
        ≡ Err (Error.InvalidChannels 254) }
    ensures dimensions_first { image_header (replicate 7 0) 0 5
        ≡ Err (Error.InvalidImageDimensions 0 5) }
    ensures opens_black { OpensBlack (pixel 0 0 0 255 ∷ pixel 1 2 3 255 ∷ []) }
    ensures opens_with_color { OpensBlack (pixel 1 2 3 255 ∷ pixel 0 0 0 255 ∷ []) → ⊥ }
    ensures opens_transparent { OpensBlack (pixel 0 0 0 0 ∷ []) → ⊥ }
    ensures no_pixel { OpensBlack [] → ⊥ }
{}

/// Repeats and fresh pixels, and bytes that are written after others.
#[tactic(auto, unfolding(qoi::specs::Qoi::pixel_eq, qoi::specs::Qoi::start, qoi::specs::Qoi::blank, qoi::specs::Qoi::hash))]
pub fn writing_examples()
    ensures count { IsCount (pixel 1 2 3 4) (pixel 1 2 3 4 ∷ pixel 1 2 3 4 ∷ pixel 1 2 3 5 ∷ []) 2 }
    ensures count_to_the_end { IsCount (pixel 1 2 3 4) (pixel 1 2 3 4 ∷ []) 1 }
    ensures fresh_pixels { fresh (pixel 1 2 3 255 ∷ pixel 1 2 3 255 ∷ pixel 0 0 0 255 ∷ [])
        ≡ pixel 1 2 3 255 ∷ [] }
    ensures repeat_is_not_noted { noted (pixel 0 0 0 255 ∷ []) 53 ≡ pixel 0 0 0 0 }
    ensures fresh_is_noted { noted (pixel 1 99 2 255 ∷ []) 53 ≡ pixel 1 99 2 255 }
    ensures stands_after { StandsAfter (1 ∷ 2 ∷ 3 ∷ 4 ∷ []) 1 (9 ∷ 8 ∷ [])
        (1 ∷ 9 ∷ 8 ∷ 4 ∷ []) 3 }
    ensures beginning { AppendsBeginning (Some (1 ∷ [])) (Some (1 ∷ 2 ∷ [])) (2 ∷ 3 ∷ []) }
{}

/// The file of some image: its header is valid, and it has as many raw bytes, below 256.
pub fn sent_examples()
    ensures some { SendsSomeFile Reference default_header (Some [])
        (Some (image_file Reference default_header (11 ∷ 121 ∷ 231 ∷ []))) }
    ensures no_pixels { (style : Style) (old new : Option (List ℕ))
        → SendsSomeFile style (record default_header { width = 0; height = 0 }) old new → ⊥ }
    ensures no_byte { SendsSomeFile Reference default_header (Some [])
        (Some (image_file Reference default_header (256 ∷ 0 ∷ 0 ∷ []))) → ⊥ }
{}

/// The lists of style `Places` for the written lists of a few images.
#[tactic(auto, unfolding(qoi::specs::Qoi::pixel_eq, qoi::specs::Qoi::start, qoi::specs::Qoi::blank, qoi::specs::Qoi::hash, qoi::specs::Qoi::after_diff, qoi::specs::Qoi::after_luma))]
pub fn places_examples()
    ensures single { in_style Places (Rgb 101 102 103 ∷ Run 1 ∷ Rgb 1 2 3 ∷ [])
        ≡ Rgb 101 102 103 ∷ Place 51 ∷ Rgb 1 2 3 ∷ [] }
    ensures after_its_place { in_style Places
        (Rgb 101 102 103 ∷ Rgb 1 2 3 ∷ Place 51 ∷ Run 1 ∷ Place 23 ∷ [])
        ≡ Rgb 101 102 103 ∷ Rgb 1 2 3 ∷ Place 51 ∷ Run 1 ∷ Place 23 ∷ [] }
    ensures after_a_full_run { in_style Places (Rgb 101 102 103 ∷ Run 62 ∷ Run 1 ∷ Rgb 1 2 3 ∷ [])
        ≡ Rgb 101 102 103 ∷ Run 62 ∷ Place 51 ∷ Rgb 1 2 3 ∷ [] }
    ensures two { in_style Places (Rgb 101 102 103 ∷ Run 2 ∷ Rgb 1 2 3 ∷ [])
        ≡ Rgb 101 102 103 ∷ Run 2 ∷ Rgb 1 2 3 ∷ [] }
    ensures after_repeats { in_style Places (Run 62 ∷ Run 1 ∷ Rgb 101 102 103 ∷ [])
        ≡ Run 62 ∷ Run 1 ∷ Rgb 101 102 103 ∷ [] }
    ensures at_the_end { in_style Places (Rgb 101 102 103 ∷ Run 1 ∷ [])
        ≡ Rgb 101 102 103 ∷ Run 1 ∷ [] }
    ensures at_the_start { in_style Places (Run 1 ∷ Rgb 101 102 103 ∷ [])
        ≡ Run 1 ∷ Rgb 101 102 103 ∷ [] }
    ensures blank { in_style Places (Place 0 ∷ Run 1 ∷ Rgba 1 2 3 4 ∷ [])
        ≡ Place 0 ∷ Run 1 ∷ Rgba 1 2 3 4 ∷ [] }
{}

/// The floors and the slack of a few images, and the least index position where no pixel was put.
pub fn shortest_examples()
    ensures black_again_rgb { (P : List RgbaPixel) → P ≡ start ∷ pixel 101 102 103 255 ∷ start ∷ []
        → (floor0 P ≡ 6) × (floor P ≡ 6) × (slack P 3 ≡ 3) }
    ensures black_again_rgba { (P : List RgbaPixel) → P ≡ start ∷ pixel 101 102 103 104 ∷ start ∷ []
        → (floor0 P ≡ 7) × (floor P ≡ 7) × (slack P 4 ≡ 4) }
    ensures black_overwritten { (P : List RgbaPixel) → P ≡ start ∷ pixel 1 99 2 255 ∷ start ∷ []
        → (floor0 P ≡ 9) × (floor P ≡ 9) × (slack P 3 ≡ 0) }
    ensures black_back_and_forth { floor (start ∷ pixel 101 102 103 255 ∷ start
        ∷ pixel 101 102 103 255 ∷ start ∷ []) ≡ 8 }
    ensures black_twice { floor (start ∷ start ∷ []) ≡ 1 }
    ensures black_many { floor (replicate 63 start ++ pixel 101 102 103 104 ∷ start ∷ []) ≡ 8 }
    ensures blank_without_place { (P : List RgbaPixel)
        → P ≡ pixel 64 0 0 0 ∷ blank ∷ pixel 64 0 0 0 ∷ blank ∷ []
        → (floor0 P ≡ 11) × (floor P ≡ 17) }
    ensures opens_with_color { slack (pixel 101 102 103 255 ∷ start ∷ []) 3 ≡ 0 }
    ensures first_unseen { least_unseen [] ≡ Some 0 }
    ensures next_unseen { least_unseen (pixel 64 0 0 0 ∷ []) ≡ Some 1 }
    ensures none_unseen { least_unseen (map (λ r. pixel r 0 0 0) (range_with_len 0 64)) ≡ None }
{}
