//! Small examples of the definitions of the program, computed.
ghost use Rattle.std.specs.Prelude.{◌≡◌, ℕ, ◌++◌, List, [], ◌∷◌, codes, Some};
ghost use Rattle.qoi.specs.declared.error.Error.{Error};
ghost use Rattle.qoi.specs.declared.types.Channels.{Channels};
ghost use Rattle.qoi.specs.declared.types.ColorSpace.{ColorSpace};
ghost use Rattle.qoi.specs.declared.types.Style.{Style};
ghost use Rattle.qoi_tool.specs.declared.command.Command.TheVariants.{Decode, DecodeInto, Encode, Info};
ghost use Rattle.qoi_tool.specs.declared.Fault.{Fault};
ghost use Rattle.qoi_tool.specs.Words.{Asks, IsUsage, IsSide};
ghost use Rattle.qoi_tool.specs.Lines.{header_line};
ghost use Rattle.qoi_tool.specs.Faults.{status_of, fault_line};

/// What words ask for.
pub fn word_examples()
    ensures decode { Asks (codes "dec" ∷ []) Decode }
    ensures decode_rgb { Asks (codes "dec" ∷ codes "rgb" ∷ []) (DecodeInto Channels.Rgb) }
    ensures decode_rgba { Asks (codes "dec" ∷ codes "rgba" ∷ []) (DecodeInto Channels.Rgba) }
    ensures info { Asks (codes "info" ∷ []) Info }
    ensures encode { Asks (codes "enc" ∷ codes "2" ∷ codes "3" ∷ [])
        (Encode 2 3 ColorSpace.Srgb Style.Reference) }
    ensures linear_tight { Asks
        (codes "enc" ∷ codes "2" ∷ codes "3" ∷ codes "linear" ∷ codes "tight" ∷ [])
        (Encode 2 3 ColorSpace.Linear Style.Tight) }
    ensures linear_places { Asks
        (codes "enc" ∷ codes "2" ∷ codes "3" ∷ codes "linear" ∷ codes "places" ∷ [])
        (Encode 2 3 ColorSpace.Linear Style.Places) }
    ensures tight_linear { IsUsage
        (codes "enc" ∷ codes "2" ∷ codes "3" ∷ codes "tight" ∷ codes "linear" ∷ []) }
    ensures greatest_side { IsSide (codes "4294967295") 4294967295 }
    ensures no_side { (n : ℕ) → IsSide (codes "4294967296") n → ⊥ }
    ensures no_sign { (n : ℕ) → IsSide (codes "+1") n → ⊥ }
{}

/// The line of a header, and the status and the line of a fault.
pub fn line_examples()
    ensures one_pixel { header_line (record {
      width = 1;
      height = 1;
      channels = Channels.Rgb;
      colorspace = ColorSpace.Srgb;
    }) ≡ codes "1x1 channels 3 colorspace srgb" ++ 10 ∷ [] }
    ensures linear { header_line (record {
      width = 20000;
      height = 10;
      channels = Channels.Rgba;
      colorspace = ColorSpace.Linear;
    }) ≡ codes "20000x10 channels 4 colorspace linear" ++ 10 ∷ [] }
    ensures usage { status_of Fault.Usage ≡ 2 }
    ensures image { (e : Error) → status_of (Fault.Image e) ≡ 1 }
    ensures usage_line { fault_line Fault.Usage ≡ Some (codes
        "usage: qoi_tool dec [rgb|rgba] | enc W H [linear] [places|tight] | info" ++ 10 ∷ []) }
    ensures error_line { fault_line (Fault.Image (Error.InvalidChannels 5))
        ≡ Some (codes "qoi_tool: invalid number of channels: 5" ++ 10 ∷ []) }
{}
