//! The words that the program is called with.
ghost use Rattle.std.specs.Prelude.{◌≡◌, ◌≢◌, ℕ, ◌++◌, MatchOption, map};
ghost use Rattle.std.specs.String.{string_bytes};
ghost use Rattle.qoi_tool.specs.Words.{Asks, IsUsage, IsSide, channels_word, space_words, style_words};

use qoi::{Channels, ColorSpace, Style};

/// What the words ask for.
#[derive(Clone, Copy)]
pub enum Command {
    /// Decode a file into its raw bytes, in the file's own channels.
    Decode,
    /// Decode a file into its raw bytes, in these channels.
    DecodeInto(Channels),
    /// Encode the raw bytes of an image of this width and height in pixels, with this color space
    /// and in this style.
    Encode(u32, u32, ColorSpace, Style),
    /// Tell what the header of a file says.
    Info,
}

/// The command of the words, if they are those of one.
pub fn command_of(words: &[String]) -> Option<Command>
    ensures { MatchOption result (IsUsage (map string_bytes words.now))
        (Asks (map string_bytes words.now)) }
{
    match words {
        [word] if word.as_str() == "dec" => Some(Command::Decode),
        [word, channels] if word.as_str() == "dec" => {
            Some(Command::DecodeInto(channels_of(channels.as_str())?))
        }
        [word, width, height, options @ ..] if word.as_str() == "enc" => {
            let width = side_of(width.as_str())?;
            let height = side_of(height.as_str())?;
            let (space, style) = options_of(options)?;
            Some(Command::Encode(width, height, space, style))
        }
        [word] if word.as_str() == "info" => Some(Command::Info),
        _ => None,
    }
}

// The channels of their word.
fn channels_of(word: &str) -> Option<Channels>
    ensures { MatchOption result ((channels : Channels) → word.now ≢ channels_word channels)
        (λ channels. word.now ≡ channels_word channels) }
{
    match word {
        "rgb" => Some(Channels::Rgb),
        "rgba" => Some(Channels::Rgba),
        _ => None,
    }
}

// The color space and the style of the options of `enc`.
fn options_of(options: &[String]) -> Option<(ColorSpace, Style)>
    ensures { MatchOption result
        ((space : ColorSpace) (style : Style)
        → map string_bytes options.now ≢ space_words space ++ style_words style)
        (λ both. map string_bytes options.now ≡ space_words both.0 ++ style_words both.1) }
{
    match options {
        [option, rest @ ..] if option.as_str() == "linear" => {
            Some((ColorSpace::Linear, style_of(rest)?))
        }
        _ => Some((ColorSpace::Srgb, style_of(options)?)),
    }
}

// The style of the options after the color space.
fn style_of(options: &[String]) -> Option<Style>
    ensures { MatchOption result
        ((style : Style) → map string_bytes options.now ≢ style_words style)
        (λ style. map string_bytes options.now ≡ style_words style) }
{
    match options {
        [] => Some(Style::Reference),
        [option] if option.as_str() == "places" => Some(Style::Places),
        [option] if option.as_str() == "tight" => Some(Style::Tight),
        _ => None,
    }
}

// The number of a word that has digits alone, if it is at most 4,294,967,295.
fn side_of(word: &str) -> Option<u32>
    ensures { MatchOption result ((n : ℕ) → IsSide word.now n → ⊥) (IsSide word.now) }
{
    if word.as_bytes().first() == Some(&b'+') {
        return None;
    }
    word.parse::<u32>().ok()
}
