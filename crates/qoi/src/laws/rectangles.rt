//! Laws on rows and rectangles of raw bytes: an image's, or any others of rows of one length.
#![tactic(auto, using(crate::proofs::format::RectangleLaws::rectangle_laws))]

ghost use Rattle.std.specs.Prelude.{◌≡◌, ℕ, ◌+◌, ◌-◌, ◌*◌, ◌<◌, ◌≤◌, List, ◌++◌, length, take, drop, slice_index};
ghost use Rattle.qoi.specs.Rectangles.{row_bytes, rectangle, with_tile, KeepsOutside};

/// The whole picture is a rectangle of itself, a row is a rectangle of one row, a rectangle of a
/// rectangle is one of the picture, and rows follow one another.
pub fn rectangles_are_parts()
    ensures whole { (stride rows : ℕ) (raw : List ℕ) → length raw ≡ stride * rows
        → rectangle stride 0 0 rows stride raw ≡ raw }
    ensures row { (stride k : ℕ) (raw : List ℕ) → rectangle stride k 0 1 stride raw
        ≡ row_bytes stride raw k }
    ensures inner { (stride top left rows size t l r s : ℕ) (raw : List ℕ)
        → left + size ≤ stride → stride * (top + rows) ≤ length raw → l + s ≤ size → t + r ≤ rows
        → rectangle size t l r s (rectangle stride top left rows size raw)
        ≡ rectangle stride (top + t) (left + l) r s raw }
    ensures follow { (stride top left m n size : ℕ) (raw : List ℕ)
        → rectangle stride top left (m + n) size raw
        ≡ rectangle stride top left m size raw ++ rectangle stride (top + m) left n size raw }
{}

/// A rectangle that lies within the picture: how many bytes it has (also within one of so many
/// rows), its rows, and its bytes.
pub fn rectangles_within()
    ensures size { (stride top left rows size : ℕ) (raw : List ℕ) → left + size ≤ stride
        → stride * (top + rows) ≤ length raw
        → length (rectangle stride top left rows size raw) ≡ size * rows }
    ensures size_in { (stride height top left rows size : ℕ) (raw : List ℕ)
        → length raw ≡ stride * height → top + rows ≤ height → left + size ≤ stride
        → length (rectangle stride top left rows size raw) ≡ size * rows }
    ensures row { (stride top left rows size i : ℕ) (raw : List ℕ) → left + size ≤ stride
        → stride * (top + rows) ≤ length raw → i < rows
        → row_bytes size (rectangle stride top left rows size raw) i
        ≡ take size (drop left (row_bytes stride raw (top + i))) }
    ensures byte { (stride top left rows size i j : ℕ) (raw : List ℕ) → left + size ≤ stride
        → stride * (top + rows) ≤ length raw → i < rows → j < size
        → slice_index (rectangle stride top left rows size raw) (size * i + j)
        ≡ slice_index raw (stride * (top + i) + left + j) }
{}

/// Rows that come one after the other: what follows k rows is row k, a rectangle of the rows that
/// came is one of the picture, and one row more adds its part. Of all rows that came, those from row
/// `top` on: row k is one of them, or comes before.
pub fn rows_that_come()
    ensures next { (stride k : ℕ) (raw given row : List ℕ) → length given ≡ stride * k
        → given ++ row ≡ take (length given + stride) raw → row ≡ row_bytes stride raw k }
    ensures first { (stride top left rows size : ℕ) (front more : List ℕ)
        → stride * (top + rows) ≤ length front
        → rectangle stride top left rows size (front ++ more)
        ≡ rectangle stride top left rows size front }
    ensures fits { (stride k rows : ℕ) → k < rows → stride * k + stride ≤ stride * rows }
    ensures front { (stride k : ℕ) (raw : List ℕ) → take (stride * (k + 1)) raw
        ≡ take (stride * k) raw ++ row_bytes stride raw k }
    ensures more { (stride top left rows size : ℕ) (raw : List ℕ)
        → rectangle stride top left (rows + 1) size raw
        ≡ rectangle stride top left rows size raw
        ++ take size (drop left (row_bytes stride raw (top + rows))) }
    ensures kept { (stride top left size k : ℕ) (raw : List ℕ) → top ≤ k
        → rectangle stride top left (k + 1 - top) size raw
        ≡ rectangle stride top left (k - top) size raw
        ++ take size (drop left (row_bytes stride raw k)) }
    ensures skipped { (stride top left size k : ℕ) (raw : List ℕ) → k < top
        → rectangle stride top left (k + 1 - top) size raw
        ≡ rectangle stride top left (k - top) size raw }
{}

/// Bytes that are put where the part of one more row stands: the rectangle holds them, and all
/// bytes outside of it stay. The rectangle and what is outside of it are the whole picture. A tile
/// that was put in row by row stands there, and all bytes outside of it stay. So does what stands
/// above a tile of whole rows.
pub fn rows_are_put()
    ensures put { (stride top left rows size : ℕ) (old new row : List ℕ) → left + size ≤ stride
        → stride * (top + rows) + stride ≤ length old → length row ≡ size
        → new ≡ take (stride * (top + rows) + left) old
        ++ (row ++ drop size (drop (stride * (top + rows) + left) old))
        → rectangle stride top left (rows + 1) size new
        ≡ rectangle stride top left rows size old ++ row }
    ensures stays { (stride top left rows size : ℕ) (start old new row : List ℕ)
        → left + size ≤ stride → stride * (top + rows) + stride ≤ length old → length row ≡ size
        → new ≡ take (stride * (top + rows) + left) old
        ++ (row ++ drop size (drop (stride * (top + rows) + left) old))
        → KeepsOutside stride top left rows size start old
        → KeepsOutside stride top left (rows + 1) size start new }
    ensures same { (stride top left rows size height : ℕ) (old new : List ℕ)
        → left + size ≤ stride → top + rows ≤ height → length old ≡ stride * height
        → KeepsOutside stride top left rows size old new
        → rectangle stride top left rows size new ≡ rectangle stride top left rows size old
        → new ≡ old }
    ensures all { (stride top left rows size : ℕ) (raw : List ℕ)
        → KeepsOutside stride top left rows size raw raw }
    ensures no_row { (stride top left size : ℕ) (tile raw : List ℕ)
        → with_tile stride top left 0 size tile raw ≡ raw }
    ensures next_row { (stride top left rows size : ℕ) (tile raw : List ℕ)
        → with_tile stride top left (rows + 1) size tile raw
        ≡ take (stride * (top + rows) + left) (with_tile stride top left rows size tile raw)
        ++ (row_bytes size tile rows ++ drop size (drop (stride * (top + rows) + left)
        (with_tile stride top left rows size tile raw))) }
    ensures tile { (stride top left rows size : ℕ) (tile raw : List ℕ) → left + size ≤ stride
        → stride * (top + rows) ≤ length raw → length tile ≡ size * rows
        → rectangle stride top left rows size (with_tile stride top left rows size tile raw)
        ≡ tile }
    ensures outside { (stride top left rows size : ℕ) (tile raw : List ℕ) → left + size ≤ stride
        → stride * (top + rows) ≤ length raw → length tile ≡ size * rows
        → KeepsOutside stride top left rows size raw
        (with_tile stride top left rows size tile raw) }
    ensures grow { (stride top rows : ℕ) (old new raw : List ℕ)
        → KeepsOutside stride top 0 rows stride old new
        → rectangle stride 0 0 top stride old ≡ rectangle stride 0 0 top stride raw
        → rectangle stride top 0 rows stride new ≡ rectangle stride top 0 rows stride raw
        → rectangle stride 0 0 (top + rows) stride new
        ≡ rectangle stride 0 0 (top + rows) stride raw }
{}
